ghost use Rattle.std.specs.Prelude.{◌≡◌, ℕ, ◌<◌, ◌∷◌, [], IfOk, IfSome, OnOk, length};
ghost use Rattle.route_tables.specs.Lanes.{DecidesFor};
ghost use Rattle.route_tables.specs.Prefixes.{prefix_at};
ghost use Rattle.walk_core.specs.Reach.{listed_hops_of};
ghost use Rattle.route_tables.specs.Routings.{AreHopsTo, HasZoneTarget, IsEntryTo, Makes};
ghost use Rattle.route_tables.specs.steps.Kinds.{IsToldBehind, IsToldLane};
ghost use Rattle.route_tables.specs.steps.Sharing.{AreHopsToEither, AreOverOne, HasNumber, HasSomeNumber, IsEntryToEither, IsNumberOf, IsRouterLane};
ghost use Rattle.route_tables.specs.steps.Sharing.{KeepsMore};
ghost use Rattle.route_core.specs.declared.entry.Entry.TheVariants.{Via};

use crate::OutOfMemory;
use crate::kinds::LaneKinds;
use crate::lane::{Behind, Decision};
use crate::pool::Pool;
use crate::protocol::Protocol;
use crate::route::Route;
use route_core::{Entry, Hops, Number};
use std::alloc::Global;
use walk_core::{LeastWalks, push_below, put_in_order};

/// A router's lane: the router, how many there are, the place of the first prefix of each kind, and what decides for each
/// kind and behind that, each with the router's least walks of the zone over which it decides, where these are known.
#[derive(Clone, Copy, Debug)]
pub(crate) struct RouterLane<'a> {
    pub(crate) router: u32,
    pub(crate) count: u32,
    pub(crate) walks: Option<&'a LeastWalks>,
    pub(crate) decisions: &'a [Decision],
    pub(crate) walks_behind: Option<&'a LeastWalks>,
    pub(crate) behind: &'a [Behind],
    pub(crate) firsts: &'a [u32],
}

/// A router's lane, which has this number and these kinds.
pub(crate) fn router_lane<'a, P: Protocol>(
    protocol: &'a P,
    router: u32,
    lane: usize,
    own: &'a LaneKinds,
) -> RouterLane<'a>
    requires router { router < (P.routes protocol.now).routers }
    requires lane { lane < P.lanes protocol.now }
    requires in_lane { (P.routes protocol.now).in_lane lane router }
    requires told { IsToldLane (DecidesFor (P.routes protocol.now) lane) (P.candidates protocol.now) own.now }
    requires behind { IsToldBehind (P.routes protocol.now) lane (P.candidates protocol.now) own.now.firsts.items own.now.behind }
    ensures lane { IsRouterLane (P.routes protocol.now) (P.candidates protocol.now) result }
    ensures router { result.router ≡ router }
    ensures firsts { result.firsts.now ≡ own.now.firsts.items }
{
    RouterLane {
        router,
        count: protocol.routers(),
        walks: zone_walks(protocol, router, protocol.zone_of_lane(lane)),
        decisions: own.decisions.as_slice(),
        walks_behind: zone_walks(protocol, router, own.behind.zone),
        behind: own.behind.decisions.as_slice(),
        firsts: own.firsts.as_slice(),
    }
}

/// The least walks of a router in a zone, where one is known.
fn zone_walks<P: Protocol>(protocol: &P, router: u32, zone: Option<usize>) -> Option<&LeastWalks>
    requires router { router < (P.routes protocol.now).routers }
    requires zone { IfSome zone (λ known. known < (P.routes protocol.now).zones) }
    ensures { (number : ℕ) → IfSome zone (λ known. known ≡ number) →
        IfSome result (λ walks. walks.now ≡ (P.routes protocol.now).reach router number) }
{
    Some(protocol.walks(router, zone?))
}

/// The number of the entry for the prefix at a place, where it has one: that of its route's entry.
#[inline(never)]
pub(crate) fn number_asked<P: Protocol>(
    alloc: Global,
    protocol: &P,
    router: u32,
    pool: &mut Pool,
    place: usize,
) -> Result<Number, OutOfMemory>
    requires router { router < (P.routes protocol.now).routers }
    requires place { place < length (P.candidates protocol.now) }
    requires single { AreOverOne (P.routes protocol.now).routers pool.old.entries.items }
    ensures kept { OnOk result (KeepsMore pool.old pool.new) }
    ensures number { IfOk result (IsNumberOf ((P.routes protocol.now).entry router
        (prefix_at (P.candidates protocol.now) place)) pool.new.entries.items) }
{
    match protocol.route(alloc, place, router)? {
        Some(route) => number_of(alloc, protocol, router, pool, route),
        None => Ok(Number::none()),
    }
}

/// The number of a route's entry, which is kept now or was before.
#[inline(never)]
fn number_of<P: Protocol>(
    alloc: Global,
    protocol: &P,
    router: u32,
    pool: &mut Pool,
    route: Route,
) -> Result<Number, OutOfMemory>
    requires router { router < (P.routes protocol.now).routers }
    requires target { HasZoneTarget ((P.routes protocol.now).reach router) (P.routes protocol.now).zones route }
    requires single { AreOverOne (P.routes protocol.now).routers pool.old.entries.items }
    ensures kept { OnOk result (KeepsMore pool.old pool.new) }
    ensures number { IfOk result (HasSomeNumber (Makes ((P.routes protocol.now).reach router)
        (P.routes protocol.now).routers route) pool.new.entries.items) }
{
    match route {
        Route::Drops => Number::of(pool.keep(Entry::Discard)?),
        Route::Towards(target) => {
            let walks = protocol.walks(router, target.zone);
            number_towards(alloc, walks, target.at, protocol.routers(), pool)
        }
        Route::Through(hops) => {
            let number = number_through(alloc, hops.as_slice(), protocol.routers(), pool)?;
            Number::of(number)
        }
    }
}

/// The number of the entry towards a router: that of its one first hop, where it has one alone, else that over all of them
/// below `count`.
#[inline(always)]
fn number_towards(
    alloc: Global,
    walks: &LeastWalks,
    at: u32,
    count: u32,
    pool: &mut Pool,
) -> Result<Number, OutOfMemory>
    requires { AreOverOne count pool.old.entries.items }
    ensures kept { OnOk result (KeepsMore pool.old pool.new) }
    ensures number { IfOk result (HasSomeNumber (IsEntryTo walks.now at count) pool.new.entries.items) }
{
    match only_hop(walks, at) {
        Some(hop) if hop < count => Number::of(hop),
        _ => Number::of(number_over(alloc, walks, at, count, pool)?),
    }
}

/// The first hop towards a vertex, where there is one alone.
#[inline(always)]
fn only_hop(walks: &LeastWalks, at: u32) -> Option<u32>
    ensures { IfSome result (λ hop. listed_hops_of walks.now at ≡ hop ∷ []) }
{
    match walks.hops_to(at) {
        [hop] => Some(*hop),
        _ => None,
    }
}

/// The number of the entry over the first hops below `count` towards a router.
#[inline(never)]
pub(crate) fn number_over(
    alloc: Global,
    walks: &LeastWalks,
    at: u32,
    count: u32,
    pool: &mut Pool,
) -> Result<u32, OutOfMemory>
    requires { AreOverOne count pool.old.entries.items }
    ensures kept { OnOk result (KeepsMore pool.old pool.new) }
    ensures number { IfOk result (HasNumber (IsEntryTo walks.now at count) pool.new.entries.items) }
{
    number_through(alloc, hops_towards(walks, at, count), count, pool)
}

/// The vertices that make two offers.
#[derive(Clone, Copy, Debug)]
pub(crate) struct TwoMakers {
    pub(crate) one: u32,
    pub(crate) other: u32,
}

/// The number of the entry over the first hops below `count` towards the makers of two offers.
#[inline(never)]
pub(crate) fn number_over_both(
    alloc: Global,
    walks: &LeastWalks,
    makers: TwoMakers,
    count: u32,
    pool: &mut Pool,
) -> Result<Number, OutOfMemory>
    requires { AreOverOne count pool.old.entries.items }
    ensures kept { OnOk result (KeepsMore pool.old pool.new) }
    ensures number { IfOk result (HasSomeNumber (IsEntryToEither walks.now makers count) pool.new.entries.items) }
{
    let mut hops = pool.take_room(alloc);
    find_either(&mut hops, walks, makers, count)?;
    let number = number_through(alloc, hops.as_slice(), count, pool)?;
    pool.give_back(hops);
    Number::of(number)
}

/// Finds the first hops below `count` towards the makers of two offers.
fn find_either(
    hops: &mut Vec<u32>,
    walks: &LeastWalks,
    makers: TwoMakers,
    count: u32,
) -> Result<(), OutOfMemory>
    ensures { OnOk result (AreHopsToEither walks.now makers count hops.new.items) }
{
    hops.clear();
    push_below(hops, walks.hops_to(makers.one), count)?;
    push_below(hops, walks.hops_to(makers.other), count)?;
    put_in_order(hops);
    Ok(())
}

/// The number of the entry over these hops: that of one that is kept, else that of a new one.
fn number_through(
    alloc: Global,
    hops: &[u32],
    count: u32,
    pool: &mut Pool,
) -> Result<u32, OutOfMemory>
    requires { AreOverOne count pool.old.entries.items }
    ensures kept { OnOk result (KeepsMore pool.old pool.new) }
    ensures number { IfOk result (HasNumber (λ entry. entry ≡ Via hops.now) pool.new.entries.items) }
{
    match number_kept(pool, hops, count) {
        Some(number) => Ok(number),
        None => {
            let hops = Vec::from_slice(alloc, hops)?;
            pool.keep(Entry::Via(Hops::from_vec(hops)))
        }
    }
}

/// The number of an entry over these hops that is kept, where there is one: that of a hop alone is the hop.
fn number_kept(pool: &Pool, hops: &[u32], count: u32) -> Option<u32>
    requires { AreOverOne count pool.now.entries.items }
    ensures { IfSome result (HasNumber (λ entry. entry ≡ Via hops.now) pool.now.entries.items) }
{
    match hops {
        [hop] if *hop < count => Some(*hop),
        _ => pool.find(hops),
    }
}

/// The first hops below `count` towards a router, which come first among all of them.
fn hops_towards(walks: &LeastWalks, at: u32, count: u32) -> &[u32]
    ensures { AreHopsTo walks.now at count result.now }
{
    let hops = walks.hops_to(at);
    let (below, _) = hops.split_at(hops.partition_point(|hop| *hop < count));
    below
}
