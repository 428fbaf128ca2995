ghost use Rattle.std.specs.Prelude.{◌≡◌, ◌<◌, ℕ, length, All, Contains, IfOk, IfSome, OnOk, map};
ghost use Rattle.net_addr.specs.Addresses.{Block};
ghost use Rattle.route_core.specs.declared.entry.Entry.{Entry as EntryValue};
ghost use Rattle.route_core.specs.Rows.{IsTable, listed};
ghost use Rattle.route_tables.specs.Entries.{IsLawful};
ghost use Rattle.route_tables.specs.steps.Entries.{AreSameEntries, AreTablesBelow};
ghost use Rattle.route_tables.specs.Prefixes.{AreDistinctPrefixes};
ghost use Rattle.route_tables.specs.steps.Kinds.{AreLaneKinds, first_prefix_of};
ghost use Rattle.route_tables.specs.steps.Leads.{AreLaneLeads};
ghost use Rattle.route_tables.specs.steps.Told.{IsToldOfKind};
ghost use Rattle.route_tables.specs.steps.Sharing.{AreNumbers, AreOverOne, AreRouterNumbers, IsNumberOf, IsRouterLane};
ghost use Rattle.route_tables.specs.steps.Sharing.{KeepsMore, kept_with};

use crate::OutOfMemory;
use crate::kinds::{LaneKinds, all_kinds};
use crate::leads::{Lead, leads_of, level_makers, told, told_behind};
use crate::pool::Pool;
use crate::protocol::Protocol;
use crate::sharing::{RouterLane, number_asked, number_over_both, router_lane};
use net_addr::Prefix;
use route_core::{Entry, Number, Table};
use std::alloc::Global;
use std::rc::Rc;

/// The numbers of a router's entries, while the entries of other tables still come: the kinds of the prefixes in its lane,
/// and of each kind the number.
#[derive(Debug, Drop)]
struct RouterNumbers {
    kinds: Rc<Vec<u32>>,
    numbers: Vec<Number>,
}

/// The tables of all routers.
pub(crate) fn all_tables<P: Protocol>(
    alloc: Global,
    protocol: &P,
) -> Result<Vec<Table>, OutOfMemory>
    ensures tables { IfOk result (λ tables. AreTablesBelow (P.routes protocol.now).entry
        (P.routes protocol.now).routers (map listed tables.items)) }
    ensures prefixes { IfOk result (λ tables. All (λ kept. kept.prefixes ≡ P.candidates protocol.now) tables.items) }
    ensures lawful { IsLawful (P.routes protocol.now).routers (P.routes protocol.now).entry
        (P.neighbor protocol.now) }
{
    let routers = protocol.routers();
    let prefixes = prefixes_of(alloc, protocol)?;
    let lanes = all_kinds(alloc, protocol)?;
    let mut pool = Pool::over_each(alloc, routers)?;
    let mut all = Vec::with_capacity(alloc, routers as usize)?;
    for router in 0..routers {
        let lane = protocol.lane(router);
        let own = &lanes[lane];
        let lane = router_lane(protocol, router, lane, own);
        let numbers = router_numbers(alloc, protocol, own, lane, &mut pool)?;
        all.push(numbers)?;
    }
    tables_over(alloc, prefixes, pool.entries, all)
}

/// The prefixes that the protocol may have entries for.
fn prefixes_of<P: Protocol>(alloc: Global, protocol: &P) -> Result<Vec<Prefix>, OutOfMemory>
    ensures prefixes { IfOk result (λ prefixes. prefixes.items ≡ P.candidates protocol.now) }
    ensures distinct { AreDistinctPrefixes (P.candidates protocol.now) }
    ensures every { (u : ℕ) (p : Block) (e : EntryValue) → u < (P.routes protocol.now).routers →
        (P.routes protocol.now).entry u p e → Contains (P.candidates protocol.now) p }
{
    let mut prefixes = Vec::with_capacity(alloc, protocol.candidates())?;
    for place in 0..protocol.candidates() {
        prefixes.push(protocol.candidate(place))?;
    }
    Ok(prefixes)
}

/// The tables with these numbers, which share the prefixes and the entries.
fn tables_over(
    alloc: Global,
    prefixes: Vec<Prefix>,
    entries: Vec<Entry>,
    all: Vec<RouterNumbers>,
) -> Result<Vec<Table>, OutOfMemory>
    requires { All (λ own. IsTable (kept_with prefixes.items entries.items own)) all.items }
    ensures { IfOk result (λ tables. tables.items ≡ map (kept_with prefixes.items entries.items) all.items) }
{
    let mut entries = entries;
    entries.shrink_to_fit();
    let prefixes = Rc::new(alloc, prefixes)?;
    let entries = Rc::new(alloc, entries)?;
    let mut tables = Vec::with_capacity(alloc, all.len())?;
    for own in all {
        let RouterNumbers { kinds, numbers } = own;
        tables.push(Table::of_kinds(&prefixes, &kinds, &entries, numbers)?)?;
    }
    Ok(tables)
}

/// The numbers of a router's entries, of which its lane has these kinds.
fn router_numbers<P: Protocol>(
    alloc: Global,
    protocol: &P,
    own: &LaneKinds,
    lane: RouterLane<'_>,
    pool: &mut Pool,
) -> Result<RouterNumbers, OutOfMemory>
    requires kinds { AreLaneKinds (AreSameEntries ((P.routes protocol.now).entry lane.router))
        (P.candidates protocol.now) own.now }
    requires lane { IsRouterLane (P.routes protocol.now) (P.candidates protocol.now) lane }
    requires firsts { lane.firsts.now ≡ own.now.firsts.items }
    requires single { AreOverOne (P.routes protocol.now).routers pool.old.entries.items }
    ensures kept { OnOk result (KeepsMore pool.old pool.new) }
    ensures numbers { IfOk result (AreRouterNumbers ((P.routes protocol.now).entry lane.entry.router)
        (P.candidates protocol.now) pool.new.entries.items) }
{
    let kinds = own.kinds.clone()?;
    let numbers = numbers_at(alloc, protocol, lane, pool)?;
    Ok(RouterNumbers { kinds, numbers })
}

/// A router's lane, with the leads by its least walks of the lane's zone, and of the zone behind.
#[derive(Clone, Copy, Debug)]
struct LedLane<'a> {
    lane: RouterLane<'a>,
    leads: &'a [Lead],
    behind: &'a [Lead],
}

/// The numbers of a router's entries for the kinds of its lane, in time of these, of the routers, and of the routes that the
/// leads don't tell.
#[inline(never)]
fn numbers_at<P: Protocol>(
    alloc: Global,
    protocol: &P,
    lane: RouterLane<'_>,
    pool: &mut Pool,
) -> Result<Vec<Number>, OutOfMemory>
    requires places { All (λ place. place < length (P.candidates protocol.now)) lane.firsts.now }
    requires lane { IsRouterLane (P.routes protocol.now) (P.candidates protocol.now) lane }
    requires single { AreOverOne (P.routes protocol.now).routers pool.old.entries.items }
    ensures kept { OnOk result (KeepsMore pool.old pool.new) }
    ensures numbers { IfOk result (λ numbers. AreNumbers (λ kind. (P.routes protocol.now).entry lane.entry.router
        (first_prefix_of (P.candidates protocol.now) lane.entry.firsts.now kind))
        (length lane.entry.firsts.now) pool.new.entries.items numbers.items) }
{
    pool.begin_table();
    let leads = leads_of(alloc, lane.walks, lane.router, lane.count, pool)?;
    let behind = leads_of(alloc, lane.walks_behind, lane.router, lane.count, pool)?;
    let led = LedLane {
        lane,
        leads: leads.as_slice(),
        behind: behind.as_slice(),
    };
    let mut numbers = Vec::with_capacity(alloc, lane.firsts.len())?;
    for kind in 0..lane.decisions.len() {
        let number = number_at(alloc, protocol, led, pool, kind)?;
        numbers.push_reserved(number);
    }
    Ok(numbers)
}

/// The number of the entry for the prefixes of a kind, where there is one: that which the router's leads tell, else that
/// over the hops towards both of two offers that cost the same, else that which the protocol is asked for.
#[inline(always)]
fn number_at<P: Protocol>(
    alloc: Global,
    protocol: &P,
    led: LedLane<'_>,
    pool: &mut Pool,
    kind: usize,
) -> Result<Number, OutOfMemory>
    requires kind { kind < length led.lane.firsts.now }
    requires places { All (λ place. place < length (P.candidates protocol.now)) led.lane.firsts.now }
    requires lane { IsRouterLane (P.routes protocol.now) (P.candidates protocol.now) led.lane }
    requires leads { AreLaneLeads led.lane pool.old.entries.items led.leads.now led.behind.now }
    requires single { AreOverOne (P.routes protocol.now).routers pool.old.entries.items }
    ensures kept { OnOk result (KeepsMore pool.old pool.new) }
    ensures number { IfOk result (IsNumberOf ((P.routes protocol.now).entry led.entry.lane.router
        (first_prefix_of (P.candidates protocol.now) led.entry.lane.firsts.now kind)) pool.new.entries.items) }
{
    match number_told(led, kind) {
        Some(number) => Ok(number),
        None => {
            if let Some(walks) = led.lane.walks {
                if let Some(makers) = level_makers(led.leads, &led.lane.decisions[kind]) {
                    return number_over_both(alloc, walks, makers, led.lane.count, pool);
                }
            }
            let place = led.lane.firsts[kind] as usize;
            number_asked(alloc, protocol, led.lane.router, pool, place)
        }
    }
}

/// The number of the entry for the prefixes of a kind, or that there is none, where the leads tell it.
#[inline(always)]
fn number_told(led: LedLane<'_>, kind: usize) -> Option<Number>
    requires kind { kind < length led.lane.firsts.now }
    requires long { length led.lane.decisions.now ≡ length led.lane.firsts.now }
    ensures { IfSome result (IsToldOfKind led.entry kind) }
{
    if let Some(number) = told(led.leads, led.lane.router, &led.lane.decisions[kind]) {
        return Some(number);
    }
    let decisions = led.lane.behind.get(kind)?;
    told_behind(led.leads, led.behind, led.lane.router, decisions)
}
