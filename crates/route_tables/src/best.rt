ghost use Rattle.std.specs.Prelude.{◌≡◌, ◌↔◌, ◌∷◌, ◌++◌, ℕ, [], All, List, IfOk, IfSome, IsTrue, MatchOption};
ghost use Rattle.walk_core.specs.BestOffers.{AreInRange, FitsTotal, NoneTotals, total_towards};
ghost use Rattle.walk_core.specs.Reach.{Reach, listed_hops_of};
ghost use Rattle.walk_core.specs.declared.offers.Offer.{Offer as OfferValue};
ghost use Rattle.route_tables.specs.BestRoutes.{AreBestHops, IsBestRoute, IsBestTarget};
ghost use Rattle.route_tables.specs.steps.BestSoFar.{IsBestAt, IsBestSoFar, IsBetterOf, LeadAlike};

use crate::OutOfMemory;
use crate::route::{Route, Target};
use route_core::Hops;
use std::alloc::Global;
use walk_core::{LeastWalks, Offer};

/// The route to the best of some offers, over the least walks of a zone, and `None` where no offer is reached. The hops
/// are routers below `count`; where one vertex has the first hops of all best offers, they are those towards it. It takes
/// time of the offers, and memory only where several vertices make the best offers and not all offers have the same first hops.
pub fn best_route(
    alloc: Global,
    walks: &LeastWalks,
    zone: usize,
    offers: &[Offer],
    count: u32,
) -> Result<Option<Route>, OutOfMemory>
    requires { AreInRange walks.now offers.now }
    ensures { IfOk result (λ found. MatchOption found (NoneTotals walks.now offers.now) (IsBestRoute walks.now offers.now zone count)) }
{
    let Some(best) = best_of(walks, offers) else {
        return Ok(None);
    };
    if let Some(target) = target_towards(walks, zone, offers, best) {
        return Ok(Some(Route::Towards(target)));
    }
    let hops = walks.hops_towards(alloc, offers, best.cost, count)?;
    Ok(Some(Route::Through(Hops::from_vec(hops))))
}

/// The first hops below `count` of all least-cost routes to the best of some offers, and `None` where
/// no offer is reached.
pub fn best_hops(
    alloc: Global,
    walks: &LeastWalks,
    offers: &[Offer],
    count: u32,
) -> Result<Option<Hops>, OutOfMemory>
    requires { AreInRange walks.now offers.now }
    ensures { IfOk result (λ found. MatchOption found (NoneTotals walks.now offers.now) (AreBestHops walks.now offers.now count)) }
{
    match walks.best_cost(offers) {
        Some(cost) => {
            let hops = walks.hops_towards(alloc, offers, cost, count)?;
            Ok(Some(Hops::from_vec(hops)))
        }
        None => Ok(None),
    }
}

/// The best of some offers: what it costs, a vertex that makes it, and whether that vertex alone makes offers at this cost.
#[derive(Clone, Copy, Debug)]
struct BestAt {
    cost: u64,
    at: u32,
    alone: bool,
}

/// The best of some offers.
fn best_of(walks: &LeastWalks, offers: &[Offer]) -> Option<BestAt>
    requires { AreInRange walks.now offers.now }
    ensures { IsBestSoFar walks.now offers.now result }
{
    let mut best = None;
    for offer in offers {
        best = better(best, total(walks, *offer), offer.at);
    }
    best
}

/// What an offer costs at the root in all, and `None` where it isn't reached.
fn total(walks: &LeastWalks, offer: Offer) -> Option<u64>
    requires { FitsTotal walks.now offer }
    ensures { result ≡ total_towards walks.now offer }
{
    let distance = walks.distance(offer.at)?;
    Some(distance + offer.asks)
}

/// The best of the offers so far and of one more, of this total, which is made at this vertex.
fn better(best: Option<BestAt>, total: Option<u64>, at: u32) -> Option<BestAt>
    ensures { (reach : Reach) (offers : List OfferValue) (o : OfferValue) → o.at ≡ at → total_towards reach o ≡ total →
        IsBestSoFar reach offers best → IsBestSoFar reach (offers ++ o ∷ []) result }
{
    let Some(cost) = total else {
        return best;
    };
    let next = BestAt {
        cost,
        at,
        alone: true,
    };
    match best {
        Some(known) => Some(better_of(known, next)),
        None => Some(next),
    }
}

/// The better of two bests, and both together where they cost the same.
fn better_of(known: BestAt, next: BestAt) -> BestAt
    ensures { IsBetterOf known next result }
{
    if next.cost < known.cost {
        return next;
    }
    if known.cost < next.cost {
        return known;
    }
    BestAt {
        cost: known.cost,
        at: known.at,
        alone: known.alone && known.at == next.at,
    }
}

/// The vertex of the best offer as a target, where all best offers have the first hops towards it.
#[inline(always)]
fn target_towards(walks: &LeastWalks, zone: usize, offers: &[Offer], best: BestAt) -> Option<Target>
    requires { IsBestAt walks.now offers.now best }
    ensures { (count : ℕ) → IfSome result (IsBestTarget walks.now offers.now zone count) }
{
    if lead_alike(walks, offers, best) {
        return Some(Target { zone, at: best.at });
    }
    None
}

/// Whether it is known at once that the first hops towards all best offers are those towards the vertex of the best one:
/// where it alone makes the best offers, or all offers have its first hops.
fn lead_alike(walks: &LeastWalks, offers: &[Offer], best: BestAt) -> bool
    requires { IsBestAt walks.now offers.now best }
    ensures { IsTrue result → LeadAlike walks.now offers.now best }
{
    best.alone || lead_as(walks, offers, best.at)
}

/// Whether the first hops towards all offers are those towards a vertex.
#[inline(never)]
fn lead_as(walks: &LeastWalks, offers: &[Offer], at: u32) -> bool
    ensures { IsTrue result ↔ All (λ o. listed_hops_of walks.now o.at ≡ listed_hops_of walks.now at) offers.now }
{
    let hops = walks.hops_to(at);
    offers.iter().all(|offer| walks.hops_to(offer.at) == hops)
}
