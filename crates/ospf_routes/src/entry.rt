ghost use Rattle.std.specs.Prelude.{◌≡◌, ◌<◌, ℕ, length, IfOk, IfNone, IfSome, MatchOption};
ghost use Rattle.net_addr.specs.Addresses.{Block};
ghost use Rattle.net_model.specs.Network.{Connected};
ghost use Rattle.igp_theory.specs.Ospf.{IntraAreaCost, IsActiveRange};
ghost use Rattle.walk_core.specs.BestOffers.{NoneTotals};
ghost use Rattle.ospf_routes.specs.steps.Asked.{HasIntraRoute, HasNoEntry, HasNoIntraRoute, IsDeciding, IsFoundRoute, IsInside};
ghost use Rattle.ospf_routes.specs.steps.Asked.{IsQuestion, IsRoute, MakesIntraRoute};
ghost use Rattle.ospf_routes.specs.steps.Destinations.{IsSomePart, IsPartFor};
ghost use Rattle.ospf_routes.specs.steps.Routing.{AreAreaRoutes, IsAreaRoute};

use crate::OutOfMemory;
use crate::domain::Domain;
use crate::intra_area::{AreaOffers, Destination, part_reach};
use crate::ranges::ActiveRanges;
use crate::united::united_some;
use route_core::Hops;
use route_tables::{Route, best_hops, best_route, push_option};
use std::alloc::Global;
use walk_core::{LeastWalks, Offer};

/// A router and a prefix whose route is asked for, with what is known of both.
#[derive(Clone, Copy, Debug)]
pub(crate) struct Asked<'a> {
    /// The network and its areas.
    pub domain: &'a Domain<'a>,
    /// The router.
    pub router: u32,
    /// The place of the area that the router listens to.
    pub listens: Option<usize>,
    /// The active ranges of the router.
    pub ranges: &'a ActiveRanges,
    /// The prefix, with what the interfaces of each area offer of it.
    pub destination: &'a Destination,
    /// What border routers announce of the prefix into that area.
    pub heard: &'a [Offer],
}

/// Offers of a prefix that decide a router's route, with the least walks that they are reached over.
#[derive(Clone, Copy, Debug)]
struct Deciding<'a> {
    walks: &'a LeastWalks,
    zone: usize,
    offers: &'a [Offer],
}

/// The route of a router for a prefix: the intra-area route, else a discard of an active range, else
/// the inter-area route (RFC 2328, sections 11.1 and 16). There is none for a connected prefix.
pub(crate) fn route_of(alloc: Global, asked: Asked) -> Result<Option<Route>, OutOfMemory>
    requires { IsQuestion asked }
    ensures { IfOk result (IsFoundRoute asked.entry) }
{
    if asked.destination.is_home(asked.router) {
        return Ok(None);
    }
    if let Some(route) = intra_route(alloc, asked)? {
        return Ok(Some(route));
    }
    if asked.ranges.contains(asked.destination.dest) {
        return Ok(Some(Route::Drops));
    }
    match announced(asked) {
        Some(deciding) => route_by(alloc, asked, deciding),
        None => Ok(None),
    }
}

/// The summaries that decide the route of a prefix that is no active range and has no intra-area route: those into the area
/// that the router listens to.
fn announced(asked: Asked<'_>) -> Option<Deciding<'_>>
    requires asked { IsQuestion asked }
    requires no_intra { HasNoIntraRoute asked }
    requires no_range { IsActiveRange asked.domain.now.net asked.destination.now.dest asked.router → ⊥ }
    ensures some { IfSome result (IsDeciding asked.entry) }
    ensures reached { IfSome result (λ d. NoneTotals d.walks.now d.offers.now → HasNoEntry asked.entry) }
    ensures none { IfNone result (HasNoEntry asked.entry) }
{
    match asked.listens {
        Some(zone) => {
            let walks = asked.domain.walks(zone, asked.router);
            Some(Deciding {
                walks,
                zone,
                offers: asked.heard,
            })
        }
        None => None,
    }
}

/// The route to the best of the offers that decide it.
fn route_by(alloc: Global, asked: Asked, deciding: Deciding) -> Result<Option<Route>, OutOfMemory>
    requires decides { IsDeciding asked deciding }
    requires away { Connected asked.domain.now.net asked.router asked.destination.now.dest → ⊥ }
    ensures { IfOk result (λ found. MatchOption found (NoneTotals deciding.entry.walks.now deciding.entry.offers.now) (IsRoute asked.entry)) }
{
    let count = asked.domain.routers();
    best_route(alloc, deciding.walks, deciding.zone, deciding.offers, count)
}

/// The intra-area route, of all areas that the router is in (RFC 2328, section 16.1). Mostly one area alone offers a
/// prefix.
fn intra_route(alloc: Global, asked: Asked) -> Result<Option<Route>, OutOfMemory>
    requires { IsQuestion asked }
    ensures { IfOk result (λ found. MatchOption found (HasNoIntraRoute asked.entry) (MakesIntraRoute asked.entry)) }
{
    if asked.destination.parts.len() == 1 {
        return area_route(alloc, asked);
    }
    match intra_hops(alloc, asked)? {
        Some(hops) => Ok(Some(Route::Through(hops))),
        None => Ok(None),
    }
}

/// The intra-area route in the one area that offers the prefix.
fn area_route(alloc: Global, asked: Asked) -> Result<Option<Route>, OutOfMemory>
    requires asked { IsQuestion asked }
    requires one { length asked.destination.now.parts.items ≡ 1 }
    ensures { IfOk result (λ found. MatchOption found (HasNoIntraRoute asked.entry) (MakesIntraRoute asked.entry)) }
{
    match inside(asked) {
        Some(inside) => {
            let count = asked.domain.routers();
            best_route(alloc, inside.walks, inside.zone, inside.offers, count)
        }
        None => Ok(None),
    }
}

/// The offers of the one area that offers the prefix, where the router is in that area.
fn inside(asked: Asked<'_>) -> Option<Deciding<'_>>
    requires asked { IsQuestion asked }
    requires one { length asked.destination.now.parts.items ≡ 1 }
    ensures some { IfSome result (IsInside asked.entry) }
    ensures none { IfNone result (HasNoIntraRoute asked.entry) }
{
    let part = &asked.destination.parts[0];
    match part_reach(asked.domain, part, asked.router) {
        Some(walks) => {
            let offers = part.offers.as_slice();
            Some(Deciding {
                walks,
                zone: part.zone,
                offers,
            })
        }
        None => None,
    }
}

/// The hops of the intra-area routes, of all areas that the router is in (RFC 2328, section 16.1).
fn intra_hops(alloc: Global, asked: Asked) -> Result<Option<Hops>, OutOfMemory>
    requires { IsQuestion asked }
    ensures { IfOk result (λ found. MatchOption found (HasNoIntraRoute asked.entry) (HasIntraRoute asked.entry)) }
{
    let lists = area_lists(alloc, asked)?;
    united_some(alloc, lists.as_slice(), asked.domain.routers())
}

/// The hops of the intra-area route in each area that has one.
fn area_lists(alloc: Global, asked: Asked) -> Result<Vec<Hops>, OutOfMemory>
    requires { IsQuestion asked }
    ensures { IfOk result (λ lists. AreAreaRoutes asked.entry.domain.now.net asked.entry.destination.now.dest asked.entry.router lists.items) }
{
    let mut lists = Vec::new(alloc);
    for part in asked.destination.parts.as_slice() {
        push_option(
            &mut lists,
            area_hops(alloc, asked.domain, part, asked.router)?,
        )?;
    }
    Ok(lists)
}

/// The hops of the intra-area route in the area of a part.
fn area_hops(
    alloc: Global,
    domain: &Domain<'_>,
    part: &AreaOffers,
    u: u32,
) -> Result<Option<Hops>, OutOfMemory>
    requires router { u < length domain.now.net }
    requires part { IsSomePart domain.now part.now }
    ensures { (p : Block) → IsPartFor domain.now p part.now → IfOk result (λ found. MatchOption found
        ((cost : ℕ) → IntraAreaCost domain.now.net part.now.area p u cost → ⊥)
        (IsAreaRoute domain.now.net part.now.area p u)) }
{
    match part_reach(domain, part, u) {
        Some(walks) => best_hops(alloc, walks, part.offers.as_slice(), domain.routers()),
        None => Ok(None),
    }
}
