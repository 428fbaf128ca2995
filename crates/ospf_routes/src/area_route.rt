ghost use Rattle.std.specs.Prelude.{◌≡◌, ◌<◌, Any, IfOk, OnOk};
ghost use Rattle.ospf_routes.specs.Lists.{Exactly};
ghost use Rattle.ospf_routes.specs.steps.Offered.{InsideOf, OutsideOf, IsInsideOffer, IsOutsideOffer};

use crate::OutOfMemory;
use route_tables::push_option;
use std::alloc::Global;
use walk_core::Offer;

/// A route of a prefix in an area: the router that has it, and what it costs there.
#[derive(Clone, Copy, Debug)]
pub(crate) struct AreaRoute {
    /// The area.
    pub area: u32,
    /// The router.
    pub at: u32,
    /// The cost.
    pub asks: u64,
}

/// The routes of an area, as offers.
pub(crate) fn offers_inside(
    alloc: Global,
    routes: &[AreaRoute],
    area: u32,
) -> Result<Vec<Offer>, OutOfMemory>
    ensures { IfOk result (λ offers. Exactly (λ o. Any (λ r. InsideOf area r o) routes.now) offers.items) }
{
    let mut offers = Vec::with_capacity(alloc, routes.len())?;
    for route in routes {
        push_option(&mut offers, inside_offer(*route, area))?;
    }
    Ok(offers)
}

/// Puts the routes of other areas in place of other offers.
pub(crate) fn put_outside(
    offers: &mut Vec<Offer>,
    routes: &[AreaRoute],
    area: u32,
) -> Result<(), OutOfMemory>
    ensures { OnOk result (Exactly (λ o. Any (λ r. OutsideOf area r o) routes.now) offers.new.items) }
{
    offers.clear();
    for route in routes {
        push_option(offers, outside_offer(*route, area))?;
    }
    Ok(())
}

/// The offer of a route of the area.
fn inside_offer(route: AreaRoute, area: u32) -> Option<Offer>
    ensures { IsInsideOffer area route result }
{
    if route.area == area {
        Some(offer_of(route))
    } else {
        None
    }
}

/// The offer of a route of another area.
pub(crate) fn outside_offer(route: AreaRoute, area: u32) -> Option<Offer>
    ensures { IsOutsideOffer area route result }
{
    if route.area == area {
        None
    } else {
        Some(offer_of(route))
    }
}

/// The route as an offer.
pub(crate) fn offer_of(route: AreaRoute) -> Offer
    ensures at { result.at ≡ route.at }
    ensures asks { result.asks ≡ route.asks }
{
    Offer {
        at: route.at,
        asks: route.asks,
    }
}
