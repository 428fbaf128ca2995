ghost use Rattle.std.specs.Prelude.{◌≡◌, ◌<◌, ◌↔◌, length, Some, All, Any, Contains, OnOk};
ghost use Rattle.ospf_routes.specs.steps.Destinations.{IsDestinationIn};
ghost use Rattle.net_model.specs.Network.{IsBorderRouter};
ghost use Rattle.ospf_routes.specs.Lists.{Adds, Exactly};
ghost use Rattle.ospf_routes.specs.steps.Ranges.{AreActiveRanges, AreRangesBelow, HoldRanges};
ghost use Rattle.ospf_routes.specs.steps.Summarized.{AreSummarized, IsAreaSubnet, IsListedRange, IsRangeRoute, SummarizedRange, SummarizedSubnet};
ghost use Rattle.ospf_routes.specs.declared.area_route.AreaRoute.{AreaRoute as Route};

use crate::OutOfMemory;
use crate::area_route::AreaRoute;
use crate::domain::Domain;
use crate::intra_area::{AreaOffers, Destination, part_cost};
use crate::ranges::{ActiveRange, ActiveRanges, RangePrefixes, is_component};
use net_addr::Prefix;
use route_tables::push_option;
use walk_core::Offer;

/// The prefixes and the border routers of a network, and the active ranges of all its routers.
#[derive(Clone, Copy)]
pub(crate) struct Boundary<'a> {
    /// The network and its areas.
    pub domain: &'a Domain<'a>,
    /// The prefixes.
    pub destinations: &'a [Destination],
    /// The border routers.
    pub borders: &'a [u32],
    /// The active ranges of each router.
    pub ranges: &'a [ActiveRanges],
    /// The prefixes of all active ranges.
    pub ranged: &'a RangePrefixes,
}

/// A prefix, what is summarized of it out of areas, and what of it is announced into the backbone.
#[derive(Clone, Copy)]
pub(crate) struct Leaving<'a> {
    /// The prefix.
    pub destination: &'a Destination,
    /// What is summarized of it.
    pub routes: &'a [AreaRoute],
    /// What is announced of it into the backbone.
    pub backbone: &'a [Offer],
    /// Whether it may be an active range.
    pub is_ranged: bool,
}

/// Puts the subnets and ranges that border routers summarize of a prefix in place of other routes, each as a route of its own
/// area.
pub(crate) fn put_summarized(
    routes: &mut Vec<AreaRoute>,
    boundary: Boundary<'_>,
    destination: &Destination,
) -> Result<(), OutOfMemory>
    requires borders { Exactly (IsBorderRouter boundary.domain.now.net) boundary.borders.now }
    requires ranges { AreRangesBelow boundary.domain.now.net (length boundary.domain.now.net) boundary.ranges.now }
    requires ranged { HoldRanges boundary.domain.now.net boundary.ranged.now }
    requires destination { IsDestinationIn boundary.domain.now destination.now }
    ensures { OnOk result (AreSummarized boundary.entry.domain.now.net destination.now.dest routes.new.items) }
{
    routes.clear();
    push_subnets(routes, boundary.domain, boundary.ranges, destination)?;
    push_ranged(routes, boundary, destination.dest)
}

/// Adds the prefix for each area where a border router has an intra-area cost for it, unless it is a component of a range.
fn push_subnets(
    routes: &mut Vec<AreaRoute>,
    domain: &Domain<'_>,
    ranges: &[ActiveRanges],
    destination: &Destination,
) -> Result<(), OutOfMemory>
    requires ranges { AreRangesBelow domain.now.net (length domain.now.net) ranges.now }
    requires destination { IsDestinationIn domain.now destination.now }
    ensures { OnOk result (Adds routes.old.items routes.new.items (λ r. SummarizedSubnet domain.now.net destination.now.dest r.at r)) }
{
    for part in destination.parts.as_slice() {
        push_area_subnets(routes, domain, ranges, destination, part)?;
    }
    Ok(())
}

/// Adds the prefix for the area of a part, by each border router of that area.
fn push_area_subnets(
    routes: &mut Vec<AreaRoute>,
    domain: &Domain<'_>,
    ranges: &[ActiveRanges],
    destination: &Destination,
    part: &AreaOffers,
) -> Result<(), OutOfMemory>
    requires ranges { AreRangesBelow domain.now.net (length domain.now.net) ranges.now }
    requires destination { IsDestinationIn domain.now destination.now }
    requires part { Contains destination.now.parts.items part.now }
    ensures { OnOk result (Adds routes.old.items routes.new.items (IsAreaSubnet domain.now.net destination.now.dest part.now.area)) }
{
    for b in domain.area(part.zone).borders.as_slice() {
        let actives = ranges[*b as usize].as_slice();
        push_option(
            routes,
            subnet_summary(domain, actives, destination, part, *b),
        )?;
    }
    Ok(())
}

/// The prefix as a route of the area of a part, where border router `b` has an intra-area cost for it there, unless it is a
/// component of a range.
fn subnet_summary(
    domain: &Domain<'_>,
    actives: &[ActiveRange],
    destination: &Destination,
    part: &AreaOffers,
    b: u32,
) -> Option<AreaRoute>
    requires border { IsBorderRouter domain.now.net b }
    requires router { b < length domain.now.net }
    requires ranges { AreActiveRanges domain.now.net b actives.now }
    requires destination { IsDestinationIn domain.now destination.now }
    requires part { Contains destination.now.parts.items part.now }
    ensures { (r : Route) → (result ≡ Some r) ↔ ((r.at ≡ b) × IsAreaSubnet domain.now.net destination.now.dest part.now.area r) }
{
    if is_component(domain, actives, destination, b) {
        return None;
    }
    let asks = part_cost(domain, part, b)?;
    Some(AreaRoute {
        area: part.area,
        at: b,
        asks,
    })
}

/// Adds the active ranges of this prefix that border routers advertise. They are looked for only where there is one.
fn push_ranged(
    routes: &mut Vec<AreaRoute>,
    boundary: Boundary<'_>,
    dest: Prefix,
) -> Result<(), OutOfMemory>
    requires borders { Exactly (IsBorderRouter boundary.domain.now.net) boundary.borders.now }
    requires ranges { AreRangesBelow boundary.domain.now.net (length boundary.domain.now.net) boundary.ranges.now }
    requires ranged { HoldRanges boundary.domain.now.net boundary.ranged.now }
    ensures { OnOk result (Adds routes.old.items routes.new.items
        (λ r. SummarizedRange boundary.entry.domain.now.net dest r.at r)) }
{
    if !boundary.ranged.has(dest) {
        return Ok(());
    }
    push_ranges(routes, boundary.borders, boundary.ranges, dest)
}

/// Adds the active ranges of this prefix that border routers advertise.
fn push_ranges(
    routes: &mut Vec<AreaRoute>,
    borders: &[u32],
    ranges: &[ActiveRanges],
    dest: Prefix,
) -> Result<(), OutOfMemory>
    requires { All (λ b. b < length ranges.now) borders.now }
    ensures { OnOk result (Adds routes.old.items routes.new.items (λ r. Any (λ b. IsListedRange ranges.now dest b r) borders.now)) }
{
    for b in borders {
        push_router_ranges(routes, ranges[*b as usize].around(dest), dest, *b)?;
    }
    Ok(())
}

/// Adds those of these active ranges of router `b` that are of this prefix and advertised.
fn push_router_ranges(
    routes: &mut Vec<AreaRoute>,
    ranges: &[ActiveRange],
    dest: Prefix,
    b: u32,
) -> Result<(), OutOfMemory>
    ensures { OnOk result (Adds routes.old.items routes.new.items (λ r. Any (λ a. IsRangeRoute a dest b r) ranges.now)) }
{
    for active in ranges {
        push_option(routes, range_route(*active, dest, b))?;
    }
    Ok(())
}

/// The range as a route of its area, where it is of this prefix and advertised.
fn range_route(active: ActiveRange, dest: Prefix, b: u32) -> Option<AreaRoute>
    ensures { (r : Route) → (result ≡ Some r) ↔ IsRangeRoute active dest b r }
{
    if active.range.dest == dest && active.range.advertise {
        Some(AreaRoute {
            area: active.range.area,
            at: b,
            asks: active.cost,
        })
    } else {
        None
    }
}
