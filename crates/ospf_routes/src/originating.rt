ghost use Rattle.std.specs.Prelude.{◌≡◌, ◌+◌, ◌<◌, ◌↔◌, ℕ, [], length, Some, All, Any, IfOk, IsTrue, OnOk};
ghost use Rattle.walk_core.specs.declared.offers.Offer.{Offer as OfferValue};
ghost use Rattle.ospf_routes.specs.steps.Areas.{IsArea};
ghost use Rattle.ospf_routes.specs.steps.Destinations.{AreOspfDestinations, ospf_prefixes};
ghost use Rattle.net_model.specs.Network.{IsBorderRouter};
ghost use Rattle.ospf_routes.specs.Lists.{Adds, Exactly};
ghost use Rattle.ospf_routes.specs.steps.Offered.{AreOffers};
ghost use Rattle.ospf_routes.specs.steps.Ranges.{AreRangesBelow, HoldRanges};
ghost use Rattle.net_addr.specs.Addresses.{Block};
ghost use Rattle.ospf_routes.specs.steps.Heard.{AddsRow, AreHeardBelow, AreSummaries, IsLeaving, IsQuiet, IsRowAgain, IsSummaryRow};
ghost use Rattle.ospf_routes.specs.steps.OfferLists.{IsPlaceIn};
ghost use Rattle.ospf_routes.specs.steps.Siblings.{AreKnownSiblings};
ghost use Rattle.ospf_routes.specs.steps.Summarized.{Announces, IsHeard, IsOutgoing};

use crate::OutOfMemory;
use crate::area_boundary::{Boundary, Leaving, put_summarized};
use crate::area_route::{AreaRoute, outside_offer, put_outside};
use crate::areas::AreaWalks;
use crate::backbone_routes::push_reached;
use crate::domain::Domain;
use crate::intra_area::Destination;
use crate::ranges::{ActiveRanges, RangePrefixes};
use crate::siblings::Siblings;
use crate::stub_areas::{is_totally_stubby, push_defaults};
use crate::summaries::Summaries;
use net_addr::Prefix;
use route_tables::{is_all_addresses, push_option};
use std::alloc::Global;
use walk_core::Offer;

/// What of a prefix is at hand while its announcements are made, in room that is taken again for the next one; and the prefixes
/// that others are announced alike.
#[derive(Debug, Drop)]
struct Room {
    /// What is summarized of it.
    routes: Vec<AreaRoute>,
    /// What goes into the backbone.
    backbone: Vec<Offer>,
    /// What is announced of it into an area.
    offers: Vec<Offer>,
    /// The prefixes that later ones may be announced like.
    siblings: Siblings,
}

impl Room {
    /// Nothing yet, in a network of so many routers.
    fn none(alloc: Global, routers: usize) -> Result<Room, OutOfMemory>
        ensures { IfOk result (λ room. room.siblings ≡ []) }
    {
        let siblings = Siblings::none(alloc, routers)?;
        Ok(Room {
            routes: Vec::new(alloc),
            backbone: Vec::new(alloc),
            offers: Vec::new(alloc),
            siblings,
        })
    }
}

/// What border routers announce of each prefix into each of their areas: the subnets and the ranges of other areas, and into
/// areas other than the backbone what they reach over the backbone, and the defaults of stub areas.
pub(crate) fn all_summaries(
    alloc: Global,
    domain: &Domain<'_>,
    destinations: &[Destination],
    ranges: &[ActiveRanges],
    ranged: &RangePrefixes,
) -> Result<Summaries, OutOfMemory>
    requires destinations { AreOspfDestinations domain.now destinations.now }
    requires ranges { AreRangesBelow domain.now.net (length domain.now.net) ranges.now }
    requires ranged { HoldRanges domain.now.net ranged.now }
    ensures { IfOk result (AreSummaries domain.now destinations.now) }
{
    let borders = domain.borders(alloc)?;
    let mut summaries = Summaries::none(alloc, domain.zones());
    let mut room = Room::none(alloc, 1 + domain.routers() as usize)?;
    let boundary = Boundary {
        domain,
        destinations,
        borders: borders.as_slice(),
        ranges,
        ranged,
    };
    for place in 0..destinations.len() {
        keep_summaries(alloc, &mut summaries, &mut room, boundary, place)?;
    }
    Ok(summaries)
}

/// Keeps what is announced of the prefix at a place into each area, area by area: what is of an earlier sibling, else what is
/// made of it in the same room.
fn keep_summaries(
    alloc: Global,
    summaries: &mut Summaries,
    room: &mut Room,
    boundary: Boundary<'_>,
    place: usize,
) -> Result<(), OutOfMemory>
    requires borders { Exactly (IsBorderRouter boundary.domain.now.net) boundary.borders.now }
    requires ranges { AreRangesBelow boundary.domain.now.net (length boundary.domain.now.net) boundary.ranges.now }
    requires ranged { HoldRanges boundary.domain.now.net boundary.ranged.now }
    requires destinations { AreOspfDestinations boundary.domain.now boundary.destinations.now }
    requires place { place < length boundary.destinations.now }
    requires known { AreKnownSiblings boundary.domain.now.net (ospf_prefixes boundary.destinations.now) place room.old.siblings }
    requires heard { AreHeardBelow boundary.domain.now (ospf_prefixes boundary.destinations.now) place summaries.old }
    ensures known { OnOk result (AreKnownSiblings boundary.entry.domain.now.net (ospf_prefixes boundary.entry.destinations.now)
        (place + 1) room.new.siblings) }
    ensures heard { OnOk result (AreHeardBelow boundary.entry.domain.now (ospf_prefixes boundary.entry.destinations.now)
        (place + 1) summaries.new) }
{
    let destination = &boundary.destinations[place];
    put_summarized(&mut room.routes, boundary, destination)?;
    put_outside(&mut room.backbone, room.routes.as_slice(), 0)?;
    let leaving = Leaving {
        destination,
        routes: room.routes.as_slice(),
        backbone: room.backbone.as_slice(),
        is_ranged: boundary.ranged.has(destination.dest),
    };
    match room.siblings.earlier(alloc, boundary, leaving, place)? {
        Some(earlier) => keep_again(summaries, boundary.domain, earlier),
        None => keep_into_areas(summaries, &mut room.offers, boundary, leaving),
    }
}

/// Keeps what is announced of a prefix into each area, by what is summarized of it and what goes into the backbone.
fn keep_into_areas(
    summaries: &mut Summaries,
    offers: &mut Vec<Offer>,
    boundary: Boundary<'_>,
    leaving: Leaving<'_>,
) -> Result<(), OutOfMemory>
    requires ranges { AreRangesBelow boundary.domain.now.net (length boundary.domain.now.net) boundary.ranges.now }
    requires leaving { IsLeaving boundary.domain.now leaving }
    ensures { OnOk result (AddsRow (IsSummaryRow boundary.entry.domain.now leaving.entry.destination.now.dest
        (length boundary.entry.domain.now.areas)) summaries.old summaries.new) }
{
    if is_quiet(leaving) {
        return keep_nothing(summaries, boundary.domain);
    }
    for zone in 0..boundary.domain.zones() {
        put_summaries(offers, boundary, boundary.domain.area(zone), leaving)?;
        summaries.keep(offers.as_slice())?;
    }
    Ok(())
}

/// Keeps what is announced of the prefix at a place once more, area by area.
fn keep_again(
    summaries: &mut Summaries,
    domain: &Domain<'_>,
    earlier: usize,
) -> Result<(), OutOfMemory>
    requires areas { summaries.old.areas ≡ length domain.now.areas }
    requires place { IsPlaceIn summaries.old earlier }
    ensures { OnOk result (AddsRow (IsRowAgain summaries.old earlier (length domain.now.areas)) summaries.old summaries.new) }
{
    for zone in 0..domain.zones() {
        summaries.keep_again(earlier, zone)?;
    }
    Ok(())
}

/// Keeps that nothing is announced of a prefix, area by area.
fn keep_nothing(summaries: &mut Summaries, domain: &Domain<'_>) -> Result<(), OutOfMemory>
    ensures { (p : Block) → ((n : ℕ) → AreOffers (IsHeard domain.now.net p n) []) →
        OnOk result (AddsRow (IsSummaryRow domain.now p (length domain.now.areas)) summaries.old summaries.new) }
{
    for _zone in 0..domain.zones() {
        summaries.keep_empty()?;
    }
    Ok(())
}

/// Whether nothing is announced of a prefix into any area, as of one that ranges hide: nothing is summarized of it, and it
/// isn't that of all addresses.
fn is_quiet(leaving: Leaving<'_>) -> bool
    ensures { IsTrue result → IsQuiet leaving.entry }
{
    leaving.routes.is_empty()
        && leaving.backbone.is_empty()
        && !is_all_addresses(leaving.destination.dest)
}

/// Puts the announcements of an area's routers into it in place of other offers: the subnets and ranges of other areas, and
/// into an area other than the backbone what border routers reach over the backbone, and the defaults of stub areas (RFC
/// 2328, sections 12.4.3 and 3.6).
fn put_summaries(
    offers: &mut Vec<Offer>,
    boundary: Boundary<'_>,
    area: &AreaWalks,
    leaving: Leaving<'_>,
) -> Result<(), OutOfMemory>
    requires area { IsArea boundary.domain.now.net area.now }
    requires ranges { AreRangesBelow boundary.domain.now.net (length boundary.domain.now.net) boundary.ranges.now }
    requires leaving { IsLeaving boundary.domain.now leaving }
    ensures { OnOk result (AreOffers (IsHeard boundary.entry.domain.now.net leaving.entry.destination.now.dest
        area.now.number) offers.new.items) }
{
    offers.clear();
    push_announced(offers, boundary.domain, area, leaving.routes)?;
    let is_backbone = area.number == 0;
    if is_backbone {
        return Ok(());
    }
    push_reached(offers, boundary, area, leaving)?;
    push_defaults(offers, boundary.domain, area, leaving.destination.dest)
}

/// Adds the routes of other areas that their routers announce into this one.
fn push_announced(
    offers: &mut Vec<Offer>,
    domain: &Domain<'_>,
    area: &AreaWalks,
    routes: &[AreaRoute],
) -> Result<(), OutOfMemory>
    requires area { IsArea domain.now.net area.now }
    requires routers { All (λ r. r.at < length domain.now.net) routes.now }
    ensures { OnOk result (Adds offers.old.items offers.new.items (λ o. Any (IsOutgoing domain.now.net area.now.number o) routes.now)) }
{
    for route in routes {
        push_option(offers, outgoing(domain, area, *route))?;
    }
    Ok(())
}

/// The route as an offer, where it is of another area and its router announces it into this one.
fn outgoing(domain: &Domain<'_>, area: &AreaWalks, route: AreaRoute) -> Option<Offer>
    requires router { route.at < length domain.now.net }
    requires area { IsArea domain.now.net area.now }
    ensures { (o : OfferValue) → (result ≡ Some o) ↔ IsOutgoing domain.now.net area.now.number o route }
{
    if announces(domain, area, route.at) {
        outside_offer(route, area.number)
    } else {
        None
    }
}

/// Whether a router is in the area, and announces more than the default route into it. The backbone is no stub area
/// (RFC 2328, section 3.6).
fn announces(domain: &Domain<'_>, area: &AreaWalks, b: u32) -> bool
    requires router { b < length domain.now.net }
    requires area { IsArea domain.now.net area.now }
    ensures { IsTrue result ↔ Announces domain.now.net area.now.number b }
{
    if !area.members.has(b) {
        return false;
    }
    if area.number == 0 {
        return true;
    }
    !is_totally_stubby(domain, b, area.number)
}
