ghost use Rattle.std.specs.Prelude.{◌≡◌, ◌<◌, ◌↔◌, ℕ, length, Some, Any, IsTrue, OnOk};
ghost use Rattle.igp_theory.specs.Ospf.{BorderCost};
ghost use Rattle.walk_core.specs.declared.offers.Offer.{Offer as OfferValue};
ghost use Rattle.ospf_routes.specs.steps.Heard.{IsLeaving};
ghost use Rattle.net_model.specs.Network.{IsBorderRouter};
ghost use Rattle.ospf_routes.specs.Lists.{Adds};
ghost use Rattle.ospf_routes.specs.steps.Areas.{IsArea};
ghost use Rattle.ospf_routes.specs.steps.Members.{IsBorderIn};
ghost use Rattle.ospf_routes.specs.steps.Ranges.{AreActiveRanges, AreRangesBelow};
ghost use Rattle.ospf_routes.specs.steps.Summarized.{IsPassedOn};

use crate::OutOfMemory;
use crate::area_boundary::{Boundary, Leaving};
use crate::areas::AreaWalks;
use crate::domain::Domain;
use crate::intra_area::has_intra;
use crate::ranges::ActiveRanges;
use crate::stub_areas::is_totally_stubby;
use route_tables::push_option;
use walk_core::Offer;

/// Adds what border routers of the area reach over the backbone: the prefix with its inter-area cost at each of them that has
/// one (RFC 2328, section 16.2) and announces more than the default route into the area. None has one where nothing is
/// announced into the backbone.
pub(crate) fn push_reached(
    offers: &mut Vec<Offer>,
    boundary: Boundary<'_>,
    area: &AreaWalks,
    leaving: Leaving<'_>,
) -> Result<(), OutOfMemory>
    requires area { IsArea boundary.domain.now.net area.now }
    requires ranges { AreRangesBelow boundary.domain.now.net (length boundary.domain.now.net) boundary.ranges.now }
    requires leaving { IsLeaving boundary.domain.now leaving }
    ensures { OnOk result (Adds offers.old.items offers.new.items
        (IsPassedOn boundary.entry.domain.now.net area.now.number leaving.entry.destination.now.dest)) }
{
    if leaving.backbone.is_empty() {
        return Ok(());
    }
    for b in area.borders.as_slice() {
        let offer = reached_offer(boundary, area.number, leaving, *b);
        push_option(offers, offer)?;
    }
    Ok(())
}

/// The prefix with its inter-area cost at border router `b`, where it has one and announces more than the default route into
/// the area.
fn reached_offer(boundary: Boundary<'_>, area: u32, leaving: Leaving<'_>, b: u32) -> Option<Offer>
    requires border { IsBorderIn boundary.domain.now.net area b }
    requires router { b < length boundary.domain.now.net }
    requires ranges { AreRangesBelow boundary.domain.now.net (length boundary.domain.now.net) boundary.ranges.now }
    requires leaving { IsLeaving boundary.domain.now leaving }
    ensures { (o : OfferValue) → (result ≡ Some o) ↔ ((o.at ≡ b) ×
        IsPassedOn boundary.entry.domain.now.net area leaving.entry.destination.now.dest o) }
{
    if is_totally_stubby(boundary.domain, b, area) {
        return None;
    }
    let ranges = boundary.ranges;
    let active = &ranges[b as usize];
    let asks = border_cost(boundary.domain, active, leaving, b)?;
    Some(Offer { at: b, asks })
}

/// The inter-area cost of the prefix at border router `u`, over what is announced into the backbone.
/// There is none where the prefix has an intra-area route or is an active range of `u`, so `u` itself
/// announces nothing of a prefix that has one.
fn border_cost(
    domain: &Domain<'_>,
    ranges: &ActiveRanges,
    leaving: Leaving<'_>,
    u: u32,
) -> Option<u64>
    requires border { IsBorderRouter domain.now.net u }
    requires router { u < length domain.now.net }
    requires ranges { AreActiveRanges domain.now.net u ranges.now }
    requires leaving { IsLeaving domain.now leaving }
    ensures { (cost : ℕ) → (result ≡ Some cost) ↔ BorderCost domain.now.net leaving.entry.destination.now.dest u cost }
{
    let walks = domain.reach(0, u)?;
    let cost = walks.best_cost(leaving.backbone)?;
    if is_range_among(ranges, leaving) {
        return None;
    }
    if has_intra(domain, leaving.destination, u) {
        return None;
    }
    Some(cost)
}

/// Whether the prefix is one of these active ranges. They are looked at only where it may be one.
fn is_range_among(ranges: &ActiveRanges, leaving: Leaving<'_>) -> bool
    ensures { IsTrue result ↔ (IsTrue leaving.entry.is_ranged × Any (λ a. a.range.dest ≡ leaving.entry.destination.now.dest) ranges.now) }
{
    leaving.is_ranged && ranges.contains(leaving.destination.dest)
}
