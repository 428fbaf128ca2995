ghost use Rattle.std.specs.Prelude.{◌≡◌, ◌+◌, ◌<◌, ◌↔◌, ℕ, length, Contains, IfOk, IfSome, IsTrue};
ghost use Rattle.ospf_routes.specs.steps.Destinations.{AreOspfDestinations, ospf_prefixes};
ghost use Rattle.ospf_routes.specs.steps.Ranges.{HoldRanges};
ghost use Rattle.ospf_routes.specs.steps.Heard.{AreSummaries};
ghost use Rattle.ospf_routes.specs.steps.OfferLists.{AreSummariesOf, IsPlaceIn};
ghost use Rattle.ospf_routes.specs.steps.Twins.{AreKnownBelow, AreTwinParts, AreTwins, AreTwinsAt, AreTwinSummaries, IsTwinPart};

use crate::OutOfMemory;
use crate::domain::Domain;
use crate::intra_area::{AreaOffers, Destination};
use crate::latest::Latest;
use crate::ranges::RangePrefixes;
use crate::summaries::Summaries;
use route_tables::are_alike;
use std::alloc::Global;

/// For each destination an earlier one with the same entries at every router, where one is found: the latest that is
/// connected at the same one router, where the offers and the announcements of both cost the same but for constants, which
/// never decide between areas or sorts of routes. It takes time of the destinations, of their offers and the logarithm of
/// all ranges, and of the routers.
pub(crate) fn all_twins(
    alloc: Global,
    domain: &Domain<'_>,
    destinations: &[Destination],
    ranged: &RangePrefixes,
    summaries: &Summaries,
) -> Result<Vec<Option<usize>>, OutOfMemory>
    requires destinations { AreOspfDestinations domain.now destinations.now }
    requires ranged { HoldRanges domain.now.net ranged.now }
    requires summaries { AreSummaries domain.now destinations.now summaries.now }
    ensures { IfOk result (λ twins. AreTwins domain.now.net (ospf_prefixes destinations.now) twins.items) }
{
    let mut latest = Latest::none(alloc, domain.routers() as usize)?;
    let mut twins = Vec::with_capacity(alloc, destinations.len())?;
    for place in 0..destinations.len() {
        twins.push(twin_of(destinations, ranged, summaries, &mut latest, place))?;
    }
    Ok(twins)
}

/// The latest destination that is connected at the same one router, where both have the same entries. From now on the latest
/// is this one.
fn twin_of(
    destinations: &[Destination],
    ranged: &RangePrefixes,
    summaries: &Summaries,
    latest: &mut Latest,
    place: usize,
) -> Option<usize>
    requires place { place < length destinations.now }
    requires summaries { AreSummariesOf (length destinations.now) summaries.now }
    requires latest { AreKnownBelow place latest.old }
    ensures latest { AreKnownBelow (place + 1) latest.new }
    ensures below { IfSome result (λ earlier. earlier < place) }
    ensures twins { IfSome result (λ earlier.
        AreTwinsAt (record { destinations = destinations.now; heard = summaries.now; ranged = ranged.now }) earlier place) }
{
    let earlier = latest_at_home(destinations, latest, place)?;
    if are_twins(destinations, summaries, ranged, earlier, place) {
        Some(earlier)
    } else {
        None
    }
}

/// Whether two destinations have the same entries, as far as their homes, offers and announcements show.
fn are_twins(
    destinations: &[Destination],
    summaries: &Summaries,
    ranged: &RangePrefixes,
    one: usize,
    other: usize,
) -> bool
    requires one { one < length destinations.now }
    requires other { other < length destinations.now }
    requires summaries { AreSummariesOf (length destinations.now) summaries.now }
    ensures { IsTrue result → AreTwinsAt (record { destinations = destinations.now; heard = summaries.now; ranged = ranged.now }) one other }
{
    let (near, far) = (&destinations[one], &destinations[other]);
    if !have_one_home(near, far) {
        return false;
    }
    if !have_twin_offers(near, far) {
        return false;
    }
    if !have_twin_summaries(summaries, one, other) {
        return false;
    }
    if ranged.has(near.dest) {
        return false;
    }
    !ranged.has(far.dest)
}

/// The latest destination before that at a place that is connected at the same one router. From now on the latest is this one.
fn latest_at_home(destinations: &[Destination], latest: &mut Latest, place: usize) -> Option<usize>
    requires place { place < length destinations.now }
    requires latest { AreKnownBelow place latest.old }
    ensures latest { AreKnownBelow (place + 1) latest.new }
    ensures below { IfSome result (λ earlier. earlier < place) }
{
    let home = only_home(&destinations[place])?;
    latest.replace(home as usize, place)
}

/// The router that the destination is connected at, where it is one alone.
fn only_home(destination: &Destination) -> Option<u32>
    ensures { IfSome result (λ home. (u : ℕ) → Contains destination.now.homes.items u ↔ (home ≡ u)) }
{
    let homes = destination.homes.as_slice();
    if homes.len() == 1 {
        Some(homes[0])
    } else {
        None
    }
}

/// Whether two destinations are connected at the same one router.
fn have_one_home(one: &Destination, other: &Destination) -> bool
    ensures { IsTrue result → (u : ℕ) → Contains one.now.homes.items u ↔ Contains other.now.homes.items u }
{
    match (only_home(one), only_home(other)) {
        (Some(home), Some(far)) => home == far,
        _ => false,
    }
}

/// Whether what the interfaces of each area offer of two destinations is alike.
fn have_twin_offers(one: &Destination, other: &Destination) -> bool
    ensures { IsTrue result → AreTwinParts one.now.parts.items other.now.parts.items }
{
    are_twin_parts(one.parts.as_slice(), other.parts.as_slice())
}

/// Whether what is announced of two prefixes into each area is alike.
fn have_twin_summaries(summaries: &Summaries, one: usize, other: usize) -> bool
    requires one { IsPlaceIn summaries.now one }
    requires other { IsPlaceIn summaries.now other }
    ensures { IsTrue result → AreTwinSummaries summaries.now one other }
{
    for zone in 0..summaries.areas() {
        if !are_alike(
            summaries.into_area(one, zone),
            summaries.into_area(other, zone),
        ) {
            return false;
        }
    }
    true
}

/// Whether the parts of two prefixes are of the same areas, place by place, and alike.
fn are_twin_parts(one: &[AreaOffers], other: &[AreaOffers]) -> bool
    ensures { IsTrue result → AreTwinParts one.now other.now }
{
    if one.len() != other.len() {
        return false;
    }
    for place in 0..one.len() {
        if !is_twin_part(&one[place], &other[place]) {
            return false;
        }
    }
    true
}

/// Whether two parts are of one area, and their offers alike.
fn is_twin_part(one: &AreaOffers, other: &AreaOffers) -> bool
    ensures { IsTrue result → IsTwinPart one.now other.now }
{
    one.area == other.area && are_alike(one.offers.as_slice(), other.offers.as_slice())
}
