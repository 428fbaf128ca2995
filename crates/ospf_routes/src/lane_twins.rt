ghost use Rattle.std.specs.Prelude.{◌≡◌, ◌+◌, ◌<◌, length, IfOk, IfSome, IsTrue};
ghost use Rattle.ospf_routes.specs.steps.Areas.{AreListeners};
ghost use Rattle.ospf_routes.specs.steps.Destinations.{AreOspfDestinations, IsDestination, ospf_prefixes};
ghost use Rattle.ospf_routes.specs.steps.LaneTwins.{AreAllLaneTwins, AreLaneAlike, AreOutsideBelow, IsOutsideLane, heard_lane};
ghost use Rattle.ospf_routes.specs.steps.Heard.{AreSummaries};
ghost use Rattle.ospf_routes.specs.steps.Twins.{AreEarlierBy, AreTwins, IsEarlierBy};

use crate::OutOfMemory;
use crate::domain::Domain;
use crate::intra_area::{Destination, part_of};
use crate::lanes::are_told;
use crate::latest::{Latest, number_of_announcer};
use crate::summaries::Summaries;
use route_tables::are_alike;
use std::alloc::Global;
use std::marker::Model;

/// The prefixes of a network, whom its routers listen to, and what is announced of each prefix into each area.
#[derive(Clone, Copy)]
pub(crate) struct Heard<'a> {
    /// The network and its areas.
    pub domain: &'a Domain<'a>,
    /// The prefixes.
    pub destinations: &'a [Destination],
    /// The places of the areas that the routers listen to.
    pub listens: &'a [Option<usize>],
    /// What is announced.
    pub summaries: &'a Summaries,
}

/// For each prefix an earlier one with the same entries at every router that is in an area and in no other, where one is found.
#[derive(Debug, Drop)]
pub(crate) struct LaneTwins {
    all: Vec<Option<usize>>,
}

impl Model for LaneTwins {
    ghost use Rattle.std.specs.Prelude.{ℕ, List, Option};

    ghost Value = { List (Option ℕ) };

    ghost view = { λ x. x.all.items };
}

impl LaneTwins {
    /// Those of the area at this place: prefixes with the same entries everywhere, else prefixes of other areas that are
    /// announced alike into it. They take time of the prefixes, of their homes, and of what is announced of them into the area.
    fn of_area(
        alloc: Global,
        heard: Heard<'_>,
        twins: &[Option<usize>],
        zone: usize,
    ) -> Result<LaneTwins, OutOfMemory>
        requires zone { zone < length heard.domain.now.areas }
        requires destinations { AreOspfDestinations heard.domain.now heard.destinations.now }
        requires listens { AreListeners heard.domain.now.net heard.domain.now.areas (length heard.domain.now.net)
            heard.listens.now }
        requires summaries { AreSummaries heard.domain.now heard.destinations.now heard.summaries.now }
        requires twins { AreTwins heard.domain.now.net (ospf_prefixes heard.destinations.now) twins.now }
        ensures { IfOk result (AreEarlierBy (AreLaneAlike (heard_lane heard.entry zone))
            (ospf_prefixes heard.entry.destinations.now) (length heard.entry.destinations.now)) }
    {
        let mut latest = Latest::none(alloc, 1 + heard.domain.routers() as usize)?;
        let mut all = Vec::with_capacity(alloc, heard.destinations.len())?;
        for place in 0..heard.destinations.len() {
            all.push(lane_twin(heard, twins, zone, &mut latest, place))?;
        }
        Ok(LaneTwins { all })
    }

    /// They as a slice, in the order of the prefixes.
    pub fn as_slice(&self) -> &[Option<usize>]
        ensures { result.now ≡ self.now }
    {
        self.all.as_slice()
    }
}

/// For each area and prefix an earlier prefix with the same entries at every router that is in the area alone, where one is
/// found.
pub(crate) fn all_lane_twins(
    alloc: Global,
    heard: Heard<'_>,
    twins: &[Option<usize>],
) -> Result<Vec<LaneTwins>, OutOfMemory>
    requires destinations { AreOspfDestinations heard.domain.now heard.destinations.now }
    requires listens { AreListeners heard.domain.now.net heard.domain.now.areas (length heard.domain.now.net) heard.listens.now }
    requires summaries { AreSummaries heard.domain.now heard.destinations.now heard.summaries.now }
    requires twins { AreTwins heard.domain.now.net (ospf_prefixes heard.destinations.now) twins.now }
    ensures { IfOk result (λ all. AreAllLaneTwins heard.entry.domain.now heard.entry.destinations.now
        heard.entry.listens.now all.items) }
{
    let mut all = Vec::with_capacity(alloc, heard.domain.zones())?;
    for zone in 0..heard.domain.zones() {
        all.push(LaneTwins::of_area(alloc, heard, twins, zone)?)?;
    }
    Ok(all)
}

/// An earlier prefix with the same entries everywhere, where one is known. Else the latest one before that is announced alike
/// into the area, where both are outside of it.
fn lane_twin(
    heard: Heard<'_>,
    twins: &[Option<usize>],
    zone: usize,
    latest: &mut Latest,
    place: usize,
) -> Option<usize>
    requires zone { zone < length heard.domain.now.areas }
    requires destinations { AreOspfDestinations heard.domain.now heard.destinations.now }
    requires listens { AreListeners heard.domain.now.net heard.domain.now.areas (length heard.domain.now.net) heard.listens.now }
    requires summaries { AreSummaries heard.domain.now heard.destinations.now heard.summaries.now }
    requires twins { AreTwins heard.domain.now.net (ospf_prefixes heard.destinations.now) twins.now }
    requires place { place < length heard.destinations.now }
    requires latest { AreOutsideBelow (heard_lane heard zone) heard.destinations.now place latest.old }
    ensures latest { AreOutsideBelow (heard_lane heard.entry zone) heard.entry.destinations.now (place + 1) latest.new }
    ensures twin { IfSome result (IsEarlierBy (AreLaneAlike (heard_lane heard.entry zone))
        (ospf_prefixes heard.entry.destinations.now) place) }
{
    match twins[place] {
        Some(twin) => Some(twin),
        None => outside_twin(heard, zone, latest, place),
    }
}

/// The latest prefix before that is outside the area too, and has its first announcement from the same router or none either,
/// where both are announced alike into the area. What such announcements cost differs by a constant, which decides nothing, as
/// the routers that are in the area alone have no other routes.
fn outside_twin(heard: Heard<'_>, zone: usize, latest: &mut Latest, place: usize) -> Option<usize>
    requires zone { zone < length heard.domain.now.areas }
    requires destinations { AreOspfDestinations heard.domain.now heard.destinations.now }
    requires listens { AreListeners heard.domain.now.net heard.domain.now.areas (length heard.domain.now.net) heard.listens.now }
    requires summaries { AreSummaries heard.domain.now heard.destinations.now heard.summaries.now }
    requires place { place < length heard.destinations.now }
    requires latest { AreOutsideBelow (heard_lane heard zone) heard.destinations.now place latest.old }
    ensures latest { AreOutsideBelow (heard_lane heard.entry zone) heard.entry.destinations.now (place + 1) latest.new }
    ensures twin { IfSome result (IsEarlierBy (AreLaneAlike (heard_lane heard.entry zone))
        (ospf_prefixes heard.entry.destinations.now) place) }
{
    let destinations = heard.destinations;
    let near = &destinations[place];
    if !is_outside(heard.domain, heard.listens, zone, near) {
        return None;
    }
    let announced = heard.summaries.into_area(place, zone);
    let earlier = latest.replace(number_of_announcer(announced), place)?;
    if are_alike(heard.summaries.into_area(earlier, zone), announced) {
        Some(earlier)
    } else {
        None
    }
}

/// Whether nothing is offered of a prefix within the area at this place, and the prefix is connected at no router that is in
/// that area alone.
fn is_outside(
    domain: &Domain<'_>,
    listens: &[Option<usize>],
    zone: usize,
    destination: &Destination,
) -> bool
    requires zone { zone < length domain.now.areas }
    requires destination { IsDestination domain.now.net destination.now }
    ensures { IsTrue result → IsOutsideLane (record { domain = domain.now; listens = listens.now; zone = zone }) destination.now }
{
    match part_of(destination.parts.as_slice(), domain.area(zone).number) {
        Some(_) => false,
        None => are_told(domain, listens, zone, destination.homes.as_slice(), &[]),
    }
}
