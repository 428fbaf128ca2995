ghost use Rattle.std.specs.Prelude.{◌≡◌, ◌<◌, ◌⊎◌, ℕ, [], length, slice_index_or, Some, None, All, Contains, IsTrue};
ghost use Rattle.igp_theory.specs.Ospf.{IsActiveRange};
ghost use Rattle.route_tables.specs.declared.lane.Decision.TheVariants.{Unknown};
ghost use Rattle.ospf_routes.specs.steps.Areas.{AreAreas, AreListeners};
ghost use Rattle.ospf_routes.specs.steps.Destinations.{IsDestinationIn};
ghost use Rattle.ospf_routes.specs.steps.Heard.{AreHeardAt};
ghost use Rattle.ospf_routes.specs.steps.Lanes.{DecidesListened, Excepts, IsNothing, IsOfHeard, lane_of_listeners};

use crate::domain::Domain;
use crate::intra_area::{AreaOffers, Destination};
use crate::lanes::few;
use route_tables::Decision;
use walk_core::Offer;

/// The routers of a network that listen to the area at a place.
#[derive(Clone, Copy, Debug)]
pub(crate) struct Listeners<'a> {
    /// The network and its areas.
    pub domain: &'a Domain<'a>,
    /// The places of the areas that its routers listen to.
    pub listens: &'a [Option<usize>],
    /// The place of that area.
    pub zone: usize,
}

/// What decides the routes for a prefix that is no active range at the routers that listen to an area, border routers too:
/// what that area alone offers, or what is announced into it where at most one other area offers the prefix. Border routers
/// of that other area have routes of their own, so of these the decision says nothing.
pub(crate) fn listened_decision(
    listeners: Listeners<'_>,
    destination: &Destination,
    heard: &[Offer],
) -> Decision
    requires areas { AreAreas listeners.domain.now.net listeners.domain.now.areas }
    requires zone { listeners.zone < length listeners.domain.now.areas }
    requires listens { AreListeners listeners.domain.now.net listeners.domain.now.areas (length listeners.domain.now.net)
        listeners.listens.now }
    requires destination { IsDestinationIn listeners.domain.now destination.now }
    requires heard { AreHeardAt listeners.domain.now destination.now.dest listeners.zone heard.now }
    requires no_range { (u : ℕ) → IsActiveRange listeners.domain.now.net destination.now.dest u → ⊥ }
    ensures { DecidesListened (lane_of_listeners listeners.entry) destination.now.dest result }
{
    match destination.parts.as_slice() {
        [] => excepting(
            listeners,
            destination.homes.as_slice(),
            &[],
            heard_decision(&[], heard),
        ),
        [part] => part_decision(listeners, destination, part, heard),
        _ => Decision::Unknown,
    }
}

/// The same where one area alone offers the prefix.
fn part_decision(
    listeners: Listeners<'_>,
    destination: &Destination,
    part: &AreaOffers,
    heard: &[Offer],
) -> Decision
    requires zone { listeners.zone < length listeners.domain.now.areas }
    requires listens { AreListeners listeners.domain.now.net listeners.domain.now.areas (length listeners.domain.now.net)
        listeners.listens.now }
    requires destination { IsDestinationIn listeners.domain.now destination.now }
    requires heard { AreHeardAt listeners.domain.now destination.now.dest listeners.zone heard.now }
    requires no_range { (u : ℕ) → IsActiveRange listeners.domain.now.net destination.now.dest u → ⊥ }
    requires one { length destination.now.parts.items ≡ 1 }
    requires part { Contains destination.now.parts.items part.now }
    ensures { DecidesListened (lane_of_listeners listeners.entry) destination.now.dest result }
{
    let homes = destination.homes.as_slice();
    if part.area == listeners.domain.area(listeners.zone).number {
        return excepting(listeners, homes, &[], few(part.offers.as_slice()));
    }
    let owners = listeners.domain.area(part.zone).borders.as_slice();
    excepting(listeners, homes, owners, heard_decision(owners, heard))
}

/// By what is announced into the area: one or two offers, and where there is none nothing, but of the owners of routes.
fn heard_decision(owners: &[u32], heard: &[Offer]) -> Decision
    ensures { IsOfHeard heard.now result }
{
    if heard.is_empty() {
        nothing_but(owners)
    } else {
        few(heard)
    }
}

/// Nothing, but of at most two routers.
fn nothing_but(owners: &[u32]) -> Decision
    ensures { IsNothing result }
{
    match owners {
        [] => Decision::Nothing,
        [owner] => Decision::NothingBut(*owner, *owner),
        [one, other] => Decision::NothingBut(*one, *other),
        _ => Decision::Unknown,
    }
}

/// The decision, where it says nothing of these owners of routes, nor of those homes that listen to the area.
fn excepting(
    listeners: Listeners<'_>,
    homes: &[u32],
    owners: &[u32],
    decision: Decision,
) -> Decision
    ensures is { (result ≡ decision) ⊎ (result ≡ Unknown) }
    ensures homes { All (λ u. slice_index_or listeners.entry.listens.now u None ≡ Some listeners.entry.zone → Excepts result u) homes.now }
    ensures owners { All (Excepts result) owners.now }
{
    if are_excepted(decision, owners) && homes_are_excepted(listeners, homes, decision) {
        decision
    } else {
        Decision::Unknown
    }
}

/// Whether the decision says nothing of each of these routers.
fn are_excepted(decision: Decision, routers: &[u32]) -> bool
    ensures { IsTrue result → All (Excepts decision) routers.now }
{
    for router in routers {
        if !is_excepted(decision, *router) {
            return false;
        }
    }
    true
}

/// Whether it says nothing of each of these routers that listens to the area.
fn homes_are_excepted(listeners: Listeners<'_>, homes: &[u32], decision: Decision) -> bool
    ensures { IsTrue result →
        All (λ u. slice_index_or listeners.entry.listens.now u None ≡ Some listeners.entry.zone → Excepts decision u) homes.now }
{
    for home in homes {
        if is_listening(listeners, *home) && !is_excepted(decision, *home) {
            return false;
        }
    }
    true
}

/// Whether the router listens to the area.
fn is_listening(listeners: Listeners<'_>, u: u32) -> bool
    ensures { slice_index_or listeners.entry.listens.now u None ≡ Some listeners.entry.zone → IsTrue result }
{
    listeners.listens.get(u as usize).copied().flatten() == Some(listeners.zone)
}

/// Whether the decision says nothing of the router.
fn is_excepted(decision: Decision, u: u32) -> bool
    ensures { IsTrue result → Excepts decision u }
{
    match decision {
        Decision::Nothing => false,
        Decision::NothingBut(one, other) => u == one || u == other,
        Decision::One(at) => u == at,
        Decision::Two(one, other) => u == one.at || u == other.at,
        Decision::Unknown => true,
    }
}
