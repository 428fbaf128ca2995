ghost use Rattle.std.specs.Prelude.{◌≡◌, ◌<◌, ◌⊎◌, ℕ, length, Any, All, Contains, IsTrue};
ghost use Rattle.route_tables.specs.declared.lane.Decision.TheVariants.{Unknown};
ghost use Rattle.ospf_routes.specs.steps.Areas.{AreListeners};
ghost use Rattle.ospf_routes.specs.steps.Destinations.{IsDestinationIn};
ghost use Rattle.ospf_routes.specs.steps.Lanes.{DecidesLane, IsInner, IsOfFew};
ghost use Rattle.ospf_routes.specs.steps.Heard.{AreHeardAt};

use crate::domain::Domain;
use crate::intra_area::{Destination, part_of};
use route_tables::Decision;
use walk_core::Offer;

/// What decides the routes for a prefix at the routers that are in the area at this place alone: what is offered in the
/// area, else what is announced into it, since none of them has an active range.
pub(crate) fn decision(
    domain: &Domain<'_>,
    listens: &[Option<usize>],
    zone: usize,
    destination: &Destination,
    heard: &[Offer],
) -> Decision
    requires zone { zone < length domain.now.areas }
    requires listens { AreListeners domain.now.net domain.now.areas (length domain.now.net) listens.now }
    requires destination { IsDestinationIn domain.now destination.now }
    requires heard { AreHeardAt domain.now destination.now.dest zone heard.now }
    ensures { DecidesLane (record { domain = domain.now; listens = listens.now; zone = zone }) destination.now.dest result }
{
    match part_of(destination.parts.as_slice(), domain.area(zone).number) {
        Some(part) => decision_of(domain, listens, zone, destination, part.offers.as_slice()),
        None => {
            if heard.is_empty() {
                return Decision::Nothing;
            }
            decision_of(domain, listens, zone, destination, heard)
        }
    }
}

/// One or two offers, where each router of the area alone that the prefix is connected at makes one of them.
fn decision_of(
    domain: &Domain<'_>,
    listens: &[Option<usize>],
    zone: usize,
    destination: &Destination,
    offers: &[Offer],
) -> Decision
    requires { All (λ u. u < length domain.now.net) destination.now.homes.items }
    ensures few { IsOfFew offers.now result }
    ensures told { (u : ℕ) → Contains destination.now.homes.items u → IsInner domain.now.net listens.now zone u →
        (result ≡ Unknown) ⊎ Any (λ o. o.at ≡ u) offers.now }
{
    if are_told(domain, listens, zone, destination.homes.as_slice(), offers) {
        return few(offers);
    }
    Decision::Unknown
}

/// One or two offers.
pub(crate) fn few(offers: &[Offer]) -> Decision
    ensures { IsOfFew offers.now result }
{
    match offers {
        [offer] => Decision::One(offer.at),
        [one, other] => Decision::Two(*one, *other),
        _ => Decision::Unknown,
    }
}

/// Whether each of these routers that is in the area alone makes one of the offers.
pub(crate) fn are_told(
    domain: &Domain<'_>,
    listens: &[Option<usize>],
    zone: usize,
    homes: &[u32],
    offers: &[Offer],
) -> bool
    requires { All (λ u. u < length domain.now.net) homes.now }
    ensures { IsTrue result → All (λ u. IsInner domain.now.net listens.now zone u → Any (λ o. o.at ≡ u) offers.now) homes.now }
{
    for home in homes {
        if !is_told(domain, listens, zone, *home, offers) {
            return false;
        }
    }
    true
}

/// Whether the router makes one of the offers, or isn't in the area alone.
fn is_told(
    domain: &Domain<'_>,
    listens: &[Option<usize>],
    zone: usize,
    u: u32,
    offers: &[Offer],
) -> bool
    requires { u < length domain.now.net }
    ensures { IsTrue result → IsInner domain.now.net listens.now zone u → Any (λ o. o.at ≡ u) offers.now }
{
    listens.get(u as usize).copied().flatten() != Some(zone)
        || offers.iter().any(|offer| offer.at == u)
        || domain.is_border(u)
}
