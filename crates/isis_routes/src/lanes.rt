ghost use Rattle.std.specs.Prelude.{◌≡◌, ◌<◌, ◌↔◌, Some, All, Any, IfSome, IsTrue, length};
ghost use Rattle.isis_routes.specs.steps.Destinations.{HasAnnouncements, IsLevelOne};
ghost use Rattle.isis_routes.specs.steps.Lanes.{IsBehindIn, IsDecisionBy, IsDecisionIn, IsDecisionOf, IsFirstOf, IsInLane, IsSecondOf};
ghost use Rattle.isis_routes.specs.steps.Lanes.{MakesOne, first_level, lane_number};
ghost use Rattle.isis_routes.specs.steps.Levels.{zone_number};
ghost use Rattle.isis_routes.specs.declared.level.Level.TheVariants.{One, Two};

use crate::destinations::Destination;
use crate::domain::Domain;
use crate::level::Level;
use crate::level_one::LevelOne;
use crate::level_walks::ZONE_TWO;
use route_tables::{Behind, Decision, is_all_addresses};
use walk_core::Offer;

/// How many lanes routers fall into: three by the levels that they run, and one for those that run neither.
pub(crate) const LANES: usize = 4;

/// The routers that run the same levels, which take their routes from the same offers.
#[derive(Clone, Copy, Debug)]
pub(crate) enum LevelLane {
    /// Those of level 1 alone.
    OneAlone,
    /// Those of level 2 alone.
    TwoAlone,
    /// Those of both levels.
    Both,
}

impl LevelLane {
    /// The number of the zone in which they look first: that of level 1, where they run it.
    pub fn zone(self) -> usize
        ensures { result ≡ zone_number (first_level self) }
    {
        match self {
            LevelLane::OneAlone | LevelLane::Both => Level::One.zone(),
            LevelLane::TwoAlone => Level::Two.zone(),
        }
    }
}

/// The lane that a router is in by the levels that it runs.
pub(crate) fn router_lane(domain: &Domain<'_>, router: u32) -> Option<LevelLane>
    requires { router < length domain.now.net }
    ensures { IfSome result (λ lane. IsInLane domain.now.net lane router) }
{
    if !domain.runs_level_one(router) {
        if domain.runs_level_two(router) {
            return Some(LevelLane::TwoAlone);
        }
        return None;
    }
    if domain.runs_level_two(router) {
        return Some(LevelLane::Both);
    }
    Some(LevelLane::OneAlone)
}

/// The number of a lane, or of the lane of routers that run neither level.
pub(crate) fn number_of_lane(lane: Option<LevelLane>) -> usize
    ensures lane { (l : LevelLane) → lane_number l ≡ result → lane ≡ Some l }
    ensures below { result < LANES }
{
    match lane {
        Some(LevelLane::OneAlone) => 0,
        Some(LevelLane::TwoAlone) => 1,
        Some(LevelLane::Both) => 2,
        None => LANES - 1,
    }
}

/// The lane that has this number.
pub(crate) fn lane_of_number(number: usize) -> Option<LevelLane>
    ensures { IfSome result (λ lane. lane_number lane ≡ number) }
{
    match number {
        0 => Some(LevelLane::OneAlone),
        1 => Some(LevelLane::TwoAlone),
        2 => Some(LevelLane::Both),
        _ => None,
    }
}

/// What decides the routes of the routers of a lane for a destination.
pub(crate) fn decision_of(
    domain: &Domain<'_>,
    destination: &Destination,
    lane: LevelLane,
) -> Decision
    requires { HasAnnouncements domain.now.net destination.now }
    ensures { IsDecisionOf domain.now.net lane destination.now result }
{
    match lane {
        LevelLane::OneAlone => level_one_decision(domain, destination),
        LevelLane::TwoAlone => level_two_decision(domain, destination),
        LevelLane::Both => offers_decision(domain, destination),
    }
}

/// What decides the routes of routers that run level 1 alone: the level 1 offers, and where there are none what is leaked.
fn level_one_decision(domain: &Domain<'_>, destination: &Destination) -> Decision
    requires { HasAnnouncements domain.now.net destination.now }
    ensures { IsDecisionIn domain.now.net destination.now result }
{
    if destination.one.offers.as_slice().is_empty() {
        let down = destination.down.as_slice();
        return decision_by(domain, Level::One, &destination.one, down);
    }
    offers_decision(domain, destination)
}

/// The decision of the level 1 offers.
fn offers_decision(domain: &Domain<'_>, destination: &Destination) -> Decision
    requires { HasAnnouncements domain.now.net destination.now }
    ensures { IsDecisionBy domain.now.net One destination.now.one.homes.items destination.now.one.offers.items result }
{
    let offers = destination.one.offers.as_slice();
    decision_by(domain, Level::One, &destination.one, offers)
}

/// What decides the routes of routers that run level 2 and have no level 1 route: what is announced there.
fn level_two_decision(domain: &Domain<'_>, destination: &Destination) -> Decision
    requires { HasAnnouncements domain.now.net destination.now }
    ensures { IsDecisionBy domain.now.net Two destination.now.one.homes.items destination.now.two.items result }
{
    let offers = destination.two.as_slice();
    decision_by(domain, Level::Two, &destination.one, offers)
}

/// What decides over a zone where the routers of a lane reach none of the level 1 offers.
pub(crate) fn behind_of(
    domain: &Domain<'_>,
    destination: &Destination,
    lane: LevelLane,
    zone: usize,
) -> Behind
    requires { HasAnnouncements domain.now.net destination.now }
    ensures { IsBehindIn domain.now.net lane zone destination.now result }
{
    let first = first_of_level_one(domain, destination);
    let second = match lane {
        LevelLane::OneAlone => decision_without(destination),
        LevelLane::Both if zone == ZONE_TWO => level_two_decision(domain, destination),
        _ => Decision::Unknown,
    };
    Behind { first, second }
}

/// The decision of the level 1 offers, and that there is nothing where there are none.
fn first_of_level_one(domain: &Domain<'_>, destination: &Destination) -> Decision
    requires { HasAnnouncements domain.now.net destination.now }
    ensures { IsFirstOf domain.now.net destination.now result }
{
    if destination.one.offers.as_slice().is_empty() {
        return Decision::Nothing;
    }
    offers_decision(domain, destination)
}

/// What decides for routers that run level 1 alone and have no level 1 route: they have no entry where nothing is leaked and
/// the default isn't asked for.
fn decision_without(destination: &Destination) -> Decision
    ensures { IsSecondOf destination.now result }
{
    if is_all_addresses(destination.one.dest) || !destination.down.as_slice().is_empty() {
        return Decision::Unknown;
    }
    Decision::Nothing
}

/// The decision of one or two offers, where each router of the level at which the prefix is connected makes one.
fn decision_by(domain: &Domain<'_>, level: Level, one: &LevelOne, offers: &[Offer]) -> Decision
    requires { IsLevelOne domain.now.net one.now }
    ensures { IsDecisionBy domain.now.net level one.now.homes.items offers.now result }
{
    match offers {
        [offer] if all_offer(domain, level, one, offers) => Decision::One(offer.at),
        [first, second] if all_offer(domain, level, one, offers) => Decision::Two(*first, *second),
        _ => Decision::Unknown,
    }
}

/// Whether each router of the level at which the prefix is connected makes one of the offers.
fn all_offer(domain: &Domain<'_>, level: Level, one: &LevelOne, offers: &[Offer]) -> bool
    requires { IsLevelOne domain.now.net one.now }
    ensures { IsTrue result → All (MakesOne domain.now.net level offers.now) one.now.homes.items }
{
    for router in one.homes.as_slice() {
        if !makes_one(domain, level, *router, offers) {
            return false;
        }
    }
    true
}

/// Whether the router makes one of the offers, or doesn't run the level.
fn makes_one(domain: &Domain<'_>, level: Level, router: u32, offers: &[Offer]) -> bool
    requires { router < length domain.now.net }
    ensures { IsTrue result → MakesOne domain.now.net level offers.now router }
{
    is_made(router, offers) || !domain.runs(level, router)
}

/// Whether the router makes one of the offers.
fn is_made(router: u32, offers: &[Offer]) -> bool
    ensures { IsTrue result ↔ Any (λ o. o.at ≡ router) offers.now }
{
    offers.iter().any(|offer| offer.at == router)
}
