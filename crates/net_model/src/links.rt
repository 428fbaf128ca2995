ghost use Rattle.std.specs.Prelude.{◌≡◌, ◌↔◌, ◌≤◌, Any, IsTrue};
ghost use Rattle.net_model.specs.Least.{IsBest};
ghost use Rattle.net_model.specs.Network.{MayJoin, RunsIn, cost_in};
ghost use Rattle.net_model.specs.Links.{IsLink, lower_of};
ghost use Rattle.net_model.specs.steps.BestLinks.{BestLink, Joins, OffersCost, ShareSubnet};

use crate::{Config, Interface, Zone};

/// The least cost of an interface in the first list that makes two routers adjacent in the zone.
pub(crate) fn best_link(zone: Zone, nears: &[Interface], fars: &[Interface]) -> Option<u32>
    ensures { BestLink zone nears.now fars.now result }
{
    let mut best = None;
    for near in nears {
        best = lower(best, link_cost(zone, near, fars));
    }
    best
}

/// The lower of two costs, or the one that there is.
pub(crate) fn lower(one: Option<u32>, other: Option<u32>) -> Option<u32>
    ensures { result ≡ lower_of one other }
{
    match (one, other) {
        (Some(a), Some(b)) => Some(a.min(b)),
        (Some(a), None) => Some(a),
        (None, b) => b,
    }
}

/// What the interface costs in the zone, if it makes its router adjacent to that of the others.
fn link_cost(zone: Zone, near: &Interface, fars: &[Interface]) -> Option<u32>
    ensures { IsBest (λ a b. a ≤ b) (λ cost. OffersCost zone fars.now cost near.now) result }
{
    if joins_some(zone, near, fars) {
        Some(cost_in(zone, near))
    } else {
        None
    }
}

/// Whether an interface makes its router adjacent in the zone to that of the others (RFC 2328, section 16.1; RFC 1195).
fn joins_some(zone: Zone, near: &Interface, fars: &[Interface]) -> bool
    ensures { IsTrue result ↔ Any (Joins zone near.now) fars.now }
{
    fars.iter().any(|far| joins(zone, near, far))
}

/// Whether two interfaces make their routers adjacent in the zone.
fn joins(zone: Zone, near: &Interface, far: &Interface) -> bool
    ensures { IsTrue result ↔ Joins zone near.now far.now }
{
    is_link(zone, near) && is_link(zone, far) && share_subnet(near, far)
}

/// Whether two interfaces have one subnet.
pub(crate) fn share_subnet(near: &Interface, far: &Interface) -> bool
    ensures { IsTrue result ↔ ShareSubnet near.now far.now }
{
    match (near.subnet, far.subnet) {
        (Some(one), Some(other)) => one == other,
        _ => false,
    }
}

/// Whether an interface may take part in an adjacency of the zone.
pub fn is_link(zone: Zone, interface: &Interface) -> bool
    ensures { IsTrue result ↔ IsLink zone interface.now }
{
    interface.up && !interface.loopback && runs_in(zone, interface)
}

/// Whether an interface forms adjacencies in the zone.
fn runs_in(zone: Zone, interface: &Interface) -> bool
    ensures { IsTrue result ↔ RunsIn zone interface.now }
{
    match zone {
        Zone::Area(number) => interface.area == Some(number) && !interface.ospf_passive,
        Zone::One => interface.level1 && !interface.isis_passive,
        Zone::Two => interface.level2 && !interface.isis_passive,
    }
}

/// What it costs to send on an interface, in the zone.
pub fn cost_in(zone: Zone, interface: &Interface) -> u32
    ensures { result ≡ cost_in zone interface.now }
{
    match zone {
        Zone::Area(_) => interface.cost,
        Zone::One => interface.metric1,
        Zone::Two => interface.metric2,
    }
}

/// Whether the zone joins two routers: level 1 joins those of one IS-IS area alone.
pub fn may_join(zone: Zone, near: &Config, far: &Config) -> bool
    ensures { IsTrue result ↔ MayJoin zone near.now far.now }
{
    match zone {
        Zone::One => near.isis_area.as_slice() == far.isis_area.as_slice(),
        _ => true,
    }
}
