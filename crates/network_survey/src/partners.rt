ghost use Rattle.std.specs.Prelude.{◌↔◌, Any, IsTrue};
ghost use Rattle.network_survey.specs.steps.Partners.{AreUnlike, IsThird, MissCosts, MissMasks};

use crate::port::Port;
use crate::scan::Oddness;
use net_model::{Zone, cost_in, is_link};

/// How two up interfaces don't fit each other.
#[derive(Clone, Copy)]
pub(crate) enum Unlikeness {
    /// One is in the subnet of the other, which isn't its own.
    Masks,
    /// They are the ends of a link of two routers, at two costs in their OSPF area.
    CostsInArea,
    /// They are so, in the zone.
    Costs(Zone),
}

/// The other of two up interfaces that don't fit each other.
#[derive(Drop)]
pub(crate) struct Partner<'p, 'a> {
    /// How they don't.
    pub unlikeness: Unlikeness,
    /// The first of them.
    pub one: &'p Port<'a>,
}

impl<'p, 'a> Oddness for Partner<'p, 'a> {
    ghost use Rattle.network_survey.specs.steps.Partners.{AreUnlike};

    ghost odd = { λ x ports port. AreUnlike x.unlikeness ports x.one.now port };

    fn is_odd(&self, ports: &[Port<'_>], port: &Port<'_>) -> bool {
        are_unlike(self.unlikeness, ports, self.one, port)
    }
}

/// Whether two ports are unlike so, the lower router's first.
fn are_unlike(unlikeness: Unlikeness, ports: &[Port<'_>], one: &Port<'_>, other: &Port<'_>) -> bool
    ensures { IsTrue result ↔ AreUnlike unlikeness ports.now one.now other.now }
{
    match unlikeness {
        Unlikeness::Masks => miss_masks(one, other),
        Unlikeness::CostsInArea => match one.interface.area {
            Some(area) => miss_costs(ports, Zone::Area(area), one, other),
            None => false,
        },
        Unlikeness::Costs(zone) => miss_costs(ports, zone, one, other),
    }
}

/// Whether one of two routers' ports, none a loopback, is in the subnet of the other, which isn't its own.
fn miss_masks(one: &Port<'_>, other: &Port<'_>) -> bool
    ensures { IsTrue result ↔ MissMasks one.now other.now }
{
    one.router < other.router
        && !one.interface.loopback
        && !other.interface.loopback
        && one.subnet != other.subnet
        && (one.subnet.contains(other.interface.address)
            || other.subnet.contains(one.interface.address))
}

/// Whether two ports are the ends of a link of two routers, at two costs in the zone.
fn miss_costs(ports: &[Port<'_>], zone: Zone, one: &Port<'_>, other: &Port<'_>) -> bool
    ensures { IsTrue result ↔ MissCosts ports.now zone one.now other.now }
{
    one.router < other.router
        && one.subnet == other.subnet
        && is_link(zone, one.interface)
        && is_link(zone, other.interface)
        && cost_in(zone, one.interface) != cost_in(zone, other.interface)
        && !ports.iter().any(|third| is_third(one, other, third))
}

/// Whether a third port is of the subnet, and of neither router.
fn is_third(one: &Port<'_>, other: &Port<'_>, third: &Port<'_>) -> bool
    ensures { IsTrue result ↔ IsThird one.now other.now third.now }
{
    third.subnet == one.subnet && third.router != one.router && third.router != other.router
}
