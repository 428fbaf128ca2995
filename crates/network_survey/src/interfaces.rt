ghost use Rattle.std.specs.Prelude.{◌↔◌, Any, IfOk, IsTrue};
ghost use Rattle.net_model.specs.Network.{Network};
ghost use Rattle.network_survey.specs.Interfaces.{IsHalf, IsOneSided, IsOneSidedInArea};
ghost use Rattle.network_survey.specs.Ports.{IsUpPort, ListsUpPorts};
ghost use Rattle.network_survey.specs.steps.Sharing.{FacesOther, FacesPeer, SeesNoPeer, SeesOther, SeesPeer};

use crate::OutOfMemory;
use crate::port::Port;
use crate::scan::{Oddness, odd_ports};
use net_model::{Zone, is_link};
use std::alloc::Global;

/// Of the up interfaces of a network those that run OSPF unpassively where no other router has an up interface of the subnet.
pub fn half_ports<'a>(alloc: Global, ports: &[Port<'a>]) -> Result<Vec<Port<'a>>, OutOfMemory>
    ensures { IfOk result (λ found. (net : Network) → ListsUpPorts (IsUpPort net) ports.now → ListsUpPorts (IsHalf net) found.items) }
{
    odd_ports(alloc, &Half, ports)
}

/// Of the up interfaces of a network those that alone send in their OSPF area on a subnet that other routers share.
pub fn one_sided_in_area<'a>(
    alloc: Global,
    ports: &[Port<'a>],
) -> Result<Vec<Port<'a>>, OutOfMemory>
    ensures { IfOk result (λ found. (net : Network) → ListsUpPorts (IsUpPort net) ports.now →
        ListsUpPorts (IsOneSidedInArea net) found.items) }
{
    odd_ports(alloc, &OneSidedInArea, ports)
}

/// Of the up interfaces of a network those that alone send in the zone on a subnet that other routers share.
pub fn one_sided_in<'a>(
    alloc: Global,
    zone: Zone,
    ports: &[Port<'a>],
) -> Result<Vec<Port<'a>>, OutOfMemory>
    ensures { IfOk result (λ found. (net : Network) → ListsUpPorts (IsUpPort net) ports.now → ListsUpPorts (IsOneSided net zone) found.items) }
{
    odd_ports(alloc, &OneSided { zone }, ports)
}

/// Another router has an up interface of the subnet.
#[derive(Drop)]
pub(crate) struct Shared;

impl Oddness for Shared {
    ghost use Rattle.network_survey.specs.steps.Sharing.{SeesOther};

    ghost odd = { λ _ ports port. SeesOther ports port };

    fn is_odd(&self, ports: &[Port<'_>], port: &Port<'_>) -> bool {
        sees_other(ports, port)
    }
}

/// OSPF sends on the interface, and no other router is there.
#[derive(Drop)]
struct Half;

impl Oddness for Half {
    ghost use Rattle.network_survey.specs.steps.Sharing.{SeesNobody};

    ghost odd = { λ _ ports port. SeesNobody ports port };

    fn is_odd(&self, ports: &[Port<'_>], port: &Port<'_>) -> bool {
        let interface = port.interface;
        interface.area.is_some()
            && !interface.loopback
            && !interface.ospf_passive
            && !sees_other(ports, port)
    }
}

/// OSPF sends on the interface, and on none of the other routers that are there.
#[derive(Drop)]
struct OneSidedInArea;

impl Oddness for OneSidedInArea {
    ghost use Rattle.network_survey.specs.steps.Sharing.{SeesNoPeerInArea};

    ghost odd = { λ _ ports port. SeesNoPeerInArea ports port };

    fn is_odd(&self, ports: &[Port<'_>], port: &Port<'_>) -> bool {
        match port.interface.area {
            Some(area) => sees_no_peer(ports, Zone::Area(area), port),
            None => false,
        }
    }
}

/// A protocol sends on the interface, and on none of the other routers that are there.
#[derive(Drop)]
struct OneSided {
    zone: Zone,
}

impl Oddness for OneSided {
    ghost use Rattle.network_survey.specs.steps.Sharing.{SeesNoPeer};

    ghost odd = { λ x ports port. SeesNoPeer ports x.zone port };

    fn is_odd(&self, ports: &[Port<'_>], port: &Port<'_>) -> bool {
        sees_no_peer(ports, self.zone, port)
    }
}

/// Whether the port may take part in adjacencies of the zone, and no other router does on its subnet, which others have.
fn sees_no_peer(ports: &[Port<'_>], zone: Zone, port: &Port<'_>) -> bool
    ensures { IsTrue result ↔ SeesNoPeer ports.now zone port.now }
{
    is_link(zone, port.interface) && sees_other(ports, port) && !sees_peer(ports, zone, port)
}

/// Whether one of the ports is of another router and of this port's subnet.
fn sees_other(ports: &[Port<'_>], port: &Port<'_>) -> bool
    ensures { IsTrue result ↔ SeesOther ports.now port.now }
{
    ports.iter().any(|other| faces(port, other))
}

/// Whether one of them is so, and may take part in adjacencies of the zone.
fn sees_peer(ports: &[Port<'_>], zone: Zone, port: &Port<'_>) -> bool
    ensures { IsTrue result ↔ SeesPeer ports.now zone port.now }
{
    ports.iter().any(|other| is_peer(zone, port, other))
}

/// Whether the other port is of another router and of this port's subnet.
fn faces(port: &Port<'_>, other: &Port<'_>) -> bool
    ensures { IsTrue result ↔ FacesOther port.now other.now }
{
    other.router != port.router && other.subnet == port.subnet
}

/// Whether it is so, and may take part in adjacencies of the zone.
fn is_peer(zone: Zone, port: &Port<'_>, other: &Port<'_>) -> bool
    ensures { IsTrue result ↔ FacesPeer zone port.now other.now }
{
    faces(port, other) && is_link(zone, other.interface)
}
