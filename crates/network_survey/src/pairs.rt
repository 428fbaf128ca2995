ghost use Rattle.std.specs.Prelude.{◌≡◌, ◌++◌, IfOk, OnOk};
ghost use Rattle.net_model.specs.Network.{Network};
ghost use Rattle.network_survey.specs.Pairs.{AreUneven, AreUnevenInArea, DifferInMask, ListsPairs};
ghost use Rattle.network_survey.specs.Ports.{IsUpPort, ListsUpPorts};
ghost use Rattle.network_survey.specs.steps.PortLists.{Selects};
ghost use Rattle.network_survey.specs.steps.Partners.{AreUnlike, SelectsPairs, pairs_with};

use crate::OutOfMemory;
use crate::partners::{Partner, Unlikeness};
use crate::port::Port;
use crate::scan::odd_ports;
use net_model::Zone;
use std::alloc::Global;
use std::marker::Model;

/// Two up interfaces.
#[derive(Drop)]
pub struct PortPair<'a> {
    /// The first.
    pub one: Port<'a>,
    /// The second.
    pub other: Port<'a>,
}

impl<'a> Model for PortPair<'a> {
    ghost use Rattle.network_survey.specs.Pairs.{PortPair};

    ghost Value = { PortPair };

    ghost view = { λ x. record { one = x.one; other = x.other } };
}

/// Of the up interfaces of a network the pairs that are in one another's subnet, but not of one subnet.
pub fn mask_pairs<'a>(alloc: Global, ports: &[Port<'a>]) -> Result<Vec<PortPair<'a>>, OutOfMemory>
    ensures { IfOk result (λ found. (net : Network) → ListsUpPorts (IsUpPort net) ports.now → ListsPairs (DifferInMask net) found.items) }
{
    unlike_pairs(alloc, Unlikeness::Masks, ports)
}

/// Of the up interfaces of a network the pairs that are the ends of a link of two routers, at two costs in their OSPF area.
pub fn uneven_in_area<'a>(
    alloc: Global,
    ports: &[Port<'a>],
) -> Result<Vec<PortPair<'a>>, OutOfMemory>
    ensures { IfOk result (λ found. (net : Network) → ListsUpPorts (IsUpPort net) ports.now → ListsPairs (AreUnevenInArea net) found.items) }
{
    unlike_pairs(alloc, Unlikeness::CostsInArea, ports)
}

/// Of the up interfaces of a network the pairs that are the ends of a link of two routers, at two costs in the zone.
pub fn uneven_in<'a>(
    alloc: Global,
    zone: Zone,
    ports: &[Port<'a>],
) -> Result<Vec<PortPair<'a>>, OutOfMemory>
    ensures { IfOk result (λ found. (net : Network) → ListsUpPorts (IsUpPort net) ports.now → ListsPairs (AreUneven net zone) found.items) }
{
    unlike_pairs(alloc, Unlikeness::Costs(zone), ports)
}

/// The pairs of ports that are unlike so, in their order.
fn unlike_pairs<'a>(
    alloc: Global,
    unlikeness: Unlikeness,
    ports: &[Port<'a>],
) -> Result<Vec<PortPair<'a>>, OutOfMemory>
    ensures { IfOk result (λ found. SelectsPairs (AreUnlike unlikeness ports.now) ports.now ports.now found.items) }
{
    let mut found = Vec::new(alloc);
    for one in ports {
        let others = partners(alloc, unlikeness, ports, one)?;
        push_pairs(&mut found, one, others.as_slice())?;
    }
    Ok(found)
}

/// The ports that one of them is unlike so.
fn partners<'a>(
    alloc: Global,
    unlikeness: Unlikeness,
    ports: &[Port<'a>],
    one: &Port<'a>,
) -> Result<Vec<Port<'a>>, OutOfMemory>
    ensures { IfOk result (λ found. Selects (AreUnlike unlikeness ports.now one.now) ports.now found.items) }
{
    let partner = Partner { unlikeness, one };
    odd_ports(alloc, &partner, ports)
}

/// Adds the pairs of a port with each of these.
fn push_pairs<'a>(
    found: &mut Vec<PortPair<'a>>,
    one: &Port<'a>,
    others: &[Port<'a>],
) -> Result<(), OutOfMemory>
    ensures { OnOk result (found.new.items ≡ found.old.items ++ pairs_with one.now others.now) }
{
    for other in others {
        found.push(PortPair {
            one: one.again(),
            other: other.again(),
        })?;
    }
    Ok(())
}
