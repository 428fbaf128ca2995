ghost use Rattle.std.specs.Prelude.{◌≡◌, ◌+◌, ◌++◌, ◌<◌, length, IfOk, OnOk};
ghost use Rattle.network_survey.specs.Ports.{IsUpPort, ListsUpPorts};
ghost use Rattle.network_survey.specs.steps.PortLists.{IsPortTo, port_at};

use crate::OutOfMemory;
use net_addr::Prefix;
use net_model::{Interface, Net};
use std::alloc::Global;
use std::marker::Model;

/// An up interface with its subnet, and where it stands.
#[derive(Drop)]
pub struct Port<'a> {
    /// The number of its router.
    pub router: u32,
    /// Its place among the interfaces of its router's configuration.
    pub place: usize,
    /// Its subnet.
    pub subnet: Prefix,
    /// The interface.
    pub interface: &'a Interface,
}

impl<'a> Model for Port<'a> {
    ghost use Rattle.network_survey.specs.Ports.{Port};

    ghost Value = { Port };

    ghost view = { λ x. record { router = x.router; place = x.place; subnet = x.subnet; interface = x.interface.now } };
}

impl<'a> Port<'a> {
    ghost use Rattle.std.specs.Prelude.{◌≡◌};

    /// The same interface again.
    pub(crate) fn again(&self) -> Port<'a>
        ensures { result ≡ self.now }
    {
        Port {
            router: self.router,
            place: self.place,
            subnet: self.subnet,
            interface: self.interface,
        }
    }
}

/// The up interfaces of a network, in their order.
pub fn up_ports(alloc: Global, net: &Net) -> Result<Vec<Port<'_>>, OutOfMemory>
    ensures { IfOk result (λ ports. ListsUpPorts (IsUpPort net.now) ports.items) }
{
    let mut ports = Vec::new(alloc);
    for router in 0..net.routers() {
        push_ports(&mut ports, net, router)?;
    }
    Ok(ports)
}

/// Adds the up interfaces of a router to those of the routers before it.
fn push_ports<'a>(ports: &mut Vec<Port<'a>>, net: &'a Net, router: u32) -> Result<(), OutOfMemory>
    requires router { router < length net.now }
    requires before { ListsUpPorts (IsPortTo net.now router 0) ports.old.items }
    ensures { OnOk result (ListsUpPorts (IsPortTo net.now (router + 1) 0) ports.new.items) }
{
    let interfaces = net.config(router).interfaces.as_slice();
    for place in 0..interfaces.len() {
        push_port(ports, router, place, &interfaces[place])?;
    }
    Ok(())
}

/// Adds the interface at a place of a router, if it is up and has a subnet.
fn push_port<'a>(
    ports: &mut Vec<Port<'a>>,
    router: u32,
    place: usize,
    interface: &'a Interface,
) -> Result<(), OutOfMemory>
    ensures { OnOk result (ports.new.items ≡ ports.old.items ++ port_at router place interface.now) }
{
    match interface.subnet {
        Some(subnet) if interface.up => Ok(ports.push(Port {
            router,
            place,
            subnet,
            interface,
        })?),
        _ => Ok(()),
    }
}
