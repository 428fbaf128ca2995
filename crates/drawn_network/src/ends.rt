ghost use Rattle.std.specs.Prelude.{◌≡◌, ◌++◌, IfOk, OnOk};
ghost use Rattle.drawn_network.specs.LinkEnds.{end_at, router_ends, ends_of, interfaces_at};

use crate::OutOfMemory;
use net_addr::Prefix;
use net_model::{Interface, Net};
use std::alloc::Global;
use std::marker::Model;

/// An end of a link: an up interface, no loopback, with its router and its subnet.
#[derive(Drop)]
pub(crate) struct LinkEnd<'a> {
    /// The number of the router.
    pub router: u32,
    /// The subnet of the interface.
    pub subnet: Prefix,
    /// The interface.
    pub interface: &'a Interface,
}

impl<'a> Model for LinkEnd<'a> {
    ghost use Rattle.drawn_network.specs.LinkEnds.{LinkEnd};

    ghost Value = { LinkEnd };

    ghost view = { λ x. record { router = x.router; subnet = x.subnet; interface = x.interface.now } };
}

impl<'a> LinkEnd<'a> {
    ghost use Rattle.std.specs.Prelude.{◌≡◌};
    ghost use Rattle.drawn_network.specs.LinkEnds.{share_link, share_subnet};

    /// The same end again.
    pub(crate) fn same(&self) -> LinkEnd<'a>
        ensures { result ≡ self.now }
    {
        LinkEnd {
            router: self.router,
            subnet: self.subnet,
            interface: self.interface,
        }
    }

    /// Whether the other one is of the same subnet.
    pub(crate) fn shares_subnet(&self, other: &LinkEnd<'a>) -> bool
        ensures { result ≡ share_subnet self.now other.now }
    {
        self.subnet.base() == other.subnet.base() && self.subnet.len() == other.subnet.len()
    }

    /// Whether it is, and of another router.
    pub(crate) fn shares_link(&self, other: &LinkEnd<'a>) -> bool
        ensures { result ≡ share_link self.now other.now }
    {
        self.shares_subnet(other) && self.router != other.router
    }
}

/// The ends of all links of a network, in the order of the routers.
pub(crate) fn ends_of(alloc: Global, net: &Net) -> Result<Vec<LinkEnd<'_>>, OutOfMemory>
    ensures { IfOk result (λ ends. ends.items ≡ ends_of net.now) }
{
    let mut ends = Vec::new(alloc);
    for router in 0..net.routers() {
        push_ends(&mut ends, net, router)?;
    }
    Ok(ends)
}

/// Adds the ends at a router, in the order of its configuration.
fn push_ends<'a>(ends: &mut Vec<LinkEnd<'a>>, net: &'a Net, router: u32) -> Result<(), OutOfMemory>
    ensures { OnOk result (ends.new.items ≡ ends.old.items ++ router_ends net.now router) }
{
    let interfaces = interfaces_at(net, router);
    for interface in interfaces {
        push_end(ends, router, interface)?;
    }
    Ok(())
}

/// The interfaces of a router, and none where there is no such router.
pub(crate) fn interfaces_at(net: &Net, router: u32) -> &[Interface]
    ensures { result.now ≡ interfaces_at net.now router }
{
    if router < net.routers() {
        net.config(router).interfaces.as_slice()
    } else {
        &[]
    }
}

/// Adds the end that an interface is, if it is one.
fn push_end<'a>(
    ends: &mut Vec<LinkEnd<'a>>,
    router: u32,
    interface: &'a Interface,
) -> Result<(), OutOfMemory>
    ensures { OnOk result (ends.new.items ≡ ends.old.items ++ end_at router interface.now) }
{
    match interface.subnet {
        Some(subnet) if interface.up && !interface.loopback => Ok(ends.push(LinkEnd {
            router,
            subnet,
            interface,
        })?),
        _ => Ok(()),
    }
}
