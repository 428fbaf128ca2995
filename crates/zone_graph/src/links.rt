ghost use Rattle.zone_graph.specs.steps.LinkLists.{IsLinkAt};

use crate::OutOfMemory;
use net_addr::Prefix;
use net_model::{Interface, Zone, cost_in, is_link};
use std::alloc::Global;
use std::marker::Model;

/// An interface that may take part in an adjacency of a zone: its subnet, and what it costs to send on it.
#[derive(Clone, Copy, Debug)]
pub(crate) struct Link {
    pub(crate) subnet: Prefix,
    pub(crate) cost: u32,
}

/// The interfaces of a router that may take part in an adjacency of a zone.
#[derive(Debug, Drop)]
pub(crate) struct Links {
    all: Vec<Link>,
}

impl Model for Links {
    ghost use Rattle.std.specs.Prelude.{List};
    ghost use Rattle.zone_graph.specs.declared.links.Link.{Link};

    ghost Value = { List Link };

    ghost view = { λ x. x.all.items };
}

impl Links {
    ghost use Rattle.std.specs.Prelude.{◌≡◌, IfOk};
    ghost use Rattle.zone_graph.specs.steps.LinkLists.{AreLinksOf};

    /// Those of these interfaces that may take part in an adjacency of the zone.
    pub(crate) fn among(
        alloc: Global,
        zone: Zone,
        interfaces: &[Interface],
    ) -> Result<Links, OutOfMemory>
        ensures { IfOk result (AreLinksOf zone interfaces.now) }
    {
        let mut all = Vec::new(alloc);
        for interface in interfaces {
            if let Some(link) = link_of(zone, interface) {
                all.push(link)?;
            }
        }
        Ok(Links { all })
    }

    /// The links as a slice.
    pub(crate) fn as_slice(&self) -> &[Link]
        ensures { result.now ≡ self.now }
    {
        self.all.as_slice()
    }
}

/// The interface as a link, where it may take part in an adjacency of the zone (RFC 2328, section 16.1; RFC 1195).
fn link_of(zone: Zone, interface: &Interface) -> Option<Link>
    ensures { IsLinkAt zone interface.now result }
{
    match interface.subnet {
        Some(subnet) if is_link(zone, interface) => Some(Link {
            subnet,
            cost: cost_in(zone, interface),
        }),
        _ => None,
    }
}
