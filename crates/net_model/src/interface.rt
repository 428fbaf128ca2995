ghost use Rattle.std.specs.Prelude.{◌≡◌};

use net_addr::{Name, Prefix};
use std::marker::Model;

/// An interface of a router, with what its configuration says of OSPF and of IS-IS.
#[derive(Debug, Drop)]
pub struct Interface {
    /// The interface's name, any bytes.
    pub name: Name,
    /// The IPv4 address, 0 where there is none.
    pub address: u32,
    /// The prefix of address and mask, `None` where there is no address.
    pub subnet: Option<Prefix>,
    /// Whether the interface has an address, isn't shut down and is in no VRF.
    pub up: bool,
    /// Whether the interface is a loopback.
    pub loopback: bool,
    /// The OSPF area that the interface runs in, `None` where it runs no OSPF.
    pub area: Option<u32>,
    /// The OSPF cost of sending on the interface, from 1 to `MOST_INTERFACE_COST`.
    pub cost: u32,
    /// Whether the interface's subnet is announced by OSPF without an adjacency.
    pub ospf_passive: bool,
    /// Whether the interface runs level 1 of IS-IS.
    pub level1: bool,
    /// Whether the interface runs level 2 of IS-IS.
    pub level2: bool,
    /// The wide metric of level 1, from 1 to `MOST_METRIC` (RFC 5305, section 3).
    pub metric1: u32,
    /// The wide metric of level 2, from 1 to `MOST_METRIC` (RFC 5305, section 3).
    pub metric2: u32,
    /// Whether the interface's subnet is announced by IS-IS without an adjacency.
    pub isis_passive: bool,
}

/// The interfaces of a router, in the order of its configuration.
#[derive(Debug, Drop)]
pub struct Interfaces {
    all: Vec<Interface>,
}

impl Model for Interfaces {
    ghost use Rattle.std.specs.Prelude.{List};
    ghost use Rattle.net_model.specs.declared.interface.Interface.{Interface};

    ghost Value = { List Interface };

    ghost view = { λ x. x.all.items };
}

impl Interfaces {
    /// The interfaces of a vector, in its order.
    pub fn from_vec(all: Vec<Interface>) -> Interfaces
        ensures { result ≡ all.items }
    {
        Interfaces { all }
    }

    /// The interfaces as a slice.
    pub fn as_slice(&self) -> &[Interface]
        ensures { result.now ≡ self.now }
    {
        self.all.as_slice()
    }

    /// The vector that the interfaces stand in.
    pub fn into_vec(self) -> Vec<Interface>
        ensures { result.items ≡ self }
    {
        self.all
    }
}
