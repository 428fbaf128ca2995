ghost use Rattle.std.specs.Prelude.{◌≡◌, ◌<◌, ◌↔◌, ℕ, length, Some, IfOk, IsTrue};
ghost use Rattle.net_model.specs.Network.{InArea};
ghost use Rattle.ospf_routes.specs.Lists.{Exactly};
ghost use Rattle.ospf_routes.specs.steps.Members.{AreMembersBelow, IsBorderIn, IsMember, IsThisBorderAmong};

use crate::OutOfMemory;
use crate::areas::{has_area, is_border};
use net_model::Net;
use route_tables::push_option;
use std::alloc::Global;
use std::marker::Model;

/// The routers of an area, a flag for each router of the network.
#[derive(Debug, Drop)]
pub(crate) struct Members {
    inside: Vec<bool>,
}

impl Model for Members {
    ghost use Rattle.std.specs.Prelude.{List, Bool};

    ghost Value = { List Bool };

    ghost view = { λ x. x.inside.items };
}

impl Members {
    /// The routers of the area of this number.
    pub fn of_area(alloc: Global, net: &Net, number: u32) -> Result<Members, OutOfMemory>
        ensures { IfOk result (AreMembersBelow net.now number (length net.now)) }
    {
        let mut inside = Vec::with_capacity(alloc, net.routers() as usize)?;
        for u in 0..net.routers() {
            inside.push(is_inside(net, u, number))?;
        }
        Ok(Members { inside })
    }

    /// Whether a router is one of them.
    pub fn has(&self, u: u32) -> bool
        ensures { IsTrue result ↔ IsMember self.now u }
    {
        self.inside.get(u as usize).copied().unwrap_or(false)
    }
}

/// Whether the router is in the area.
fn is_inside(net: &Net, u: u32, number: u32) -> bool
    requires { u < length net.now }
    ensures { IsTrue result ↔ InArea net.now u number }
{
    has_area(net.config(u).interfaces.as_slice(), number)
}

/// The border routers of an area, in the order of their numbers.
#[derive(Debug, Drop)]
pub(crate) struct Borders {
    routers: Vec<u32>,
}

impl Model for Borders {
    ghost use Rattle.std.specs.Prelude.{List, ℕ};

    ghost Value = { List ℕ };

    ghost view = { λ x. x.routers.items };
}

impl Borders {
    /// The border routers of the area of this number.
    pub fn of_area(
        alloc: Global,
        net: &Net,
        number: u32,
        members: &Members,
    ) -> Result<Borders, OutOfMemory>
        requires members { AreMembersBelow net.now number (length net.now) members.now }
        ensures { IfOk result (Exactly (IsBorderIn net.now number)) }
    {
        let mut routers = Vec::new(alloc);
        for u in 0..net.routers() {
            push_option(&mut routers, border_inside(net, members, u))?;
        }
        Ok(Borders { routers })
    }

    /// The routers as a slice.
    pub fn as_slice(&self) -> &[u32]
        ensures { result.now ≡ self.now }
    {
        self.routers.as_slice()
    }
}

/// The router, where it is one of these and a border router.
fn border_inside(net: &Net, members: &Members, u: u32) -> Option<u32>
    requires { u < length net.now }
    ensures { (v : ℕ) → (result ≡ Some v) ↔ IsThisBorderAmong net.now members.now u v }
{
    if members.has(u) && is_border(net, u) {
        Some(u)
    } else {
        None
    }
}
