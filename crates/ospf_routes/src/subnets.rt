ghost use Rattle.std.specs.Prelude.{◌≡◌, ◌↔◌, ℕ, Some, Any, IfOk, OnOk};
ghost use Rattle.ospf_routes.specs.Lists.{Adds, Exactly};
ghost use Rattle.ospf_routes.specs.steps.Subnets.{AreSubnetsAround, AreSubnetsUnder, IsHome, IsInterfaceSubnet, IsSubnetRoute, IsUpSubnet};
ghost use Rattle.ospf_routes.specs.declared.area_route.AreaRoute.{AreaRoute as Route};
ghost use Rattle.ospf_routes.specs.declared.subnets.Subnet.{Subnet as SubnetValue};

use crate::OutOfMemory;
use crate::area_route::AreaRoute;
use crate::ordered::{HasPrefix, between, sort_by_base, under};
use net_addr::Prefix;
use net_model::{Interface, Net};
use route_tables::{Homes, push_option};
use std::alloc::Global;
use std::marker::Model;

/// The subnet of an interface that is up.
#[derive(Clone, Copy, Debug)]
pub(crate) struct Subnet {
    /// The prefix.
    pub dest: Prefix,
    /// The router.
    pub at: u32,
    /// The area that the interface runs OSPF in, `None` where it runs none.
    pub area: Option<u32>,
    /// The cost of the interface.
    pub asks: u64,
    /// Whether the interface forms adjacencies in its area: it is no loopback, and not passive.
    pub joins: bool,
}

impl HasPrefix for Subnet {
    ghost prefix = { λ x. x.dest };

    fn prefix(&self) -> Prefix
        ensures { result ≡ self.now.dest }
    {
        self.dest
    }
}

/// The subnets of some interfaces, in the order of the addresses that they begin with.
#[derive(Debug, Drop)]
pub(crate) struct Subnets {
    all: Vec<Subnet>,
}

impl Model for Subnets {
    ghost use Rattle.std.specs.Prelude.{List};
    ghost use Rattle.std.specs.List.Sorted.{IsNonDecreasingBy};
    ghost use Rattle.ospf_routes.specs.declared.subnets.Subnet.{Subnet};

    ghost Value = { List Subnet };

    ghost view = { λ x. x.all.items };

    ghost invariant = { λ x. IsNonDecreasingBy (λ (s : Subnet). s.dest.base) x.all.items };
}

impl Subnets {
    /// The subnets of all interfaces of a network that are up.
    pub fn of_network(alloc: Global, net: &Net) -> Result<Subnets, OutOfMemory>
        ensures { IfOk result (Exactly (IsUpSubnet net.now)) }
    {
        let mut all = all_subnets(alloc, net)?;
        sort_by_base(&mut all);
        Ok(Subnets { all })
    }

    /// Those of a prefix, and others that begin with its address. It takes time of the logarithm of all of them.
    pub fn around(&self, dest: Prefix) -> &[Subnet]
        ensures { AreSubnetsAround self.now dest result.now }
    {
        between(self.all.as_slice(), dest.base(), dest.base())
    }

    /// Those that a prefix covers, and others that begin with one of its addresses. It takes time of the logarithm of all of
    /// them.
    pub fn under(&self, over: Prefix) -> &[Subnet]
        ensures { AreSubnetsUnder self.now over result.now }
    {
        under(self.all.as_slice(), over)
    }
}

/// The subnets of all routers.
fn all_subnets(alloc: Global, net: &Net) -> Result<Vec<Subnet>, OutOfMemory>
    ensures { IfOk result (λ all. Exactly (IsUpSubnet net.now) all.items) }
{
    let mut all = Vec::new(alloc);
    for w in 0..net.routers() {
        push_router_subnets(&mut all, net.config(w).interfaces.as_slice(), w)?;
    }
    Ok(all)
}

/// Adds the subnets of the interfaces of router `w`.
fn push_router_subnets(
    all: &mut Vec<Subnet>,
    interfaces: &[Interface],
    w: u32,
) -> Result<(), OutOfMemory>
    ensures { OnOk result (Adds all.old.items all.new.items (λ s. Any (λ i. IsInterfaceSubnet w i s) interfaces.now)) }
{
    for interface in interfaces {
        push_option(all, interface_subnet(interface, w))?;
    }
    Ok(())
}

/// The subnet of an interface of router `w`, where that is up and has one.
fn interface_subnet(interface: &Interface, w: u32) -> Option<Subnet>
    ensures { (s : SubnetValue) → (result ≡ Some s) ↔ IsInterfaceSubnet w interface.now s }
{
    match interface.subnet {
        Some(dest) if interface.up => Some(Subnet {
            dest,
            at: w,
            area: interface.area,
            asks: u64::from(interface.cost),
            joins: !interface.loopback && !interface.ospf_passive,
        }),
        _ => None,
    }
}

/// The routers of those of these subnets that are of the prefix. Mostly one or two are there, and are.
pub(crate) fn homes_among(
    alloc: Global,
    subnets: &[Subnet],
    dest: Prefix,
) -> Result<Homes, OutOfMemory>
    ensures { IfOk result (λ homes. Exactly (λ u. Any (IsHome dest u) subnets.now) homes.items) }
{
    match subnets {
        [one] if one.dest == dest => Ok(Homes::from_one(one.at)),
        [one, other] if one.dest == dest && other.dest == dest => {
            Ok(Homes::from_two(one.at, other.at))
        }
        _ => {
            let homes = home_numbers(alloc, subnets, dest)?;
            Ok(Homes::from_vec(homes))
        }
    }
}

/// The routers of those of these subnets that are of the prefix, in a vector.
fn home_numbers(alloc: Global, subnets: &[Subnet], dest: Prefix) -> Result<Vec<u32>, OutOfMemory>
    ensures { IfOk result (λ homes. Exactly (λ u. Any (IsHome dest u) subnets.now) homes.items) }
{
    let mut homes = Vec::with_capacity(alloc, subnets.len())?;
    for subnet in subnets {
        push_option(&mut homes, home_at(*subnet, dest))?;
    }
    Ok(homes)
}

/// The router of the subnet, where that is of the prefix.
fn home_at(subnet: Subnet, dest: Prefix) -> Option<u32>
    ensures { (u : ℕ) → (result ≡ Some u) ↔ IsHome dest u subnet }
{
    if subnet.dest == dest {
        Some(subnet.at)
    } else {
        None
    }
}

/// Puts the routes to those of these subnets that are of the prefix and run OSPF in place of other routes.
pub(crate) fn put_routes(
    routes: &mut Vec<AreaRoute>,
    subnets: &[Subnet],
    dest: Prefix,
) -> Result<(), OutOfMemory>
    ensures { OnOk result (Exactly (λ r. Any (IsSubnetRoute dest r) subnets.now) routes.new.items) }
{
    routes.clear();
    for subnet in subnets {
        push_option(routes, route_to(*subnet, dest))?;
    }
    Ok(())
}

/// The route to the subnet, where that is of the prefix and runs OSPF.
fn route_to(subnet: Subnet, dest: Prefix) -> Option<AreaRoute>
    ensures { (r : Route) → (result ≡ Some r) ↔ IsSubnetRoute dest r subnet }
{
    match subnet.area {
        Some(area) if subnet.dest == dest => Some(AreaRoute {
            area,
            at: subnet.at,
            asks: subnet.asks,
        }),
        _ => None,
    }
}
