ghost use Rattle.std.specs.Prelude.{◌≡◌, ◌<◌, ◌↔◌, ℕ, Some, Any, Contains, IfOk, OnOk};
ghost use Rattle.std.specs.List.Sorted.{IsNonDecreasingBy};
ghost use Rattle.route_tables.specs.Lists.{Adds, Exactly};
ghost use Rattle.isis_routes.specs.steps.Homes.{AreHomes, IsHomeOf, IsOwnSubnet};
ghost use Rattle.isis_routes.specs.declared.homes.Home.{Home as HomeValue};

use crate::OutOfMemory;
use net_addr::Prefix;
use net_model::{Interface, Net};
use route_tables::{Homes, push_option};
use std::alloc::Global;

/// A prefix, and a router at which it is connected.
#[derive(Clone, Copy, Debug)]
pub(crate) struct Home {
    dest: Prefix,
    router: u32,
}

/// The connected prefixes of all routers, in the order of the addresses with which they begin.
pub(crate) fn sorted_homes(alloc: Global, net: &Net) -> Result<Vec<Home>, OutOfMemory>
    ensures exact { IfOk result (λ homes. AreHomes net.now homes.items) }
    ensures sorted { IfOk result (λ homes. IsNonDecreasingBy (λ h. h.dest.base) homes.items) }
{
    let mut homes = all_homes(alloc, net)?;
    sort_by_base(&mut homes);
    Ok(homes)
}

/// The connected prefixes of all routers.
fn all_homes(alloc: Global, net: &Net) -> Result<Vec<Home>, OutOfMemory>
    ensures { IfOk result (λ homes. AreHomes net.now homes.items) }
{
    let mut homes = Vec::new(alloc);
    for w in 0..net.routers() {
        push_homes(&mut homes, net.config(w).interfaces.as_slice(), w)?;
    }
    Ok(homes)
}

/// Adds the connected prefixes of router `w`.
fn push_homes(homes: &mut Vec<Home>, interfaces: &[Interface], w: u32) -> Result<(), OutOfMemory>
    ensures { OnOk result (Adds homes.old.items homes.new.items (λ h. Any (λ i. IsOwnSubnet i w h) interfaces.now)) }
{
    for interface in interfaces {
        push_option(homes, home_of(interface, w))?;
    }
    Ok(())
}

/// The subnet of an interface of router `w` that is up.
fn home_of(interface: &Interface, w: u32) -> Option<Home>
    ensures { (h : HomeValue) → (result ≡ Some h) ↔ IsOwnSubnet interface.now w h }
{
    match interface.subnet {
        Some(dest) if interface.up => Some(Home { dest, router: w }),
        _ => None,
    }
}

/// Puts homes in the order of the addresses with which their prefixes begin.
fn sort_by_base(homes: &mut Vec<Home>)
    ensures kept { (h : HomeValue) → Contains homes.new.items h ↔ Contains homes.old.items h }
    ensures sorted { IsNonDecreasingBy (λ h. h.dest.base) homes.new.items }
{
    homes.sort_unstable_by_key(|home| home.dest.base());
}

/// The routers at which a prefix is connected, by the sorted homes of all prefixes. It takes time of the logarithm of
/// these.
pub(crate) fn routers_at(alloc: Global, homes: &[Home], dest: Prefix) -> Result<Homes, OutOfMemory>
    requires { IsNonDecreasingBy (λ h. h.dest.base) homes.now }
    ensures { IfOk result (λ routers. Exactly (λ u. Any (λ h. IsHomeOf dest h u) homes.now) routers.items) }
{
    let run = homes_from(homes, dest.base());
    routers_among(alloc, run, dest)
}

/// The routers of those of these homes that are of the prefix. Mostly one or two are there, and are.
fn routers_among(alloc: Global, homes: &[Home], dest: Prefix) -> Result<Homes, OutOfMemory>
    ensures { IfOk result (λ routers. Exactly (λ u. Any (λ h. IsHomeOf dest h u) homes.now) routers.items) }
{
    match homes {
        [one] if one.dest == dest => Ok(Homes::from_one(one.router)),
        [one, other] if one.dest == dest && other.dest == dest => {
            Ok(Homes::from_two(one.router, other.router))
        }
        _ => {
            let routers = router_numbers(alloc, homes, dest)?;
            Ok(Homes::from_vec(routers))
        }
    }
}

/// The routers of those of these homes that are of the prefix, in a vector.
fn router_numbers(alloc: Global, homes: &[Home], dest: Prefix) -> Result<Vec<u32>, OutOfMemory>
    ensures { IfOk result (λ routers. Exactly (λ u. Any (λ h. IsHomeOf dest h u) homes.now) routers.items) }
{
    let mut routers = Vec::with_capacity(alloc, homes.len())?;
    for home in homes {
        push_option(&mut routers, router_at(*home, dest))?;
    }
    Ok(routers)
}

/// The homes whose prefixes begin with an address.
fn homes_from(homes: &[Home], base: u32) -> &[Home]
    requires { IsNonDecreasingBy (λ h. h.dest.base) homes.now }
    ensures { (h : HomeValue) → Contains result.now h ↔ (Contains homes.now h × (h.dest.base ≡ base)) }
{
    let start = homes.partition_point(|home| home.dest.base() < base);
    let rest = &homes[start..];
    let count = rest.partition_point(|home| home.dest.base() <= base);
    &rest[..count]
}

/// The router of a home, where it is one of this prefix.
fn router_at(home: Home, dest: Prefix) -> Option<u32>
    ensures { (u : ℕ) → (result ≡ Some u) ↔ IsHomeOf dest home u }
{
    if home.dest == dest {
        Some(home.router)
    } else {
        None
    }
}
