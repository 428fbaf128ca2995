ghost use Rattle.std.specs.Prelude.{◌≡◌, ◌<◌, ◌↔◌, Some, Any, Contains, IfOk, IsTrue, OnOk};
ghost use Rattle.net_addr.specs.Addresses.{Block};
ghost use Rattle.ospf_routes.specs.steps.Candidates.{HasOspfSubnet, IsOspfCandidate, IsRangeOver, IsSubnetUnder};
ghost use Rattle.ospf_routes.specs.steps.Subnets.{IsUpSubnet};
ghost use Rattle.ospf_routes.specs.Lists.{Adds, Exactly};

use crate::OutOfMemory;
use crate::subnets::{Subnet, Subnets};
use net_addr::Prefix;
use net_model::{Interface, Net, Range};
use route_tables::{Candidates, DistinctPrefixes};
use std::alloc::Global;

/// The prefixes that OSPF may have entries for: the subnets of the up interfaces that run it, the ranges that cover one of
/// their area, without which a range isn't active, and all addresses. It takes time of the interfaces, and of the ranges and
/// what these cover.
pub(crate) fn candidates_of(
    alloc: Global,
    net: &Net,
    subnets: &Subnets,
) -> Result<DistinctPrefixes, OutOfMemory>
    requires { Exactly (IsUpSubnet net.now) subnets.now }
    ensures { IfOk result (λ dests. (p : Block) → IsOspfCandidate net.now p → Contains dests p) }
{
    let mut dests = Candidates::new(alloc)?;
    for router in 0..net.routers() {
        let config = net.config(router);
        add_subnets(&mut dests, config.interfaces.as_slice())?;
        add_ranges(&mut dests, subnets, config.ranges.as_slice())?;
    }
    Ok(dests.finish())
}

/// Adds the subnets of interfaces that are up and run OSPF.
fn add_subnets(dests: &mut Candidates, interfaces: &[Interface]) -> Result<(), OutOfMemory>
    ensures { OnOk result (Adds dests.old dests.new (λ p. Any (HasOspfSubnet p) interfaces.now)) }
{
    for interface in interfaces {
        dests.add_option(subnet_of(interface))?;
    }
    Ok(())
}

/// Adds the prefixes of ranges that cover a subnet of their area.
fn add_ranges(
    dests: &mut Candidates,
    subnets: &Subnets,
    ranges: &[Range],
) -> Result<(), OutOfMemory>
    ensures { OnOk result (Adds dests.old dests.new (λ p. Any (IsRangeOver subnets.now p) ranges.now)) }
{
    for range in ranges {
        dests.add_option(dest_over(subnets, range))?;
    }
    Ok(())
}

/// The prefix of a range, where it covers a subnet of its area.
fn dest_over(subnets: &Subnets, range: &Range) -> Option<Prefix>
    ensures { (p : Block) → (result ≡ Some p) ↔ IsRangeOver subnets.now p range.now }
{
    let near = subnets.under(range.dest);
    if has_under(near, *range) {
        Some(range.dest)
    } else {
        None
    }
}

/// Whether the range covers one of these subnets, of its area.
fn has_under(subnets: &[Subnet], range: Range) -> bool
    ensures { IsTrue result ↔ Any (IsSubnetUnder range) subnets.now }
{
    subnets.iter().any(|subnet| is_under(*subnet, range))
}

/// Whether the range covers the subnet, of its area.
fn is_under(subnet: Subnet, range: Range) -> bool
    ensures { IsTrue result ↔ IsSubnetUnder range subnet }
{
    subnet.area == Some(range.area) && range.dest.covers(subnet.dest)
}

/// The subnet of an interface that is up and runs OSPF.
fn subnet_of(interface: &Interface) -> Option<Prefix>
    ensures { (p : Block) → (result ≡ Some p) ↔ HasOspfSubnet p interface.now }
{
    if interface.up && interface.area.is_some() {
        interface.subnet
    } else {
        None
    }
}
