ghost use Rattle.std.specs.Prelude.{◌≡◌, ◌<◌, ◌↔◌, Some, Any, Contains, IfOk, OnOk};
ghost use Rattle.net_addr.specs.Addresses.{Block};
ghost use Rattle.route_tables.specs.Lists.{Adds};
ghost use Rattle.isis_routes.specs.steps.Candidates.{HasIsisSubnet, IsIsisCandidate};

use crate::OutOfMemory;
use net_addr::Prefix;
use net_model::{Interface, Net};
use route_tables::{Candidates, DistinctPrefixes};
use std::alloc::Global;

/// The prefixes that IS-IS may have entries for: the subnets of the up interfaces that run it, and all
/// addresses.
pub(crate) fn candidates_of(alloc: Global, net: &Net) -> Result<DistinctPrefixes, OutOfMemory>
    ensures { IfOk result (λ dests. (p : Block) → IsIsisCandidate net.now p → Contains dests p) }
{
    let mut dests = Candidates::new(alloc)?;
    for router in 0..net.routers() {
        add_subnets(&mut dests, net.config(router).interfaces.as_slice())?;
    }
    Ok(dests.finish())
}

/// Adds the subnets of interfaces that are up and run IS-IS.
fn add_subnets(dests: &mut Candidates, interfaces: &[Interface]) -> Result<(), OutOfMemory>
    ensures { OnOk result (Adds dests.old dests.new (λ p. Any (HasIsisSubnet p) interfaces.now)) }
{
    for interface in interfaces {
        dests.add_option(subnet_of(interface))?;
    }
    Ok(())
}

/// The subnet of an interface that is up and runs IS-IS.
fn subnet_of(interface: &Interface) -> Option<Prefix>
    ensures { (p : Block) → (result ≡ Some p) ↔ HasIsisSubnet p interface.now }
{
    if interface.up && (interface.level1 || interface.level2) {
        interface.subnet
    } else {
        None
    }
}
