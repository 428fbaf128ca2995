ghost use Rattle.std.specs.Prelude.{◌≡◌, ◌∷◌, ◌++◌, [], IfOk, OnOk};
ghost use Rattle.std.specs.List.{filter_map};
ghost use Rattle.prefix_atoms.specs.Originated.{all_originated, originated_subnet};
ghost use Rattle.migrate_cli.specs.OriginatedPrefixes.{CountsOriginated};

use crate::OutOfMemory;
use net_addr::Prefix;
use net_model::{Interface, Net};
use std::alloc::Global;

/// How many distinct prefixes are originated in a network.
pub(crate) fn count_originated(alloc: Global, net: &Net) -> Result<u64, OutOfMemory>
    ensures { IfOk result (CountsOriginated net.now) }
{
    let mut prefixes = originated_prefixes(alloc, net)?;
    prefixes.sort_unstable();
    prefixes.dedup();
    Ok(prefixes.len() as u64)
}

/// The prefixes that are originated in a network, with repeats.
fn originated_prefixes(alloc: Global, net: &Net) -> Result<Vec<Prefix>, OutOfMemory>
    ensures { IfOk result (λ prefixes. prefixes.items ≡ all_originated net.now) }
{
    let mut prefixes = Vec::new(alloc);
    for router in 0..net.routers() {
        let config = net.config(router);
        add_originated(&mut prefixes, config.interfaces.as_slice())?;
    }
    Ok(prefixes)
}

/// Adds the subnets of the interfaces that are up and run a protocol.
fn add_originated(prefixes: &mut Vec<Prefix>, interfaces: &[Interface]) -> Result<(), OutOfMemory>
    ensures { OnOk result (prefixes.new.items ≡ prefixes.old.items ++ filter_map originated_subnet interfaces.now) }
{
    for interface in interfaces {
        add_subnet(prefixes, interface)?;
    }
    Ok(())
}

/// Adds the subnet of an interface that is up and runs a protocol.
fn add_subnet(prefixes: &mut Vec<Prefix>, interface: &Interface) -> Result<(), OutOfMemory>
    ensures { OnOk result (prefixes.new.items ≡ prefixes.old.items ++ filter_map originated_subnet (interface.now ∷ [])) }
{
    match originated_subnet(interface) {
        Some(subnet) => Ok(prefixes.push(subnet)?),
        None => Ok(()),
    }
}

/// The subnet of an interface that is up and runs a protocol.
fn originated_subnet(interface: &Interface) -> Option<Prefix>
    ensures { result ≡ originated_subnet interface.now }
{
    let runs = interface.area.is_some() || interface.level1 || interface.level2;
    if interface.up && runs {
        interface.subnet
    } else {
        None
    }
}
