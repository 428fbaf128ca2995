ghost use Rattle.std.specs.Prelude.{◌≡◌, IfOk, map};
ghost use Rattle.net_model.specs.Network.{Network};
ghost use Rattle.network_survey.specs.Counts.{IsSharedSubnet, IsSubnet};
ghost use Rattle.network_survey.specs.Listings.{CountsAll};
ghost use Rattle.network_survey.specs.Ports.{IsUpPort, ListsUpPorts};
ghost use Rattle.network_survey.specs.steps.Subnets.{IsSubnetOf};

use crate::OutOfMemory;
use crate::interfaces::Shared;
use crate::port::Port;
use crate::scan::odd_ports;
use net_addr::Prefix;
use std::alloc::Global;

/// How many subnets the up interfaces of a network have.
pub fn count_subnets(alloc: Global, ports: &[Port<'_>]) -> Result<usize, OutOfMemory>
    ensures { IfOk result (λ count. (net : Network) → ListsUpPorts (IsUpPort net) ports.now → CountsAll (IsSubnet net) count) }
{
    let count = count_prefixes(alloc, ports)?;
    Ok(count)
}

/// How many of these subnets two or more routers have.
pub fn count_links(alloc: Global, ports: &[Port<'_>]) -> Result<usize, OutOfMemory>
    ensures { IfOk result (λ count. (net : Network) → ListsUpPorts (IsUpPort net) ports.now → CountsAll (IsSharedSubnet net) count) }
{
    let shared = odd_ports(alloc, &Shared, ports)?;
    let count = count_prefixes(alloc, shared.as_slice())?;
    Ok(count)
}

/// How many prefixes are subnets of these ports.
fn count_prefixes(alloc: Global, ports: &[Port<'_>]) -> Result<usize, OutOfMemory>
    ensures { IfOk result (λ count. CountsAll (IsSubnetOf ports.now) count) }
{
    let mut subnets = subnets_of(alloc, ports)?;
    subnets.sort_unstable();
    subnets.dedup();
    Ok(subnets.len())
}

/// The subnets of these ports, one for each.
fn subnets_of(alloc: Global, ports: &[Port<'_>]) -> Result<Vec<Prefix>, OutOfMemory>
    ensures { IfOk result (λ subnets. subnets.items ≡ map (λ x. x.subnet) ports.now) }
{
    let mut subnets = Vec::new(alloc);
    for port in ports {
        subnets.push(port.subnet)?;
    }
    Ok(subnets)
}
