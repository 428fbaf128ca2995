ghost use Rattle.std.specs.Prelude.{◌≡◌, ◌++◌, ◌∷◌, [], IfOk, OnOk};
ghost use Rattle.std.specs.List.{filter_map, list_any};
ghost use Rattle.failed_links.specs.SharedLinks.{ListsLinks};
ghost use Rattle.failed_links.specs.steps.LinkEnds.{is_shared_end, shared_by_end, shares_end};

use crate::OutOfMemory;
use net_addr::Prefix;
use net_model::Net;
use network_survey::{Port, up_ports};
use std::alloc::Global;

/// The links of a network: the subnets that up interfaces of two or more routers share, none a loopback. They ascend.
pub fn links(alloc: Global, net: &Net) -> Result<Vec<Prefix>, OutOfMemory>
    ensures { IfOk result (λ links. ListsLinks net.now links.items) }
{
    let ports = up_ports(alloc, net)?;
    let mut links = shared_subnets(alloc, ports.as_slice())?;
    links.sort_unstable();
    links.dedup();
    Ok(links)
}

/// The subnets of the interfaces that share them, one for each.
fn shared_subnets(alloc: Global, ports: &[Port<'_>]) -> Result<Vec<Prefix>, OutOfMemory>
    ensures { IfOk result (λ subnets. subnets.items ≡ filter_map (shared_by_end ports.now) ports.now) }
{
    let mut subnets = Vec::new(alloc);
    for port in ports {
        push_shared(&mut subnets, ports, port)?;
    }
    Ok(subnets)
}

/// Adds the subnet of an interface, if others share it.
fn push_shared(
    subnets: &mut Vec<Prefix>,
    ports: &[Port<'_>],
    port: &Port<'_>,
) -> Result<(), OutOfMemory>
    ensures { OnOk result (subnets.new.items ≡ subnets.old.items ++ filter_map (shared_by_end ports.now) (port.now ∷ [])) }
{
    if is_shared_end(ports, port) {
        subnets.push(port.subnet)?;
    }
    Ok(())
}

/// Whether an interface is no loopback, and one of another router shares its subnet.
fn is_shared_end(ports: &[Port<'_>], port: &Port<'_>) -> bool
    ensures { result ≡ is_shared_end ports.now port.now }
{
    !port.interface.loopback && is_shared_with(ports, port)
}

/// Whether one of another router that is no loopback shares its subnet.
fn is_shared_with(ports: &[Port<'_>], port: &Port<'_>) -> bool
    ensures { result ≡ list_any (shares_end port.now) ports.now }
{
    ports.iter().any(|other| shares_end(port, other))
}

/// Whether an interface is no loopback, of another router than this one, and of its subnet.
fn shares_end(port: &Port<'_>, other: &Port<'_>) -> bool
    ensures { result ≡ shares_end port.now other.now }
{
    !other.interface.loopback && other.router != port.router && other.subnet == port.subnet
}
