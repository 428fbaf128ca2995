ghost use Rattle.std.specs.Prelude.{◌≡◌, IfOk, map};
ghost use Rattle.failed_links.specs.ShutDown.{is_link_block, is_on_link, shut_interface, shut_router};

use crate::OutOfMemory;
use net_addr::{Name, Prefix};
use net_model::{Config, Interface, Interfaces, Ranges, Stubs};
use std::alloc::Global;

/// A configuration, copied, with the interfaces of a link shut down.
pub(crate) fn shut_router(
    alloc: Global,
    link: Prefix,
    config: &Config,
) -> Result<Config, OutOfMemory>
    ensures { IfOk result (λ shut. shut ≡ shut_router link config.now) }
{
    Ok(Config {
        name: copy_name(alloc, &config.name)?,
        interfaces: shut_interfaces(alloc, link, config.interfaces.as_slice())?,
        process: config.process,
        isis: config.isis,
        tag: copy_name(alloc, &config.tag)?,
        isis_area: copy_name(alloc, &config.isis_area)?,
        system: config.system,
        levels: config.levels,
        leak: config.leak,
        ranges: Ranges::from_vec(Vec::from_slice(alloc, config.ranges.as_slice())?),
        stubs: Stubs::from_vec(Vec::from_slice(alloc, config.stubs.as_slice())?),
        rfc1583: config.rfc1583,
        distances: config.distances,
    })
}

/// The interfaces of a router, copied, with those of a link shut down.
fn shut_interfaces(
    alloc: Global,
    link: Prefix,
    interfaces: &[Interface],
) -> Result<Interfaces, OutOfMemory>
    ensures { IfOk result (λ shut. shut ≡ map (shut_interface link) interfaces.now) }
{
    let mut shut = Vec::with_capacity(alloc, interfaces.len())?;
    for interface in interfaces {
        shut.push(shut_interface(alloc, link, interface)?)?;
    }
    Ok(Interfaces::from_vec(shut))
}

/// An interface, copied, that isn't up where it is of a link.
fn shut_interface(
    alloc: Global,
    link: Prefix,
    interface: &Interface,
) -> Result<Interface, OutOfMemory>
    ensures { IfOk result (λ shut. shut ≡ shut_interface link interface.now) }
{
    let up = interface.up && !is_on_link(link, interface);
    Ok(Interface {
        name: copy_name(alloc, &interface.name)?,
        address: interface.address,
        subnet: interface.subnet,
        up,
        loopback: interface.loopback,
        area: interface.area,
        cost: interface.cost,
        ospf_passive: interface.ospf_passive,
        level1: interface.level1,
        level2: interface.level2,
        metric1: interface.metric1,
        metric2: interface.metric2,
        isis_passive: interface.isis_passive,
    })
}

/// Whether an interface is of a link: it has its subnet, and is no loopback.
fn is_on_link(link: Prefix, interface: &Interface) -> bool
    ensures { result ≡ is_on_link link interface.now }
{
    !interface.loopback && is_link_block(link, interface.subnet)
}

/// Whether there is a subnet, and it is that of the link.
fn is_link_block(link: Prefix, subnet: Option<Prefix>) -> bool
    ensures { result ≡ is_link_block link subnet }
{
    match subnet {
        Some(subnet) => subnet == link,
        None => false,
    }
}

/// A name, copied.
fn copy_name(alloc: Global, name: &Name) -> Result<Name, OutOfMemory>
    ensures { IfOk result (λ copy. copy ≡ name.now) }
{
    Ok(Name::from_vec(Vec::from_slice(alloc, name.as_slice())?))
}
