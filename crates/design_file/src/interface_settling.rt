ghost use Rattle.std.specs.Prelude.{◌≡◌, ◌++◌, [], IfOk, OnOk, option_copied};
ghost use Rattle.design_file.specs.Settling.{before_others, interface_circuit, interface_metric, interface_named};
ghost use Rattle.design_file.specs.Settling.{interface_passive, is_isis_interface, settled_interface, settled_interfaces};

use crate::{DesignInterface, SettledInterface, SettledInterfaces};
use net_addr::Name;
use net_model::{Interface, Levels};
use std::alloc::{AllocError, Global};

/// The IS-IS interfaces of a router whose interfaces have this metric where none is said of them.
pub(crate) fn settled_interfaces(
    alloc: Global,
    metric: u32,
    named: &[DesignInterface],
    interfaces: &[Interface],
) -> Result<SettledInterfaces, AllocError>
    ensures { IfOk result (λ all. all ≡ settled_interfaces metric named.now interfaces.now) }
{
    let mut all = Vec::new(alloc);
    for interface in interfaces {
        let own = interface_named(named, interface.name.as_slice());
        add(alloc, &mut all, metric, interface, own)?;
    }
    Ok(SettledInterfaces::from_vec(all))
}

/// Adds what is settled for an interface, where it is an IS-IS interface.
fn add(
    alloc: Global,
    all: &mut Vec<SettledInterface>,
    metric: u32,
    interface: &Interface,
    own: Option<&DesignInterface>,
) -> Result<(), AllocError>
    ensures { OnOk result (all.new.items ≡ all.old.items ++ before_others metric interface.now (option_copied own.entry) []) }
{
    if is_isis_interface(interface, own) {
        all.push(settled_interface(alloc, metric, interface, own)?)?;
    }
    Ok(())
}

/// What a design says of the interface of this name.
fn interface_named<'a>(named: &'a [DesignInterface], name: &[u8]) -> Option<&'a DesignInterface>
    ensures { option_copied result ≡ interface_named name.now named.now }
{
    named.iter().find(|one| one.name.as_slice() == name)
}

/// Whether an interface is an IS-IS interface: it has an address, and an OSPF area or a name in the design.
fn is_isis_interface(interface: &Interface, own: Option<&DesignInterface>) -> bool
    ensures { result ≡ is_isis_interface interface.now (option_copied own.entry) }
{
    interface.subnet.is_some() && (interface.area.is_some() || own.is_some())
}

/// What is settled for an IS-IS interface.
fn settled_interface(
    alloc: Global,
    metric: u32,
    interface: &Interface,
    own: Option<&DesignInterface>,
) -> Result<SettledInterface, AllocError>
    ensures { IfOk result (λ settled. settled ≡ settled_interface metric interface.now (option_copied own.entry)) }
{
    let name = Name::from_vec(Vec::from_slice(alloc, interface.name.as_slice())?);
    Ok(SettledInterface {
        name,
        metric: interface_metric(metric, own),
        passive: interface_passive(interface, own),
        circuit: interface_circuit(own),
    })
}

/// The metric of an interface, else that of its router.
fn interface_metric(metric: u32, own: Option<&DesignInterface>) -> u32
    ensures { result ≡ interface_metric metric (option_copied own.entry) }
{
    match own {
        Some(own) => own.metric.unwrap_or(metric),
        None => metric,
    }
}

/// Whether an interface is passive: where nothing is said of that, if it is a loopback or passive for OSPF.
fn interface_passive(interface: &Interface, own: Option<&DesignInterface>) -> bool
    ensures { result ≡ interface_passive interface.now (option_copied own.entry) }
{
    let usual = interface.loopback || interface.ospf_passive;
    match own {
        Some(own) => own.passive.unwrap_or(usual),
        None => usual,
    }
}

/// The levels that are said of an interface.
fn interface_circuit(own: Option<&DesignInterface>) -> Option<Levels>
    ensures { result ≡ interface_circuit (option_copied own.entry) }
{
    match own {
        Some(own) => own.levels,
        None => None,
    }
}
