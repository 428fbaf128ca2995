ghost use Rattle.std.specs.Prelude.{◌≡◌, ◌++◌, IfOk, OnOk, option_copied};
ghost use Rattle.net_model.specs.Refusals.{IsNetwork};
ghost use Rattle.design_file.specs.Keys.{below};
ghost use Rattle.design_file.specs.steps.NetworkFaultLists.{config_named, fault_unless, has_addressed, interfaces_faults, isis_fault};
ghost use Rattle.design_file.specs.steps.NetworkFaultLists.{already_isis_faults, network_faults, router_faults, routers_faults};
ghost use Rattle.design_file.specs.NetworkFaults.{router_path};

use crate::fault::{Fault, add, below};
use crate::{Design, DesignInterface, DesignKind, DesignRouter};
use net_model::{Config, Interface, Net};
use std::alloc::{AllocError, Global};

/// The faults of a design for a network.
pub(crate) fn network_faults(
    alloc: Global,
    design: &Design,
    net: &Net,
) -> Result<Vec<Fault>, AllocError>
    ensures faults { IfOk result (λ faults. faults.items ≡ network_faults design.now net.now) }
    ensures network { OnOk result (IsNetwork net.now) }
{
    let mut faults = Vec::new(alloc);
    add_of_routers(alloc, &mut faults, net, design.routers.as_slice())?;
    add_of_isis(alloc, &mut faults, net)?;
    Ok(faults)
}

/// Adds the faults of the routers that a design names.
fn add_of_routers(
    alloc: Global,
    faults: &mut Vec<Fault>,
    net: &Net,
    routers: &[DesignRouter],
) -> Result<(), AllocError>
    ensures { OnOk result (faults.new.items ≡ faults.old.items ++ routers_faults net.now routers.now) }
{
    for router in routers {
        let config = config_named(net, router.name.as_slice());
        add_of_router(alloc, faults, config, router)?;
    }
    Ok(())
}

/// Adds the faults of a router that a design names, by its configuration.
fn add_of_router(
    alloc: Global,
    faults: &mut Vec<Fault>,
    config: Option<&Config>,
    router: &DesignRouter,
) -> Result<(), AllocError>
    ensures { OnOk result (faults.new.items ≡ faults.old.items ++ router_faults (option_copied config.entry) router.now) }
{
    let path = router_path(alloc, router.name.as_slice())?;
    match config {
        None => add(alloc, faults, DesignKind::UnknownRouter, path.as_slice()),
        Some(config) => {
            let path = below(alloc, path.as_slice(), b"interfaces")?;
            let interfaces = config.interfaces.as_slice();
            let named = router.interfaces.as_slice();
            add_of_interfaces(alloc, faults, path.as_slice(), interfaces, named)
        }
    }
}

/// Adds the faults of the interfaces that a design names of a router, whose paths are below this one.
fn add_of_interfaces(
    alloc: Global,
    faults: &mut Vec<Fault>,
    path: &[u8],
    interfaces: &[Interface],
    named: &[DesignInterface],
) -> Result<(), AllocError>
    ensures { OnOk result (faults.new.items ≡ faults.old.items ++ interfaces_faults path.now interfaces.now named.now) }
{
    for one in named {
        add_of_interface(alloc, faults, path, interfaces, one.name.as_slice())?;
    }
    Ok(())
}

/// Adds the fault of an interface that a design names, where there is none of the name with an address.
fn add_of_interface(
    alloc: Global,
    faults: &mut Vec<Fault>,
    path: &[u8],
    interfaces: &[Interface],
    name: &[u8],
) -> Result<(), AllocError>
    ensures { OnOk result (faults.new.items
        ≡ faults.old.items ++ fault_unless (has_addressed name.now interfaces.now) DesignKind.UnknownInterface (below path.now name.now)) }
{
    if has_addressed(interfaces, name) {
        return Ok(());
    }
    let path = below(alloc, path, name)?;
    add(alloc, faults, DesignKind::UnknownInterface, path.as_slice())
}

/// Whether an interface of this name has an address.
fn has_addressed(interfaces: &[Interface], name: &[u8]) -> bool
    ensures { result ≡ has_addressed name.now interfaces.now }
{
    interfaces.iter().any(|interface| interface.name.as_slice() == name
        && interface.subnet.is_some())
}

/// The configuration of the router of this name.
fn config_named<'a>(net: &'a Net, name: &[u8]) -> Option<&'a Config>
    ensures { option_copied result ≡ config_named name.now net.now }
{
    for router in 0..net.routers() {
        let config = net.config(router);
        if config.has_name(name) {
            return Some(config);
        }
    }
    None
}

/// The path of a router.
fn router_path(alloc: Global, name: &[u8]) -> Result<Vec<u8>, AllocError>
    ensures { IfOk result (λ path. path.items ≡ router_path name.now) }
{
    below(alloc, b"routers", name)
}

/// Adds a fault for each router that has an IS-IS process.
fn add_of_isis(alloc: Global, faults: &mut Vec<Fault>, net: &Net) -> Result<(), AllocError>
    ensures faults { OnOk result (faults.new.items ≡ faults.old.items ++ already_isis_faults net.now) }
    ensures network { OnOk result (IsNetwork net.now) }
{
    for router in 0..net.routers() {
        add_of_process(alloc, faults, net.config(router))?;
    }
    Ok(())
}

/// Adds a fault for a router that has an IS-IS process.
fn add_of_process(alloc: Global, faults: &mut Vec<Fault>, config: &Config) -> Result<(), AllocError>
    ensures { OnOk result (faults.new.items ≡ faults.old.items ++ isis_fault config.now) }
{
    if !config.isis {
        return Ok(());
    }
    let path = router_path(alloc, config.name.as_slice())?;
    add(alloc, faults, DesignKind::AlreadyIsis, path.as_slice())
}
