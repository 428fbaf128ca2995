ghost use Rattle.std.specs.Prelude.{◌≡◌, [], IfErr, IfOk, option_copied};
ghost use Rattle.design_file.specs.Answers.{RefusesDesign, Settles};
ghost use Rattle.design_file.specs.Designs.{IsSoundDesign};
ghost use Rattle.design_file.specs.Settling.{FitsNetwork, area_for, leak_for, levels_for, metric_for, named_for, router_named};
ghost use Rattle.design_file.specs.Settling.{settled_router, settled_routers};

use crate::fault::least;
use crate::interface_settling::settled_interfaces;
use crate::network_faults::network_faults;
use crate::{Design, DesignInterface, DesignRefusal, DesignRouter, Settled, SettledRouter};
use net_addr::Name;
use net_model::{Config, Levels, Net};
use std::alloc::{AllocError, Global};

/// What a design settles for a network.
///
/// A design that can't be settled for it is refused with the lowest kind of what is wrong in it, and the least path of this kind.
pub fn settle(alloc: Global, design: &Design, net: &Net) -> Result<Settled, DesignRefusal>
    requires { IsSoundDesign design.now }
    ensures ok { IfOk result (Settles design.now net.now) }
    ensures fits { IfOk result (FitsNetwork net.now) }
    ensures err { IfErr result (RefusesDesign design.now net.now) }
{
    match least(network_faults(alloc, design, net)?) {
        Some(fault) => Err(DesignRefusal::Bad {
            kind: fault.kind,
            path: fault.path,
        }),
        None => Ok(settled_routers(alloc, design, net)?),
    }
}

/// What is settled for the routers of a network.
fn settled_routers(alloc: Global, design: &Design, net: &Net) -> Result<Settled, AllocError>
    ensures { IfOk result (λ all. all ≡ settled_routers design.now net.now) }
{
    let mut all = Vec::new(alloc);
    for router in 0..net.routers() {
        all.push(settled_router(alloc, design, net.config(router))?)?;
    }
    Ok(Settled::from_vec(all))
}

/// What is settled for the router of a configuration.
fn settled_router(
    alloc: Global,
    design: &Design,
    config: &Config,
) -> Result<SettledRouter, AllocError>
    ensures { IfOk result (λ settled. settled ≡ settled_router design.now (router_named config.now.name design.now.routers) config.now) }
{
    let own = router_named(design.routers.as_slice(), config.name.as_slice());
    let area = Name::from_vec(Vec::from_slice(alloc, area_for(design, own))?);
    let metric = metric_for(design, own);
    let interfaces = config.interfaces.as_slice();
    Ok(SettledRouter {
        area,
        levels: levels_for(design, own),
        leak: leak_for(own),
        interfaces: settled_interfaces(alloc, metric, named_for(own), interfaces)?,
    })
}

/// What a design says of the router of this name.
fn router_named<'a>(routers: &'a [DesignRouter], name: &[u8]) -> Option<&'a DesignRouter>
    ensures { option_copied result ≡ router_named name.now routers.now }
{
    routers.iter().find(|router| router.name.as_slice() == name)
}

/// The area of a router, else that of all.
fn area_for<'a>(design: &'a Design, own: Option<&'a DesignRouter>) -> &'a [u8]
    ensures { result.now ≡ area_for design.now (option_copied own.entry) }
{
    match own {
        Some(
            DesignRouter {
                area: Some(area),
                ..
            },
        ) => area.as_slice(),
        _ => design.area.as_slice(),
    }
}

/// The levels of a router, else those of all.
fn levels_for(design: &Design, own: Option<&DesignRouter>) -> Levels
    ensures { result ≡ levels_for design.now (option_copied own.entry) }
{
    match own {
        Some(own) => own.levels.unwrap_or(design.levels),
        None => design.levels,
    }
}

/// The metric of a router, else that of all.
fn metric_for(design: &Design, own: Option<&DesignRouter>) -> u32
    ensures { result ≡ metric_for design.now (option_copied own.entry) }
{
    match own {
        Some(own) => own.metric.unwrap_or(design.metric),
        None => design.metric,
    }
}

/// Whether a router leaks level 2 routes into level 1.
fn leak_for(own: Option<&DesignRouter>) -> bool
    ensures { result ≡ leak_for (option_copied own.entry) }
{
    match own {
        Some(own) => own.leak,
        None => false,
    }
}

/// The interfaces of a router of which something is said.
fn named_for<'a>(own: Option<&'a DesignRouter>) -> &'a [DesignInterface]
    ensures { result.now ≡ named_for (option_copied own.entry) }
{
    match own {
        Some(own) => own.interfaces.as_slice(),
        None => &[],
    }
}
