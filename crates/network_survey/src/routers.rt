ghost use Rattle.std.specs.Prelude.{◌≡◌, ◌+◌, ◌++◌, ◌∷◌, [], ◌<◌, ◌↔◌, Any, IfOk, IsTrue, OnOk, length};
ghost use Rattle.std.specs.List.{filter_map};
ghost use Rattle.net_model.specs.OffStarts.{IsOffStart};
ghost use Rattle.network_survey.specs.Routers.{IsOff, IsSilent, LacksOspf, ListsAreas, ListsNumbers, isis_interfaces, ospf_interfaces, runs_some_level, runs_ospf};
ghost use Rattle.network_survey.specs.steps.RouterLists.{AddsIf, IsRouterBelow, area_if_up};

use crate::OutOfMemory;
use net_model::{Config, Interface, Net, is_off_start};
use std::alloc::Global;

/// The routers without an up interface that runs OSPF, ascending.
pub fn silent_routers(alloc: Global, net: &Net) -> Result<Vec<u32>, OutOfMemory>
    ensures { IfOk result (λ found. ListsNumbers (IsSilent net.now) found.items) }
{
    let mut found = Vec::new(alloc);
    for router in 0..net.routers() {
        add_if(&mut found, router, lacks_ospf(net.config(router)))?;
    }
    Ok(found)
}

/// The routers that aren't where a migration starts, ascending.
pub fn off_start_routers(alloc: Global, net: &Net) -> Result<Vec<u32>, OutOfMemory>
    ensures { IfOk result (λ found. ListsNumbers (IsOff net.now) found.items) }
{
    let mut found = Vec::new(alloc);
    for router in 0..net.routers() {
        add_if(&mut found, router, is_off_start(net.config(router)))?;
    }
    Ok(found)
}

/// How many interfaces of a router are up and run OSPF.
pub fn ospf_interfaces(config: &Config) -> usize
    ensures { result ≡ ospf_interfaces config.now }
{
    let interfaces = config.interfaces.as_slice();
    interfaces.iter().filter(|i| runs_ospf(i)).count()
}

/// How many interfaces of a router are up and run a level of IS-IS.
pub fn isis_interfaces(config: &Config) -> usize
    ensures { result ≡ isis_interfaces config.now }
{
    let interfaces = config.interfaces.as_slice();
    interfaces.iter().filter(|i| runs_some_level(i)).count()
}

/// The areas of a router's up interfaces, ascending.
pub fn areas_of(alloc: Global, config: &Config) -> Result<Vec<u32>, OutOfMemory>
    ensures { IfOk result (λ areas. ListsAreas config.now areas.items) }
{
    let mut areas = all_areas(alloc, config.interfaces.as_slice())?;
    areas.sort_unstable();
    areas.dedup();
    Ok(areas)
}

/// The areas of up interfaces, one for each that runs OSPF.
fn all_areas(alloc: Global, interfaces: &[Interface]) -> Result<Vec<u32>, OutOfMemory>
    ensures { IfOk result (λ areas. areas.items ≡ filter_map area_if_up interfaces.now) }
{
    let mut areas = Vec::new(alloc);
    for interface in interfaces {
        add_area(&mut areas, interface)?;
    }
    Ok(areas)
}

/// Adds the area of an up interface that runs OSPF.
fn add_area(areas: &mut Vec<u32>, interface: &Interface) -> Result<(), OutOfMemory>
    ensures { OnOk result (areas.new.items ≡ areas.old.items ++ filter_map area_if_up (interface.now ∷ [])) }
{
    match interface.area {
        Some(area) if interface.up => Ok(areas.push(area)?),
        _ => Ok(()),
    }
}

/// Adds the router, where it is to be told.
fn add_if(found: &mut Vec<u32>, router: u32, told: bool) -> Result<(), OutOfMemory>
    ensures { OnOk result (AddsIf found.old.items found.new.items router told) }
{
    if told {
        found.push(router)?;
    }
    Ok(())
}

/// Whether no interface of a router is up and runs OSPF.
fn lacks_ospf(config: &Config) -> bool
    ensures { IsTrue result ↔ LacksOspf config.now }
{
    let interfaces = config.interfaces.as_slice();
    !interfaces.iter().any(|i| runs_ospf(i))
}

/// Whether the interface is up and runs OSPF.
fn runs_ospf(interface: &Interface) -> bool
    ensures { result ≡ runs_ospf interface.now }
{
    interface.up && interface.area.is_some()
}

/// Whether the interface is up and runs a level of IS-IS.
fn runs_some_level(interface: &Interface) -> bool
    ensures { result ≡ runs_some_level interface.now }
{
    interface.up && (interface.level1 || interface.level2)
}
