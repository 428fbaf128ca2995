ghost use Rattle.std.specs.Prelude.{◌≡◌, ◌≤◌, ◌↔◌, [], IsTrue, IfOk, OnOk, length};
ghost use Rattle.net_model.specs.Limits.{IsWithinLimits};
ghost use Rattle.net_model.specs.Refusals.{Stands};
ghost use Rattle.network_survey.specs.AllRefusals.{IsSurveyed, StandsFor};
ghost use Rattle.network_survey.specs.steps.Kept.{IsChecked, KeepsRefusal, ListsAbove};

use crate::OutOfMemory;
use net_model::{
    Config, Configs, LimitWhat, MOST_DESTS, MOST_ROUTERS, MOST_UP_INTERFACES, Net, NetRefusal,
    check_addresses, check_areas, check_borders, check_isis_metrics, check_names, check_ospf_costs,
    check_stubs, check_systems, count_dests, count_interfaces, sort_by_name,
};
use std::alloc::Global;

/// The network of configurations, or why they make none.
#[derive(Debug, Drop)]
pub enum Surveyed {
    /// Their network.
    Network(Net),
    /// All refusals that stand, in their order.
    Refused(Vec<NetRefusal>),
}

/// The network of configurations, or all refusals that stand.
pub fn network_or_refusals(alloc: Global, configs: Configs) -> Result<Surveyed, OutOfMemory>
    ensures { IfOk result (IsSurveyed configs) }
{
    let mut configs = configs.into_vec();
    let mut found = limit_refusals(alloc, configs.as_slice())?;
    sort_by_name(&mut configs);
    keep(&mut found, check_names(alloc, configs.as_slice()))?;
    if !are_none(found.as_slice()) {
        return Ok(Surveyed::Refused(found));
    }
    let found = network_refusals(alloc, configs.as_slice())?;
    if !are_none(found.as_slice()) {
        return Ok(Surveyed::Refused(found));
    }
    match Net::build(alloc, Configs::from_vec(configs)) {
        Ok(net) => Ok(Surveyed::Network(net)),
        Err(_) => Err(OutOfMemory),
    }
}

/// The limits that configurations exceed.
fn limit_refusals(alloc: Global, configs: &[Config]) -> Result<Vec<NetRefusal>, OutOfMemory>
    ensures all { IfOk result (λ found. ListsAbove (λ r. StandsFor r configs.now) 3 found.items) }
    ensures within { IfOk result (λ found. found.items ≡ [] → IsWithinLimits configs.now) }
{
    let mut found = Vec::new(alloc);
    let routers = configs.len() as u64;
    keep(
        &mut found,
        check_limit(LimitWhat::Routers, routers, MOST_ROUTERS as u64),
    )?;
    let interfaces = count_interfaces(configs);
    keep(
        &mut found,
        check_limit(LimitWhat::Interfaces, interfaces, MOST_UP_INTERFACES as u64),
    )?;
    let dests = count_dests(alloc, configs)? as u64;
    keep(
        &mut found,
        check_limit(LimitWhat::Dests, dests, MOST_DESTS as u64),
    )?;
    Ok(found)
}

/// Refuses a number above its limit.
fn check_limit(what: LimitWhat, number: u64, most: u64) -> Result<(), NetRefusal>
    ensures { IsChecked what number most result }
{
    if number > most {
        return Err(NetRefusal::Limit { what, number });
    }
    Ok(())
}

/// What refuses a network, each by its own condition.
fn network_refusals(alloc: Global, configs: &[Config]) -> Result<Vec<NetRefusal>, OutOfMemory>
    requires { length configs.now ≤ MOST_ROUTERS }
    ensures { IfOk result (λ found. ListsAbove (λ r. Stands r configs.now) 11 found.items) }
{
    let mut found = Vec::new(alloc);
    keep(&mut found, check_addresses(alloc, configs))?;
    keep(&mut found, check_areas(alloc, configs))?;
    keep(&mut found, check_borders(alloc, configs))?;
    keep(&mut found, check_ospf_costs(configs))?;
    keep(&mut found, check_isis_metrics(configs))?;
    keep(&mut found, check_systems(alloc, configs))?;
    keep(&mut found, check_stubs(alloc, configs))?;
    Ok(found)
}

/// KeepsRefusal the refusal of a check. Want of memory isn't kept.
fn keep(found: &mut Vec<NetRefusal>, checked: Result<(), NetRefusal>) -> Result<(), OutOfMemory>
    ensures { OnOk result (KeepsRefusal checked found.old.items found.new.items) }
{
    match checked {
        Ok(()) => Ok(()),
        Err(NetRefusal::OutOfMemory) => Err(OutOfMemory),
        Err(refusal) => Ok(found.push(refusal)?),
    }
}

/// Whether these are no refusals.
fn are_none(found: &[NetRefusal]) -> bool
    ensures { IsTrue result ↔ (found.now ≡ []) }
{
    found.is_empty()
}
