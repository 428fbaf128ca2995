ghost use Rattle.std.specs.Prelude.{◌≡◌, ◌≤◌, List, [], ◌∷◌, ◌++◌, All, IfErr, IfOk, OnOk, count_by, length, map};
ghost use Rattle.std.specs.List.{filter_map};
ghost use Rattle.net_model.specs.Configuration.{Configuration, IsConfiguration};
ghost use Rattle.net_model.specs.Limits.{CountsDests, IsWithinLimits, all_up_interfaces};
ghost use Rattle.net_model.specs.DestLists.{all_dests, own_dests, subnet_if_up};
ghost use Rattle.net_model.specs.Refusals.{Refuses, carried};

use crate::{
    Config, Interface, LimitWhat, MOST_DESTS, MOST_ROUTERS, MOST_UP_INTERFACES, NetRefusal, Range,
};
use net_addr::Prefix;
use std::alloc::{AllocError, Global};

/// Whether configurations are within the limits of a network; else the refusal is of the first that they exceed.
pub(crate) fn within_limits(alloc: Global, configs: &[Config]) -> Result<(), NetRefusal>
    ensures ok { OnOk result (IsWithinLimits configs.now) }
    ensures err { IfErr result (λ e. Refuses e configs.now) }
    ensures each { OnOk result (All IsConfiguration configs.now) }
{
    let routers = configs.len();
    if routers > MOST_ROUTERS {
        return Err(above(LimitWhat::Routers, routers as u64));
    }
    let interfaces = count_interfaces(configs);
    if interfaces > MOST_UP_INTERFACES as u64 {
        return Err(above(LimitWhat::Interfaces, interfaces));
    }
    within_dests(alloc, configs)
}

/// Whether configurations within the other limits name few enough prefixes; else the refusal is of their number. Where they
/// are few even with repeats, nothing is sorted.
fn within_dests(alloc: Global, configs: &[Config]) -> Result<(), NetRefusal>
    requires routers { length configs.now ≤ MOST_ROUTERS }
    requires interfaces { all_up_interfaces configs.now ≤ MOST_UP_INTERFACES }
    ensures ok { OnOk result (IsWithinLimits configs.now) }
    ensures err { IfErr result (λ e. Refuses e configs.now) }
{
    let named = list_dests(alloc, configs)?;
    if named.len() <= MOST_DESTS {
        return Ok(());
    }
    let dests = count_apart(named);
    if dests > MOST_DESTS {
        return Err(above(LimitWhat::Dests, dests as u64));
    }
    Ok(())
}

/// The refusal of too many.
fn above(what: LimitWhat, number: u64) -> NetRefusal
    ensures { result ≡ NetRefusal.Limit what number }
{
    NetRefusal::Limit { what, number }
}

/// How many interfaces of all configurations are up, or 2^64 - 1 where there are more.
pub fn count_interfaces(configs: &[Config]) -> u64
    ensures count { result ≡ carried (all_up_interfaces configs.now) }
    ensures each { All IsConfiguration configs.now }
{
    let mut count = 0u64;
    for config in configs {
        count = count.saturating_add(count_up(config.interfaces.as_slice()) as u64);
    }
    count
}

/// How many interfaces are up.
fn count_up(interfaces: &[Interface]) -> usize
    ensures { result ≡ count_by (λ i. i.up) interfaces.now }
{
    interfaces.iter().filter(|i| i.up).count()
}

/// How many prefixes the configurations name.
pub fn count_dests(alloc: Global, configs: &[Config]) -> Result<usize, AllocError>
    ensures { IfOk result (λ count. CountsDests configs.now count) }
{
    Ok(count_apart(list_dests(alloc, configs)?))
}

/// How many prefixes stand in a list with repeats.
fn count_apart(dests: Vec<Prefix>) -> usize
    ensures { (configs : List Configuration) → dests.items ≡ all_dests configs → CountsDests configs result }
{
    let mut dests = dests;
    dests.sort_unstable();
    dests.dedup();
    dests.len()
}

/// The prefixes that the configurations name, with repeats.
fn list_dests(alloc: Global, configs: &[Config]) -> Result<Vec<Prefix>, AllocError>
    ensures { IfOk result (λ v. v.items ≡ all_dests configs.now) }
{
    let mut dests = Vec::new(alloc);
    for config in configs {
        add_dests(&mut dests, config)?;
    }
    Ok(dests)
}

/// Adds the prefixes that a configuration names.
fn add_dests(dests: &mut Vec<Prefix>, config: &Config) -> Result<(), AllocError>
    ensures { OnOk result (dests.new.items ≡ dests.old.items ++ own_dests config.now) }
{
    add_subnets(dests, config.interfaces.as_slice())?;
    add_ranges(dests, config.ranges.as_slice())
}

/// Adds the subnets of interfaces that are up.
fn add_subnets(dests: &mut Vec<Prefix>, interfaces: &[Interface]) -> Result<(), AllocError>
    ensures { OnOk result (dests.new.items ≡ dests.old.items ++ filter_map subnet_if_up interfaces.now) }
{
    for interface in interfaces {
        add_subnet(dests, interface)?;
    }
    Ok(())
}

/// Adds the subnet of an interface that is up.
fn add_subnet(dests: &mut Vec<Prefix>, interface: &Interface) -> Result<(), AllocError>
    ensures { OnOk result (dests.new.items ≡ dests.old.items ++ filter_map subnet_if_up (interface.now ∷ [])) }
{
    match interface.subnet {
        Some(subnet) if interface.up => Ok(dests.push(subnet)?),
        _ => Ok(()),
    }
}

/// Adds the prefixes of ranges.
fn add_ranges(dests: &mut Vec<Prefix>, ranges: &[Range]) -> Result<(), AllocError>
    ensures { OnOk result (dests.new.items ≡ dests.old.items ++ map (λ r. r.dest) ranges.now) }
{
    for range in ranges {
        dests.push(range.dest)?;
    }
    Ok(())
}
