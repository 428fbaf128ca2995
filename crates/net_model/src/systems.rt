ghost use Rattle.std.specs.Prelude.{◌≡◌, [], ◌∷◌, ◌++◌, ◌≤◌, length, IfErr, IfOk, OnOk};
ghost use Rattle.std.specs.Bool.{OnTrue};
ghost use Rattle.std.specs.List.{filter_map};
ghost use Rattle.std.specs.List.Sorted.{IsStrictlyIncreasing};
ghost use Rattle.net_model.specs.Conditions.{HaveOneSystem, SystemsDiffer};
ghost use Rattle.net_model.specs.Refusals.{MayStand};
ghost use Rattle.net_model.specs.steps.Systems.{own_system};

use crate::pairs::{Clash, first_clash};
use crate::{Config, MOST_ROUTERS, NetRefusal};
use std::alloc::{AllocError, Global};

/// Refuses a system id that two routers with IS-IS have.
pub fn check_systems(alloc: Global, configs: &[Config]) -> Result<(), NetRefusal>
    requires { length configs.now ≤ MOST_ROUTERS }
    ensures ok { OnOk result (SystemsDiffer configs.now) }
    ensures err { IfErr result (λ e. MayStand 9 e configs.now) }
{
    if systems_differ(alloc, configs)? {
        return Ok(());
    }
    match first_clash::<OneSystem>(alloc, configs)? {
        Some(pair) => Err(NetRefusal::SystemIdTwice {
            one: pair.one,
            two: pair.two,
        }),
        None => Ok(()),
    }
}

/// Whether no system id stands twice among those of routers with IS-IS. Then no pair of routers needs to be looked at.
fn systems_differ(alloc: Global, configs: &[Config]) -> Result<bool, AllocError>
    ensures { IfOk result (λ apart. OnTrue apart (SystemsDiffer configs.now)) }
{
    let mut systems = list_systems(alloc, configs)?;
    systems.sort_unstable();
    Ok(ascend(&systems))
}

/// The system ids of routers with IS-IS.
fn list_systems(alloc: Global, configs: &[Config]) -> Result<Vec<u64>, AllocError>
    ensures { IfOk result (λ v. v.items ≡ filter_map own_system configs.now) }
{
    let mut systems = Vec::new(alloc);
    for config in configs {
        push_system(&mut systems, config)?;
    }
    Ok(systems)
}

/// Adds the system id of a router with IS-IS.
fn push_system(systems: &mut Vec<u64>, config: &Config) -> Result<(), AllocError>
    ensures { OnOk result (systems.new.items ≡ systems.old.items ++ filter_map own_system (config.now ∷ [])) }
{
    if config.isis {
        systems.push(config.system)?;
    }
    Ok(())
}

/// Whether each number is above the one before it.
fn ascend(numbers: &[u64]) -> bool
    ensures { OnTrue result (IsStrictlyIncreasing numbers.now) }
{
    for next in 1..numbers.len() {
        if numbers[next - 1] >= numbers[next] {
            return false;
        }
    }
    true
}

/// Two routers clash in a system id that both have.
struct OneSystem;

impl Clash for OneSystem {
    type Item = u64;

    ghost clash = { HaveOneSystem };

    ghost at_most = { λ a b. a ≤ b };

    fn least(configs: &[Config], one: u32, two: u32) -> Option<u64> {
        let near = &configs[one as usize];
        let far = &configs[two as usize];
        if one != two && near.isis && far.isis && near.system == far.system {
            Some(near.system)
        } else {
            None
        }
    }
}
