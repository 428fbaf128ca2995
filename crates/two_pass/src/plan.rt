ghost use Rattle.std.specs.Prelude.{◌*◌, ◌<◌, ◌≤◌, IfOk, length};
ghost use Rattle.plan_theory.specs.Plans.{IsNightPlanned};
ghost use Rattle.rib_mix.specs.Mixture.{migration_of};

use crate::finder::old_phases;
use plan_theory::{Items, Planned};
use rib_mix::{Mixed, OutOfMemory};
use route_core::RouteSource;
use std::alloc::Global;
use wave_oracle::plan_night;

/// What is planned of the single changes of a network, with this budget of branches: the fault of an end that isn't sound, waves of
/// changes, a refutation of all of them, or a tree where the budget was spent. The only error is want of memory.
pub fn plan_two<O: RouteSource, N: RouteSource>(
    alloc: Global,
    mixed: &Mixed<'_, O, N>,
    budget: u32,
) -> Result<Planned, OutOfMemory>
    requires budget { 1 ≤ budget }
    requires some { 0 < length mixed.now.net }
    requires few { 2 * length mixed.now.net ≤ 1000 }
    ensures { IfOk result (IsNightPlanned Items.Changes (migration_of O.table N.table mixed.now) budget) }
{
    let start = old_phases(alloc, mixed.net().routers())?;
    plan_night(alloc, mixed, Items::Changes, start.as_slice(), budget)
}
