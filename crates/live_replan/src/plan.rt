ghost use Rattle.std.specs.Prelude.{◌≡◌, ◌≤◌, IfOk, length};
ghost use Rattle.igp_theory.specs.Migrations.{started};
ghost use Rattle.igp_theory.specs.Phases.{state_in};
ghost use Rattle.plan_theory.specs.Plans.{IsPlanned};
ghost use Rattle.rib_mix.specs.Mixture.{migration_of};

use igp_theory::Phase;
use plan_theory::{Items, Planned};
use rib_mix::{Mixed, OutOfMemory};
use route_core::RouteSource;
use std::alloc::Global;
use wave_oracle::plan_night;

/// What is planned of the rest of a night from the state that gives each router the phase at its place, with this budget of
/// branches: the fault of an end that isn't sound, waves of the rest, a refutation of all of them, or a tree where the budget was
/// spent. The start is the one end, which `UnsoundOld` tells of. The only error is want of memory.
pub fn plan_rest<O: RouteSource, N: RouteSource>(
    alloc: Global,
    mixed: &Mixed<'_, O, N>,
    start: &[Phase],
    budget: u32,
) -> Result<Planned, OutOfMemory>
    requires each { length start.now ≡ length mixed.now.net }
    requires budget { 1 ≤ budget }
    requires some { 1 ≤ length mixed.now.net }
    requires few { length mixed.now.net ≤ 1000 }
    ensures { IfOk result (IsPlanned (started (state_in start.now) (migration_of O.table N.table mixed.now)) budget) }
{
    plan_night(alloc, mixed, Items::Routers, start, budget)
}
