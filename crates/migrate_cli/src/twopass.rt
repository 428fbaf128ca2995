ghost use Rattle.std.specs.Prelude.{◌<◌, ◌≤◌, IfOk, length};
ghost use Rattle.net_model.specs.Refusals.{IsNetwork};
ghost use Rattle.plan_theory.specs.Plans.{IsNightPlanned};
ghost use Rattle.migrate_cli.specs.TwoPassDecision.{IsTwoPassDecision};
ghost use Rattle.migrate_cli.specs.steps.Tables.{move_of};

use crate::OutOfMemory;
use crate::moves::Move;
use crate::tables::Tables;
use migration_report::Decision;
use net_model::Net;
use plan_theory::{Items, Planned};
use std::alloc::Global;
use two_pass::plan_two;

/// What is decided of a network: what is planned of its single changes with a budget of so many branches.
pub(crate) fn judge_two_pass(alloc: Global, budget: u32, net: &Net) -> Result<Decision, OutOfMemory>
    requires budget { 1 ≤ budget }
    requires some { 0 < length net.now }
    ensures { IfOk result (IsTwoPassDecision budget net.now) }
{
    let planned = plan_changes(alloc, budget, &Move::to_isis(net))?;
    Ok(Decision::TwoPass { planned })
}

/// What is planned of the single changes of a migration, by the tables before and after.
fn plan_changes(alloc: Global, budget: u32, of: &Move<'_>) -> Result<Planned, OutOfMemory>
    requires budget { 1 ≤ budget }
    requires some { 0 < length of.now.net }
    ensures network { IsNetwork of.now.net }
    ensures planned { IfOk result (IsNightPlanned Items.Changes (move_of of.now) budget) }
{
    let routers = of.net().routers();
    prove!(routers > 0);
    let tables = Tables::of(alloc, of)?;
    let mixed = tables.mix(alloc)?;
    let planned = plan_two(alloc, &mixed, budget)?;
    Ok(planned)
}
