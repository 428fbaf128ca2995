ghost use Rattle.std.specs.Prelude.{◌<◌, ◌≤◌, IfOk, length};
ghost use Rattle.net_model.specs.Refusals.{IsNetwork};
ghost use Rattle.igp_theory.specs.Migrations.{ospf_to_isis};
ghost use Rattle.ospf_routes.specs.RouteTables.{table_at};
ghost use Rattle.plan_theory.specs.Plans.{IsPlanned};
ghost use Rattle.rib_mix.specs.Mixture.{migration_of};
ghost use Rattle.migrate_cli.specs.PlanDecision.{IsPlanDecision, IsPlanOver};
ghost use Rattle.migrate_cli.specs.steps.Tables.{move_of, new_table};

use crate::OutOfMemory;
use crate::moves::Move;
use crate::tables::{NewRoutes, Tables};
use migration_report::Decision;
use net_model::Net;
use ospf_routes::OspfRoutes;
use plan_theory::Planned;
use rib_mix::Mixed;
use std::alloc::Global;
use std::mem;
use wave_oracle::plan_waves;

/// What is decided of a network: what is planned of it with a budget of so many branches.
pub(crate) fn judge_plan(alloc: Global, budget: u32, net: &Net) -> Result<Decision, OutOfMemory>
    requires budget { 1 ≤ budget }
    requires some { 0 < length net.now }
    ensures { IfOk result (IsPlanDecision budget net.now) }
{
    plan_over(alloc, budget, &Move::to_isis(net))
}

/// What is decided of a migration: what is planned of it.
pub(crate) fn plan_over(alloc: Global, budget: u32, of: &Move<'_>) -> Result<Decision, OutOfMemory>
    requires budget { 1 ≤ budget }
    requires some { 0 < length of.now.net }
    ensures { IfOk result (IsPlanOver (move_of of.now) budget) }
{
    let planned = plan_move(alloc, budget, of)?;
    Ok(Decision::Plan { planned })
}

/// What is planned of a network, by the tables of OSPF and of IS-IS.
pub(crate) fn plan_network(alloc: Global, budget: u32, net: &Net) -> Result<Planned, OutOfMemory>
    requires budget { 1 ≤ budget }
    requires some { 0 < length net.now }
    ensures network { IsNetwork net.now }
    ensures planned { IfOk result (IsPlanned (ospf_to_isis net.now) budget) }
{
    plan_move(alloc, budget, &Move::to_isis(net))
}

/// What is planned of a migration, by the tables before and after, with a budget of so many branches. The program ends soon
/// after, so the tables aren't given back.
fn plan_move(alloc: Global, budget: u32, of: &Move<'_>) -> Result<Planned, OutOfMemory>
    requires budget { 1 ≤ budget }
    requires some { 0 < length of.now.net }
    ensures network { IsNetwork of.now.net }
    ensures planned { IfOk result (IsPlanned (move_of of.now) budget) }
{
    let routers = of.net().routers();
    prove!(routers > 0);
    let tables = Tables::of(alloc, of)?;
    let mixed = tables.mix(alloc)?;
    let planned = plan_mixed(alloc, budget, &mixed);
    mem::forget(mixed);
    mem::forget(tables);
    planned
}

/// What is planned of the network of mixed forwarding.
fn plan_mixed(
    alloc: Global,
    budget: u32,
    mixed: &Mixed<'_, OspfRoutes, NewRoutes>,
) -> Result<Planned, OutOfMemory>
    requires budget { 1 ≤ budget }
    requires some { 0 < length mixed.now.net }
    requires few { length mixed.now.net ≤ 1000 }
    ensures { IfOk result (IsPlanned (migration_of table_at new_table mixed.now) budget) }
{
    plan_waves(alloc, mixed, budget)
}
