ghost use Rattle.std.specs.Prelude.{◌≡◌, ◌≤◌, IfOk, length};
ghost use Rattle.igp_theory.specs.Migrations.{started};
ghost use Rattle.rib_mix.specs.Mixture.{migration_of};
ghost use Rattle.igp_theory.specs.Phases.{state_in};
ghost use Rattle.plan_theory.specs.Plans.{IsNightPlanned, IsPlanned};
ghost use Rattle.plan_theory.specs.Ranked.{CanRank, size_of};

use crate::ends::{end_fault, phases_of};
use crate::night::NightFinder;
use crate::night_oracle::NightOracle;
use igp_theory::Phase;
use order_search::search;
use plan_theory::{Items, Planned};
use rib_mix::{Mixed, OutOfMemory};
use route_core::RouteSource;
use std::alloc::Global;

/// What is planned of the network of mixed forwarding, with this budget of branches, where routers are ranked and all start in
/// `Old`.
pub fn plan_waves<'a, O: RouteSource, N: RouteSource>(
    alloc: Global,
    mixed: &'a Mixed<'a, O, N>,
    budget: u32,
) -> Result<Planned, OutOfMemory>
    requires budget { 1 ≤ budget }
    requires some { 1 ≤ length mixed.now.net }
    requires few { length mixed.now.net ≤ 1000 }
    ensures planned { IfOk result (IsPlanned (migration_of O.table N.table mixed.now) budget) }
{
    let start = phases_of(alloc, mixed.net().routers(), Phase::Old)?;
    plan_night(alloc, mixed, Items::Routers, start.as_slice(), budget)
}

/// What is planned of a night over mixed forwarding, with this budget of branches: what is ranked are routers, which start in any
/// phases, or single changes, where every router starts in `Old`. First both ends are looked at, and where they are sound a
/// ranking is searched for throughout whose timetable the migration is sound.
pub fn plan_night<'a, O: RouteSource, N: RouteSource>(
    alloc: Global,
    mixed: &'a Mixed<'a, O, N>,
    items: Items,
    start: &[Phase],
    budget: u32,
) -> Result<Planned, OutOfMemory>
    requires budget { 1 ≤ budget }
    requires some { 1 ≤ length mixed.now.net }
    requires few { size_of items (length mixed.now.net) ≤ 1000 }
    requires each { length start.now ≡ length mixed.now.net }
    requires ranks { CanRank items (started (state_in start.now) (migration_of O.table N.table mixed.now)) }
    ensures planned { IfOk result (IsNightPlanned items (started (state_in start.now) (migration_of O.table N.table mixed.now)) budget) }
{
    let mut night = NightFinder::new(alloc, mixed, items, start)?;
    if let Some(fault) = end_fault(alloc, &mut night, start)? {
        return Ok(Planned::UnsoundOld { fault });
    }
    let last = phases_of(alloc, mixed.net().routers(), Phase::New)?;
    if let Some(fault) = end_fault(alloc, &mut night, last.as_slice())? {
        return Ok(Planned::UnsoundNew { fault });
    }
    let mut oracle = NightOracle::new(night);
    let found = search(alloc, &mut oracle, budget)?;
    Ok(Planned::Searched { found })
}
