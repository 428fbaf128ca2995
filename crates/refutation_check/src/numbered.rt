ghost use Rattle.std.specs.Prelude.{◌<◌, All, IfOk, length};
ghost use Rattle.net_model.specs.Refusals.{IsNetwork};
ghost use Rattle.plan_theory.specs.Ranked.{size_of};
ghost use Rattle.plan_theory.specs.Numbers.{AreNumbered};
ghost use Rattle.refutation_check.specs.steps.Judged.{started_of};
ghost use Rattle.refutation_check.specs.steps.Right.{IsRightBranch};

use crate::asked::Asked;
use net_addr::OutOfMemory;
use order_core::{Turn, Turns};
use plan_theory::number_turns;
use route_core::RouteSource;
use std::alloc::Global;

/// The turns of a right branch, each with the number that it has to name in place of its router.
pub(crate) fn numbered<O: RouteSource, N: RouteSource>(
    alloc: Global,
    asked: &Asked<'_, '_, O, N>,
    address: u32,
    turns: &[Turn],
) -> Result<Turns, OutOfMemory>
    requires network { IsNetwork asked.now.mixed.now.net }
    requires below { All (λ turn. turn.router < length asked.now.mixed.now.net) turns.now }
    requires right { IsRightBranch (started_of O.table N.table asked.now.mixed.now asked.now.start.now) address turns.now }
    ensures numbered { IfOk result (AreNumbered asked.now.items
        (started_of O.table N.table asked.now.mixed.now asked.now.start.now) address turns.now) }
    ensures below { IfOk result (All (λ turn. turn.router < size_of asked.now.items (length asked.now.mixed.now.net))) }
{
    let mut numbered = Vec::with_capacity(alloc, turns.len())?;
    number_turns(asked.items, asked.mixed, address, turns, &mut numbered);
    Ok(Turns::from_vec(numbered))
}
