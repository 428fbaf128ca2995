ghost use Rattle.std.specs.Prelude.{◌≡◌, ◌<◌, ℕ, IfOk, IfSome, IfNone, length};
ghost use Rattle.igp_theory.specs.LoopLaws.{IsFromStart};
ghost use Rattle.igp_theory.specs.Loops.{IsFault};
ghost use Rattle.igp_theory.specs.States.{IsSound};
ghost use Rattle.loop_finder.specs.Faults.{told_fault};
ghost use Rattle.igp_theory.specs.Phases.{state_in};
ghost use Rattle.plan_theory.specs.Plans.{fault_told};
ghost use Rattle.wave_oracle.specs.Nights.{night_move};

use crate::night::NightFinder;
use igp_theory::Phase;
use loop_finder::Fault;
use order_core::{Turn, Turns};
use plan_theory::EndFault;
use rib_mix::OutOfMemory;
use route_core::RouteSource;
use std::alloc::Global;

/// The fault of a state of a night in which no router is in an earlier phase than at the start; none where it is sound.
pub(crate) fn end_fault<O: RouteSource, N: RouteSource>(
    alloc: Global,
    night: &mut NightFinder<'_, O, N>,
    phases: &[Phase],
) -> Result<Option<EndFault>, OutOfMemory>
    requires each { length phases.now ≡ length night.old.mixture.net }
    requires from { IsFromStart (night_move O.table N.table night.old) (state_in phases.now) }
    ensures sound { IfOk result (λ fault. IfNone fault (IsSound (night_move O.table N.table night.old) (state_in phases.now))) }
    ensures fault { IfOk result (λ fault. IfSome fault (λ whole.
        IsFault (night_move O.table N.table night.old) (state_in phases.now) (fault_told whole))) }
    ensures mixture { night.new.mixture ≡ night.old.mixture }
    ensures items { night.new.items ≡ night.old.items }
    ensures start { night.new.start ≡ night.old.start }
{
    match night.state_fault(phases) {
        None => Ok(None),
        Some(fault) => Ok(Some(whole_fault(alloc, fault, night.ring())?)),
    }
}

/// The state in which each of so many routers is in this phase.
pub(crate) fn phases_of(
    alloc: Global,
    routers: u32,
    phase: Phase,
) -> Result<Vec<Phase>, OutOfMemory>
    ensures count { IfOk result (λ phases. length phases.items ≡ routers) }
    ensures each { IfOk result (λ phases. (u : ℕ) → u < routers → state_in phases.items u ≡ phase) }
{
    let phases = vec![in alloc; phase; routers as usize]?;
    Ok(phases)
}

/// The fault with the ring of its loop, which stands beside it in a finder. The only error is want of memory.
pub fn whole_fault(alloc: Global, fault: Fault, ring: &[Turn]) -> Result<EndFault, OutOfMemory>
    ensures { IfOk result (λ whole. fault_told whole ≡ told_fault fault ring.now) }
{
    match fault {
        Fault::Loop { address } => {
            let turns = Turns::from_vec(Vec::from_slice(alloc, ring)?);
            Ok(EndFault::Loop { address, turns })
        }
        Fault::Missing { address, router } => Ok(EndFault::Missing { address, router }),
    }
}
