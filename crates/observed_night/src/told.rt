ghost use Rattle.std.specs.Prelude.{◌≡◌, ◌<◌, ◌≤◌, ◌↔◌, ℕ, IfOk, IsTrue, length};
ghost use Rattle.order_core.specs.Rankings.{rank_of};
ghost use Rattle.igp_theory.specs.Phases.{state_in};
ghost use Rattle.igp_theory.specs.declared.phase.Phase.{Phase};
ghost use Rattle.observed_night.specs.ShownPhases.{IsAstray, MayBeIn};
ghost use Rattle.observed_night.specs.ToldStates.{HasLaterWave, IsToldPhase, IsToldState, IsWaveDone, MayAllBeNew};

use crate::shown::{least_phase, may_be_in};
use igp_theory::Phase;
use net_model::Net;
use std::alloc::{AllocError, Global};

/// What is told of each router. The only error is want of memory.
pub(crate) fn told_phases(
    alloc: Global,
    before: &Net,
    now: &Net,
    ranks: &[u32],
) -> Result<Vec<Phase>, AllocError>
    requires routers { length before.now ≡ length now.now }
    requires ranks { length ranks.now ≡ length before.now }
    requires none { (u : ℕ) → IsAstray before.now now.now ranks.now u → ⊥ }
    ensures each { IfOk result (λ phases. length phases.items ≡ length before.now) }
    ensures told { IfOk result (λ phases. IsToldState before.now now.now ranks.now (state_in phases.items)) }
{
    let mut phases = Vec::with_capacity(alloc, before.routers() as usize)?;
    for router in 0..before.routers() {
        phases.push(told_phase(before, now, ranks, router))?;
    }
    Ok(phases)
}

/// What is told of a router.
fn told_phase(before: &Net, now: &Net, ranks: &[u32], router: u32) -> Phase
    requires routers { length before.now ≡ length now.now }
    requires ranks { length ranks.now ≡ length before.now }
    requires router { router < length before.now }
    requires some { ((phase : Phase) → MayBeIn before.now now.now router phase → ⊥) → ⊥ }
    ensures { IsToldPhase before.now now.now ranks.now router result }
{
    if is_wave_done(before, now, ranks, router) {
        return Phase::New;
    }
    let Some(phase) = least_phase(before, now, router) else {
        unreachable!();
    };
    phase
}

/// Whether the wave of a router is done.
fn is_wave_done(before: &Net, now: &Net, ranks: &[u32], router: u32) -> bool
    requires routers { length before.now ≡ length now.now }
    requires ranks { length ranks.now ≡ length before.now }
    requires router { router < length before.now }
    ensures { IsTrue result ↔ IsWaveDone before.now now.now ranks.now router }
{
    has_later_wave(ranks, router) && may_all_be_new(before, now, ranks, router)
}

/// Whether a router stands in a later wave.
fn has_later_wave(ranks: &[u32], router: u32) -> bool
    requires { router < length ranks.now }
    ensures { IsTrue result ↔ HasLaterWave (length ranks.now) ranks.now router }
{
    let own = ranks[router as usize];
    for rank in ranks {
        if own < *rank {
            return true;
        }
    }
    false
}

/// Whether each router up to a wave may be `New`.
fn may_all_be_new(before: &Net, now: &Net, ranks: &[u32], router: u32) -> bool
    requires routers { length before.now ≡ length now.now }
    requires ranks { length ranks.now ≡ length before.now }
    requires router { router < length before.now }
    ensures { IsTrue result ↔ MayAllBeNew before.now now.now ranks.now router }
{
    for other in 0..before.routers() {
        if ranks[other as usize] <= ranks[router as usize]
            && !may_be_in(before, now, other, Phase::New)
        {
            return false;
        }
    }
    true
}
