ghost use Rattle.std.specs.Prelude.{◌≡◌, ◌<◌, ◌↔◌, IsSome, IsTrue, MatchOption, length};
ghost use Rattle.igp_theory.specs.declared.phase.Phase.{Phase};
ghost use Rattle.observed_night.specs.ShownPhases.{MayBeIn, ShowPhase, isis_distance_in, ospf_distance_in};
ghost use Rattle.observed_night.specs.ToldStates.{IsLeastPhase};

use igp_theory::Phase;
use net_model::{Config, ISIS_DISTANCE, MOST_DISTANCE, Net};

/// The phase in which a router may be after the fewest changes, by its configurations of before and of now.
pub(crate) fn least_phase(before: &Net, now: &Net, router: u32) -> Option<Phase>
    requires routers { length before.now ≡ length now.now }
    requires router { router < length before.now }
    ensures { MatchOption result
        ((phase : Phase) → MayBeIn before.now now.now router phase → ⊥)
        (IsLeastPhase before.now now.now router) }
{
    if may_be_in(before, now, router, Phase::Old) {
        Some(Phase::Old)
    } else if may_be_in(before, now, router, Phase::Middle) {
        Some(Phase::Middle)
    } else if may_be_in(before, now, router, Phase::New) {
        Some(Phase::New)
    } else {
        None
    }
}

/// Whether a router may be in a phase.
pub(crate) fn may_be_in(before: &Net, now: &Net, router: u32, phase: Phase) -> bool
    requires routers { length before.now ≡ length now.now }
    requires router { router < length before.now }
    ensures { IsTrue result ↔ MayBeIn before.now now.now router phase }
{
    show_phase(before.config(router), now.config(router), phase)
}

/// Whether a configuration of before and one of now show a phase.
fn show_phase(one: &Config, its: &Config, phase: Phase) -> bool
    ensures { IsTrue result ↔ ShowPhase one.now its.now phase }
{
    shows_isis(its, phase) && shows_ospf(one.distances.ospf, its, phase)
}

/// Whether IS-IS, where there is any, has the distance of a phase.
fn shows_isis(its: &Config, phase: Phase) -> bool
    ensures { IsTrue result ↔ (IsTrue its.now.isis → its.now.distances.isis ≡ isis_distance_in phase) }
{
    !its.isis || its.distances.isis == isis_distance_in(phase)
}

/// Whether OSPF, where there is any, has the distance of a phase.
fn shows_ospf(before: u8, its: &Config, phase: Phase) -> bool
    ensures { IsTrue result ↔ (IsSome its.now.process → its.now.distances.ospf ≡ ospf_distance_in before phase) }
{
    its.process.is_none() || its.distances.ospf == ospf_distance_in(before, phase)
}

/// The distance of IS-IS in a phase.
fn isis_distance_in(phase: Phase) -> u8
    ensures { result ≡ isis_distance_in phase }
{
    match phase {
        Phase::Old => MOST_DISTANCE,
        Phase::Middle | Phase::New => ISIS_DISTANCE,
    }
}

/// The distance of OSPF in a phase, from that of before.
fn ospf_distance_in(before: u8, phase: Phase) -> u8
    ensures { result ≡ ospf_distance_in before phase }
{
    match phase {
        Phase::Old | Phase::Middle => before,
        Phase::New => MOST_DISTANCE,
    }
}
