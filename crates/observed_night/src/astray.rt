ghost use Rattle.std.specs.Prelude.{◌≡◌, ◌<◌, ◌≤◌, ◌↔◌, ℕ, IsTrue, MatchOption, length};
ghost use Rattle.order_core.specs.Least.{IsLowest};
ghost use Rattle.igp_theory.specs.Phases.{made_in};
ghost use Rattle.observed_night.specs.ShownPhases.{FollowsUndone, IsAstray, IsNotDone};

use crate::shown::{least_phase, may_be_in};
use igp_theory::Phase;
use net_model::Net;

/// The lowest router whose changes can't be, by the distances of all routers.
pub(crate) fn first_astray(before: &Net, now: &Net, ranks: &[u32]) -> Option<u32>
    requires routers { length before.now ≡ length now.now }
    requires ranks { length ranks.now ≡ length before.now }
    ensures { MatchOption result
        ((u : ℕ) → IsAstray before.now now.now ranks.now u → ⊥)
        (IsLowest (IsAstray before.now now.now ranks.now)) }
{
    for router in 0..before.routers() {
        if is_astray(before, now, ranks, router) {
            return Some(router);
        }
    }
    None
}

/// Whether the changes of a router can't be.
fn is_astray(before: &Net, now: &Net, ranks: &[u32], router: u32) -> bool
    requires routers { length before.now ≡ length now.now }
    requires ranks { length ranks.now ≡ length before.now }
    requires router { router < length before.now }
    ensures { IsTrue result ↔ IsAstray before.now now.now ranks.now router }
{
    let Some(phase) = least_phase(before, now, router) else {
        return true;
    };
    has_begun(phase) && follows_undone(before, now, ranks, router)
}

/// Whether a router has made a change in a phase.
fn has_begun(phase: Phase) -> bool
    ensures { IsTrue result ↔ (1 ≤ made_in phase) }
{
    !matches!(phase, Phase::Old)
}

/// Whether some router of an earlier wave isn't done.
fn follows_undone(before: &Net, now: &Net, ranks: &[u32], router: u32) -> bool
    requires routers { length before.now ≡ length now.now }
    requires ranks { length ranks.now ≡ length before.now }
    requires router { router < length before.now }
    ensures { IsTrue result ↔ FollowsUndone before.now now.now ranks.now router }
{
    for other in 0..before.routers() {
        if ranks[other as usize] < ranks[router as usize] && is_not_done(before, now, other) {
            return true;
        }
    }
    false
}

/// Whether a router isn't done: it may be in some phase, and not in `New`.
fn is_not_done(before: &Net, now: &Net, router: u32) -> bool
    requires routers { length before.now ≡ length now.now }
    requires router { router < length before.now }
    ensures { IsTrue result ↔ IsNotDone before.now now.now router }
{
    match least_phase(before, now, router) {
        Some(_) => !may_be_in(before, now, router, Phase::New),
        None => false,
    }
}
