ghost use Rattle.std.specs.Prelude.{◌≡◌, ◌<◌, ◌↔◌, length, IsTrue, MatchOption};
ghost use Rattle.order_core.specs.Rankings.{IsRanking};
ghost use Rattle.state_replay.specs.declared.half.Half.{Half};
ghost use Rattle.state_replay.specs.steps.Fitting.{FitsCounts, IsOpen};
ghost use Rattle.state_replay.specs.Journals.{IsNextOn};

use crate::Half;

/// The change of a router that may come next, where so many changes were made on each router; `None` where it has none.
///
/// `ranks` has the wave of each router, counted from 0. Takes time of the routers.
pub fn next_change(ranks: &[u32], done: &[u8], router: u32) -> Option<Half>
    requires ranking { IsRanking (length ranks.now) ranks.now }
    requires counts { length done.now ≡ length ranks.now }
    requires router { router < length ranks.now }
    ensures { IsNextOn ranks.now done.now router result }
{
    fitting_change(ranks, done, router)
}

/// The change of a router that fits: the second one after the first, and the first one where the waves before it are done.
fn fitting_change(ranks: &[u32], done: &[u8], router: u32) -> Option<Half>
    requires counts { length done.now ≡ length ranks.now }
    requires router { router < length ranks.now }
    ensures { MatchOption result
        ((half : Half) → FitsCounts ranks.now done.now router half → ⊥)
        (FitsCounts ranks.now done.now router) }
{
    let made = done[router as usize];
    if made == 0 && is_open(ranks, done, ranks[router as usize]) {
        Some(Half::First)
    } else if made == 1 {
        Some(Half::Second)
    } else {
        None
    }
}

/// Whether both changes were made on each router of a lower rank.
fn is_open(ranks: &[u32], done: &[u8], rank: u32) -> bool
    requires { length done.now ≡ length ranks.now }
    ensures { IsTrue result ↔ IsOpen ranks.now done.now rank }
{
    for router in 0..ranks.len() {
        if ranks[router] < rank && done[router] != 2 {
            return false;
        }
    }
    true
}
