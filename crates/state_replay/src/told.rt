ghost use Rattle.std.specs.Prelude.{◌≡◌, ◌≢◌, MatchOption};
ghost use Rattle.igp_theory.specs.Changes.{Change};
ghost use Rattle.state_replay.specs.declared.half.Half.{Half};
ghost use Rattle.state_replay.specs.Halves.{change_of, ending_of};
ghost use Rattle.state_replay.specs.Journals.{TellsChange};

use crate::Half;
use net_model::Net;

/// A change that a line tells.
#[derive(Clone, Copy, Debug)]
pub(crate) struct Told {
    /// The router that it was made on.
    pub router: u32,
    /// Which of its two changes it is.
    pub half: Half,
}

/// The change that a line tells: the name of a router, a blank, and the number of the change.
pub(crate) fn told_change(net: &Net, line: &[u8]) -> Option<Told>
    ensures { MatchOption result
        ((c : Change) → TellsChange net.now line.now c → ⊥)
        (λ told. TellsChange net.now line.now (change_of told.router told.half)) }
{
    if line.len() < 2 {
        return None;
    }
    let end = line.len() - 2;
    let Some(half) = half_told(&line[end..]) else {
        return None;
    };
    match net.number_of(&line[..end]) {
        Some(router) => Some(Told { router, half }),
        None => None,
    }
}

/// The change that stands behind a name, after a blank.
fn half_told(end: &[u8]) -> Option<Half>
    ensures { MatchOption result
        ((half : Half) → end.now ≢ ending_of half)
        (λ half. end.now ≡ ending_of half) }
{
    if end == b" 1".as_slice() {
        Some(Half::First)
    } else if end == b" 2".as_slice() {
        Some(Half::Second)
    } else {
        None
    }
}
