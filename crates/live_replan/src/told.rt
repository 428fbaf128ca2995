ghost use Rattle.std.specs.Prelude.{◌≡◌, ◌≢◌, ◌<◌, List, All, IfOk, MatchOption, length};
ghost use Rattle.igp_theory.specs.Changes.{Change};
ghost use Rattle.state_replay.specs.Halves.{change_of, ending_of};
ghost use Rattle.state_replay.specs.Journals.{TellsChange};
ghost use Rattle.state_replay.specs.declared.half.Half.{Half};
ghost use Rattle.live_replan.specs.BackTexts.{IsWholeJournal, TellsChanges};
ghost use Rattle.live_replan.specs.steps.ToldChanges.{changes_told};

use net_addr::LineCursor;
use net_model::Net;
use state_replay::Half;
use std::alloc::{AllocError, Global};

/// A change that a line tells.
#[derive(Clone, Copy)]
pub(crate) struct Told {
    /// The router that it was made on.
    pub router: u32,
    /// Which of its two changes it is.
    pub half: Half,
}

/// The changes that a journal tells.
pub(crate) fn told_changes(
    alloc: Global,
    net: &Net,
    journal: &[u8],
) -> Result<Vec<Told>, AllocError>
    requires { IsWholeJournal net.now journal.now }
    ensures told { IfOk result (λ told. (changes : List Change) → TellsChanges net.now journal.now changes → changes ≡ changes_told told.items) }
    ensures below { IfOk result (λ told. All (λ t. t.router < length net.now) told.items) }
{
    let mut told = Vec::with_capacity(alloc, 2 * net.routers() as usize)?;
    let mut lines = LineCursor::new(journal);
    let _ = lines.next_line();
    while let Some(line) = lines.next_line() {
        let Some(change) = told_change(net, line) else {
            unreachable!();
        };
        told.push(change)?;
    }
    Ok(told)
}

/// The change that a line tells: the name of a router, a blank, and the number of the change.
fn told_change(net: &Net, line: &[u8]) -> Option<Told>
    ensures { MatchOption result
        ((c : Change) → TellsChange net.now line.now c → ⊥)
        (λ told. TellsChange net.now line.now (change_of told.router told.half)) }
{
    if line.len() < 2 {
        return None;
    }
    let (name, ending) = line.split_at(line.len() - 2);
    let half = half_told(ending)?;
    let router = net.number_of(name)?;
    Some(Told { router, half })
}

/// The change that stands behind a name, after a blank.
fn half_told(ending: &[u8]) -> Option<Half>
    ensures { MatchOption result
        ((half : Half) → ending.now ≢ ending_of half)
        (λ half. ending.now ≡ ending_of half) }
{
    if ending == b" 1".as_slice() {
        Some(Half::First)
    } else if ending == b" 2".as_slice() {
        Some(Half::Second)
    } else {
        None
    }
}
