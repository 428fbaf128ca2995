ghost use Rattle.std.specs.Prelude.{◌≡◌, [], length};
ghost use Rattle.order_core.specs.Rankings.{IsRanking};
ghost use Rattle.net_model.specs.Refusals.{IsNetwork};
ghost use Rattle.state_replay.specs.Journals.{AreChangeCounts, IsPlace, progress};
ghost use Rattle.state_replay.specs.steps.Making.{BeginsWithHeader, MakesChange};

use crate::told::told_change;
use crate::{Place, next_change};
use net_addr::LineCursor;
use net_model::Net;

/// What a journal has reached of a wave list: the line `journal 1`, then for each change the name of its router, a blank
/// and 1 or 2.
///
/// `ranks` has the wave of each router, counted from 0. Afterwards `done` has the count of changes made on each router;
/// where a line fits no run these are the changes of the lines before it. Takes no memory, and time of the lines times
/// the routers.
pub fn replay(net: &Net, ranks: &[u32], journal: &[u8], done: &mut [u8]) -> Place
    requires ranking { IsRanking (length net.now) ranks.now }
    requires counts { length done.old ≡ length net.now }
    ensures { IsPlace (progress net.now ranks.now done.new) journal.now result }
{
    start_counts(net, done);
    let mut lines = LineCursor::new(journal);
    if !begins_journal(&mut lines) {
        return Place::Departs(1);
    }
    let mut changes = 0;
    while let Some(line) = lines.next_line() {
        if !judge_line(net, ranks, line, done) {
            // The header is line 1, so the lines of these changes end with line `changes + 1`.
            return Place::Departs(changes + 2);
        }
        changes += 1;
    }
    Place::Reached(changes)
}

/// Makes the count of each router 0.
fn start_counts(net: &Net, done: &mut [u8])
    requires { length done.old ≡ length net.now }
    ensures counts { AreChangeCounts (length net.now) [] done.new }
    ensures network { IsNetwork net.now }
{
    for router in 0..net.routers() {
        done[router as usize] = 0;
    }
}

/// Takes the first line, and whether it is that of a journal.
fn begins_journal(lines: &mut LineCursor) -> bool
    ensures { BeginsWithHeader lines.old lines.new result }
{
    match lines.next_line() {
        Some(line) => line == b"journal 1".as_slice(),
        None => false,
    }
}

/// Judges a line: makes the change that it tells where that may come next, else makes nothing, since the line fits no run.
fn judge_line(net: &Net, ranks: &[u32], line: &[u8], done: &mut [u8]) -> bool
    requires network { IsNetwork net.now }
    requires ranking { IsRanking (length net.now) ranks.now }
    requires counts { length done.old ≡ length net.now }
    ensures { MakesChange (progress net.now ranks.now done.old) line.now done.new result }
{
    let Some(told) = told_change(net, line) else {
        return false;
    };
    let Some(next) = next_change(ranks, done, told.router) else {
        return false;
    };
    if next != told.half {
        return false;
    }
    done[told.router as usize] = next.number();
    true
}
