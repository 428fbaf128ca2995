ghost use Rattle.std.specs.Prelude.{◌≡◌, ◌<◌, ◌≤◌, IfOk, length};
ghost use Rattle.order_core.specs.Rankings.{IsRanking};
ghost use Rattle.migrate_cli.specs.ReplayDecision.{AreNext, IsJournalDecision, IsReplayDecision, journal_of};
ghost use Rattle.migrate_cli.specs.Reading.{named_text};

use crate::OutOfMemory;
use crate::files::{FILE_MOST, bad_order};
use migration_report::{Decision, Nexts};
use net_addr::Bytes;
use net_model::Net;
use state_replay::{Place, next_change, replay};
use std::alloc::{AllocError, Global};
use step_scripts::{OrderRefusal, read_waves};

/// What is decided of the text of an order file, a journal and a network with a router.
pub(crate) fn judge_replay(
    alloc: Global,
    file: &str,
    order: &Bytes,
    journal: &Bytes,
    net: &Net,
) -> Result<Decision, OutOfMemory>
    requires short { length order.now ≤ FILE_MOST }
    requires some { 0 < length net.now }
    ensures { IfOk result (IsReplayDecision (named_text file.now order.now) (journal_of journal.now net.now)) }
{
    let waves = match read_waves(alloc, net, order.as_slice()) {
        Ok(file) => file.waves,
        Err(OrderRefusal::OutOfMemory) => return Err(AllocError),
        Err(OrderRefusal::Bad { line, kind }) => return bad_order(alloc, file, line, kind),
    };
    judge_journal(alloc, net, waves.ranks(), journal)
}

/// What is decided of a journal of a wave list.
fn judge_journal(
    alloc: Global,
    net: &Net,
    ranks: &[u32],
    journal: &Bytes,
) -> Result<Decision, OutOfMemory>
    requires { IsRanking (length net.now) ranks.now }
    ensures { IfOk result (IsJournalDecision (journal_of journal.now net.now) ranks.now) }
{
    let mut done = vec![in alloc; 0; net.routers() as usize]?;
    judge_counting(alloc, net, ranks, journal, &mut done)
}

/// What is decided of a journal of a wave list, with room for the count of changes made on each router.
fn judge_counting(
    alloc: Global,
    net: &Net,
    ranks: &[u32],
    journal: &Bytes,
    done: &mut [u8],
) -> Result<Decision, OutOfMemory>
    requires ranking { IsRanking (length net.now) ranks.now }
    requires counts { length done.old ≡ length net.now }
    ensures { IfOk result (IsJournalDecision (journal_of journal.now net.now) ranks.now) }
{
    match replay(net, ranks, journal.as_slice(), done) {
        Place::Reached(made) => {
            let nexts = nexts_of(alloc, net.routers(), ranks, done)?;
            Ok(Decision::Reached { made, nexts })
        }
        Place::Departs(line) => Ok(Decision::Departs { line }),
    }
}

/// Of each router the change that may come next.
fn nexts_of(alloc: Global, routers: u32, ranks: &[u32], done: &[u8]) -> Result<Nexts, OutOfMemory>
    requires each { length ranks.now ≡ routers }
    requires ranking { IsRanking routers ranks.now }
    requires counts { length done.now ≡ routers }
    ensures { IfOk result (AreNext ranks.now done.now routers) }
{
    let mut nexts = Vec::new(alloc);
    for router in 0..routers {
        nexts.push(next_change(ranks, done, router))?;
    }
    Ok(Nexts::from_vec(nexts))
}
