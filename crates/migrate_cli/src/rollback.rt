ghost use Rattle.std.specs.Prelude.{◌≡◌, ◌<◌, ◌≤◌, IfOk, length};
ghost use Rattle.order_core.specs.Rankings.{IsRanking};
ghost use Rattle.migrate_cli.specs.ReplayDecision.{journal_of};
ghost use Rattle.migrate_cli.specs.RollbackDecision.{IsRollbackDecision, IsWayBack};
ghost use Rattle.migrate_cli.specs.Reading.{named_text};

use crate::OutOfMemory;
use crate::files::{FILE_MOST, bad_order};
use live_replan::back_text;
use migration_report::Decision;
use net_addr::Bytes;
use net_model::Net;
use state_replay::{Place, replay};
use std::alloc::{AllocError, Global};
use step_scripts::{OrderRefusal, read_waves};

/// What is decided of the text of an order file, a journal and a network with a router: the lines that take the journal's changes
/// back.
pub(crate) fn judge_rollback(
    alloc: Global,
    file: &str,
    order: &Bytes,
    journal: &Bytes,
    net: &Net,
) -> Result<Decision, OutOfMemory>
    requires short { length order.now ≤ FILE_MOST }
    requires some { 0 < length net.now }
    ensures { IfOk result (IsRollbackDecision (named_text file.now order.now) (journal_of journal.now net.now)) }
{
    let waves = match read_waves(alloc, net, order.as_slice()) {
        Ok(file) => file.waves,
        Err(OrderRefusal::OutOfMemory) => return Err(AllocError),
        Err(OrderRefusal::Bad { line, kind }) => return bad_order(alloc, file, line, kind),
    };
    take_back(alloc, net, waves.ranks(), journal)
}

/// What is decided of a journal of a wave list.
fn take_back(
    alloc: Global,
    net: &Net,
    ranks: &[u32],
    journal: &Bytes,
) -> Result<Decision, OutOfMemory>
    requires { IsRanking (length net.now) ranks.now }
    ensures { IfOk result (IsWayBack (journal_of journal.now net.now) ranks.now) }
{
    let mut done = vec![in alloc; 0; net.routers() as usize]?;
    take_counted_back(alloc, net, ranks, journal, &mut done)
}

/// What is decided of a journal of a wave list, with room for the count of changes made on each router.
fn take_counted_back(
    alloc: Global,
    net: &Net,
    ranks: &[u32],
    journal: &Bytes,
    done: &mut [u8],
) -> Result<Decision, OutOfMemory>
    requires ranking { IsRanking (length net.now) ranks.now }
    requires counts { length done.old ≡ length net.now }
    ensures { IfOk result (IsWayBack (journal_of journal.now net.now) ranks.now) }
{
    match replay(net, ranks, journal.as_slice(), done) {
        Place::Reached(_) => {
            let text = back_text(alloc, net, journal.as_slice())?;
            Ok(Decision::WayBack { text })
        }
        Place::Departs(line) => Ok(Decision::Departs { line }),
    }
}
