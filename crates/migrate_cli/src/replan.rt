ghost use Rattle.std.specs.Prelude.{◌≡◌, ◌<◌, ◌≤◌, IfOk, length};
ghost use Rattle.igp_theory.specs.Migrations.{ospf_to_isis, started};
ghost use Rattle.igp_theory.specs.Phases.{state_in};
ghost use Rattle.igp_theory.specs.States.{phase_after};
ghost use Rattle.net_model.specs.Refusals.{IsNetwork};
ghost use Rattle.order_core.specs.Rankings.{IsRanking};
ghost use Rattle.plan_theory.specs.Plans.{IsPlanned};
ghost use Rattle.migrate_cli.specs.ReplanDecision.{IsReplanDecision, IsRestPlanned, phases_made};
ghost use Rattle.migrate_cli.specs.ReplayDecision.{journal_of};
ghost use Rattle.migrate_cli.specs.Reading.{named_text};
ghost use Rattle.migrate_cli.specs.steps.Tables.{move_of};

use crate::OutOfMemory;
use crate::files::{FILE_MOST, bad_order};
use crate::moves::Move;
use crate::tables::Tables;
use igp_theory::Phase;
use live_replan::plan_rest;
use migration_report::{Decision, RestStart};
use net_addr::Bytes;
use net_model::Net;
use plan_theory::Planned;
use state_replay::{Place, replay};
use std::alloc::{AllocError, Global};
use step_scripts::{OrderRefusal, read_waves};

/// A journal of a wave list of a network.
#[derive(Clone, Copy)]
struct Stopped<'a> {
    /// The network.
    net: &'a Net,
    /// The wave of each router.
    ranks: &'a [u32],
    /// The text of the journal.
    journal: &'a [u8],
}

/// What is decided of an order file, by its name and its text, a journal and a network with a router: what is planned of what the
/// journal has left, with a budget of so many branches.
pub(crate) fn judge_replan(
    alloc: Global,
    budget: u32,
    order: (&str, &Bytes),
    journal: &Bytes,
    net: &Net,
) -> Result<Decision, OutOfMemory>
    requires short { length order.1.now ≤ FILE_MOST }
    requires budget { 1 ≤ budget }
    requires some { 0 < length net.now }
    ensures { IfOk result (IsReplanDecision (named_text order.entry.0.now order.entry.1.now) (journal_of journal.now net.now) budget) }
{
    let (file, text) = order;
    let waves = match read_waves(alloc, net, text.as_slice()) {
        Ok(read) => read.waves,
        Err(OrderRefusal::OutOfMemory) => return Err(AllocError),
        Err(OrderRefusal::Bad { line, kind }) => return bad_order(alloc, file, line, kind),
    };
    let stopped = Stopped {
        net,
        ranks: waves.ranks(),
        journal: journal.as_slice(),
    };
    replan_journal(alloc, budget, &stopped)
}

/// What is decided of a journal of a wave list.
fn replan_journal(
    alloc: Global,
    budget: u32,
    stopped: &Stopped<'_>,
) -> Result<Decision, OutOfMemory>
    requires ranking { IsRanking (length stopped.now.net.now) stopped.now.ranks.now }
    requires budget { 1 ≤ budget }
    requires some { 0 < length stopped.now.net.now }
    ensures { IfOk result (IsRestPlanned (ospf_to_isis stopped.now.net.now) (journal_of stopped.now.journal.now stopped.now.net.now)
        stopped.now.ranks.now budget) }
{
    let mut done = vec![in alloc; 0; stopped.net.routers() as usize]?;
    replan_counting(alloc, budget, stopped, &mut done)
}

/// What is decided of a journal of a wave list, with room for the count of changes made on each router.
///
/// Where the journal departs no table is built.
fn replan_counting(
    alloc: Global,
    budget: u32,
    stopped: &Stopped<'_>,
    done: &mut [u8],
) -> Result<Decision, OutOfMemory>
    requires ranking { IsRanking (length stopped.now.net.now) stopped.now.ranks.now }
    requires budget { 1 ≤ budget }
    requires some { 0 < length stopped.now.net.now }
    requires counts { length done.old ≡ length stopped.now.net.now }
    ensures { IfOk result (IsRestPlanned (ospf_to_isis stopped.now.net.now) (journal_of stopped.now.journal.now stopped.now.net.now)
        stopped.now.ranks.now budget) }
{
    match replay(stopped.net, stopped.ranks, stopped.journal, done) {
        Place::Reached(_) => {
            let start = phases_made(alloc, done)?;
            let of = Move::to_isis(stopped.net);
            let planned = plan_stopped(alloc, budget, &of, start.as_slice())?;
            let start = RestStart::from_vec(start);
            Ok(Decision::Rest { start, planned })
        }
        Place::Departs(line) => Ok(Decision::Departs { line }),
    }
}

/// The phase of each router, where so many changes are made on it.
fn phases_made(alloc: Global, done: &[u8]) -> Result<Vec<Phase>, OutOfMemory>
    ensures { IfOk result (λ start. start.items ≡ phases_made done.now) }
{
    let mut start = Vec::new(alloc);
    for made in done {
        start.push(phase_after(*made))?;
    }
    Ok(start)
}

/// The phase of a router after so many of its changes.
fn phase_after(made: u8) -> Phase
    ensures { result ≡ phase_after made }
{
    match made {
        0 => Phase::Old,
        1 => Phase::Middle,
        _ => Phase::New,
    }
}

/// What is planned of a migration that goes on from the state that gives each router the phase at its place, by the tables before and
/// after, with a budget of so many branches.
fn plan_stopped(
    alloc: Global,
    budget: u32,
    of: &Move<'_>,
    start: &[Phase],
) -> Result<Planned, OutOfMemory>
    requires budget { 1 ≤ budget }
    requires some { 0 < length of.now.net }
    requires each { length start.now ≡ length of.now.net }
    ensures network { IsNetwork of.now.net }
    ensures planned { IfOk result (IsPlanned (started (state_in start.now) (move_of of.now)) budget) }
{
    let routers = of.net().routers();
    prove!(routers > 0);
    let tables = Tables::of(alloc, of)?;
    let mixed = tables.mix(alloc)?;
    let planned = plan_rest(alloc, &mixed, start, budget)?;
    Ok(planned)
}
