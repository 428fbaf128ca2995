ghost use Rattle.std.specs.Prelude.{◌*◌, ◌<◌, ◌≤◌, IfOk, length};
ghost use Rattle.change_orders.specs.TwoFiles.{AreTwoWaves};
ghost use Rattle.explained_changes.specs.ChangeReasons.{AreSoundChanges};
ghost use Rattle.igp_theory.specs.Timetables.{change_times};
ghost use Rattle.igp_theory.specs.WaveFaults.{IsTimesFault};
ghost use Rattle.ospf_routes.specs.RouteTables.{table_at};
ghost use Rattle.plan_theory.specs.Plans.{fault_told};
ghost use Rattle.rib_mix.specs.Mixture.{migration_of};
ghost use Rattle.migrate_cli.specs.ExplainedChanges.{AreExplainedChanges, IsExplainedChangesFile};
ghost use Rattle.migrate_cli.specs.Reading.{named_text};
ghost use Rattle.migrate_cli.specs.steps.Tables.{MixesTables, move_of, new_table};

use crate::OutOfMemory;
use crate::changes::{bad_changes, first_unsound_changes};
use crate::files::FILE_MOST;
use crate::moves::Move;
use crate::tables::{NewRoutes, Tables};
use crate::why::{behind, with_way};
use explained_changes::change_reasons_text;
use explained_texts::FaultPlace;
use migration_report::{Decision, waves_safe_text, waves_unsafe_text};
use net_addr::Bytes;
use order_core::Waves;
use ospf_routes::OspfRoutes;
use plan_theory::EndFault;
use rib_mix::Mixed;
use std::alloc::{AllocError, Global};
use two_pass::{TwoRefusal, read_two};

/// What is decided of the text of an order file of single changes and a migration of a network with a router: what `check` decides of
/// it, and why.
pub(crate) fn explain_changes(
    alloc: Global,
    file: &str,
    order: &Bytes,
    of: &Move<'_>,
) -> Result<Decision, OutOfMemory>
    requires short { length order.now ≤ FILE_MOST }
    requires some { 0 < length of.now.net }
    ensures { IfOk result (IsExplainedChangesFile (move_of of.now) (named_text file.now order.now)) }
{
    match read_two(alloc, of.net(), order.as_slice()) {
        Ok(waves) => explain_list_of_changes(alloc, of, &waves),
        Err(TwoRefusal::OutOfMemory) => Err(AllocError),
        Err(TwoRefusal::Bad { line, kind }) => bad_changes(alloc, file, line, kind),
    }
}

/// What is decided of a wave list of single changes, and why.
fn explain_list_of_changes(
    alloc: Global,
    of: &Move<'_>,
    waves: &Waves,
) -> Result<Decision, OutOfMemory>
    requires some { 0 < length of.now.net }
    requires waves { AreTwoWaves (length of.now.net) waves.now }
    ensures { IfOk result (AreExplainedChanges (move_of of.now) waves.now) }
{
    let routers = of.net().routers();
    prove!(routers > 0);
    let tables = Tables::of(alloc, of)?;
    let mixed = tables.mix(alloc)?;
    let decision = explain_mixed_changes(alloc, &tables, &mixed, waves)?;
    Ok(decision)
}

/// What is decided of it by mixed forwarding, and why.
fn explain_mixed_changes(
    alloc: Global,
    tables: &Tables<'_>,
    mixed: &Mixed<'_, OspfRoutes, NewRoutes>,
    waves: &Waves,
) -> Result<Decision, OutOfMemory>
    requires mixes { MixesTables tables.now mixed.now }
    requires few { 2 * length mixed.now.net ≤ 1000 }
    requires waves { AreTwoWaves (length mixed.now.net) waves.now }
    ensures { IfOk result (AreExplainedChanges (move_of tables.now) waves.now) }
{
    let found = first_unsound_changes(alloc, mixed, waves)?;
    match found {
        None => changes_reasons(alloc, tables, mixed, waves),
        Some((wave, fault)) => changes_way(alloc, tables, mixed, waves, (wave, &fault)),
    }
}

/// What is decided of a wave list of single changes that is safe: that it is, and the reasons of its changes.
fn changes_reasons(
    alloc: Global,
    tables: &Tables<'_>,
    mixed: &Mixed<'_, OspfRoutes, NewRoutes>,
    waves: &Waves,
) -> Result<Decision, OutOfMemory>
    requires mixes { MixesTables tables.now mixed.now }
    requires few { 2 * length mixed.now.net ≤ 1000 }
    requires waves { AreTwoWaves (length mixed.now.net) waves.now }
    requires sound { AreSoundChanges (migration_of table_at new_table mixed.now) waves.now }
    ensures { IfOk result (AreExplainedChanges (move_of tables.now) waves.now) }
{
    let first = waves_safe_text(alloc, 2 * mixed.net().routers(), waves.count())?;
    let reasons = change_reasons_text(alloc, mixed, waves)?;
    let text = behind(first, &reasons)?;
    Ok(Decision::ExplainedSafe { text })
}

/// What is decided of one that isn't safe: its first wave with an unsound state, and the way of a packet in one.
fn changes_way(
    alloc: Global,
    tables: &Tables<'_>,
    mixed: &Mixed<'_, OspfRoutes, NewRoutes>,
    waves: &Waves,
    told: (u32, &EndFault),
) -> Result<Decision, OutOfMemory>
    requires mixes { MixesTables tables.now mixed.now }
    requires waves { AreTwoWaves (length mixed.now.net) waves.now }
    requires fault { IsTimesFault (migration_of table_at new_table mixed.now) (change_times waves.now) told.0
        (fault_told told.1.now) }
    ensures { IfOk result (AreExplainedChanges (move_of tables.now) waves.now) }
{
    let (wave, fault) = told;
    let net = mixed.net();
    let _routers = net.routers();
    let first = waves_unsafe_text(alloc, net, wave, fault)?;
    let ranks = waves.ranks();
    let place = FaultPlace::ChangeWave {
        ranks,
        number: wave,
    };
    let text = with_way(alloc, tables, mixed, (place, fault), first)?;
    Ok(Decision::ExplainedUnsafe { text })
}
