ghost use Rattle.std.specs.Prelude.{◌≡◌, ◌*◌, ◌<◌, ◌≤◌, IfOk, length};
ghost use Rattle.change_orders.specs.TwoFiles.{AreTwoWaves};
ghost use Rattle.change_orders.specs.TwoTexts.{two_refusal_text};
ghost use Rattle.migrate_cli.specs.ChangesDecision.{IsChangesCheck, IsChangesDecision, IsChangesTree};
ghost use Rattle.igp_theory.specs.Timetables.{change_times};
ghost use Rattle.ospf_routes.specs.RouteTables.{table_at};
ghost use Rattle.rib_mix.specs.Mixture.{migration_of};
ghost use Rattle.migrate_cli.specs.Reading.{named_text};
ghost use Rattle.migrate_cli.specs.steps.FirstUnsound.{IsFirstUnsoundTime};
ghost use Rattle.migrate_cli.specs.steps.Tables.{MixesTables, NetworkMove, move_of, new_table};

use crate::OutOfMemory;
use crate::files::FILE_MOST;
use crate::moves::Move;
use crate::tables::{NewRoutes, Tables};
use migration_report::Decision;
use net_addr::Bytes;
use order_core::Waves;
use ospf_routes::OspfRoutes;
use plan_theory::EndFault;
use rib_mix::Mixed;
use std::alloc::{AllocError, Global};
use two_pass::{TwoFinder, TwoKind, TwoRefusal, read_two, two_refusal_text, verify_two};
use wave_oracle::whole_fault;

/// What is decided of the text of an order file of single changes and a migration of a network with a router.
pub(crate) fn check_changes(
    alloc: Global,
    file: &str,
    text: &Bytes,
    of: &Move<'_>,
) -> Result<Decision, OutOfMemory>
    requires short { length text.now ≤ FILE_MOST }
    requires some { 0 < length of.now.net }
    ensures { IfOk result (IsChangesCheck (move_of of.now) (named_text file.now text.now)) }
{
    match read_two(alloc, of.net(), text.as_slice()) {
        Ok(waves) => judge_changes(alloc, of, &waves),
        Err(TwoRefusal::OutOfMemory) => Err(AllocError),
        Err(TwoRefusal::Bad { line, kind }) => bad_changes(alloc, file, line, kind),
    }
}

/// What is decided where a line of an order file of single changes is faulty.
pub(crate) fn bad_changes(
    alloc: Global,
    file: &str,
    line: u32,
    kind: TwoKind,
) -> Result<Decision, OutOfMemory>
    ensures { IfOk result (λ decision. decision ≡ Decision.BadChanges (two_refusal_text file.now line kind)) }
{
    let text = two_refusal_text(alloc, file, line, kind)?;
    Ok(Decision::BadChanges { text })
}

/// What is decided of a wave list of single changes, by the tables before and after.
fn judge_changes(alloc: Global, of: &Move<'_>, waves: &Waves) -> Result<Decision, OutOfMemory>
    requires some { 0 < length of.now.net }
    requires waves { AreTwoWaves (length of.now.net) waves.now }
    ensures { IfOk result (IsChangesDecision (move_of of.now) waves.now) }
{
    let routers = of.net().routers();
    prove!(routers > 0);
    let tables = Tables::of(alloc, of)?;
    let mixed = tables.mix(alloc)?;
    let decision = judge_mixed_changes(alloc, &mixed, waves)?;
    Ok(decision)
}

/// What is decided of a wave list of single changes, by mixed forwarding.
fn judge_mixed_changes(
    alloc: Global,
    mixed: &Mixed<'_, OspfRoutes, NewRoutes>,
    waves: &Waves,
) -> Result<Decision, OutOfMemory>
    requires few { 2 * length mixed.now.net ≤ 1000 }
    requires waves { AreTwoWaves (length mixed.now.net) waves.now }
    ensures { (of : NetworkMove) → MixesTables of mixed.now → IfOk result (IsChangesDecision (move_of of) waves.now) }
{
    let found = first_unsound_changes(alloc, mixed, waves)?;
    match found {
        None => Ok(Decision::SafeWaves {
            waves: waves.count(),
        }),
        Some((wave, fault)) => Ok(Decision::UnsafeWave { wave, fault }),
    }
}

/// The first wave of single changes with a state that isn't sound, with what is wrong in it, by mixed forwarding; none where the
/// migration is sound throughout the list.
pub(crate) fn first_unsound_changes(
    alloc: Global,
    mixed: &Mixed<'_, OspfRoutes, NewRoutes>,
    waves: &Waves,
) -> Result<Option<(u32, EndFault)>, OutOfMemory>
    requires few { 2 * length mixed.now.net ≤ 1000 }
    requires waves { AreTwoWaves (length mixed.now.net) waves.now }
    ensures { IfOk result (IsFirstUnsoundTime (migration_of table_at new_table mixed.now) (change_times waves.now)) }
{
    let mut finder = TwoFinder::new(alloc, mixed)?;
    match finder.fault(waves.ranks()) {
        None => Ok(None),
        Some((wave, fault)) => {
            let fault = whole_fault(alloc, fault, finder.ring())?;
            Ok(Some((wave, fault)))
        }
    }
}

/// What is decided of the text of a tree file of single changes and a migration, by the tables before and after.
pub(crate) fn refute_changes(
    alloc: Global,
    tree: &Bytes,
    of: &Move<'_>,
) -> Result<Decision, OutOfMemory>
    requires { length tree.now ≤ FILE_MOST }
    ensures { IfOk result (IsChangesTree (move_of of.now) tree.now) }
{
    let tables = Tables::of(alloc, of)?;
    let mixed = tables.mix(alloc)?;
    let verdict = verify_two(alloc, &mixed, tree.as_slice())?;
    Ok(Decision::Tree { verdict })
}
