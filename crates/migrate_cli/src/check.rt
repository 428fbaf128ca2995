ghost use Rattle.std.specs.Prelude.{◌≡◌, ◌<◌, ◌≤◌, IfOk, length};
ghost use Rattle.order_core.specs.Orders.{IsOrder};
ghost use Rattle.migrate_cli.specs.CheckDecision.{IsCheckDecision, IsCheckOver, IsOrderDecision, IsWavesDecision};
ghost use Rattle.ospf_routes.specs.RouteTables.{table_at};
ghost use Rattle.rib_mix.specs.Mixture.{migration_of};
ghost use Rattle.step_scripts.specs.WaveFiles.{NamesWaves};
ghost use Rattle.migrate_cli.specs.Reading.{NamedText, named_text};
ghost use Rattle.migrate_cli.specs.steps.FirstUnsound.{IsFirstUnsoundState, IsFirstUnsoundWave};
ghost use Rattle.migrate_cli.specs.steps.Tables.{MixesTables, NetworkMove, move_of, new_table};

use crate::OutOfMemory;
use crate::changes::check_changes;
use crate::files::{FILE_MOST, bad_order};
use crate::first_lines::begins_with;
use crate::moves::Move;
use crate::tables::{NewRoutes, Tables};
use loop_finder::Finder;
use migration_report::Decision;
use net_addr::Bytes;
use net_model::Net;
use order_core::Waves;
use ospf_routes::OspfRoutes;
use plan_theory::EndFault;
use rib_mix::Mixed;
use std::alloc::{AllocError, Global};
use std::mem;
use step_scripts::{OrderRefusal, Version, WaveFile, read_waves};
use wave_oracle::whole_fault;

/// What is decided of the text of an order file, of routers or of single changes, and a network with a router, by the tables of
/// OSPF and of IS-IS.
pub(crate) fn judge_check(
    alloc: Global,
    file: &str,
    text: &Bytes,
    net: &Net,
) -> Result<Decision, OutOfMemory>
    requires short { length text.now ≤ FILE_MOST }
    requires some { 0 < length net.now }
    ensures { IfOk result (IsCheckDecision (named_text file.now text.now) net.now) }
{
    let of = Move::to_isis(net);
    if begins_with(b"order 3", text.as_slice()) {
        check_changes(alloc, file, text, &of)
    } else {
        check_over(alloc, file, text, &of)
    }
}

/// What is decided of the text of an order file of routers and a migration of a network with a router.
pub(crate) fn check_over(
    alloc: Global,
    file: &str,
    text: &Bytes,
    of: &Move<'_>,
) -> Result<Decision, OutOfMemory>
    requires short { length text.now ≤ FILE_MOST }
    requires some { 0 < length of.now.net }
    ensures { IfOk result (IsCheckOver (move_of of.now) (named_text file.now text.now)) }
{
    match read_waves(alloc, of.net(), text.as_slice()) {
        Ok(read) => check_read(alloc, &read, of),
        Err(OrderRefusal::OutOfMemory) => Err(AllocError),
        Err(OrderRefusal::Bad { line, kind }) => bad_order(alloc, file, line, kind),
    }
}

/// What is decided of the waves of an order file. The program ends soon after, so the tables aren't given back.
pub(crate) fn check_read(
    alloc: Global,
    read: &WaveFile,
    of: &Move<'_>,
) -> Result<Decision, OutOfMemory>
    requires { length read.now.waves ≡ length of.now.net }
    ensures { (order : NamedText) → NamesWaves of.now.net order.text read.now.version read.now.waves →
        IfOk result (IsCheckOver (move_of of.now) order) }
{
    let tables = Tables::of(alloc, of)?;
    let decision = judge_file(alloc, &tables, read);
    mem::forget(tables);
    decision
}

/// What is decided of the waves of an order file, by the tables before and after.
fn judge_file(alloc: Global, tables: &Tables<'_>, read: &WaveFile) -> Result<Decision, OutOfMemory>
    requires { length read.now.waves ≡ length tables.now.net }
    ensures { (order : NamedText) → NamesWaves tables.now.net order.text read.now.version read.now.waves →
        IfOk result (IsCheckOver (move_of tables.now) order) }
{
    match read.version {
        Version::One => judge_order(alloc, tables, read.waves.flat()),
        Version::Two => judge_waves(alloc, tables, &read.waves),
    }
}

/// What is decided of an order of the routers, by the tables before and after.
fn judge_order(alloc: Global, tables: &Tables<'_>, order: &[u32]) -> Result<Decision, OutOfMemory>
    requires { IsOrder (length tables.now.net) order.now }
    ensures { IfOk result (IsOrderDecision (move_of tables.now) order.now) }
{
    let mixed = tables.mix(alloc)?;
    let decision = judge_mixed_order(alloc, &mixed, order);
    mem::forget(mixed);
    decision
}

/// What is decided of an order, by mixed forwarding.
fn judge_mixed_order(
    alloc: Global,
    mixed: &Mixed<'_, OspfRoutes, NewRoutes>,
    order: &[u32],
) -> Result<Decision, OutOfMemory>
    requires { IsOrder (length mixed.now.net) order.now }
    ensures { (of : NetworkMove) → MixesTables of mixed.now → IfOk result (IsOrderDecision (move_of of) order.now) }
{
    let found = first_unsound_state(alloc, mixed, order)?;
    match found {
        None => Ok(Decision::Safe),
        Some((state, fault)) => Ok(Decision::Unsafe { state, fault }),
    }
}

/// The first state of an order that isn't sound, with what is wrong there, by mixed forwarding; none where the order is seamless.
pub(crate) fn first_unsound_state(
    alloc: Global,
    mixed: &Mixed<'_, OspfRoutes, NewRoutes>,
    order: &[u32],
) -> Result<Option<(u32, EndFault)>, OutOfMemory>
    requires { IsOrder (length mixed.now.net) order.now }
    ensures { IfOk result (IsFirstUnsoundState (migration_of table_at new_table mixed.now) order.now) }
{
    let mut finder = Finder::new(alloc, mixed)?;
    let found = unsound_state(alloc, &mut finder, order)?;
    Ok(found)
}

/// The same by a finder over mixed forwarding.
pub(crate) fn unsound_state(
    alloc: Global,
    finder: &mut Finder<'_, OspfRoutes, NewRoutes>,
    order: &[u32],
) -> Result<Option<(u32, EndFault)>, OutOfMemory>
    requires { IsOrder (length finder.old.mixture.net) order.now }
    ensures { IfOk result (IsFirstUnsoundState (migration_of table_at new_table finder.old.mixture) order.now) }
{
    match finder.order_fault(order) {
        None => Ok(None),
        Some((state, fault)) => {
            let fault = whole_fault(alloc, fault, finder.ring())?;
            Ok(Some((state, fault)))
        }
    }
}

/// What is decided of a wave list of the routers, by the tables before and after.
fn judge_waves(alloc: Global, tables: &Tables<'_>, waves: &Waves) -> Result<Decision, OutOfMemory>
    requires { length waves.now ≡ length tables.now.net }
    ensures { IfOk result (IsWavesDecision (move_of tables.now) waves.now) }
{
    let mixed = tables.mix(alloc)?;
    let decision = judge_mixed_waves(alloc, &mixed, waves);
    mem::forget(mixed);
    decision
}

/// What is decided of a wave list, by mixed forwarding.
fn judge_mixed_waves(
    alloc: Global,
    mixed: &Mixed<'_, OspfRoutes, NewRoutes>,
    waves: &Waves,
) -> Result<Decision, OutOfMemory>
    requires { length waves.now ≡ length mixed.now.net }
    ensures { (of : NetworkMove) → MixesTables of mixed.now → IfOk result (IsWavesDecision (move_of of) waves.now) }
{
    let found = first_unsound_wave(alloc, mixed, waves)?;
    match found {
        None => Ok(Decision::SafeWaves {
            waves: waves.count(),
        }),
        Some((wave, fault)) => Ok(Decision::UnsafeWave { wave, fault }),
    }
}

/// The first wave with a state that isn't sound, with what is wrong in it, by mixed forwarding; none where the list is seamless.
pub(crate) fn first_unsound_wave(
    alloc: Global,
    mixed: &Mixed<'_, OspfRoutes, NewRoutes>,
    waves: &Waves,
) -> Result<Option<(u32, EndFault)>, OutOfMemory>
    requires { length waves.now ≡ length mixed.now.net }
    ensures { IfOk result (IsFirstUnsoundWave (migration_of table_at new_table mixed.now) waves.now) }
{
    let mut finder = Finder::new(alloc, mixed)?;
    let found = unsound_wave(alloc, &mut finder, waves)?;
    Ok(found)
}

/// The same by a finder over mixed forwarding.
pub(crate) fn unsound_wave(
    alloc: Global,
    finder: &mut Finder<'_, OspfRoutes, NewRoutes>,
    waves: &Waves,
) -> Result<Option<(u32, EndFault)>, OutOfMemory>
    requires { length waves.now ≡ length finder.old.mixture.net }
    ensures { IfOk result (IsFirstUnsoundWave (migration_of table_at new_table finder.old.mixture) waves.now) }
{
    match finder.waves_fault(waves.ranks()) {
        None => Ok(None),
        Some((wave, fault)) => {
            let fault = whole_fault(alloc, fault, finder.ring())?;
            Ok(Some((wave, fault)))
        }
    }
}
