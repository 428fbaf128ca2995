ghost use Rattle.std.specs.Prelude.{◌≡◌, ◌<◌, ◌≤◌, ◌++◌, ℕ, IfOk, length};
ghost use Rattle.explained_texts.specs.FaultPlaces.{span_of};
ghost use Rattle.explained_texts.specs.ReasonTexts.{IsReasonsText};
ghost use Rattle.explained_texts.specs.WayTexts.{IsFaultInSpan, IsWayText};
ghost use Rattle.explained_waves.specs.Reasons.{AreSoundRanks};
ghost use Rattle.igp_theory.specs.Loops.{IsFirstFault};
ghost use Rattle.igp_theory.specs.Phases.{all_old};
ghost use Rattle.igp_theory.specs.States.{IsSeamless};
ghost use Rattle.igp_theory.specs.Timetables.{router_times};
ghost use Rattle.igp_theory.specs.WaveFaults.{IsTimesFault};
ghost use Rattle.igp_theory.specs.Waves.{AreSeamlessWaves};
ghost use Rattle.order_core.specs.Orders.{AreDistinct};
ghost use Rattle.order_core.specs.Rankings.{flat_of};
ghost use Rattle.ospf_routes.specs.RouteTables.{table_at};
ghost use Rattle.plan_theory.specs.Plans.{fault_told};
ghost use Rattle.rib_mix.specs.Mixture.{migration_of};
ghost use Rattle.migrate_cli.specs.ExplainedDecision.{IsExplainedDecision, IsExplainedFile, IsExplainedList, IsExplainedOrder, IsExplainedWaves};
ghost use Rattle.migrate_cli.specs.ExplainedTexts.{TellsBehind};
ghost use Rattle.migrate_cli.specs.Reading.{named_text};
ghost use Rattle.migrate_cli.specs.steps.Tables.{MixesTables, NetworkMove, move_of, new_table};

use crate::OutOfMemory;
use crate::check::{first_unsound_state, first_unsound_wave};
use crate::files::{FILE_MOST, bad_order};
use crate::first_lines::begins_with;
use crate::moves::Move;
use crate::tables::{NewRoutes, Tables};
use crate::why_changes::explain_changes;
use explained_texts::{FaultPlace, reasons_text, way_text};
use migration_report::{Decision, safe_text, unsafe_text, waves_safe_text, waves_unsafe_text};
use net_addr::Bytes;
use net_model::Net;
use order_core::Waves;
use ospf_routes::OspfRoutes;
use plan_theory::EndFault;
use rib_mix::Mixed;
use std::alloc::{AllocError, Global};
use step_scripts::{OrderRefusal, Version, WaveFile, read_waves};

/// What is decided of the text of an order file, of routers or of single changes, and a network with a router: what `check` decides of
/// it, and why.
pub(crate) fn judge_why(
    alloc: Global,
    file: &str,
    order: &Bytes,
    net: &Net,
) -> Result<Decision, OutOfMemory>
    requires short { length order.now ≤ FILE_MOST }
    requires some { 0 < length net.now }
    ensures { IfOk result (IsExplainedDecision (named_text file.now order.now) net.now) }
{
    let of = Move::to_isis(net);
    if begins_with(b"order 3", order.as_slice()) {
        explain_changes(alloc, file, order, &of)
    } else {
        explain_routers(alloc, file, order, &of)
    }
}

/// What is decided of the text of an order file of routers and a migration, and why.
fn explain_routers(
    alloc: Global,
    file: &str,
    order: &Bytes,
    of: &Move<'_>,
) -> Result<Decision, OutOfMemory>
    requires short { length order.now ≤ FILE_MOST }
    requires some { 0 < length of.now.net }
    ensures { IfOk result (IsExplainedFile (move_of of.now) (named_text file.now order.now)) }
{
    match read_waves(alloc, of.net(), order.as_slice()) {
        Ok(read) => explain_list(alloc, &read, of),
        Err(OrderRefusal::OutOfMemory) => Err(AllocError),
        Err(OrderRefusal::Bad { line, kind }) => bad_order(alloc, file, line, kind),
    }
}

/// What is decided of the waves of an order file, and why.
fn explain_list(alloc: Global, read: &WaveFile, of: &Move<'_>) -> Result<Decision, OutOfMemory>
    requires { length read.now.waves ≡ length of.now.net }
    ensures { IfOk result (IsExplainedList (move_of of.now) read.now.version read.now.waves) }
{
    let tables = Tables::of(alloc, of)?;
    let mixed = tables.mix(alloc)?;
    let decision = explain_mixed(alloc, &tables, &mixed, read)?;
    Ok(decision)
}

/// What is decided of them by mixed forwarding, and why.
fn explain_mixed(
    alloc: Global,
    tables: &Tables<'_>,
    mixed: &Mixed<'_, OspfRoutes, NewRoutes>,
    read: &WaveFile,
) -> Result<Decision, OutOfMemory>
    requires mixes { MixesTables tables.now mixed.now }
    requires each { length read.now.waves ≡ length tables.now.net }
    ensures { IfOk result (IsExplainedList (move_of tables.now) read.now.version read.now.waves) }
{
    match read.version {
        Version::One => explain_order(alloc, tables, mixed, &read.waves),
        Version::Two => explain_waves(alloc, tables, mixed, &read.waves),
    }
}

/// What is decided of an order, which has one router a wave, and why.
fn explain_order(
    alloc: Global,
    tables: &Tables<'_>,
    mixed: &Mixed<'_, OspfRoutes, NewRoutes>,
    waves: &Waves,
) -> Result<Decision, OutOfMemory>
    requires mixes { MixesTables tables.now mixed.now }
    requires each { length waves.now ≡ length tables.now.net }
    requires ones { AreDistinct waves.now }
    ensures { IfOk result (IsExplainedOrder (move_of tables.now) waves.now) }
{
    let found = first_unsound_state(alloc, mixed, waves.flat())?;
    match found {
        None => order_reasons(alloc, tables, mixed, waves),
        Some((state, fault)) => order_way(alloc, tables, mixed, waves, (state, &fault)),
    }
}

/// What is decided of an order that is safe: that it is, and the reasons of its routers.
fn order_reasons(
    alloc: Global,
    tables: &Tables<'_>,
    mixed: &Mixed<'_, OspfRoutes, NewRoutes>,
    waves: &Waves,
) -> Result<Decision, OutOfMemory>
    requires mixes { MixesTables tables.now mixed.now }
    requires each { length waves.now ≡ length tables.now.net }
    requires ones { AreDistinct waves.now }
    requires seamless { IsSeamless (migration_of table_at new_table mixed.now) (flat_of waves.now) }
    ensures { IfOk result (IsExplainedOrder (move_of tables.now) waves.now) }
{
    let _ranks = waves.ranks();
    let first = safe_text(alloc, 2 * mixed.net().routers())?;
    let text = with_reasons(alloc, tables, mixed, waves, first)?;
    Ok(Decision::ExplainedSafe { text })
}

/// What is decided of an order that isn't safe: its first unsound state, and the way of a packet there.
fn order_way(
    alloc: Global,
    tables: &Tables<'_>,
    mixed: &Mixed<'_, OspfRoutes, NewRoutes>,
    waves: &Waves,
    told: (u32, &EndFault),
) -> Result<Decision, OutOfMemory>
    requires mixes { MixesTables tables.now mixed.now }
    requires fault { IsFirstFault (migration_of table_at new_table mixed.now) (flat_of waves.now) told.0 (fault_told told.1.now) }
    ensures { IfOk result (IsExplainedOrder (move_of tables.now) waves.now) }
{
    let (state, fault) = told;
    let net = mixed.net();
    let _routers = net.routers();
    let first = unsafe_text(alloc, net, state, fault)?;
    let order = waves.flat();
    let place = FaultPlace::State {
        order,
        number: state,
    };
    let text = with_way(alloc, tables, mixed, (place, fault), first)?;
    Ok(Decision::ExplainedUnsafe { text })
}

/// What is decided of a wave list, and why.
fn explain_waves(
    alloc: Global,
    tables: &Tables<'_>,
    mixed: &Mixed<'_, OspfRoutes, NewRoutes>,
    waves: &Waves,
) -> Result<Decision, OutOfMemory>
    requires mixes { MixesTables tables.now mixed.now }
    requires each { length waves.now ≡ length tables.now.net }
    ensures { IfOk result (IsExplainedWaves (move_of tables.now) waves.now) }
{
    let found = first_unsound_wave(alloc, mixed, waves)?;
    match found {
        None => waves_reasons(alloc, tables, mixed, waves),
        Some((wave, fault)) => waves_way(alloc, tables, mixed, waves, (wave, &fault)),
    }
}

/// What is decided of a wave list that is safe: that it is, and the reasons of its routers.
fn waves_reasons(
    alloc: Global,
    tables: &Tables<'_>,
    mixed: &Mixed<'_, OspfRoutes, NewRoutes>,
    waves: &Waves,
) -> Result<Decision, OutOfMemory>
    requires mixes { MixesTables tables.now mixed.now }
    requires each { length waves.now ≡ length tables.now.net }
    requires seamless { AreSeamlessWaves (migration_of table_at new_table mixed.now) waves.now }
    ensures { IfOk result (IsExplainedWaves (move_of tables.now) waves.now) }
{
    let first = waves_safe_text(alloc, 2 * mixed.net().routers(), waves.count())?;
    let text = with_reasons(alloc, tables, mixed, waves, first)?;
    Ok(Decision::ExplainedSafe { text })
}

/// What is decided of a wave list that isn't safe: its first wave with an unsound state, and the way of a packet in one.
fn waves_way(
    alloc: Global,
    tables: &Tables<'_>,
    mixed: &Mixed<'_, OspfRoutes, NewRoutes>,
    waves: &Waves,
    told: (u32, &EndFault),
) -> Result<Decision, OutOfMemory>
    requires mixes { MixesTables tables.now mixed.now }
    requires fault { IsTimesFault (migration_of table_at new_table mixed.now) (router_times all_old waves.now) told.0
        (fault_told told.1.now) }
    ensures { IfOk result (IsExplainedWaves (move_of tables.now) waves.now) }
{
    let (wave, fault) = told;
    let net = mixed.net();
    let _routers = net.routers();
    let first = waves_unsafe_text(alloc, net, wave, fault)?;
    let ranks = waves.ranks();
    let place = FaultPlace::Wave {
        ranks,
        number: wave,
    };
    let text = with_way(alloc, tables, mixed, (place, fault), first)?;
    Ok(Decision::ExplainedUnsafe { text })
}

/// A text with the reasons of the routers of a safe list behind it.
fn with_reasons(
    alloc: Global,
    tables: &Tables<'_>,
    mixed: &Mixed<'_, OspfRoutes, NewRoutes>,
    waves: &Waves,
    first: Bytes,
) -> Result<Bytes, OutOfMemory>
    requires mixes { MixesTables tables.now mixed.now }
    requires each { length waves.now ≡ length tables.now.net }
    requires sound { AreSoundRanks (migration_of table_at new_table mixed.now) waves.now }
    ensures { IfOk result (TellsBehind (IsReasonsText (move_of tables.now) waves.now) first) }
{
    let reasons = reasons_text(alloc, mixed, waves)?;
    behind(first, &reasons)
}

/// A text with the way of a packet for a fault behind it.
pub(crate) fn with_way(
    alloc: Global,
    tables: &Tables<'_>,
    mixed: &Mixed<'_, OspfRoutes, NewRoutes>,
    told: (FaultPlace<'_>, &EndFault),
    first: Bytes,
) -> Result<Bytes, OutOfMemory>
    requires mixes { MixesTables tables.now mixed.now }
    requires fault { IsFaultInSpan (migration_of table_at new_table mixed.now) (span_of told.0) (fault_told told.1.now) }
    ensures { IfOk result (TellsBehind (IsWayText (move_of tables.now) (span_of told.entry.0) (fault_told told.entry.1.now)) first) }
{
    let (place, fault) = told;
    let way = fault_way(alloc, tables, mixed, place, fault)?;
    behind(first, &way)
}

/// The way of a packet for a fault, by the tables before and after.
fn fault_way(
    alloc: Global,
    tables: &Tables<'_>,
    mixed: &Mixed<'_, OspfRoutes, NewRoutes>,
    place: FaultPlace<'_>,
    fault: &EndFault,
) -> Result<Bytes, OutOfMemory>
    requires mixes { MixesTables tables.now mixed.now }
    requires fault { IsFaultInSpan (migration_of table_at new_table mixed.now) (span_of place) (fault_told fault.now) }
    ensures { IfOk result (IsWayText (move_of tables.now) (span_of place.entry) (fault_told fault.now)) }
{
    let sources = tables.sources();
    way_text(alloc, &sources, mixed, place, fault)
}

/// A text with another one behind it.
pub(crate) fn behind(first: Bytes, more: &Bytes) -> Result<Bytes, OutOfMemory>
    ensures { IfOk result (λ text. text ≡ first ++ more.now) }
{
    let mut all = first.into_vec();
    all.extend_from_slice(more.as_slice())?;
    Ok(Bytes::from_vec(all))
}
