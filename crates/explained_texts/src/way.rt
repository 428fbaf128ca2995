ghost use Rattle.std.specs.Prelude.{◌≡◌, ◌<◌, ℕ, All, IfOk, false, length};
ghost use Rattle.std.specs.Bool.{OnTrue};
ghost use Rattle.igp_theory.specs.Forwarding.{HasStep, MustForward};
ghost use Rattle.igp_theory.specs.Laws.{HaveSameTables};
ghost use Rattle.igp_theory.specs.declared.phase.Phase.{Phase};
ghost use Rattle.igp_theory.specs.Loops.{loop, missing};
ghost use Rattle.igp_theory.specs.Migrations.{listed_migration};
ghost use Rattle.order_core.specs.declared.turn.Turn.{Turn};
ghost use Rattle.plan_theory.specs.Plans.{fault_told};
ghost use Rattle.rib_mix.specs.Answers.{NextLeadsTo};
ghost use Rattle.rib_mix.specs.Mixture.{migration_of};
ghost use Rattle.route_core.specs.Tables.{HasEntry};
ghost use Rattle.explained_texts.specs.FaultPlaces.{span_of};
ghost use Rattle.explained_texts.specs.ToldItems.{AreTold, TellsAll, TellsMore};
ghost use Rattle.explained_texts.specs.WayTexts.{IsFirstLacking, IsUseLine, IsWayText, InSpan, IsFaultInSpan, turn_phase};
ghost use Rattle.explained_texts.specs.steps.Mixing.{HasLawfulTables};

use crate::OutOfMemory;
use crate::place::FaultPlace;
use crate::target::target_line;
use crate::uses::use_line;
use net_addr::Bytes;
use order_core::Turn;
use plan_theory::EndFault;
use printed_lines::TextBuilder;
use rib_mix::{Mixed, Next, Phase};
use route_core::RouteSource;
use std::alloc::Global;
use used_routes::Sources;

/// The way of a packet for a fault: the target of its address with the routers that originate it, and what each router of the
/// ring uses, or the one that lacks a step. The only error is want of memory.
///
/// What a router uses is looked up in the tables themselves. Mixed forwarding, over tables with the same entries, tells the
/// target, and in which phase a step is missing.
pub fn way_text<O: RouteSource, N: RouteSource>(
    alloc: Global,
    sources: &Sources<'_, O, N>,
    mixed: &Mixed<'_, O, N>,
    place: FaultPlace<'_>,
    fault: &EndFault,
) -> Result<Bytes, OutOfMemory>
    requires net { mixed.now.net ≡ sources.now.net.now }
    requires old { O.routers sources.now.old.now ≡ length sources.now.net.now }
    requires new { N.routers sources.now.new.now ≡ length sources.now.net.now }
    requires same { HaveSameTables
        (listed_migration sources.now.net.now (O.table sources.now.old.now) (N.table sources.now.new.now))
        (HasEntry (O.table mixed.now.old)) (HasEntry (N.table mixed.now.new)) }
    requires fault { IsFaultInSpan
        (listed_migration sources.now.net.now (O.table sources.now.old.now) (N.table sources.now.new.now)) (span_of place)
        (fault_told fault.now) }
    ensures { IfOk result (IsWayText
        (listed_migration sources.now.net.now (O.table sources.now.old.now) (N.table sources.now.new.now)) (span_of place.entry)
        (fault_told fault.now)) }
{
    match fault {
        EndFault::Loop { address, turns } => {
            ring_text(alloc, sources, mixed, (place, *address), turns.as_slice())
        }
        EndFault::Missing { address, router } => {
            router_text(alloc, sources, mixed, (place, *address), *router)
        }
    }
}

/// The way of a packet round a ring.
fn ring_text<O: RouteSource, N: RouteSource>(
    alloc: Global,
    sources: &Sources<'_, O, N>,
    mixed: &Mixed<'_, O, N>,
    told: (FaultPlace<'_>, u32),
    ring: &[Turn],
) -> Result<Bytes, OutOfMemory>
    requires net { mixed.now.net ≡ sources.now.net.now }
    requires old { O.routers sources.now.old.now ≡ length sources.now.net.now }
    requires new { N.routers sources.now.new.now ≡ length sources.now.net.now }
    requires same { HaveSameTables
        (listed_migration sources.now.net.now (O.table sources.now.old.now) (N.table sources.now.new.now))
        (HasEntry (O.table mixed.now.old)) (HasEntry (N.table mixed.now.new)) }
    requires ring { IsFaultInSpan
        (listed_migration sources.now.net.now (O.table sources.now.old.now) (N.table sources.now.new.now)) (span_of told.0)
        (loop told.1 ring.now) }
    ensures { IfOk result (IsWayText
        (listed_migration sources.now.net.now (O.table sources.now.old.now) (N.table sources.now.new.now)) (span_of told.entry.0)
        (loop told.entry.1 ring.now)) }
{
    promise(sources, mixed);
    let text = TextBuilder::new(alloc).line(target_line(alloc, mixed, told.1)?)?;
    Ok(with_turns(alloc, text, sources, told, ring)?.finish())
}

/// The way of a packet to a router that lacks a step.
fn router_text<O: RouteSource, N: RouteSource>(
    alloc: Global,
    sources: &Sources<'_, O, N>,
    mixed: &Mixed<'_, O, N>,
    told: (FaultPlace<'_>, u32),
    router: u32,
) -> Result<Bytes, OutOfMemory>
    requires net { mixed.now.net ≡ sources.now.net.now }
    requires old { O.routers sources.now.old.now ≡ length sources.now.net.now }
    requires new { N.routers sources.now.new.now ≡ length sources.now.net.now }
    requires same { HaveSameTables
        (listed_migration sources.now.net.now (O.table sources.now.old.now) (N.table sources.now.new.now))
        (HasEntry (O.table mixed.now.old)) (HasEntry (N.table mixed.now.new)) }
    requires router { IsFaultInSpan
        (listed_migration sources.now.net.now (O.table sources.now.old.now) (N.table sources.now.new.now)) (span_of told.0)
        (missing told.1 router) }
    ensures { IfOk result (IsWayText
        (listed_migration sources.now.net.now (O.table sources.now.old.now) (N.table sources.now.new.now)) (span_of told.entry.0)
        (missing told.entry.1 router)) }
{
    let (place, a) = told;
    let text = TextBuilder::new(alloc).line(target_line(alloc, mixed, a)?)?;
    let phase = first_lacking(mixed, place, a, router);
    let line = use_line(alloc, sources, a, router, phase)?;
    Ok(text.line(line)?.finish())
}

/// What sources promise, and mixed forwarding over the same entries: a router has one entry for a prefix, and these are blocks.
fn promise<O: RouteSource, N: RouteSource>(sources: &Sources<'_, O, N>, mixed: &Mixed<'_, O, N>)
    requires net { mixed.now.net ≡ sources.now.net.now }
    requires old { O.routers sources.now.old.now ≡ length sources.now.net.now }
    requires new { N.routers sources.now.new.now ≡ length sources.now.net.now }
    requires same { HaveSameTables
        (listed_migration sources.now.net.now (O.table sources.now.old.now) (N.table sources.now.new.now))
        (HasEntry (O.table mixed.now.old)) (HasEntry (N.table mixed.now.new)) }
    ensures { HasLawfulTables (listed_migration sources.now.net.now (O.table sources.now.old.now) (N.table sources.now.new.now)) }
{
    let _routers = sources.net.routers();
    let _old = sources.old.routers();
    let _new = sources.new.routers();
    let _atoms = mixed.atoms();
}

/// The text with what the routers of some turns use for an address more.
fn with_turns<O: RouteSource, N: RouteSource>(
    alloc: Global,
    text: TextBuilder,
    sources: &Sources<'_, O, N>,
    told: (FaultPlace<'_>, u32),
    turns: &[Turn],
) -> Result<TextBuilder, OutOfMemory>
    requires old { O.routers sources.now.old.now ≡ length sources.now.net.now }
    requires new { N.routers sources.now.new.now ≡ length sources.now.net.now }
    requires inside { All (λ turn. turn.router < length sources.now.net.now) turns.now }
    ensures { IfOk result (TellsAll (λ (turn : Turn). IsUseLine
        (listed_migration sources.now.net.now (O.table sources.now.old.now) (N.table sources.now.new.now)) told.entry.1
        turn.router (turn_phase (span_of told.entry.0) turn)) turns.now text) }
{
    let mut text = text;
    for turn in turns {
        text = with_turn(alloc, text, sources, told, *turn)?;
    }
    Ok(text)
}

/// The text with what the router of a turn uses for an address more.
fn with_turn<O: RouteSource, N: RouteSource>(
    alloc: Global,
    text: TextBuilder,
    sources: &Sources<'_, O, N>,
    told: (FaultPlace<'_>, u32),
    turn: Turn,
) -> Result<TextBuilder, OutOfMemory>
    requires old { O.routers sources.now.old.now ≡ length sources.now.net.now }
    requires new { N.routers sources.now.new.now ≡ length sources.now.net.now }
    requires inside { turn.router < length sources.now.net.now }
    ensures { IfOk result (TellsMore (λ (turn : Turn). IsUseLine
        (listed_migration sources.now.net.now (O.table sources.now.old.now) (N.table sources.now.new.now)) told.entry.1
        turn.router (turn_phase (span_of told.entry.0) turn)) turn text) }
{
    let phase = told.0.told(turn.tag, turn.router);
    text.line(use_line(alloc, sources, told.1, turn.router, phase)?)
}

/// The first phase in which a router lacks a step for an address, of those that it has at a place.
fn first_lacking<O: RouteSource, N: RouteSource>(
    mixed: &Mixed<'_, O, N>,
    place: FaultPlace<'_>,
    a: u32,
    router: u32,
) -> Phase
    requires must { MustForward mixed.now.net a router }
    requires some { (phase : Phase) × InSpan (span_of place) router phase
        × (¬ HasStep (migration_of O.table N.table mixed.now) router phase a) }
    ensures { IsFirstLacking (migration_of O.table N.table mixed.now) (span_of place.entry) a router result }
{
    let first = place.first(router);
    let last = place.last(router);
    if lacks_step(mixed, a, router, first) {
        return first;
    }
    if matches!(first, Phase::Old) && lacks_step(mixed, a, router, Phase::Middle) {
        return Phase::Middle;
    }
    last
}

/// Whether a router that has to pass packets for an address on lacks a step in a phase.
fn lacks_step<O: RouteSource, N: RouteSource>(
    mixed: &Mixed<'_, O, N>,
    a: u32,
    router: u32,
    phase: Phase,
) -> bool
    requires { MustForward mixed.now.net a router }
    ensures lacks { OnTrue result (¬ HasStep (migration_of O.table N.table mixed.now) router phase a) }
    ensures has { result ≡ false → HasStep (migration_of O.table N.table mixed.now) router phase a }
{
    let atom = mixed.atoms().of(a);
    leads_nowhere(mixed.hops(router, atom, phase))
}

/// Whether an answer forwards to no router.
fn leads_nowhere(answer: Next<'_>) -> bool
    ensures none { OnTrue result ((h : ℕ) → ¬ NextLeadsTo answer.entry h) }
    ensures some { result ≡ false → (h : ℕ) × NextLeadsTo answer.entry h }
{
    match answer {
        Next::Via(hops) => hops.as_slice().is_empty(),
        Next::Discard | Next::Connected | Next::Absent => true,
    }
}
