ghost use Rattle.std.specs.Prelude.{◌≡◌, ◌*◌, ◌<◌, ◌≤◌, ◌++◌, ◌∷◌, [], ℕ, All, IfNone, IfOk, IfSome, length};
ghost use Rattle.net_model.specs.RouterNames.{names_of};
ghost use Rattle.order_core.specs.declared.turn.Turn.{Turn};
ghost use Rattle.igp_theory.specs.Forwarding.{MustForward};
ghost use Rattle.igp_theory.specs.Loops.{loop};
ghost use Rattle.loop_finder.specs.Faults.{told_fault};
ghost use Rattle.plan_theory.specs.Numbers.{AreNumbered};
ghost use Rattle.printed_lines.specs.Words.{spaced};
ghost use Rattle.rib_mix.specs.Mixture.{migration_of};
ghost use Rattle.change_orders.specs.TwoTexts.{item_word};
ghost use Rattle.explained_changes.specs.ChangeReasons.{ChangeMayBeEarlier};
ghost use Rattle.explained_changes.specs.ChangeReasonTexts.{IsChangeLine, comes_words, loop_words};
ghost use Rattle.explained_changes.specs.steps.Asked.{HasFaultEarlier, IsAskable, IsSafeList};

use crate::OutOfMemory;
use crate::words::{comes_line, may_line};
use explained_texts::{lowest_before, with_turns};
use loop_finder::Fault;
use net_model::Net;
use order_core::Turn;
use plan_theory::{Items, number_turns};
use printed_lines::LineBuilder;
use rib_mix::Mixed;
use route_core::RouteSource;
use std::alloc::Global;

/// The line of a change that is asked of, from the fault of the list with it one wave earlier, and the ring of that.
pub(crate) fn told_line<O: RouteSource, N: RouteSource>(
    alloc: Global,
    mixed: &Mixed<'_, O, N>,
    ranks: &[u32],
    told: (u32, Option<Fault>),
    ring: &[Turn],
) -> Result<LineBuilder, OutOfMemory>
    requires list { IsSafeList (migration_of O.table N.table mixed.now) ranks.now }
    requires item { IsAskable ranks.now told.0 }
    requires free { IfNone told.1 (ChangeMayBeEarlier (migration_of O.table N.table mixed.now) ranks.now told.0) }
    requires kept { IfSome told.1 (λ fault. HasFaultEarlier (migration_of O.table N.table mixed.now) ranks.now told.0
        (told_fault fault ring.now)) }
    ensures { IfOk result (λ line.
        IsChangeLine (migration_of O.table N.table mixed.now) ranks.now told.0 (line ++ 10 ∷ [])) }
{
    let (item, found) = told;
    match found {
        None => may_line(alloc, mixed.net(), ranks, item),
        Some(fault) => fault_line(alloc, mixed, ranks, (item, fault), ring),
    }
}

/// The line of a change that a fault keeps from the wave before its own: a loop, whose ring this is.
fn fault_line<O: RouteSource, N: RouteSource>(
    alloc: Global,
    mixed: &Mixed<'_, O, N>,
    ranks: &[u32],
    told: (u32, Fault),
    ring: &[Turn],
) -> Result<LineBuilder, OutOfMemory>
    requires list { IsSafeList (migration_of O.table N.table mixed.now) ranks.now }
    requires item { IsAskable ranks.now told.0 }
    requires kept { HasFaultEarlier (migration_of O.table N.table mixed.now) ranks.now told.0 (told_fault told.1 ring.now) }
    ensures { IfOk result (λ line.
        IsChangeLine (migration_of O.table N.table mixed.now) ranks.now told.0 (line ++ 10 ∷ [])) }
{
    let (item, fault) = told;
    match fault {
        Fault::Loop { address } => loop_line(alloc, mixed, ranks, (item, address), ring),
        Fault::Missing { .. } => unreachable!(),
    }
}

/// The line of a change that a loop for an address keeps from the wave before its own: it comes after the lowest change of that
/// wave whose router is tagged `Old`.
fn loop_line<O: RouteSource, N: RouteSource>(
    alloc: Global,
    mixed: &Mixed<'_, O, N>,
    ranks: &[u32],
    told: (u32, u32),
    ring: &[Turn],
) -> Result<LineBuilder, OutOfMemory>
    requires list { IsSafeList (migration_of O.table N.table mixed.now) ranks.now }
    requires item { IsAskable ranks.now told.0 }
    requires kept { HasFaultEarlier (migration_of O.table N.table mixed.now) ranks.now told.0 (loop told.1 ring.now) }
    ensures { IfOk result (λ line.
        IsChangeLine (migration_of O.table N.table mixed.now) ranks.now told.0 (line ++ 10 ∷ [])) }
{
    let (item, address) = told;
    let turns = turns_by_changes(alloc, mixed, address, ring)?;
    let after = lowest_before(ranks, turns.as_slice(), item);
    after_line(alloc, mixed.net(), ranks, (item, after, address), ring)
}

/// The turns of a loop for an address, each by the change at which its router switches.
fn turns_by_changes<O: RouteSource, N: RouteSource>(
    alloc: Global,
    mixed: &Mixed<'_, O, N>,
    address: u32,
    ring: &[Turn],
) -> Result<Vec<Turn>, OutOfMemory>
    requires few { length mixed.now.net ≤ 1000 }
    requires must { All (λ (turn : Turn). MustForward mixed.now.net address turn.router) ring.now }
    ensures numbered { IfOk result (λ turns.
        AreNumbered Items.Changes (migration_of O.table N.table mixed.now) address ring.now turns.items) }
    ensures below { IfOk result (λ turns. All (λ turn. turn.router < 2 * length mixed.now.net) turns.items) }
{
    let mut turns = Vec::with_capacity(alloc, ring.len())?;
    number_turns(Items::Changes, mixed, address, ring, &mut turns);
    Ok(turns)
}

/// The line of a change that comes after another one, by a loop: the two changes, the address, and the ring.
fn after_line(
    alloc: Global,
    net: &Net,
    ranks: &[u32],
    told: (u32, u32, u32),
    ring: &[Turn],
) -> Result<LineBuilder, OutOfMemory>
    requires item { told.0 < length ranks.now }
    requires after { told.1 < length ranks.now }
    requires each { length ranks.now ≡ 2 * length net.now }
    requires inside { All (λ turn. turn.router < length net.now) ring.now }
    ensures { IfOk result (λ line. line ≡ item_word (names_of net.now) told.0
        ++ spaced (comes_words (names_of net.now) ranks.now told.0 told.1 (loop_words (names_of net.now) told.2 ring.now))) }
{
    let (item, after, address) = told;
    let line = comes_line(alloc, net, ranks, item, after)?.address(address)?;
    with_turns(line, net, ring)
}
