ghost use Rattle.std.specs.Prelude.{◌≡◌, ℕ, List, ◌++◌, ◌∷◌, [], ◌↔◌, All, Contains, IfOk, IsTrue, MatchOption, OnOk};
ghost use Rattle.net_addr.specs.Spans.{LiesIn};
ghost use Rattle.net_model.specs.Refusals.{IsNetwork};
ghost use Rattle.order_core.specs.Turns.{routers_of};
ghost use Rattle.order_core.specs.declared.turn.Turn.{Turn};
ghost use Rattle.refutation_check.specs.TreeLines.{IsSomeEntry, SaysTurn};
ghost use Rattle.refutation_check.specs.steps.Names.{IsFurtherNumber, IsFurtherTurn, NameNumbers, NamesNoFurtherNumber, SayTurns, SaysNoFurtherTurn};
ghost use Rattle.refutation_check.specs.steps.Spans.{span_texts};

use crate::shape::split_entry;
use crate::spans::bytes_at;
use net_addr::{OutOfMemory, Span};
use net_model::Net;
use order_core::{Turn, Turns};
use order_search::Cycle;
use plan_theory::{Items, number_named};
use std::alloc::Global;

/// The turns that some entries say, none where a name is no router's or is there twice.
pub(crate) fn turns_of(
    alloc: Global,
    net: &Net,
    text: &[u8],
    entries: &[Span],
) -> Result<Option<Turns>, OutOfMemory>
    requires { All (LiesIn text.now) entries.now }
    ensures { IfOk result (λ found. MatchOption found
        ((turns : List Turn) → SayTurns net.now (span_texts text.now entries.now) turns → ⊥)
        (SayTurns net.now (span_texts text.now entries.now))) }
{
    let mut turns = Vec::new(alloc);
    for entry in entries {
        match further_turn(net, bytes_at(text, *entry), turns.as_slice()) {
            Some(turn) => add_turn(&mut turns, turn)?,
            None => return Ok(None),
        }
    }
    Ok(Some(Turns::from_vec(turns)))
}

/// The numbers that some spans name, none where one names no number or one that is there before.
pub(crate) fn numbers_named(
    alloc: Global,
    items: Items,
    net: &Net,
    text: &[u8],
    names: &[Span],
) -> Result<Option<Cycle>, OutOfMemory>
    requires network { IsNetwork net.now }
    requires inside { All (LiesIn text.now) names.now }
    ensures { IfOk result (λ found. MatchOption found
        ((numbers : List ℕ) → NameNumbers items net.now (span_texts text.now names.now) numbers → ⊥)
        (NameNumbers items net.now (span_texts text.now names.now))) }
{
    let mut numbers = Vec::new(alloc);
    for name in names {
        match further_number(items, net, bytes_at(text, *name), numbers.as_slice()) {
            Some(number) => add_number(&mut numbers, number)?,
            None => return Ok(None),
        }
    }
    Ok(Some(Cycle::from_vec(numbers)))
}

/// The turn that an entry says, where its router is in none of these turns.
fn further_turn(net: &Net, entry: &[u8], turns: &[Turn]) -> Option<Turn>
    ensures network { IsSomeEntry entry.now → IsNetwork net.now }
    ensures said { MatchOption result (SaysNoFurtherTurn net.now entry.now turns.now) (IsFurtherTurn net.now entry.now turns.now) }
{
    let turn = turn_of(net, entry)?;
    if has_turn(turns, turn.router) {
        None
    } else {
        Some(turn)
    }
}

/// The turn that an entry says.
fn turn_of(net: &Net, entry: &[u8]) -> Option<Turn>
    ensures network { IsSomeEntry entry.now → IsNetwork net.now }
    ensures said { MatchOption result ((turn : Turn) → SaysTurn net.now entry.now turn → ⊥) (SaysTurn net.now entry.now) }
{
    let (name, tag) = split_entry(entry)?;
    let router = net.number_of(name)?;
    Some(Turn { router, tag })
}

/// Whether some turn is that of the router.
fn has_turn(turns: &[Turn], router: u32) -> bool
    ensures { IsTrue result ↔ Contains (routers_of turns.now) router }
{
    for turn in turns {
        if turn.router == router {
            return true;
        }
    }
    false
}

/// Adds a turn to the end.
fn add_turn(turns: &mut Vec<Turn>, turn: Turn) -> Result<(), OutOfMemory>
    ensures { OnOk result (turns.new.items ≡ turns.old.items ++ turn ∷ []) }
{
    turns.push(turn)?;
    Ok(())
}

/// The number of a word, where it isn't among these.
fn further_number(items: Items, net: &Net, word: &[u8], numbers: &[u32]) -> Option<u32>
    requires { IsNetwork net.now }
    ensures { MatchOption result
        (NamesNoFurtherNumber items net.now word.now numbers.now)
        (IsFurtherNumber items net.now word.now numbers.now) }
{
    let number = number_named(items, net, word)?;
    if has_number(numbers, number) {
        None
    } else {
        Some(number)
    }
}

/// Whether the number is among some.
pub(crate) fn has_number(numbers: &[u32], number: u32) -> bool
    ensures { IsTrue result ↔ Contains numbers.now number }
{
    numbers.contains(&number)
}

/// Adds a number to the end.
fn add_number(numbers: &mut Vec<u32>, number: u32) -> Result<(), OutOfMemory>
    ensures { OnOk result (numbers.new.items ≡ numbers.old.items ++ number ∷ []) }
{
    numbers.push(number)?;
    Ok(())
}
