ghost use Rattle.std.specs.Prelude.{◌≡◌, ◌<◌, ◌%◌, ◌+◌, ◌^◌, ◌↔◌, ◌∷◌, [], ℕ, List, All, AllPairs, IfOk, IsTrue, MatchBool, MatchOption};
ghost use Rattle.std.specs.Prelude.{MatchResult, length};
ghost use Rattle.net_addr.specs.Spans.{bytes_of, LiesIn};
ghost use Rattle.net_model.specs.Refusals.{IsNetwork};
ghost use Rattle.igp_theory.specs.declared.phase.Phase.{Phase};
ghost use Rattle.change_orders.specs.ChangeWords.{change_word};
ghost use Rattle.refutation_check.specs.StartLines.{HasStartForm, SaysStart, StandInOrder, WrongStart, made_words};
ghost use Rattle.refutation_check.specs.TreeLines.{pieces_of};
ghost use Rattle.refutation_check.specs.WrongLines.{IsLowestKind};
ghost use Rattle.refutation_check.specs.steps.Spans.{AreFilled, span_texts};
ghost use Rattle.refutation_check.specs.steps.Starts.{AreChangesInOrder, IsStartShape, NamesNoLaterRouter, NamesRouterBelow, RaisesRouter};
ghost use Rattle.refutation_check.specs.steps.Starts.{TakesEntry, TellStart};

use crate::shape::{are_number_words, is_text};
use crate::spans::{bytes_at, words_of_line};
use crate::verdict::WrongKind;
use net_addr::{OutOfMemory, Span};
use net_model::Net;
use plan_theory::{Items, number_named};
use rib_mix::Phase;
use std::alloc::Global;

/// The phase of each router that the line of a start says, or why it says none.
pub(crate) fn read_start(
    alloc: Global,
    net: &Net,
    text: &[u8],
    line: Span,
) -> Result<Result<Vec<Phase>, WrongKind>, OutOfMemory>
    requires network { IsNetwork net.now }
    requires short { length text.now < 2 ^ 26 }
    requires inside { LiesIn text.now line }
    ensures { IfOk result (λ said. MatchResult said
        (λ start. SaysStart net.now (pieces_of (bytes_of text.now line)) start.items)
        (IsLowestKind (WrongStart net.now (pieces_of (bytes_of text.now line))))) }
{
    match words_of_line(alloc, text, line)? {
        Some(words) => start_of_words(alloc, net, text, words.as_slice()),
        None => Ok(Err(WrongKind::Form)),
    }
}

/// The start that words of a text say, or why they say none.
fn start_of_words(
    alloc: Global,
    net: &Net,
    text: &[u8],
    words: &[Span],
) -> Result<Result<Vec<Phase>, WrongKind>, OutOfMemory>
    requires network { IsNetwork net.now }
    requires inside { All (LiesIn text.now) words.now }
    ensures { IfOk result (λ said. MatchResult said
        (λ start. SaysStart net.now (span_texts text.now words.now) start.items)
        (IsLowestKind (WrongStart net.now (span_texts text.now words.now)))) }
{
    match start_entries(net, text, words) {
        Some(entries) => match start_told(alloc, net, text, entries)? {
            Some(start) => Ok(Ok(start)),
            None => Ok(Err(WrongKind::Router)),
        },
        None => Ok(Err(WrongKind::Form)),
    }
}

/// The words behind the first one of a start, none where they haven't the form of one.
fn start_entries<'a>(net: &Net, text: &[u8], words: &'a [Span]) -> Option<&'a [Span]>
    requires network { IsNetwork net.now }
    requires inside { All (LiesIn text.now) words.now }
    ensures { MatchOption result
        (HasStartForm net.now (span_texts text.now words.now) → ⊥)
        (λ entries. IsStartShape net.now text.now (span_texts text.now words.now) entries.now) }
{
    let (first, entries) = words.split_first()?;
    if is_text(bytes_at(text, *first), b"start") && are_changes_in_order(net, text, entries) {
        Some(entries)
    } else {
        None
    }
}

/// Whether each word is that of a change, and none stands behind one of a router with a higher number.
fn are_changes_in_order(net: &Net, text: &[u8], words: &[Span]) -> bool
    requires network { IsNetwork net.now }
    requires inside { All (LiesIn text.now) words.now }
    ensures { IsTrue result ↔ AreChangesInOrder net.now (span_texts text.now words.now) }
{
    are_number_words(Items::Changes, text, words) && stand_in_order(net, text, words)
}

/// Whether no word names a change of a router behind one of a router with a higher number.
fn stand_in_order(net: &Net, text: &[u8], words: &[Span]) -> bool
    requires network { IsNetwork net.now }
    requires inside { All (LiesIn text.now) words.now }
    ensures { IsTrue result ↔ AllPairs (StandInOrder net.now) (span_texts text.now words.now) }
{
    let mut most = 0;
    for word in words {
        match raised_router(net, bytes_at(text, *word), most) {
            Some(raised) => most = raised,
            None => return false,
        }
    }
    true
}

/// The highest router so far with that of a word's change, none where that is lower; a word that names no change raises nothing.
fn raised_router(net: &Net, word: &[u8], most: u32) -> Option<u32>
    requires { IsNetwork net.now }
    ensures { MatchOption result (NamesRouterBelow net.now word.now most) (RaisesRouter net.now word.now most) }
{
    match number_named(Items::Changes, net, word) {
        Some(item) => {
            if item / 2 < most {
                None
            } else {
                Some(item / 2)
            }
        }
        None => Some(most),
    }
}

/// The start that the words behind the first one tell, none where a name is no router's or isn't behind those before it.
fn start_told(
    alloc: Global,
    net: &Net,
    text: &[u8],
    entries: &[Span],
) -> Result<Option<Vec<Phase>>, OutOfMemory>
    requires network { IsNetwork net.now }
    requires inside { All (LiesIn text.now) entries.now }
    ensures { IfOk result (λ found. MatchOption found
        ((start : List Phase) → TellStart net.now (span_texts text.now entries.now) start → ⊥)
        (λ start. TellStart net.now (span_texts text.now entries.now) start.items)) }
{
    let mut start = Vec::new(alloc);
    for entry in entries {
        let taken = take_entry(net, bytes_at(text, *entry), &mut start)?;
        if !taken {
            return Ok(None);
        }
    }
    start.resize(net.routers() as usize, Phase::Old)?;
    Ok(Some(start))
}

/// Takes the phase of the router whose change a word names, behind the routers that have one, with `Old` for those between;
/// whether there is such a router.
fn take_entry(net: &Net, word: &[u8], start: &mut Vec<Phase>) -> Result<bool, OutOfMemory>
    requires { IsNetwork net.now }
    ensures { IfOk result (λ taken. MatchBool taken
        (TakesEntry net.now word.now start.old.items start.new.items)
        (NamesNoLaterRouter net.now word.now start.old.items)) }
{
    let Some(item) = number_named(Items::Changes, net, word) else {
        return Ok(false);
    };
    let router = item as usize / 2;
    if router < start.len() {
        return Ok(false);
    }
    start.resize(router, Phase::Old)?;
    start.push(phase_behind(item))?;
    Ok(true)
}

/// The phase in which a change is the last one that its router has made.
fn phase_behind(item: u32) -> Phase
    ensures { (name : List ℕ) → made_words name result ≡ change_word name (item % 2 + 1) ∷ [] }
{
    if item % 2 == 0 {
        Phase::Middle
    } else {
        Phase::New
    }
}
