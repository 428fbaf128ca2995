ghost use Rattle.std.specs.Prelude.{◌≡◌, ◌∷◌, ◌++◌, ◌<◌, [], All, IfOk, length};
ghost use Rattle.igp_theory.specs.Phases.{state_in};
ghost use Rattle.printed_lines.specs.Texts.{text_of};
ghost use Rattle.state_replay.specs.Halves.{ending_of};
ghost use Rattle.observed_night.specs.ObservedTexts.{astray_text, changes_told_in, difference_text, lines_along, state_journal};

use crate::Difference;
use igp_theory::Phase;
use net_addr::Bytes;
use net_model::Net;
use order_core::Waves;
use printed_lines::{LineBuilder, TextBuilder};
use state_replay::Half;
use std::alloc::{AllocError, Global};

/// The line that tells what a router differs in.
pub(crate) fn difference_text(
    alloc: Global,
    difference: &Difference<'_>,
) -> Result<Bytes, AllocError>
    ensures { IfOk result (λ text. text ≡ difference_text difference.now.name.now difference.now.part) }
{
    LineBuilder::start(alloc, b"differs")?
        .word(difference.name)?
        .word(difference.part.word())?
        .finish()
}

/// The line that tells a router whose changes can't be.
pub(crate) fn astray_text(alloc: Global, name: &[u8]) -> Result<Bytes, AllocError>
    ensures { IfOk result (λ text. text ≡ astray_text name.now) }
{
    LineBuilder::start(alloc, b"departs")?.word(name)?.finish()
}

/// The journal of the state that gives each router the phase at its place.
pub(crate) fn journal_text(
    alloc: Global,
    net: &Net,
    waves: &Waves,
    phases: &[Phase],
) -> Result<Bytes, AllocError>
    requires ranks { length waves.now ≡ length net.now }
    requires phases { length phases.now ≡ length net.now }
    ensures { IfOk result (λ text. text ≡ state_journal net.now waves.now (state_in phases.now)) }
{
    let header = LineBuilder::start(alloc, b"journal 1")?;
    let text = TextBuilder::new(alloc).line(header)?;
    Ok(with_routers(alloc, text, net, waves.flat(), phases)?.finish())
}

/// The text with the lines more for the changes that some routers have made, in the order of the routers.
fn with_routers(
    alloc: Global,
    text: TextBuilder,
    net: &Net,
    routers: &[u32],
    phases: &[Phase],
) -> Result<TextBuilder, AllocError>
    requires routers { All (λ u. u < length net.now) routers.now }
    requires phases { length phases.now ≡ length net.now }
    ensures { IfOk result (λ longer. longer ≡ text ++ text_of (lines_along net.now (state_in phases.now) routers.now)) }
{
    let mut text = text;
    for router in routers {
        let name = net.config(*router).name.as_slice();
        text = with_changes(alloc, text, name, phases[*router as usize])?;
    }
    Ok(text)
}

/// The text with the lines more for the changes that a router of this name has made in a phase.
fn with_changes(
    alloc: Global,
    text: TextBuilder,
    name: &[u8],
    phase: Phase,
) -> Result<TextBuilder, AllocError>
    ensures { IfOk result (λ longer. longer ≡ text ++ text_of (changes_told_in phase name.now)) }
{
    match phase {
        Phase::Old => Ok(text),
        Phase::Middle => with_change(alloc, text, name, Half::First),
        Phase::New => {
            let text = with_change(alloc, text, name, Half::First)?;
            with_change(alloc, text, name, Half::Second)
        }
    }
}

/// The text with the line of a change more.
fn with_change(
    alloc: Global,
    text: TextBuilder,
    name: &[u8],
    half: Half,
) -> Result<TextBuilder, AllocError>
    ensures { IfOk result (λ longer. longer ≡ text ++ text_of ((name.now ++ ending_of half) ∷ [])) }
{
    text.line(change_line(alloc, name, half)?)
}

/// The line of a change: the name of its router, a blank, and the number of the change.
fn change_line(alloc: Global, name: &[u8], half: Half) -> Result<LineBuilder, AllocError>
    ensures { IfOk result (λ line. line ≡ name.now ++ ending_of half) }
{
    let line = LineBuilder::start(alloc, name)?;
    match half {
        Half::First => line.word(b"1"),
        Half::Second => line.word(b"2"),
    }
}
