ghost use Rattle.std.specs.Prelude.{◌≡◌, ◌<◌, ◌++◌, ◌∷◌, [], List, IfOk, length};
ghost use Rattle.igp_theory.specs.Changes.{Change};
ghost use Rattle.printed_lines.specs.Texts.{text_of};
ghost use Rattle.state_replay.specs.Halves.{change_of};
ghost use Rattle.step_scripts.specs.Scripts.{distance_line, isis_head, ospf_distance_lines, ospf_head};
ghost use Rattle.live_replan.specs.BackTexts.{IsWholeJournal, TellsChanges, back_text, isis_undo_lines, undo_comment, undo_part};

use crate::told::{Told, told_changes};
use net_addr::Bytes;
use net_model::{Config, MOST_DISTANCE, Net};
use printed_lines::{LineBuilder, TextBuilder};
use state_replay::Half;
use std::alloc::{AllocError, Global};

/// The lines that take the changes of a journal back, from the last to the first, each behind a comment with its number in the journal
/// and its router.
///
/// A second change gives OSPF the distance of the configuration back, a first one takes IS-IS to 255. A router without that process
/// has the comment alone. The only error is want of memory.
pub fn back_text(alloc: Global, net: &Net, journal: &[u8]) -> Result<Bytes, AllocError>
    requires { IsWholeJournal net.now journal.now }
    ensures { IfOk result (λ text. (changes : List Change) → TellsChanges net.now journal.now changes → text ≡ back_text net.now changes) }
{
    let changes = told_changes(alloc, net, journal)?;
    let mut text = TextBuilder::new(alloc);
    for back in 0..changes.len() {
        let place = changes.len() - 1 - back;
        text = with_undone(alloc, text, net, place as u64 + 1, changes[place])?;
    }
    Ok(text.finish())
}

/// The text with the part more that undoes a change of this number.
fn with_undone(
    alloc: Global,
    text: TextBuilder,
    net: &Net,
    number: u64,
    change: Told,
) -> Result<TextBuilder, AllocError>
    requires { change.router < length net.now }
    ensures { IfOk result (λ longer. longer ≡ text ++ text_of (undo_part net.now (number, change_of change.router change.half))) }
{
    let config = net.config(change.router);
    let text = with_comment(alloc, text, number, config)?;
    match change.half {
        Half::First => with_isis_undone(alloc, text, config),
        Half::Second => with_ospf_undone(alloc, text, config.distances.ospf, config.process),
    }
}

/// The text with the comment before the lines that undo a change more.
fn with_comment(
    alloc: Global,
    text: TextBuilder,
    number: u64,
    config: &Config,
) -> Result<TextBuilder, AllocError>
    ensures { IfOk result (λ longer. longer ≡ text ++ text_of (undo_comment number config.now.name ∷ [])) }
{
    let line = LineBuilder::start(alloc, b"!")?.word(b"undo")?;
    text.line(line.number(number)?.word(config.name.as_slice())?)
}

/// The text with the lines more that take IS-IS to the greatest distance.
fn with_isis_undone(
    alloc: Global,
    text: TextBuilder,
    config: &Config,
) -> Result<TextBuilder, AllocError>
    ensures { IfOk result (λ longer. longer ≡ text ++ text_of (isis_undo_lines config.now)) }
{
    if config.isis {
        let text = text.line(isis_head(alloc, config.tag.as_slice())?)?;
        text.line(distance_line(alloc, MOST_DISTANCE)?)
    } else {
        Ok(text)
    }
}

/// The text with the lines more that give the OSPF process this distance; without one there is no line.
fn with_ospf_undone(
    alloc: Global,
    text: TextBuilder,
    distance: u8,
    process: Option<u32>,
) -> Result<TextBuilder, AllocError>
    ensures { IfOk result (λ longer. longer ≡ text ++ text_of (ospf_distance_lines distance process)) }
{
    match process {
        Some(process) => {
            let text = text.line(ospf_head(alloc, process)?)?;
            text.line(distance_line(alloc, distance)?)
        }
        None => Ok(text),
    }
}

/// The line that opens the section of the IS-IS process.
fn isis_head(alloc: Global, tag: &[u8]) -> Result<LineBuilder, AllocError>
    ensures { IfOk result (λ line. line ≡ isis_head tag.now) }
{
    let line = LineBuilder::start(alloc, b"router")?.word(b"isis")?;
    if tag.is_empty() {
        Ok(line)
    } else {
        line.word(tag)
    }
}

/// The line that opens the section of an OSPF process.
fn ospf_head(alloc: Global, process: u32) -> Result<LineBuilder, AllocError>
    ensures { IfOk result (λ line. line ≡ ospf_head process) }
{
    let line = LineBuilder::start(alloc, b"router")?.word(b"ospf")?;
    line.number(u64::from(process))
}

/// The line of a section that sets the distance of its process.
fn distance_line(alloc: Global, distance: u8) -> Result<LineBuilder, AllocError>
    ensures { IfOk result (λ line. line ≡ distance_line distance) }
{
    LineBuilder::indented(alloc, b"distance")?.number(u64::from(distance))
}
