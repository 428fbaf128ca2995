ghost use Rattle.std.specs.Prelude.{◌≡◌, ◌<◌, ◌^◌, ◌++◌, [], List, IfOk, OnOk, length, map, unwrap_or};
ghost use Rattle.net_model.specs.Configuration.{Configuration};
ghost use Rattle.igp_theory.specs.States.{state_of};
ghost use Rattle.ios_sections.specs.Sections.{sections_from_first};
ghost use Rattle.ios_sections.specs.TextLines.{lines_in, parts_of};
ghost use Rattle.ios_reader.specs.Configurations.{configuration_of};
ghost use Rattle.ios_reader.specs.Texts.{ReadsText};
ghost use Rattle.applied_changes.specs.AppliedTexts.{applied_text, block_for, in_phase};
ghost use Rattle.applied_changes.specs.NamedPhases.{phase_named};
ghost use Rattle.applied_changes.specs.steps.AppliedParts.{applied_parts};

use crate::OutOfMemory;
use crate::change_lines::phase_text;
use crate::phases::phase_named;
use igp_theory::Phase;
use ios_reader::{between, start_of};
use ios_sections::read_section::sections_from_first;
use ios_sections::statements::statements_of;
use ios_sections::text::counted_lines;
use ios_sections::text_line::TextLine;
use net_addr::{Bytes, Name, lines};
use net_model::Net;
use std::alloc::Global;

/// A text of configurations with the lines of the first so many changes along an order, those of each router before its
/// `end` line.
///
/// An order is router by router two changes, as in the flat run of a wave list; with more changes than it has all are
/// made. A configuration of a router that isn't in the network, or not in the order, stays. The only error is want of memory.
#[tactic(auto, using(crate::proofs::PartFacts::applied_by_parts, crate::proofs::PartFacts::reads_by_parts))]
pub fn apply(
    alloc: Global,
    net: &Net,
    order: &[u32],
    changes: u32,
    text: &[u8],
) -> Result<Bytes, OutOfMemory>
    requires { length text.now < 2 ^ 26 }
    ensures applied { IfOk result (λ applied. applied ≡ applied_text (phase_named net.now (state_of order.now changes)) text.now) }
    ensures reads { IfOk result (λ applied. (configurations : List Configuration) → ReadsText text.now configurations →
        ReadsText applied (map (λ (c : Configuration). in_phase (phase_named net.now (state_of order.now changes) c.name) c) configurations)) }
{
    Ok(Bytes::from_vec(with_blocks(alloc, net, order, changes, text)?))
}

/// A text of configurations with the lines of changes.
fn with_blocks(
    alloc: Global,
    net: &Net,
    order: &[u32],
    changes: u32,
    text: &[u8],
) -> Result<Vec<u8>, OutOfMemory>
    requires { length text.now < 2 ^ 26 }
    ensures { IfOk result (λ all. all.items
        ≡ applied_parts (phase_named net.now (state_of order.now changes)) text.now 0 (parts_of (lines_in text.now))) }
{
    let lines = lines(alloc, text)?;
    let counted = counted_lines(alloc, text, lines.as_slice())?;
    let counted = counted.as_slice();
    let mut all = Vec::new(alloc);
    let mut from = 0;
    let mut start = 0;
    for (i, line) in counted.iter().enumerate() {
        if line.is_end() {
            let block = block_text(alloc, net, order, changes, &counted[start..i])?;
            let end = start_of(text, lines.as_slice(), line.number() as usize);
            add_block(&mut all, between(text, from, end), block.as_slice())?;
            from = end;
            start = i + 1;
        }
    }
    all.extend_from_slice(between(text, from, text.len()))?;
    Ok(all)
}

/// Adds what stands before an `end` line, and the lines put before it.
fn add_block(all: &mut Vec<u8>, before: &[u8], block: &[u8]) -> Result<(), OutOfMemory>
    ensures { OnOk result (all.new.items ≡ all.old.items ++ (before.now ++ block.now)) }
{
    all.extend_from_slice(before)?;
    all.extend_from_slice(block)?;
    Ok(())
}

/// The lines that take the router, whose configuration these lines make, to its phase.
#[tactic(auto, using(crate::proofs::PhaseFacts::block_made))]
fn block_text(
    alloc: Global,
    net: &Net,
    order: &[u32],
    changes: u32,
    lines: &[TextLine],
) -> Result<Bytes, OutOfMemory>
    ensures { IfOk result (λ block. block
        ≡ block_for (phase_named net.now (state_of order.now changes)) (configuration_of (sections_from_first lines.now))) }
{
    let statements = statements_of(alloc, sections_from_first(alloc, lines)?)?;
    let phase = phase_in(net, order, changes, &statements.name);
    let block = phase_text(alloc, phase, &statements.tag, statements.process)?;
    Ok(block)
}

/// The phase of the router of this name, or of the empty one, after so many changes along an order.
fn phase_in(net: &Net, order: &[u32], changes: u32, name: &Option<Name>) -> Phase
    ensures { result ≡ phase_named net.now (state_of order.now changes) (unwrap_or name.now []) }
{
    match name {
        Some(name) => phase_named(net, order, changes, name.as_slice()),
        None => phase_named(net, order, changes, &[]),
    }
}
