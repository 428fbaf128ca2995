ghost use Rattle.std.specs.Prelude.{◌≡◌, ◌++◌, IfOk};
ghost use Rattle.printed_lines.specs.Texts.{text_of};
ghost use Rattle.applied_changes.specs.steps.PhaseLines.{phase_lines, tag_lines};

use crate::OutOfMemory;
use igp_theory::Phase;
use net_addr::{Bytes, Name};
use printed_lines::TextBuilder;
use std::alloc::Global;
use step_scripts::{with_isis_lines, with_ospf_lines};

/// The lines that take a router to a phase, by the tag of its IS-IS process and the number of its OSPF process.
#[tactic(auto, using(crate::proofs::PhaseFacts::lines_joined))]
pub(crate) fn phase_text(
    alloc: Global,
    phase: Phase,
    tag: &Option<Name>,
    process: Option<u32>,
) -> Result<Bytes, OutOfMemory>
    ensures { IfOk result (λ text. text ≡ text_of (phase_lines phase tag.now process)) }
{
    let text = TextBuilder::new(alloc);
    match phase {
        Phase::Old => Ok(text.finish()),
        Phase::Middle => Ok(with_isis(alloc, text, tag)?.finish()),
        Phase::New => {
            let text = with_isis(alloc, text, tag)?;
            Ok(with_ospf_lines(alloc, text, process)?.finish())
        }
    }
}

/// The text with the lines more that set the distance of IS-IS to 115, where there is a process.
fn with_isis(
    alloc: Global,
    text: TextBuilder,
    tag: &Option<Name>,
) -> Result<TextBuilder, OutOfMemory>
    ensures { IfOk result (λ longer. longer ≡ text ++ text_of (tag_lines tag.now)) }
{
    match tag {
        Some(tag) => with_isis_lines(alloc, text, tag.as_slice()),
        None => Ok(text),
    }
}
