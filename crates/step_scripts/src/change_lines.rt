ghost use Rattle.std.specs.Prelude.{◌≡◌, ◌++◌, ◌∷◌, [], IfOk};
ghost use Rattle.net_model.specs.declared.bounds.TheConstants.{ISIS_DISTANCE};
ghost use Rattle.printed_lines.specs.Texts.{text_of};
ghost use Rattle.step_scripts.specs.Scripts.{distance_line, isis_head, ospf_change_lines, ospf_head};

use net_model::{ISIS_DISTANCE, MOST_DISTANCE};
use printed_lines::{LineBuilder, TextBuilder};
use std::alloc::{AllocError, Global};

/// The text with the lines more that set the distance of the IS-IS process of this tag, which may be empty, to 115.
pub fn with_isis_lines(
    alloc: Global,
    text: TextBuilder,
    tag: &[u8],
) -> Result<TextBuilder, AllocError>
    ensures { IfOk result (λ longer. longer ≡ text ++ text_of (isis_head tag.now ∷ distance_line ISIS_DISTANCE ∷ [])) }
{
    let text = text.line(isis_head(alloc, tag)?)?;
    text.line(distance_line(alloc, ISIS_DISTANCE)?)
}

/// The line that opens the section of the IS-IS process.
fn isis_head(alloc: Global, tag: &[u8]) -> Result<LineBuilder, AllocError>
    ensures { IfOk result (λ line. line ≡ isis_head tag.now) }
{
    let line = LineBuilder::start(alloc, b"router")?.word(b"isis")?;
    if tag.is_empty() {
        Ok(line)
    } else {
        line.word(tag)
    }
}

/// The text with the lines more that set the distance of the OSPF process of this number to 255; without one there is no line.
pub fn with_ospf_lines(
    alloc: Global,
    text: TextBuilder,
    process: Option<u32>,
) -> Result<TextBuilder, AllocError>
    ensures { IfOk result (λ longer. longer ≡ text ++ text_of (ospf_change_lines process)) }
{
    match process {
        Some(process) => {
            let text = text.line(ospf_head(alloc, process)?)?;
            text.line(distance_line(alloc, MOST_DISTANCE)?)
        }
        None => Ok(text),
    }
}

/// The line that opens the section of an OSPF process.
fn ospf_head(alloc: Global, process: u32) -> Result<LineBuilder, AllocError>
    ensures { IfOk result (λ line. line ≡ ospf_head process) }
{
    let line = LineBuilder::start(alloc, b"router")?.word(b"ospf")?;
    line.number(u64::from(process))
}

/// The line of a section that sets the distance of its process.
fn distance_line(alloc: Global, distance: u8) -> Result<LineBuilder, AllocError>
    ensures { IfOk result (λ line. line ≡ distance_line distance) }
{
    LineBuilder::indented(alloc, b"distance")?.number(u64::from(distance))
}
