ghost use Rattle.std.specs.Prelude.{◌≡◌, ◌+◌, ◌<◌, ◌^◌, ◌++◌, [], IfOk, IfSome, OnOk, length, unwrap_or};
ghost use Rattle.net_addr.specs.Lines.{text_lines};
ghost use Rattle.printed_lines.specs.Texts.{text_of};
ghost use Rattle.ios_sections.specs.Sections.{sections_from_first};
ghost use Rattle.ios_sections.specs.TextLines.{parts_after};
ghost use Rattle.ios_reader.specs.Places.{between, start_of};
ghost use Rattle.isis_writer.specs.Prepared.{new_block, numbered_from, numbered_lines, prepared_parts, prepared_text};

use crate::OutOfMemory;
use crate::router_lines::with_router;
use design_file::Settled;
use ios_reader::{between, start_of};
use ios_sections::read_section::sections_from_first;
use ios_sections::section::InterfaceSection;
use ios_sections::statements::statements_of;
use ios_sections::text::counted_lines;
use ios_sections::text_line::TextLine;
use net_addr::{Bytes, Line, Name, lines};
use net_model::Net;
use printed_lines::TextBuilder;
use std::alloc::Global;

/// A text of configurations with the IS-IS lines of a settled design, those of each router before its `end` line.
///
/// What stands behind the last `end` line is left out. The only error is want of memory.
pub fn prepared_text(
    alloc: Global,
    text: &[u8],
    net: &Net,
    settled: &Settled,
) -> Result<Bytes, OutOfMemory>
    requires { length text.now < 2 ^ 26 }
    ensures { IfOk result (λ prepared. prepared ≡ prepared_text text.now net.now settled.now) }
{
    let lines = lines(alloc, text)?;
    let counted = counted_lines(alloc, text, lines.as_slice())?;
    let read = ReadText {
        bytes: text,
        lines: lines.as_slice(),
    };
    let parts = with_parts(alloc, &read, counted.as_slice(), net, settled)?;
    Ok(Bytes::from_vec(parts))
}

/// A text with its lines.
#[derive(Clone, Copy)]
struct ReadText<'a> {
    bytes: &'a [u8],
    lines: &'a [Line],
}

/// The parts of a text, of which these lines count, with their new lines.
fn with_parts(
    alloc: Global,
    text: &ReadText<'_>,
    counted: &[TextLine],
    net: &Net,
    settled: &Settled,
) -> Result<Vec<u8>, OutOfMemory>
    requires { text.now.lines.now ≡ text_lines text.now.bytes.now }
    ensures { IfOk result (λ all. all.items ≡ prepared_parts (new_block net.now settled.now) text.now.bytes.now 0 (parts_after [] counted.now)) }
{
    let mut all = Vec::new(alloc);
    let mut from = 0;
    let mut start = 0;
    for (i, line) in counted.iter().enumerate() {
        if line.is_end() {
            let new = new_text(alloc, net, settled, &counted[start..i])?;
            from = add_part(&mut all, text, from, line.number() as usize, new.as_slice())?;
            start = i + 1;
        }
    }
    Ok(all)
}

/// Adds a part of a text from this place on, with new lines before its `end` line, and tells where the next one begins.
fn add_part(
    all: &mut Vec<u8>,
    text: &ReadText<'_>,
    from: usize,
    ends: usize,
    new: &[u8],
) -> Result<usize, OutOfMemory>
    requires exact { text.now.lines.now ≡ text_lines text.now.bytes.now }
    requires small { ends < 2 ^ 32 }
    ensures next { IfOk result (λ next. next ≡ start_of text.now.bytes.now (ends + 1)) }
    ensures added { OnOk result (all.new.items ≡ all.old.items
        ++ (between text.now.bytes.now from (start_of text.now.bytes.now ends) ++ new.now ++ between text.now.bytes.now (start_of text.now.bytes.now ends) (start_of text.now.bytes.now (ends + 1)))) }
{
    let ReadText { bytes, lines } = *text;
    let end = start_of(bytes, lines, ends);
    let next = start_of(bytes, lines, ends + 1);
    all.extend_from_slice(between(bytes, from, end))?;
    all.extend_from_slice(new)?;
    all.extend_from_slice(between(bytes, end, next))?;
    Ok(next)
}

/// The new lines of the router whose configuration these lines make.
fn new_text(
    alloc: Global,
    net: &Net,
    settled: &Settled,
    lines: &[TextLine],
) -> Result<Bytes, OutOfMemory>
    ensures { IfOk result (λ new. new ≡ new_block net.now settled.now (sections_from_first lines.now)) }
{
    let statements = statements_of(alloc, sections_from_first(alloc, lines)?)?;
    let number = number_of(net, &statements.name);
    let interfaces = statements.interfaces.as_slice();
    Ok(numbered_text(alloc, TextBuilder::new(alloc), settled, interfaces, number)?.finish())
}

/// The text with the new lines more of the router of this number.
pub(crate) fn numbered_text(
    alloc: Global,
    text: TextBuilder,
    settled: &Settled,
    old: &[InterfaceSection],
    number: Option<u32>,
) -> Result<TextBuilder, OutOfMemory>
    requires { IfSome number (λ n. n < 1000) }
    ensures { IfOk result (λ longer. longer ≡ text ++ text_of (numbered_lines old.now settled.now number)) }
{
    let Some(number) = number else {
        return Ok(text);
    };
    match settled.as_slice().get(number as usize) {
        Some(router) => with_router(alloc, text, old, number, router),
        None => Ok(text),
    }
}

/// The number of the router of this name, where there is one.
pub(crate) fn number_of(net: &Net, name: &Option<Name>) -> Option<u32>
    ensures number { result ≡ numbered_from 0 (unwrap_or name.now []) net.now }
    ensures small { IfSome result (λ n. n < 1000) }
{
    match name {
        Some(name) => numbered(net, name.as_slice()),
        None => numbered(net, &[]),
    }
}

/// The number of the first router of this name.
fn numbered(net: &Net, name: &[u8]) -> Option<u32>
    ensures number { result ≡ numbered_from 0 name.now net.now }
    ensures small { IfSome result (λ n. n < 1000) }
{
    for router in 0..net.routers() {
        if net.config(router).has_name(name) {
            return Some(router);
        }
    }
    None
}
