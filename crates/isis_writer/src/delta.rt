ghost use Rattle.std.specs.Prelude.{◌≡◌, ◌<◌, ◌^◌, [], IfOk, length, unwrap_or};
ghost use Rattle.ios_sections.specs.Sections.{sections_from_first};
ghost use Rattle.ios_sections.specs.TextLines.{parts_after};
ghost use Rattle.isis_writer.specs.Deltas.{delta_block, delta_parts, delta_text, router_comment};

use crate::OutOfMemory;
use crate::prepared::{number_of, numbered_text};
use design_file::Settled;
use ios_sections::read_section::sections_from_first;
use ios_sections::statements::statements_of;
use ios_sections::text::counted_lines;
use ios_sections::text_line::TextLine;
use net_addr::{Bytes, Name, lines};
use net_model::Net;
use printed_lines::{LineBuilder, TextBuilder};
use std::alloc::Global;

/// The IS-IS lines alone that `prepared_text` puts into a text of configurations, those of each behind a line `! router NAME`.
///
/// The only error is want of memory.
pub fn delta_text(
    alloc: Global,
    text: &[u8],
    net: &Net,
    settled: &Settled,
) -> Result<Bytes, OutOfMemory>
    requires { length text.now < 2 ^ 26 }
    ensures { IfOk result (λ delta. delta ≡ delta_text text.now net.now settled.now) }
{
    let lines = lines(alloc, text)?;
    let counted = counted_lines(alloc, text, lines.as_slice())?;
    let all = all_deltas(alloc, counted.as_slice(), net, settled)?;
    Ok(Bytes::from_vec(all))
}

/// The new lines of the configurations that these lines make.
fn all_deltas(
    alloc: Global,
    counted: &[TextLine],
    net: &Net,
    settled: &Settled,
) -> Result<Vec<u8>, OutOfMemory>
    ensures { IfOk result (λ all. all.items ≡ delta_parts net.now settled.now (parts_after [] counted.now)) }
{
    let mut all = Vec::new(alloc);
    let mut start = 0;
    for (i, line) in counted.iter().enumerate() {
        if line.is_end() {
            let new = delta_block(alloc, net, settled, &counted[start..i])?;
            all.extend_from_slice(new.as_slice())?;
            start = i + 1;
        }
    }
    Ok(all)
}

/// The new lines of the router whose configuration these lines make, behind its name.
fn delta_block(
    alloc: Global,
    net: &Net,
    settled: &Settled,
    lines: &[TextLine],
) -> Result<Bytes, OutOfMemory>
    ensures { IfOk result (λ new. new ≡ delta_block net.now settled.now (sections_from_first lines.now)) }
{
    let statements = statements_of(alloc, sections_from_first(alloc, lines)?)?;
    let number = number_of(net, &statements.name);
    let text = TextBuilder::new(alloc).line(router_comment(alloc, &statements.name)?)?;
    let interfaces = statements.interfaces.as_slice();
    Ok(numbered_text(alloc, text, settled, interfaces, number)?.finish())
}

/// The line that names a router.
fn router_comment(alloc: Global, name: &Option<Name>) -> Result<LineBuilder, OutOfMemory>
    ensures { IfOk result (λ line. line ≡ router_comment (unwrap_or name.now [])) }
{
    let line = LineBuilder::start(alloc, b"!")?.word(b"router")?;
    match name {
        Some(name) => line.word(name.as_slice()),
        None => line.word(&[]),
    }
}
