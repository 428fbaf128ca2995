ghost use Rattle.std.specs.Prelude.{◌≡◌, ◌++◌, map, filter, All, IfOk, OnOk};
ghost use Rattle.net_addr.specs.Spans.{LiesIn};
ghost use Rattle.ios_sections.specs.TextLines.{text_line, counted_lines, outside_banner, banner_after, counts};

use crate::OutOfMemory;
use crate::text_line::TextLine;
use net_addr::Line;
use std::alloc::Global;

/// A line of a text.
fn text_line<'a>(text: &'a [u8], line: Line) -> TextLine<'a>
    requires { LiesIn text.now line.span }
    ensures { result ≡ text_line text.entry.now line }
{
    let bytes = &text[line.span.start as usize..line.span.stop as usize];
    TextLine::new(line.number, line.indent, bytes)
}

/// Takes in a line where it counts, and says whether a banner is open after it.
fn add_line<'a>(
    counted: &mut Vec<TextLine<'a>>,
    inside: bool,
    line: TextLine<'a>,
) -> Result<bool, OutOfMemory>
    ensures after { IfOk result (λ after. after ≡ banner_after inside line.entry) }
    ensures lines { OnOk result (counted.new.items ≡ counted.old.items ++ filter counts (outside_banner inside line.entry)) }
{
    if inside {
        return Ok(!line.closes_banner());
    }
    let opens = line.opens_banner();
    if line.counts() {
        counted.push(line)?;
    }
    Ok(opens)
}

/// The lines of a text that count.
pub fn counted_lines<'a>(
    alloc: Global,
    text: &'a [u8],
    lines: &[Line],
) -> Result<Vec<TextLine<'a>>, OutOfMemory>
    requires { All (λ line. LiesIn text.now line.span) lines.now }
    ensures { IfOk result (λ c. c.items ≡ counted_lines (map (text_line text.entry.now) lines.entry.now)) }
{
    let mut counted = Vec::new(alloc);
    let mut inside = false;
    for line in lines {
        inside = add_line(&mut counted, inside, text_line(text, *line))?;
    }
    Ok(counted)
}
