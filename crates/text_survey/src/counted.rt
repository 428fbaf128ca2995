ghost use Rattle.std.specs.Prelude.{◌≡◌, ◌++◌, ◌<◌, ◌^◌, All, IfOk, OnOk, filter, length, map};
ghost use Rattle.net_addr.specs.Spans.{LiesIn};
ghost use Rattle.ios_sections.specs.TextLines.{banner_after, counted_lines, counts, lines_in, outside_banner, text_line};

use crate::OutOfMemory;
use crate::survey_line::SurveyLine;
use net_addr::{Line, lines};
use std::alloc::Global;

/// The lines of a text that count: those outside banners that have a word and are no comment.
pub fn counted_lines<'a>(alloc: Global, text: &'a [u8]) -> Result<Vec<SurveyLine<'a>>, OutOfMemory>
    requires { length text.now < 2 ^ 26 }
    ensures { IfOk result (λ c. c.items ≡ counted_lines (lines_in text.entry.now)) }
{
    let mut counted = Vec::new(alloc);
    put_counted(alloc, &mut counted, text)?;
    Ok(counted)
}

/// Puts the lines of a text that count in place of those that are there, whose memory they take.
pub fn put_counted<'a>(
    alloc: Global,
    counted: &mut Vec<SurveyLine<'a>>,
    text: &'a [u8],
) -> Result<(), OutOfMemory>
    requires { length text.now < 2 ^ 26 }
    ensures { OnOk result (counted.new.items ≡ counted_lines (lines_in text.entry.now)) }
{
    let lines = lines(alloc, text)?;
    counted.clear();
    add_counted(counted, text, lines.as_slice())
}

/// Takes in those of these lines that count.
fn add_counted<'a>(
    counted: &mut Vec<SurveyLine<'a>>,
    text: &'a [u8],
    lines: &[Line],
) -> Result<(), OutOfMemory>
    requires { All (λ line. LiesIn text.now line.span) lines.now }
    ensures { OnOk result (counted.new.items ≡ counted.old.items ++ counted_lines (map (text_line text.entry.now) lines.entry.now)) }
{
    let mut inside = false;
    for line in lines {
        inside = add_line(counted, inside, survey_line(text, *line))?;
    }
    Ok(())
}

/// Takes in a line where it counts, and says whether a banner is open after it.
fn add_line<'a>(
    counted: &mut Vec<SurveyLine<'a>>,
    inside: bool,
    line: SurveyLine<'a>,
) -> Result<bool, OutOfMemory>
    ensures after { IfOk result (λ after. after ≡ banner_after inside line.entry) }
    ensures lines { OnOk result (counted.new.items ≡ counted.old.items ++ filter counts (outside_banner inside line.entry)) }
{
    if inside {
        return Ok(!line.closes_banner());
    }
    let opens = line.opens_banner();
    if line.counts() {
        counted.push(line)?;
    }
    Ok(opens)
}

/// A line of a text.
fn survey_line<'a>(text: &'a [u8], line: Line) -> SurveyLine<'a>
    requires { LiesIn text.now line.span }
    ensures { result ≡ text_line text.entry.now line }
{
    let bytes = &text[line.span.start as usize..line.span.stop as usize];
    SurveyLine::new(line.number, line.indent, bytes)
}
