ghost use Rattle.std.specs.Prelude.{◌≡◌, ◌<◌, ◌≤◌, ◌^◌, length, slice_range, map, All, IfOk};
ghost use Rattle.std.specs.List.{position_or_len};
ghost use Rattle.std.specs.Str.Lines.{strip_carriage_return};
ghost use Rattle.net_addr.specs.Blanks.{indent_of};
ghost use Rattle.net_addr.specs.Lines.{is_line_feed, line_of, line_texts, text_lines};
ghost use Rattle.net_addr.specs.Spans.{bytes_of, LiesIn};

use crate::blank::is_blank;
use crate::span::Span;
use memchr::memchr;
use std::alloc::{AllocError as OutOfMemory, Global};
use std::marker::Model;

/// A line of a text.
///
/// Its span is the line without its line feed and without the one carriage return at its end. The blanks that the
/// line begins with are part of the span; `indent` counts them.
#[derive(Clone, Copy, Debug, PartialEq, Eq)]
pub struct Line {
    /// Counted from 1.
    pub number: u32,
    /// The number of leading blanks.
    pub indent: u32,
    /// Where the line stands in the text.
    pub span: Span,
}

/// Lines of a text, in its order.
#[derive(Debug, Drop)]
pub struct LineList {
    all: Vec<Line>,
}

impl Model for LineList {
    ghost use Rattle.std.specs.Prelude.{List};
    ghost use Rattle.net_addr.specs.declared.line.Line.{Line};

    ghost Value = { List Line };

    ghost view = { λ x. x.all.items };
}

impl LineList {
    /// The lines of the list.
    pub fn as_slice(&self) -> &[Line]
        ensures { result.now ≡ self.now }
    {
        self.all.as_slice()
    }

    /// The vector of the lines.
    pub fn into_vec(self) -> Vec<Line>
        ensures { result.items ≡ self }
    {
        self.all
    }
}

/// The lines of a text, numbered from 1.
///
/// A line ends before each line feed. A last piece without a line feed is a line where it isn't empty. The only error
/// is want of memory.
pub fn lines(alloc: Global, text: &[u8]) -> Result<LineList, OutOfMemory>
    requires { length text.now < 2 ^ 26 }
    ensures exact { IfOk result (λ all. all ≡ text_lines text.now) }
    ensures inside { IfOk result (All (λ line. LiesIn text.now line.span)) }
    ensures texts { IfOk result (λ all. map (λ line. bytes_of text.now line.span) all ≡ line_texts text.now) }
{
    let mut all = Vec::new(alloc);
    let mut number = 1;
    let mut start = 0;
    while start < text.len() {
        let stop = start + piece_len(&text[start..]);
        all.push(line_between(text, number, start, stop))?;
        number += 1;
        start = stop + 1;
    }
    Ok(LineList { all })
}

/// How many bytes stand before the first line feed: all of them where there is none.
pub(crate) fn piece_len(bytes: &[u8]) -> usize
    ensures value { result ≡ position_or_len is_line_feed bytes.now }
    ensures bound { result ≤ length bytes.now }
{
    memchr(b'\n', bytes).unwrap_or(bytes.len())
}

/// The line whose piece lies between `start` and `stop`.
fn line_between(text: &[u8], number: u32, start: usize, stop: usize) -> Line
    requires ordered { start ≤ stop }
    requires inside { stop ≤ length text.now }
    requires short { length text.now < 2 ^ 26 }
    ensures { result ≡ line_of number start (slice_range text.now start stop) }
{
    let bytes = without_return(&text[start..stop]);
    Line {
        number,
        indent: indent(bytes) as u32,
        span: Span {
            start: start as u32,
            stop: (start + bytes.len()) as u32,
        },
    }
}

/// The bytes without the one carriage return at their end.
pub(crate) fn without_return(bytes: &[u8]) -> &[u8]
    ensures { result.now ≡ strip_carriage_return bytes.now }
{
    match bytes {
        [before @ .., b'\r'] => before,
        _ => bytes,
    }
}

/// How many blanks the bytes begin with.
fn indent(bytes: &[u8]) -> usize
    ensures { result ≡ indent_of bytes.now }
{
    bytes.iter().take_while(|byte| is_blank(**byte)).count()
}
