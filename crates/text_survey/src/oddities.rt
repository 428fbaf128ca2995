ghost use Rattle.std.specs.Prelude.{◌≡◌, ◌≤◌, IfOk, drop, length};
ghost use Rattle.std.specs.List.{list_all, list_any, prefix_len};
ghost use Rattle.ios_sections.specs.TellingLines.{has_lines};
ghost use Rattle.ios_sections.specs.TextLines.{opens_section};
ghost use Rattle.net_addr.specs.Blanks.{is_blank};
ghost use Rattle.text_survey.specs.Oddities.{behind_blanks, is_control, is_flat, is_odd, odd_numbers};

use crate::OutOfMemory;
use crate::survey_line::SurveyLine;
use std::alloc::Global;

/// The numbers of the lines that hold a byte that no router prints, in their order.
pub fn odd_numbers(alloc: Global, lines: &[SurveyLine<'_>]) -> Result<Vec<u32>, OutOfMemory>
    ensures { IfOk result (λ numbers. numbers.items ≡ odd_numbers lines.now) }
{
    let mut numbers = Vec::new(alloc);
    for line in lines {
        if is_odd(line) {
            numbers.push(line.number())?;
        }
    }
    Ok(numbers)
}

/// Whether a text lost its indentation: one of the lines that count begins a section that has lines, and none is indented.
pub fn is_flat(lines: &[SurveyLine<'_>]) -> bool
    ensures { result ≡ is_flat lines.now }
{
    have_section(lines) && are_unindented(lines)
}

/// Whether one of the lines begins a section that has lines.
fn have_section(lines: &[SurveyLine<'_>]) -> bool
    ensures { result ≡ list_any has_lines lines.now }
{
    lines.iter().any(|line| line.has_lines())
}

/// Whether none of the lines is indented.
fn are_unindented(lines: &[SurveyLine<'_>]) -> bool
    ensures { result ≡ list_all opens_section lines.now }
{
    lines.iter().all(|line| line.opens_section())
}

/// Whether the line holds a control byte behind the blanks that it begins with.
fn is_odd(line: &SurveyLine<'_>) -> bool
    ensures { result ≡ is_odd line.now }
{
    has_control(behind_blanks(line.bytes()))
}

/// Whether one of the bytes is a control byte.
fn has_control(bytes: &[u8]) -> bool
    ensures { result ≡ list_any is_control bytes.now }
{
    bytes.iter().any(|byte| is_control(*byte))
}

/// Whether a byte is one that no router prints: below 32, or 127.
pub(crate) fn is_control(byte: u8) -> bool
    ensures { result ≡ is_control byte }
{
    byte < 32 || byte == 127
}

/// The bytes without the blanks that they begin with.
pub(crate) fn behind_blanks(bytes: &[u8]) -> &[u8]
    ensures { result.now ≡ behind_blanks bytes.now }
{
    &bytes[blank_count(bytes)..]
}

/// How many blanks some bytes begin with.
fn blank_count(bytes: &[u8]) -> usize
    ensures value { result ≡ prefix_len is_blank bytes.now }
    ensures bound { result ≤ length bytes.now }
{
    bytes.iter().take_while(|byte| is_blank(**byte)).count()
}

/// Whether the byte is a space or a tab.
pub(crate) fn is_blank(byte: u8) -> bool
    ensures { result ≡ is_blank byte }
{
    byte == b' ' || byte == b'\t'
}
