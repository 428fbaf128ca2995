ghost use Rattle.std.specs.Prelude.{◌≡◌, ◌≤◌, length, position};
ghost use Rattle.std.specs.List.{before_first, position_or_len};
ghost use Rattle.ios_sections.specs.TextLines.{first_indent, opens_section};

use crate::survey_line::SurveyLine;

/// The lines before the next one that opens a section.
pub(crate) fn inside_of<'b, 'a>(after: &'b [SurveyLine<'a>]) -> &'b [SurveyLine<'a>]
    ensures { result.now ≡ before_first opens_section after.entry.now }
{
    &after[..inside_count(after)]
}

/// How many they are.
#[tactic(auto, using(crate::proofs::InsideFacts::some_place, crate::proofs::InsideFacts::no_place))]
fn inside_count(after: &[SurveyLine<'_>]) -> usize
    ensures count { result ≡ position_or_len opens_section after.now }
    ensures within { result ≤ length after.now }
{
    match next_section(after) {
        Some(count) => count,
        None => after.len(),
    }
}

/// The place of the first line that opens a section.
fn next_section(after: &[SurveyLine<'_>]) -> Option<usize>
    ensures { result ≡ position opens_section after.now }
{
    after.iter().position(|line| line.opens_section())
}

/// The indent of the first of some lines, 0 where there is none.
pub(crate) fn first_indent(lines: &[SurveyLine<'_>]) -> u32
    ensures { result ≡ first_indent lines.now }
{
    match lines.first() {
        Some(line) => line.indent(),
        None => 0,
    }
}
