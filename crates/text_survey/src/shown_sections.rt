ghost use Rattle.std.specs.Prelude.{◌≡◌, ◌++◌, [], OnOk, flat_map, map};
ghost use Rattle.ios_sections.specs.TextLines.{parts_after, sections_of};
ghost use Rattle.text_survey.specs.ToldLines.{told_among, without_place};
ghost use Rattle.text_survey.specs.steps.Shown.{shown_part, shown_section};

use crate::OutOfMemory;
use crate::survey_line::SurveyLine;
use crate::told_line::{LinePlace, ToldLine};
use crate::told_sections::add_section;

/// Puts the lines of the configurations of a text, of those of its lines that count, without what they stand below, in place of
/// those that are there, whose memory they take.
#[tactic(auto, using(crate::proofs::ShownFacts::parts_shown))]
pub fn put_shown<'a>(
    shown: &mut Vec<ToldLine<'a>>,
    counted: &[SurveyLine<'a>],
) -> Result<(), OutOfMemory>
    ensures { OnOk result (shown.new.items ≡ map without_place (told_among counted.now)) }
{
    put_parts(shown, counted)
}

/// Puts these lines there, configuration by configuration.
fn put_parts<'a>(
    shown: &mut Vec<ToldLine<'a>>,
    counted: &[SurveyLine<'a>],
) -> Result<(), OutOfMemory>
    ensures { OnOk result (shown.new.items ≡ flat_map shown_part (parts_after [] counted.now)) }
{
    shown.clear();
    let mut start = 0;
    for (i, line) in counted.iter().enumerate() {
        if line.is_end() {
            add_part(shown, &counted[start..i], line.number())?;
            start = i + 1;
        }
    }
    Ok(())
}

/// Takes in the lines of a configuration whose `end` line has this number.
fn add_part<'a>(
    shown: &mut Vec<ToldLine<'a>>,
    lines: &[SurveyLine<'a>],
    ends: u32,
) -> Result<(), OutOfMemory>
    ensures { OnOk result (shown.new.items ≡ shown.old.items ++ shown_part (record { lines = lines.now; ends = ends })) }
{
    add_sections(shown, lines)?;
    shown.push(ToldLine::top(ends, b"end"))?;
    Ok(())
}

/// Takes in the lines of sections.
fn add_sections<'a>(
    shown: &mut Vec<ToldLine<'a>>,
    lines: &[SurveyLine<'a>],
) -> Result<(), OutOfMemory>
    ensures { OnOk result (shown.new.items ≡ shown.old.items ++ flat_map shown_section (sections_of lines.now)) }
{
    for (i, head) in lines.iter().enumerate() {
        if head.opens_section() {
            add_section(shown, LinePlace::Elsewhere, head, &lines[i + 1..])?;
        }
    }
    Ok(())
}
