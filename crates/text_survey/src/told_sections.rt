ghost use Rattle.std.specs.Prelude.{◌≡◌, ◌++◌, [], ◌∷◌, IfOk, OnOk, flat_map};
ghost use Rattle.ios_lines.specs.Heads.{head_of};
ghost use Rattle.ios_sections.specs.TextLines.{section_lines, sections_of};
ghost use Rattle.text_survey.specs.ToldLines.{place_below, told_among, told_below, told_part, told_section, top_line};
ghost use Rattle.text_survey.specs.steps.Inside.{lines_at};

use crate::OutOfMemory;
use crate::inside::{first_indent, inside_of};
use crate::survey_line::SurveyLine;
use crate::told_line::{LinePlace, ToldLine};
use crate::vrf_names::{NameSet, vrf_names};
use ios_lines::head::{Head, head_of};
use std::alloc::Global;

/// The lines of the configurations of a text as they are told, of those of its lines that count.
pub fn told_lines<'a>(
    alloc: Global,
    counted: &[SurveyLine<'a>],
) -> Result<Vec<ToldLine<'a>>, OutOfMemory>
    ensures { IfOk result (λ told. told.items ≡ told_among counted.now) }
{
    let mut told = Vec::new(alloc);
    let mut start = 0;
    for (i, line) in counted.iter().enumerate() {
        if line.is_end() {
            add_part(alloc, &mut told, &counted[start..i], line.number())?;
            start = i + 1;
        }
    }
    Ok(told)
}

/// Takes in the lines of a configuration whose `end` line has this number.
fn add_part<'a>(
    alloc: Global,
    told: &mut Vec<ToldLine<'a>>,
    lines: &[SurveyLine<'a>],
    ends: u32,
) -> Result<(), OutOfMemory>
    ensures { OnOk result (told.new.items ≡ told.old.items ++ told_part (record { lines = lines.now; ends = ends })) }
{
    let names = vrf_names(alloc, lines)?;
    add_sections(alloc, told, &names, lines)?;
    told.push(ToldLine::top(ends, b"end"))?;
    Ok(())
}

/// Takes in the lines of sections, where the interfaces of these names are in a VRF.
fn add_sections<'a>(
    alloc: Global,
    told: &mut Vec<ToldLine<'a>>,
    names: &NameSet,
    lines: &[SurveyLine<'a>],
) -> Result<(), OutOfMemory>
    ensures { OnOk result (told.new.items ≡ told.old.items ++ flat_map (told_section names.now) (sections_of lines.now)) }
{
    for (i, head) in lines.iter().enumerate() {
        if head.opens_section() {
            let place = place_below(alloc, names, head)?;
            add_section(told, place, head, &lines[i + 1..])?;
        }
    }
    Ok(())
}

/// Takes in the lines of a section, before these lines.
pub(crate) fn add_section<'a>(
    told: &mut Vec<ToldLine<'a>>,
    place: LinePlace,
    head: &SurveyLine<'a>,
    after: &[SurveyLine<'a>],
) -> Result<(), OutOfMemory>
    ensures { OnOk result (told.new.items ≡ told.old.items
        ++ top_line head.now.number head.now.bytes ∷ told_below place head.now.bytes (section_lines after.now)) }
{
    told.push(ToldLine::top(head.number(), head.bytes()))?;
    let inside = inside_of(after);
    add_below(told, place, head.bytes(), inside, first_indent(inside))
}

/// Takes in the lines below the first line of a section, those of this indent.
fn add_below<'a>(
    told: &mut Vec<ToldLine<'a>>,
    place: LinePlace,
    head: &'a [u8],
    inside: &[SurveyLine<'a>],
    indent: u32,
) -> Result<(), OutOfMemory>
    ensures { OnOk result (told.new.items ≡ told.old.items ++ told_below place head.now (lines_at indent inside.now)) }
{
    for line in inside {
        if line.indent() == indent {
            told.push(ToldLine::below(place, head, line.number(), line.bytes()))?;
        }
    }
    Ok(())
}

/// What the lines below a line at indent 0 stand below, where the interfaces of these names are in a VRF.
fn place_below(
    alloc: Global,
    names: &NameSet,
    head: &SurveyLine<'_>,
) -> Result<LinePlace, OutOfMemory>
    ensures { IfOk result (λ place. place ≡ place_below names.now (head_of head.now.words)) }
{
    match head_of(alloc, &head.words())? {
        Head::Interface(Ok(name)) => {
            if names.has(name.as_slice()) {
                Ok(LinePlace::Elsewhere)
            } else {
                Ok(LinePlace::Interface)
            }
        }
        Head::Ospf(Ok(_)) => Ok(LinePlace::Ospf),
        Head::Isis(_) => Ok(LinePlace::Isis),
        _ => Ok(LinePlace::Elsewhere),
    }
}
