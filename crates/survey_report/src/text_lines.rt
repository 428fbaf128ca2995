ghost use Rattle.std.specs.Prelude.{◌≡◌, ◌++◌, ◌∷◌, [], IfOk, OnOk, codes, decimal, filter, flat_map, map};
ghost use Rattle.printed_lines.specs.Texts.{text_of};
ghost use Rattle.printed_lines.specs.Words.{joined};
ghost use Rattle.text_survey.specs.ActingForms.{acts};
ghost use Rattle.survey_report.specs.TextLines.{acting_line, acting_lines, flat_line, flat_lines, odd_line, odd_lines};

use crate::OutOfMemory;
use crate::added_words::{add_number, add_word};
use crate::survey_file::SurveyFile;
use net_addr::Bytes;
use printed_lines::{LineBuilder, TextBuilder};
use std::alloc::Global;
use text_survey::{ToldLine, acts, add_told, counted_lines, is_flat, odd_numbers, told_lines};

/// The lines of the files that hold a byte that no router prints.
pub(crate) fn odd_text(alloc: Global, files: &[SurveyFile<'_>]) -> Result<Bytes, OutOfMemory>
    ensures { IfOk result (λ text. text ≡ text_of (flat_map odd_lines files.now)) }
{
    let mut text = TextBuilder::new(alloc);
    for file in files {
        text = with_odd(alloc, text, file)?;
    }
    Ok(text.finish())
}

/// The files that lost their indentation.
pub(crate) fn flat_text(alloc: Global, files: &[SurveyFile<'_>]) -> Result<Bytes, OutOfMemory>
    ensures { IfOk result (λ text. text ≡ text_of (flat_map flat_lines files.now)) }
{
    let mut text = TextBuilder::new(alloc);
    for file in files {
        text = with_flat(alloc, text, file)?;
    }
    Ok(text.finish())
}

/// The lines of the files on which a router acts though they are skipped.
pub(crate) fn acting_text(alloc: Global, files: &[SurveyFile<'_>]) -> Result<Bytes, OutOfMemory>
    ensures { IfOk result (λ text. text ≡ text_of (flat_map acting_lines files.now)) }
{
    let mut text = Vec::new(alloc);
    for file in files {
        add_acting(alloc, &mut text, file)?;
    }
    Ok(Bytes::from_vec(text))
}

/// The text with the odd lines of a file more.
fn with_odd(
    alloc: Global,
    text: TextBuilder,
    file: &SurveyFile<'_>,
) -> Result<TextBuilder, OutOfMemory>
    ensures { IfOk result (λ longer. longer ≡ text ++ text_of (odd_lines file.now)) }
{
    let counted = counted_lines(alloc, file.text)?;
    let numbers = odd_numbers(alloc, counted.as_slice())?;
    with_odd_lines(alloc, text, file.name, numbers.as_slice())
}

/// The text with the lines of these numbers more.
fn with_odd_lines(
    alloc: Global,
    text: TextBuilder,
    name: &[u8],
    numbers: &[u32],
) -> Result<TextBuilder, OutOfMemory>
    ensures { IfOk result (λ longer. longer ≡ text ++ text_of (map (odd_line name.now) numbers.now)) }
{
    let mut text = text;
    for number in numbers {
        text = text.line(odd_line(alloc, name, *number)?)?;
    }
    Ok(text)
}

/// The line of an odd line.
fn odd_line(alloc: Global, name: &[u8], number: u32) -> Result<LineBuilder, OutOfMemory>
    ensures { IfOk result (λ line. line ≡ odd_line name.now number) }
{
    LineBuilder::start(alloc, b"odd")?
        .word(name)?
        .number(u64::from(number))
}

/// The text with the line of a file more, if it lost its indentation.
fn with_flat(
    alloc: Global,
    text: TextBuilder,
    file: &SurveyFile<'_>,
) -> Result<TextBuilder, OutOfMemory>
    ensures { IfOk result (λ longer. longer ≡ text ++ text_of (flat_lines file.now)) }
{
    let counted = counted_lines(alloc, file.text)?;
    if !is_flat(counted.as_slice()) {
        return Ok(text);
    }
    text.line(flat_line(alloc, file.name)?)
}

/// The line of a file that did.
fn flat_line(alloc: Global, name: &[u8]) -> Result<LineBuilder, OutOfMemory>
    ensures { IfOk result (λ line. line ≡ flat_line name.now) }
{
    LineBuilder::start(alloc, b"flat")?.word(name)
}

/// Adds the acting lines of a file.
fn add_acting(alloc: Global, text: &mut Vec<u8>, file: &SurveyFile<'_>) -> Result<(), OutOfMemory>
    ensures { OnOk result (text.new.items ≡ text.old.items ++ text_of (acting_lines file.now)) }
{
    let counted = counted_lines(alloc, file.text)?;
    let told = told_lines(alloc, counted.as_slice())?;
    add_acting_lines(alloc, text, file.name, told.as_slice())
}

/// Adds those of these lines that act.
fn add_acting_lines(
    alloc: Global,
    text: &mut Vec<u8>,
    name: &[u8],
    lines: &[ToldLine<'_>],
) -> Result<(), OutOfMemory>
    ensures { OnOk result (text.new.items ≡ text.old.items ++ text_of (map (acting_line name.now) (filter acts lines.now))) }
{
    for line in lines {
        add_acting_line(alloc, text, name, line)?;
    }
    Ok(())
}

/// Adds the line, if it acts.
fn add_acting_line(
    alloc: Global,
    text: &mut Vec<u8>,
    name: &[u8],
    line: &ToldLine<'_>,
) -> Result<(), OutOfMemory>
    ensures { OnOk result (text.new.items ≡ text.old.items ++ text_of (map (acting_line name.now) (filter acts (line.now ∷ [])))) }
{
    if !acts(alloc, line)? {
        return Ok(());
    }
    add_acts(text, name, line)
}

/// Adds the line of an acting line.
fn add_acts(text: &mut Vec<u8>, name: &[u8], told: &ToldLine<'_>) -> Result<(), OutOfMemory>
    ensures { OnOk result (text.new.items ≡ text.old.items ++ text_of (acting_line name.now told.now ∷ [])) }
{
    add_acting_words(text, name, told.number())?;
    add_told(text, told)?;
    text.push(b'\n')?;
    Ok(())
}

/// Adds the words of an acting line: its file and its number.
fn add_acting_words(text: &mut Vec<u8>, name: &[u8], number: u32) -> Result<(), OutOfMemory>
    ensures { OnOk result (text.new.items ≡ text.old.items ++ joined (codes "acts" ∷ name.now ∷ decimal number ∷ [])) }
{
    text.extend_from_slice(b"acts")?;
    add_word(text, name)?;
    add_number(text, number)
}
