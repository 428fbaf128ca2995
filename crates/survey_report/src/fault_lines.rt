ghost use Rattle.std.specs.Prelude.{◌≡◌, ◌<◌, ◌^◌, ◌++◌, ◌∷◌, [], AllPairs, IfOk, OnOk, count_by, flat_map, length, map};
ghost use Rattle.std.specs.List.{list_any};
ghost use Rattle.ios_sections.specs.TextLines.{lines_in};
ghost use Rattle.printed_lines.specs.Texts.{text_of};
ghost use Rattle.text_survey.specs.ToldLines.{told_lines, without_place};
ghost use Rattle.survey_report.specs.FaultTexts.{fault_count_line, fault_line, fault_lines, faults_text, words_if_at, words_of_fault};
ghost use Rattle.survey_report.specs.SurveyFiles.{is_faulty_file};

use crate::OutOfMemory;
use crate::added_words::{add_number, add_word};
use crate::reading::FileFaults;
use ios_reader::fault::Fault;
use net_addr::Bytes;
use printed_lines::LineBuilder;
use refused_texts::read_kind_name;
use std::alloc::Global;
use text_survey::{SurveyLine, ToldLine, add_told, from_line, put_counted, put_shown};

/// Whether one of the files has a faulty line.
pub(crate) fn any_faulty(found: &[FileFaults<'_, '_>]) -> bool
    ensures { result ≡ list_any is_faulty_file found.now }
{
    found.iter().any(|one| is_faulty_file(one))
}

/// The lines of a file, in memory that is taken again for the next one.
#[derive(Drop)]
struct FileLines<'a> {
    /// Those that count.
    counted: Vec<SurveyLine<'a>>,
    /// Those of its configurations.
    shown: Vec<ToldLine<'a>>,
}

/// All faulty lines of the files, and how many there are.
pub(crate) fn faults_text<'a>(
    alloc: Global,
    found: &[FileFaults<'_, 'a>],
) -> Result<Bytes, OutOfMemory>
    ensures { IfOk result (λ text. text ≡ faults_text found.now) }
{
    let mut text = Vec::new(alloc);
    let mut lines = FileLines {
        counted: Vec::new(alloc),
        shown: Vec::new(alloc),
    };
    for one in found {
        add_fault_lines(alloc, &mut text, &mut lines, one)?;
    }
    let count = fault_count_line(alloc, found)?;
    add_line(&mut text, count)?;
    Ok(Bytes::from_vec(text))
}

/// Adds a line to a text.
fn add_line(text: &mut Vec<u8>, line: LineBuilder) -> Result<(), OutOfMemory>
    ensures { OnOk result (text.new.items ≡ text.old.items ++ text_of (line ∷ [])) }
{
    let line = line.finish()?;
    text.extend_from_slice(line.as_slice())?;
    Ok(())
}

/// Adds the faulty lines of a file. The lines of a file without one aren't looked for.
#[tactic(auto, using(crate::proofs::FaultLineFacts::faults_shown))]
fn add_fault_lines<'a>(
    alloc: Global,
    text: &mut Vec<u8>,
    lines: &mut FileLines<'a>,
    one: &FileFaults<'_, 'a>,
) -> Result<(), OutOfMemory>
    ensures { OnOk result (text.new.items ≡ text.old.items ++ text_of (fault_lines one.now)) }
{
    if one.faults.is_empty() {
        return Ok(());
    }
    let file = one.file;
    put_lines(alloc, lines, file.text)?;
    add_faults(
        text,
        file.name,
        lines.shown.as_slice(),
        one.faults.as_slice(),
    )
}

/// Puts the lines of a text in place of those of the file before.
fn put_lines<'a>(
    alloc: Global,
    lines: &mut FileLines<'a>,
    text: &'a [u8],
) -> Result<(), OutOfMemory>
    requires { length text.now < 2 ^ 26 }
    ensures { OnOk result (lines.new.shown.items ≡ map without_place (told_lines (lines_in text.entry.now))) }
{
    put_counted(alloc, &mut lines.counted, text)?;
    put_shown(&mut lines.shown, lines.counted.as_slice())
}

/// Adds these faults of a file, whose lines are shown so.
fn add_faults(
    text: &mut Vec<u8>,
    name: &[u8],
    shown: &[ToldLine<'_>],
    faults: &[Fault],
) -> Result<(), OutOfMemory>
    requires { AllPairs (λ f g. f.line < g.line) faults.now }
    ensures { OnOk result (text.new.items ≡ text.old.items ++ text_of (map (fault_line name.now shown.now) faults.now)) }
{
    let mut rest = shown;
    for fault in faults {
        rest = from_line(rest, fault.line);
        add_fault(text, name, *fault, rest)?;
    }
    Ok(())
}

/// Adds a fault, whose own line is the first of these if it is among them.
fn add_fault(
    text: &mut Vec<u8>,
    name: &[u8],
    fault: Fault,
    lines: &[ToldLine<'_>],
) -> Result<(), OutOfMemory>
    ensures { OnOk result (text.new.items ≡ text.old.items ++ words_of_fault name.now fault ++ words_if_at fault.line lines.now ++ 10 ∷ []) }
{
    add_fault_words(text, name, fault)?;
    add_line_at(text, lines, fault.line)?;
    text.push(b'\n')?;
    Ok(())
}

/// Adds the words of a fault: its file, its line and its kind.
fn add_fault_words(text: &mut Vec<u8>, name: &[u8], fault: Fault) -> Result<(), OutOfMemory>
    ensures { OnOk result (text.new.items ≡ text.old.items ++ words_of_fault name.now fault) }
{
    text.extend_from_slice(b"fault")?;
    add_word(text, name)?;
    add_number(text, fault.line)?;
    add_word(text, read_kind_name(fault.kind))
}

/// Adds the words of the first of these lines, if it has this number.
fn add_line_at(text: &mut Vec<u8>, lines: &[ToldLine<'_>], number: u32) -> Result<(), OutOfMemory>
    ensures { OnOk result (text.new.items ≡ text.old.items ++ words_if_at number lines.now) }
{
    match lines.first() {
        Some(told) if told.number() == number => add_told(text, told),
        _ => Ok(()),
    }
}

/// How many faulty lines there are, in how many files.
fn fault_count_line(alloc: Global, found: &[FileFaults<'_, '_>]) -> Result<LineBuilder, OutOfMemory>
    ensures { IfOk result (λ line. line ≡ fault_count_line found.now) }
{
    let all = all_faults(alloc, found)?;
    let line = LineBuilder::start(alloc, b"faults")?.number(all.len() as u64)?;
    let line = line.word(b"in")?.number(count_faulty(found) as u64)?;
    line.word(b"files")
}

/// The faulty lines of all files, file by file.
fn all_faults(alloc: Global, found: &[FileFaults<'_, '_>]) -> Result<Vec<Fault>, OutOfMemory>
    ensures { IfOk result (λ all. all.items ≡ flat_map (λ one. one.faults) found.now) }
{
    let mut all = Vec::new(alloc);
    for one in found {
        all.extend_from_slice(one.faults.as_slice())?;
    }
    Ok(all)
}

/// How many files have a faulty line.
fn count_faulty(found: &[FileFaults<'_, '_>]) -> usize
    ensures { result ≡ count_by is_faulty_file found.now }
{
    found.iter().filter(|one| is_faulty_file(one)).count()
}

/// Whether a file has a faulty line.
fn is_faulty_file(one: &FileFaults<'_, '_>) -> bool
    ensures { result ≡ is_faulty_file one.now }
{
    0 < one.faults.len()
}
