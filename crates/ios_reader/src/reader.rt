ghost use Rattle.std.specs.Prelude.{◌≡◌, ◌<◌, ◌^◌, ◌||◌, ◌++◌, length, option_to_list, IfOk, IfErr, OnOk};
ghost use Rattle.std.specs.List.{list_any};
ghost use Rattle.ios_sections.specs.TextLines.{begins_configuration};
ghost use Rattle.ios_lines.specs.FaultOrder.{faults_if};
ghost use Rattle.ios_reader.specs.steps.Parts.{IsTextReading, TakesInLine, is_nothing};
ghost use Rattle.ios_reader.specs.Texts.{ReadsText, RefusesConfiguration};
ghost use Rattle.ios_reader.specs.FaultyLines.{AreFaultyLines};

use crate::OutOfMemory;
use crate::configuration::{PartRead, are_none, read_part};
use crate::faulty_lines::faulty_lines;
use crate::refusal::ReadRefusal;
use ios_lines::fault::{Fault, least_fault, push_fault_if};
use ios_lines::kind::ReadKind;
use ios_sections::text_line::TextLine;
use ios_sections::told_lines::ToldLines;
use net_model::{Config, Configs};
use std::alloc::Global;
use std::marker::Model;

/// There is room for so many lines of a configuration from the beginning: most have fewer that tell something.
const FIRST_LINES: usize = 256;

/// What was read of the configurations of a text.
#[derive(Drop)]
struct Reading {
    /// The configurations, complete where there is no fault.
    configs: Vec<Config>,
    /// The faults.
    faults: Vec<Fault>,
}

impl Model for Reading {
    ghost use Rattle.ios_reader.specs.steps.Parts.{Reading};

    ghost Value = { Reading };

    ghost view = { λ r. record { configs = r.configs.items; faults = r.faults.items } };
}

/// Takes in what was read of one more configuration.
fn add_part(reading: &mut Reading, read: PartRead) -> Result<(), OutOfMemory>
    ensures faults { OnOk result (reading.new.faults ≡ reading.old.faults ++ read.faults) }
    ensures configs { OnOk result (reading.new.configs ≡ reading.old.configs ++ option_to_list read.config) }
{
    let PartRead { config, faults } = read;
    if let Some(config) = config {
        reading.configs.push(config)?;
    }
    reading.faults.extend_from_slice(faults.as_slice())
}

/// Takes in one more line: a line of the configuration that is open, or its `end` line, at which that is read.
fn add_line<'a>(
    alloc: Global,
    reading: &mut Reading,
    part: &mut Vec<TextLine<'a>>,
    line: TextLine<'a>,
) -> Result<(), OutOfMemory>
    ensures { OnOk result (TakesInLine part.old.items reading.old line.entry part.new.items reading.new) }
{
    if line.is_end() {
        let read = read_part(alloc, part.as_slice(), line.number())?;
        part.clear();
        add_part(reading, read)?;
    } else {
        part.push(line)?;
    }
    Ok(())
}

/// Whether some of these lines begin a configuration.
fn any_begins(lines: &[TextLine]) -> bool
    ensures { result ≡ list_any begins_configuration lines.now }
{
    lines.iter().any(|line| line.begins_configuration())
}

/// Whether nothing was read: no configuration and no fault.
fn is_nothing(reading: &Reading) -> bool
    ensures { result ≡ is_nothing reading.now }
{
    reading.configs.is_empty() && reading.faults.is_empty()
}

/// Whether no `end` line was read, or these lines, which stand behind the last one, begin a configuration.
fn lacks_end(reading: &Reading, lines: &[TextLine]) -> bool
    ensures { result ≡ (is_nothing reading.now || list_any begins_configuration lines.now) }
{
    is_nothing(reading) || any_begins(lines)
}

/// What was read of a text, with the fault of the line behind its last one, where an `end` line is missing.
fn with_end(reading: Reading, lacks_end: bool, behind: u32) -> Result<Reading, OutOfMemory>
    ensures faults { IfOk result (λ r. r.faults ≡ reading.faults ++ faults_if lacks_end behind ReadKind.NoEnd) }
    ensures configs { IfOk result (λ r. r.configs ≡ reading.configs) }
{
    let Reading { configs, faults } = reading;
    let mut faults = faults;
    push_fault_if(&mut faults, lacks_end, behind, ReadKind::NoEnd)?;
    Ok(Reading { configs, faults })
}

/// Reads a text of fewer than 2^26 bytes: its faults, and where there is none its configurations. The lines of one configuration
/// at a time are at hand.
fn read_text(alloc: Global, text: &[u8]) -> Result<Reading, OutOfMemory>
    requires { length text.now < 2 ^ 26 }
    ensures { IfOk result (IsTextReading text.now) }
{
    let mut told = ToldLines::new(text);
    let mut reading = Reading {
        configs: Vec::new(alloc),
        faults: Vec::new(alloc),
    };
    let mut part = Vec::with_capacity(alloc, FIRST_LINES)?;
    while let Some(line) = told.next_line()? {
        add_line(alloc, &mut reading, &mut part, line)?;
    }
    let lacks = lacks_end(&reading, part.as_slice());
    let read = with_end(reading, lacks, told.number() + 1)?;
    Ok(read)
}

/// Reads the configurations of a text, each ended by its `end` line.
///
/// The text, of fewer than 2^26 bytes, is what routers print; what the planner can skip is skipped. The answer is the
/// refusal of the first line that is faulty where there is one, with the least kind on it. Memory may run out.
pub fn read_configs(alloc: Global, text: &[u8]) -> Result<Configs, ReadRefusal>
    requires { length text.now < 2 ^ 26 }
    ensures read { IfOk result (ReadsText text.now) }
    ensures refused { IfErr result (RefusesConfiguration text.now) }
{
    let reading = read_text(alloc, text)?;
    match least_fault(reading.faults.as_slice()) {
        Some(fault) => Err(ReadRefusal::Bad {
            line: fault.line,
            kind: fault.kind,
        }),
        None => Ok(Configs::from_vec(reading.configs)),
    }
}

/// Reads the configurations of a text as `read_configs` does, or finds all of its faulty lines, each with the least kind
/// on it. They are sorted by their lines.
pub fn read_or_faults(
    alloc: Global,
    text: &[u8],
) -> Result<Result<Configs, Vec<Fault>>, OutOfMemory>
    requires { length text.now < 2 ^ 26 }
    ensures read { IfOk result (λ r. IfOk r (ReadsText text.now)) }
    ensures faulty { IfOk result (λ r. IfErr r (λ faults. AreFaultyLines text.now faults.items)) }
{
    let reading = read_text(alloc, text)?;
    if are_none(reading.faults.as_slice()) {
        return Ok(Ok(Configs::from_vec(reading.configs)));
    }
    let told = faulty_lines(alloc, reading.faults)?;
    Ok(Err(told))
}
