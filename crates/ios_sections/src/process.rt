ghost use Rattle.std.specs.Prelude.{◌≡◌, [], ◌++◌, flat_map, map, IfOk, OnOk};
ghost use Rattle.std.specs.List.{cons_option};
ghost use Rattle.ios_sections.specs.Processes.{mention_said, mentions_in, mention_of, mentions_of, first_mention, first_process, is_of_process};
ghost use Rattle.ios_sections.specs.Processes.{lines_of_process};
ghost use Rattle.ios_sections.specs.ProcessFaults.{is_other_process, process_faults, ospf_statement_faults};

use crate::OutOfMemory;
use crate::section::{InterfaceSection, OspfSection};
use ios_lines::fault::{Fault, push_fault_at, push_fault_if};
use ios_lines::interface_line::{InterfaceLine, counting};
use ios_lines::kind::ReadKind;
use ios_lines::ospf_line::{OspfStatement, ospf_line_fault};
use std::alloc::Global;

/// A line that names a process of OSPF.
#[derive(Clone, Copy, Debug)]
pub struct Mention {
    /// The number of the line.
    pub line: u32,
    /// The number of the process, from 1 to `net_model::MOST_PROCESS`.
    pub process: u32,
}

/// The process that a line `ip ospf P area N` names.
fn mention_said(line: u32, says: &InterfaceLine) -> Option<Mention>
    ensures { result ≡ mention_said line says.now }
{
    match says {
        InterfaceLine::Area(Ok(area)) => Some(Mention {
            line,
            process: area.process,
        }),
        _ => None,
    }
}

/// Takes in the lines of an interface that name a process.
fn add_mentions(mentions: &mut Vec<Mention>, section: &InterfaceSection) -> Result<(), OutOfMemory>
    ensures { OnOk result (mentions.new.items ≡ mentions.old.items ++ mentions_in section.now) }
{
    for statement in counting(section.lines.as_slice()) {
        push_mention(mentions, mention_said(statement.line, &statement.says))?;
    }
    Ok(())
}

/// Takes in a line, where there is one.
fn push_mention(mentions: &mut Vec<Mention>, mention: Option<Mention>) -> Result<(), OutOfMemory>
    ensures { OnOk result (mentions.new.items ≡ mentions.old.items ++ cons_option mention []) }
{
    if let Some(mention) = mention {
        mentions.push(mention)?;
    }
    Ok(())
}

/// The lines that open sections of processes.
fn section_mentions(alloc: Global, ospf: &[OspfSection]) -> Result<Vec<Mention>, OutOfMemory>
    ensures { IfOk result (λ ms. ms.items ≡ map mention_of ospf.now) }
{
    let mut mentions = Vec::new(alloc);
    for section in ospf {
        mentions.push(Mention {
            line: section.line,
            process: section.process,
        })?;
    }
    Ok(mentions)
}

/// The lines that name a process.
pub(crate) fn mentions_of(
    alloc: Global,
    ospf: &[OspfSection],
    interfaces: &[InterfaceSection],
) -> Result<Vec<Mention>, OutOfMemory>
    ensures { IfOk result (λ ms. ms.items ≡ mentions_of ospf.now interfaces.now) }
{
    let mut mentions = section_mentions(alloc, ospf)?;
    for section in interfaces {
        add_mentions(&mut mentions, section)?;
    }
    Ok(mentions)
}

/// Of two lines the one that comes first.
fn first_mention(first: Option<Mention>, mention: Mention) -> Option<Mention>
    ensures { result ≡ first_mention first mention }
{
    match first {
        Some(first) if mention.line >= first.line => Some(first),
        _ => Some(mention),
    }
}

/// The process that comes first.
pub(crate) fn first_process(mentions: &[Mention]) -> Option<u32>
    ensures { result ≡ first_process mentions.now }
{
    let mut first = None;
    for mention in mentions {
        first = first_mention(first, *mention);
    }
    match first {
        Some(mention) => Some(mention.process),
        None => None,
    }
}

/// Whether a line names another process than the router's.
fn is_other_process(process: Option<u32>, mention: Mention) -> bool
    ensures { result ≡ is_other_process process mention }
{
    match process {
        Some(process) => mention.process != process,
        None => true,
    }
}

/// Takes in the fault of a line, where it names a second process.
fn push_process_fault(
    faults: &mut Vec<Fault>,
    process: Option<u32>,
    mention: Mention,
) -> Result<(), OutOfMemory>
    ensures { OnOk result (faults.new.items ≡ faults.old.items ++ process_faults process mention) }
{
    let other = is_other_process(process, mention);
    push_fault_if(faults, other, mention.line, ReadKind::SecondProcess)
}

/// The faults of the lines that name a second process.
pub(crate) fn second_processes(
    alloc: Global,
    process: Option<u32>,
    mentions: &[Mention],
) -> Result<Vec<Fault>, OutOfMemory>
    ensures { IfOk result (λ faults. faults.items ≡ flat_map (process_faults process) mentions.now) }
{
    let mut faults = Vec::new(alloc);
    for mention in mentions {
        push_process_fault(&mut faults, process, *mention)?;
    }
    Ok(faults)
}

/// Whether a section is of this process.
fn is_of_process(process: Option<u32>, section: &OspfSection) -> bool
    ensures { result ≡ is_of_process process section.now }
{
    match process {
        Some(process) => section.process == process,
        None => false,
    }
}

/// Takes in the lines of a section, where it is of this process.
fn add_ospf_lines(
    lines: &mut Vec<OspfStatement>,
    process: Option<u32>,
    section: OspfSection,
) -> Result<(), OutOfMemory>
    ensures { OnOk result (lines.new.items ≡ lines.old.items ++ lines_of_process process section) }
{
    if is_of_process(process, &section) {
        section.lines.append_to(lines)?;
    }
    Ok(())
}

/// The lines of the OSPF process.
pub(crate) fn ospf_lines(
    alloc: Global,
    process: Option<u32>,
    sections: Vec<OspfSection>,
) -> Result<Vec<OspfStatement>, OutOfMemory>
    ensures { IfOk result (λ lines. lines.items ≡ flat_map (lines_of_process process) sections.items) }
{
    let mut lines = Vec::new(alloc);
    for section in sections {
        add_ospf_lines(&mut lines, process, section)?;
    }
    Ok(lines)
}

/// Takes in the faults that lines of the OSPF process have by themselves.
pub fn push_ospf_line_faults(
    faults: &mut Vec<Fault>,
    lines: &[OspfStatement],
) -> Result<(), OutOfMemory>
    ensures { OnOk result (faults.new.items ≡ faults.old.items ++ flat_map ospf_statement_faults lines.now) }
{
    for statement in lines {
        push_fault_at(faults, statement.line, ospf_line_fault(&statement.says))?;
    }
    Ok(())
}
