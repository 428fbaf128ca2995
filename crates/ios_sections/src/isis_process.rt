ghost use Rattle.std.specs.Prelude.{◌≡◌, ◌++◌, flat_map, IfOk, OnOk, option_copied, ◌&&◌, ◌||◌};
ghost use Rattle.std.specs.List.{list_any};
ghost use Rattle.ios_sections.specs.Processes.{first_tag, is_of_tag, lines_of_tag};
ghost use Rattle.ios_sections.specs.ProcessFaults.{is_other_tag, tag_faults_of, isis_statement_faults, is_net, is_metric_style, lacking, second_titles};

use crate::OutOfMemory;
use crate::section::IsisSection;
use ios_lines::fault::{Fault, push_fault_at, push_fault_if};
use ios_lines::head::are_printable;
use ios_lines::isis_line::{IsisLine, IsisStatement, isis_line_fault};
use ios_lines::kind::ReadKind;
use ios_lines::words::is_text;
use std::alloc::Global;

/// The tag of the process: that of the first `router isis` line.
pub(crate) fn first_tag(sections: &[IsisSection]) -> Option<&[u8]>
    ensures { option_copied result ≡ first_tag sections.now }
{
    match sections.first() {
        Some(section) => Some(section.tag.as_slice()),
        None => None,
    }
}

/// Whether a tag is another than that of the router's process.
fn is_other_tag(first: Option<&[u8]>, tag: &[u8]) -> bool
    ensures { result ≡ is_other_tag (option_copied first.entry) tag.now }
{
    match first {
        Some(first) => !is_text(tag, first),
        None => true,
    }
}

/// Takes in the faults of a `router isis` line.
fn push_tag_faults(
    faults: &mut Vec<Fault>,
    first: Option<&[u8]>,
    section: &IsisSection,
) -> Result<(), OutOfMemory>
    ensures { OnOk result (faults.new.items ≡ faults.old.items ++ tag_faults_of (option_copied first.entry) section.now) }
{
    let other = is_other_tag(first, section.tag.as_slice());
    let bad = !are_printable(section.tag.as_slice());
    push_fault_if(faults, other, section.line, ReadKind::SecondProcess)?;
    push_fault_if(faults, bad, section.line, ReadKind::Unsupported)
}

/// Whether a section is of this process, and its first line isn't faulty.
fn is_of_tag(tag: Option<&[u8]>, section: &IsisSection) -> bool
    ensures { result ≡ is_of_tag (option_copied tag.entry) section.now }
{
    match tag {
        Some(tag) => is_text(section.tag.as_slice(), tag) && are_printable(section.tag.as_slice()),
        None => false,
    }
}

/// Takes in the lines of a section, where it is of this process.
fn add_isis_lines(
    lines: &mut Vec<IsisStatement>,
    tag: Option<&[u8]>,
    section: IsisSection,
) -> Result<(), OutOfMemory>
    ensures { OnOk result (lines.new.items ≡ lines.old.items ++ lines_of_tag (option_copied tag.entry) section) }
{
    if is_of_tag(tag, &section) {
        section.lines.append_to(lines)?;
    }
    Ok(())
}

/// The lines of the IS-IS process.
pub(crate) fn isis_lines(
    alloc: Global,
    tag: Option<&[u8]>,
    sections: Vec<IsisSection>,
) -> Result<Vec<IsisStatement>, OutOfMemory>
    ensures { IfOk result (λ lines. lines.items ≡ flat_map (lines_of_tag (option_copied tag.entry)) sections.items) }
{
    let mut lines = Vec::new(alloc);
    for section in sections {
        add_isis_lines(&mut lines, tag, section)?;
    }
    Ok(lines)
}

/// The faults of the `router isis` lines.
pub(crate) fn tag_faults(
    alloc: Global,
    first: Option<&[u8]>,
    sections: &[IsisSection],
) -> Result<Vec<Fault>, OutOfMemory>
    ensures { IfOk result (λ faults. faults.items ≡ flat_map (tag_faults_of (option_copied first.entry)) sections.now) }
{
    let mut faults = Vec::new(alloc);
    for section in sections {
        push_tag_faults(&mut faults, first, section)?;
    }
    Ok(faults)
}

/// Takes in the faults that lines of the IS-IS process have by themselves.
pub fn push_isis_line_faults(
    faults: &mut Vec<Fault>,
    lines: &[IsisStatement],
) -> Result<(), OutOfMemory>
    ensures { OnOk result (faults.new.items ≡ faults.old.items ++ flat_map isis_statement_faults lines.now) }
{
    for statement in lines {
        push_fault_at(faults, statement.line, isis_line_fault(&statement.says))?;
    }
    Ok(())
}

/// Whether a line is a `net` line.
fn is_net(statement: &IsisStatement) -> bool
    ensures { result ≡ is_net statement.now }
{
    matches!(statement.says, IsisLine::Net(_))
}

/// Whether a line is a `metric-style` line.
fn is_metric_style(statement: &IsisStatement) -> bool
    ensures { result ≡ is_metric_style statement.now }
{
    matches!(statement.says, IsisLine::MetricStyle(_))
}

/// Whether some line is a `net` line.
fn has_net(lines: &[IsisStatement]) -> bool
    ensures { result ≡ list_any is_net lines.now }
{
    lines.iter().any(|statement| is_net(statement))
}

/// Whether some line is a `metric-style` line.
fn has_metric_style(lines: &[IsisStatement]) -> bool
    ensures { result ≡ list_any is_metric_style lines.now }
{
    lines.iter().any(|statement| is_metric_style(statement))
}

/// Takes in what the first `router isis` line lacks: a `net` line, a `metric-style` line.
pub fn push_lacking(
    faults: &mut Vec<Fault>,
    first: Option<u32>,
    lines: &[IsisStatement],
) -> Result<(), OutOfMemory>
    ensures { OnOk result (faults.new.items ≡ faults.old.items ++ lacking first lines.now) }
{
    if let Some(line) = first {
        push_fault_if(faults, !has_net(lines), line, ReadKind::BadNet)?;
        push_fault_if(
            faults,
            !has_metric_style(lines),
            line,
            ReadKind::Unsupported,
        )?;
    }
    Ok(())
}

/// Whether a line is a `net` line, and another one stands before it or not.
fn is_second_title(titled: bool, statement: &IsisStatement) -> bool
    ensures { result ≡ (titled && is_net statement.now) }
{
    titled && is_net(statement)
}

/// Takes in the faults of the `net` lines before which another one stands.
pub fn push_second_titles(
    faults: &mut Vec<Fault>,
    lines: &[IsisStatement],
) -> Result<(), OutOfMemory>
    ensures { OnOk result (faults.new.items ≡ faults.old.items ++ second_titles lines.now) }
{
    let mut titled = false;
    for statement in lines {
        let second = is_second_title(titled, statement);
        push_fault_if(faults, second, statement.line, ReadKind::Unsupported)?;
        titled = titled_after(titled, statement);
    }
    Ok(())
}

/// Whether a `net` line stands at a line or before it.
fn titled_after(titled: bool, statement: &IsisStatement) -> bool
    ensures { result ≡ (titled || is_net statement.now) }
{
    titled || is_net(statement)
}
