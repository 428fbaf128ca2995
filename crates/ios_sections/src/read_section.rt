ghost use Rattle.std.specs.Prelude.{◌≡◌, ◌≤◌, IfOk, map, filter, position, nat_eq, length};
ghost use Rattle.std.specs.List.{position_or_len};
ghost use Rattle.ios_lines.specs.InterfaceLines.{interface_line};
ghost use Rattle.ios_sections.specs.TextLines.{opens_section, first_indent, section_lines};
ghost use Rattle.ios_sections.specs.Sections.{interface_statements, ospf_statements, isis_statements, section_with, section_of, sections_among};
ghost use Rattle.ios_sections.specs.Sections.{counted_from, may_begin, own_lines, head_number, first_number, sections_from_first};

use crate::OutOfMemory;
use crate::section::{
    FIRST_SECTIONS, InterfaceSection, InterfaceStatements, IsisSection, IsisStatements,
    OspfSection, OspfStatements, Section,
};
use crate::text_line::TextLine;
use ios_lines::fault::Fault;
use ios_lines::head::{Head, head_of};
use ios_lines::interface_line::{InterfaceLine, InterfaceStatement, interface_line};
use ios_lines::isis_line::{IsisStatement, isis_line};
use ios_lines::ospf_line::{OspfStatement, ospf_line};
use std::alloc::Global;
use std::marker::Model;

/// The lines of an interface, those of this indent, counted from the line of a number.
fn interface_statements(
    alloc: Global,
    lines: &[TextLine],
    indent: u32,
    first: u32,
) -> Result<InterfaceStatements, OutOfMemory>
    ensures { IfOk result (λ s. s ≡ interface_statements (map (counted_from first) (filter (λ line. nat_eq line.indent indent) lines.now))) }
{
    let mut statements = Vec::with_capacity(alloc, lines.len())?;
    for line in lines {
        if line.indent() == indent {
            let says = says_of_interface(alloc, line)?;
            statements.push(InterfaceStatement {
                line: line.number_from(first),
                says,
            })?;
        }
    }
    Ok(InterfaceStatements::from_vec(statements))
}

/// What a line says of an interface. Most lines that say nothing are told by their first word.
fn says_of_interface(alloc: Global, line: &TextLine) -> Result<InterfaceLine, OutOfMemory>
    ensures { IfOk result (λ says. says ≡ interface_line line.now.words) }
{
    if line.may_concern_interface() {
        interface_line(alloc, &line.words())
    } else {
        Ok(InterfaceLine::Skipped)
    }
}

/// The lines of an OSPF process, those of this indent, counted from the line of a number.
fn ospf_statements(
    alloc: Global,
    lines: &[TextLine],
    indent: u32,
    first: u32,
) -> Result<OspfStatements, OutOfMemory>
    ensures { IfOk result (λ s. s ≡ ospf_statements (map (counted_from first) (filter (λ line. nat_eq line.indent indent) lines.now))) }
{
    let mut statements = Vec::with_capacity(alloc, lines.len())?;
    for line in lines {
        if line.indent() == indent {
            let says = ospf_line(alloc, &line.words())?;
            statements.push(OspfStatement {
                line: line.number_from(first),
                says,
            })?;
        }
    }
    Ok(OspfStatements::from_vec(statements))
}

/// The lines of an IS-IS process, those of this indent, counted from the line of a number.
fn isis_statements(
    alloc: Global,
    lines: &[TextLine],
    indent: u32,
    first: u32,
) -> Result<IsisStatements, OutOfMemory>
    ensures { IfOk result (λ s. s ≡ isis_statements (map (counted_from first) (filter (λ line. nat_eq line.indent indent) lines.now))) }
{
    let mut statements = Vec::with_capacity(alloc, lines.len())?;
    for line in lines {
        if line.indent() == indent {
            let says = isis_line(alloc, &line.words())?;
            statements.push(IsisStatement {
                line: line.number_from(first),
                says,
            })?;
        }
    }
    Ok(IsisStatements::from_vec(statements))
}

/// How many lines come before the next section.
#[tactic(auto, using(ios_lines::proofs::Places::some_place, ios_lines::proofs::Places::no_place))]
fn inside_count(lines: &[TextLine]) -> usize
    ensures count { result ≡ position_or_len opens_section lines.now }
    ensures within { result ≤ length lines.now }
{
    match next_section(lines) {
        Some(count) => count,
        None => lines.len(),
    }
}

/// The place of the first line that opens a section.
fn next_section(lines: &[TextLine]) -> Option<usize>
    ensures { result ≡ position opens_section lines.now }
{
    lines.iter().position(|line| line.opens_section())
}

/// The indent of the first of some lines, 0 where there is none.
fn first_indent(lines: &[TextLine]) -> u32
    ensures { result ≡ first_indent lines.now }
{
    match lines.first() {
        Some(line) => line.indent(),
        None => 0,
    }
}

/// The lines of a section: of some lines those of an indent, counted from the line of a number.
#[derive(Drop)]
struct SectionBody<'b, 'a> {
    inside: &'b [TextLine<'a>],
    indent: u32,
    first: u32,
}

impl<'b, 'a> Model for SectionBody<'b, 'a> {
    ghost use Rattle.std.specs.Prelude.{List, map, filter, nat_eq};
    ghost use Rattle.ios_sections.specs.TextLines.{TextLine};
    ghost use Rattle.ios_sections.specs.Sections.{counted_from};

    ghost Value = { List TextLine };

    ghost view = { λ b. map (counted_from b.first) (filter (λ line. nat_eq line.indent b.indent) b.inside.now) };
}

/// The lines of the section that some lines begin with, counted from the line of a number.
#[tactic(auto, using(crate::proofs::PlaceFacts::lines_counted))]
fn body_of<'b, 'a>(after: &'b [TextLine<'a>], first: u32) -> SectionBody<'b, 'a>
    ensures { result ≡ section_lines (map (counted_from first) after.now) }
{
    let inside = &after[..inside_count(after)];
    SectionBody {
        inside,
        indent: first_indent(inside),
        first,
    }
}

/// A section by what its first line says.
fn section_with(
    alloc: Global,
    head: Head,
    line: u32,
    body: &SectionBody,
) -> Result<Section, OutOfMemory>
    ensures { IfOk result (λ s. s ≡ section_with head line body.now) }
{
    match head {
        Head::Hostname(Ok(name)) => Ok(Section::Hostname(name)),
        Head::Interface(Ok(name)) => {
            let lines = interface_statements(alloc, body.inside, body.indent, body.first)?;
            Ok(Section::Interface(InterfaceSection { line, name, lines }))
        }
        Head::Ospf(Ok(process)) => {
            let lines = ospf_statements(alloc, body.inside, body.indent, body.first)?;
            Ok(Section::Ospf(OspfSection {
                line,
                process,
                lines,
            }))
        }
        Head::Isis(tag) => {
            let lines = isis_statements(alloc, body.inside, body.indent, body.first)?;
            Ok(Section::Isis(IsisSection { line, tag, lines }))
        }
        Head::Hostname(Err(kind))
        | Head::Interface(Err(kind))
        | Head::Ospf(Err(kind))
        | Head::Faulty(kind) => { Ok(Section::Faulty(Fault { line, kind })) }
        Head::Other => Ok(Section::Other),
    }
}

/// The section that a line at indent 0 opens, before these lines, all counted from the line of a number. Most such lines say
/// nothing by their first word.
fn section_at(
    alloc: Global,
    head: &TextLine,
    after: &[TextLine],
    first: u32,
) -> Result<Section, OutOfMemory>
    ensures { IfOk result (λ s. s ≡ section_of (record { head = counted_from first head.now; body = section_lines (map (counted_from first) after.now) })) }
{
    if !head.may_tell() {
        return Ok(Section::Other);
    }
    let says = head_of(alloc, &head.words())?;
    section_with(alloc, says, head.number_from(first), &body_of(after, first))
}

/// What the sections of some lines say, in order, counted from the line of a number.
fn read_sections(alloc: Global, lines: &[TextLine], first: u32) -> Result<Vec<Section>, OutOfMemory>
    ensures { IfOk result (λ s. s.items ≡ sections_among (map (counted_from first) lines.now)) }
{
    let mut sections = Vec::with_capacity(alloc, lines.len().min(FIRST_SECTIONS))?;
    for (i, head) in lines.iter().enumerate() {
        if head.opens_section() {
            sections.push(section_at(alloc, head, &lines[i + 1..], first)?)?;
        }
    }
    Ok(sections)
}

/// The place of the first line that opens a section and may tell something.
fn first_place(lines: &[TextLine]) -> Option<usize>
    ensures { result ≡ position may_begin lines.now }
{
    lines.iter().position(|line| line.may_begin())
}

/// How many lines come before that line.
#[tactic(auto, using(ios_lines::proofs::Places::some_place, ios_lines::proofs::Places::no_place))]
fn before_first(lines: &[TextLine]) -> usize
    ensures count { result ≡ position_or_len may_begin lines.now }
    ensures within { result ≤ length lines.now }
{
    match first_place(lines) {
        Some(count) => count,
        None => lines.len(),
    }
}

/// The lines from that line on.
fn own_lines<'b, 'a>(lines: &'b [TextLine<'a>]) -> &'b [TextLine<'a>]
    ensures { result.now ≡ own_lines lines.entry.now }
{
    &lines[before_first(lines)..]
}

/// The number of the first of some lines, 0 where there is none.
fn head_number(lines: &[TextLine]) -> u32
    ensures { result ≡ head_number lines.now }
{
    match lines.first() {
        Some(line) => line.number(),
        None => 0,
    }
}

/// The number of the first line that opens a section and may tell something, 0 where there is none.
pub fn first_number(lines: &[TextLine]) -> u32
    ensures { result ≡ first_number lines.now }
{
    head_number(own_lines(lines))
}

/// What the lines of a configuration say, each counted from the first one that opens a section and may tell something.
pub fn sections_from_first(alloc: Global, lines: &[TextLine]) -> Result<Vec<Section>, OutOfMemory>
    ensures { IfOk result (λ s. s.items ≡ sections_from_first lines.now) }
{
    read_sections(alloc, own_lines(lines), first_number(lines))
}
