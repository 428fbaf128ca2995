ghost use Rattle.std.specs.Prelude.{◌≡◌, ◌&&◌, ◌||◌, List, ℕ, [], IfOk, OnOk, bytes_eq, nat_eq};
ghost use Rattle.std.specs.List.{list_any};
ghost use Rattle.ios_sections.specs.TextLines.{section_lines};
ghost use Rattle.text_survey.specs.ToldLines.{has_vrf_line, is_vrf_line, vrf_name, vrf_names};
ghost use Rattle.text_survey.specs.steps.Inside.{HaveSameNames};

use crate::OutOfMemory;
use crate::inside::{first_indent, inside_of};
use crate::survey_line::SurveyLine;
use indexmap::IndexSet;
use ios_lines::head::{Head, head_of};
use std::alloc::Global;
use std::marker::Model;

/// Names, each once.
#[derive(Drop)]
pub(crate) struct NameSet {
    names: IndexSet<Vec<u8>>,
}

impl Model for NameSet {
    ghost use Rattle.std.specs.Prelude.{List, ℕ, map};

    ghost Value = { List (List ℕ) };

    ghost view = { λ x. map (λ k. k.items) x.names.keys };
}

impl NameSet {
    /// No names.
    fn new(alloc: Global) -> NameSet
        ensures { result ≡ [] }
    {
        NameSet {
            names: IndexSet::new(alloc),
        }
    }

    /// Takes in a name.
    fn add(&mut self, name: Vec<u8>) -> Result<(), OutOfMemory>
        ensures { OnOk result ((q : List ℕ) → list_any (bytes_eq q) self.new ≡ (list_any (bytes_eq q) self.old || bytes_eq q name.items)) }
    {
        self.names.insert_full(name)?;
        Ok(())
    }

    /// Whether a name is there.
    pub fn has(&self, name: &[u8]) -> bool
        ensures { result ≡ list_any (bytes_eq name.now) self.now }
    {
        self.names.contains(name)
    }
}

/// The names of the interfaces of a configuration that are in a VRF: those of which one section has a line that says so.
pub(crate) fn vrf_names(alloc: Global, lines: &[SurveyLine<'_>]) -> Result<NameSet, OutOfMemory>
    ensures { IfOk result (λ names. HaveSameNames names (vrf_names lines.now)) }
{
    let mut names = NameSet::new(alloc);
    for (i, head) in lines.iter().enumerate() {
        if head.opens_section() {
            add_vrf_name(alloc, &mut names, head, &lines[i + 1..])?;
        }
    }
    Ok(names)
}

/// Takes in the name of the interface whose section begins with this line, where one of its lines says that it is in a VRF.
fn add_vrf_name(
    alloc: Global,
    names: &mut NameSet,
    head: &SurveyLine<'_>,
    after: &[SurveyLine<'_>],
) -> Result<(), OutOfMemory>
    ensures { OnOk result ((q : List ℕ) → list_any (bytes_eq q) names.new ≡ (list_any (bytes_eq q) names.old
        || list_any (bytes_eq q) (vrf_name (record { head = head.now; body = section_lines after.now })))) }
{
    if !has_vrf_line(after) {
        return Ok(());
    }
    match head_of(alloc, &head.words())? {
        Head::Interface(Ok(name)) => names.add(name.into_vec()),
        _ => Ok(()),
    }
}

/// Whether one of the lines of the section that goes on with these lines says that an interface is in a VRF.
#[tactic(auto, using(crate::proofs::InsideFacts::any_filtered))]
fn has_vrf_line(after: &[SurveyLine<'_>]) -> bool
    ensures { result ≡ has_vrf_line (section_lines after.now) }
{
    let inside = inside_of(after);
    has_vrf_line_at(inside, first_indent(inside))
}

/// Whether one of the lines of this indent does.
fn has_vrf_line_at(lines: &[SurveyLine<'_>], indent: u32) -> bool
    ensures { result ≡ list_any (λ line. nat_eq line.indent indent && is_vrf_line line) lines.now }
{
    lines.iter().any(|line| is_vrf_line_at(line, indent))
}

/// Whether a line is of this indent and does.
fn is_vrf_line_at(line: &SurveyLine<'_>, indent: u32) -> bool
    ensures { result ≡ (nat_eq line.now.indent indent && is_vrf_line line.now) }
{
    line.indent() == indent && is_vrf_line(line)
}

/// Whether a line of an interface says that it is in a VRF.
fn is_vrf_line(line: &SurveyLine<'_>) -> bool
    ensures { result ≡ is_vrf_line line.now }
{
    let words = line.words();
    words.begins_with_two(b"vrf", b"forwarding")
        || words.begins_with_three(b"ip", b"vrf", b"forwarding")
}
