ghost use Rattle.std.specs.Prelude.{◌≡◌, ◌↔◌, ◌-◌, ◌++◌, [], map, IfOk, IsTrue, OnOk};
ghost use Rattle.net_model.specs.Configuration.{IsConfiguration};
ghost use Rattle.ios_sections.specs.Sections.{first_number};
ghost use Rattle.ios_reader.specs.Faults.{fault_further};
ghost use Rattle.ios_reader.specs.Configurations.{interfaces_by, configuration_of_settings, configuration_by};
ghost use Rattle.ios_reader.specs.steps.FaultsBy.{ospf_faults_by, isis_faults_by, interfaces_faults_by, faults_by};
ghost use Rattle.ios_reader.specs.steps.Parts.{part_at, IsPartRead};
ghost use Rattle.ios_reader.specs.steps.ProcessFacts.{process_facts_of};

use crate::OutOfMemory;
use crate::interfaces::interfaces_of;
use crate::router::{ProcessFacts, process_facts_of};
use crate::settings::{IsisSettings, OspfSettings, isis_settings, name_or_empty, ospf_settings};
use ios_lines::fault::{Fault, push_fault_if};
use ios_lines::kind::ReadKind;
use ios_sections::isis_process::{push_isis_line_faults, push_lacking, push_second_titles};
use ios_sections::process::push_ospf_line_faults;
use ios_sections::read_section::{first_number, sections_from_first};
use ios_sections::statements::{Statements, statements_of};
use ios_sections::text_line::TextLine;
use net_addr::Name;
use net_model::{Config, Distances, Interface, Interfaces};
use std::alloc::Global;
use std::marker::Model;

/// What was read of the lines before an `end` line.
#[derive(Drop)]
pub(crate) struct PartRead {
    /// The configuration, where there is no fault.
    pub config: Option<Config>,
    /// The faults, by the numbers of the lines in the text.
    pub faults: Vec<Fault>,
}

impl Model for PartRead {
    ghost use Rattle.ios_reader.specs.steps.Parts.{PartRead};

    ghost Value = { PartRead };

    ghost view = { λ r. record { config = r.config; faults = r.faults.items } };
}

/// Takes in the faults of the OSPF process, and of the lines at indent 0 by themselves.
fn push_ospf_faults(faults: &mut Vec<Fault>, statements: &Statements) -> Result<(), OutOfMemory>
    ensures { OnOk result (faults.new.items ≡ faults.old.items ++ ospf_faults_by statements.now) }
{
    faults.extend_from_slice(statements.head_faults.as_slice())?;
    faults.extend_from_slice(statements.process_faults.as_slice())?;
    push_ospf_line_faults(faults, statements.ospf.as_slice())
}

/// Takes in the faults of the IS-IS process.
fn push_isis_faults(faults: &mut Vec<Fault>, statements: &Statements) -> Result<(), OutOfMemory>
    ensures { OnOk result (faults.new.items ≡ faults.old.items ++ isis_faults_by statements.now) }
{
    faults.extend_from_slice(statements.tag_faults.as_slice())?;
    push_isis_line_faults(faults, statements.isis.as_slice())?;
    push_second_titles(faults, statements.isis.as_slice())?;
    push_lacking(faults, statements.isis_line, statements.isis.as_slice())
}

/// The faults of a configuration whose `end` line has this number, as its lines are counted, with those of its interfaces.
fn faults_of(
    alloc: Global,
    statements: &Statements,
    interfaces: &[Fault],
    ends: u32,
) -> Result<Vec<Fault>, OutOfMemory>
    requires { interfaces.now ≡ interfaces_faults_by statements.now }
    ensures { IfOk result (λ faults. faults.items ≡ faults_by statements.now ends) }
{
    let mut faults = Vec::new(alloc);
    push_ospf_faults(&mut faults, statements)?;
    push_isis_faults(&mut faults, statements)?;
    faults.extend_from_slice(interfaces)?;
    push_fault_if(
        &mut faults,
        statements.name.is_none(),
        ends,
        ReadKind::NoHostname,
    )?;
    Ok(faults)
}

/// The configuration of a router of this name with these interfaces.
fn config_with(
    name: Name,
    interfaces: Vec<Interface>,
    ospf: OspfSettings,
    isis: IsisSettings,
) -> Config
    requires { IsConfiguration (configuration_of_settings name interfaces.items ospf isis) }
    ensures { result ≡ configuration_of_settings name interfaces.items ospf isis }
{
    Config {
        name,
        interfaces: Interfaces::from_vec(interfaces),
        process: ospf.process,
        isis: isis.isis,
        tag: isis.tag,
        isis_area: isis.area,
        system: isis.system,
        levels: isis.levels,
        leak: isis.leak,
        ranges: ospf.ranges,
        stubs: ospf.stubs,
        rfc1583: ospf.rfc1583,
        distances: Distances {
            ospf: ospf.distance,
            isis: isis.distance,
        },
    }
}

/// The configuration that the statements of a router make, with their interfaces and the facts of its processes.
fn config_of(
    alloc: Global,
    statements: Statements,
    interfaces: Vec<Interface>,
    facts: ProcessFacts,
) -> Result<Config, OutOfMemory>
    requires kept { IsConfiguration (configuration_by statements) }
    requires interfaces { interfaces.items ≡ interfaces_by statements }
    requires facts { facts ≡ process_facts_of statements.ospf statements.isis }
    ensures { IfOk result (λ c. c ≡ configuration_by statements) }
{
    let Statements {
        name,
        process,
        ospf,
        tag,
        isis,
        ..
    } = statements;
    let ospf = ospf_settings(alloc, process, ospf.as_slice(), facts.ospf)?;
    let isis = isis_settings(alloc, tag, isis, facts.isis);
    Ok(config_with(name_or_empty(alloc, name), interfaces, ospf, isis))
}

/// The number of an `end` line, counted from the first of these lines that may tell something.
fn counted_ends(lines: &[TextLine], ends: u32) -> u32
    ensures { result ≡ ends - first_number lines.now }
{
    ends.saturating_sub(first_number(lines))
}

/// A fault, so many lines further on. A number of more than 32 bits gives `OutOfMemory`, since no text has so many lines.
fn fault_further(count: u32, fault: Fault) -> Result<Fault, OutOfMemory>
    ensures { IfOk result (λ own. own ≡ fault_further count fault) }
{
    match count.checked_add(fault.line) {
        Some(line) => Ok(Fault {
            line,
            kind: fault.kind,
        }),
        None => Err(OutOfMemory),
    }
}

/// Faults, found as these lines are counted, with their numbers in the text.
fn faults_in_text(
    alloc: Global,
    lines: &[TextLine],
    found: &[Fault],
) -> Result<Vec<Fault>, OutOfMemory>
    ensures { IfOk result (λ own. own.items ≡ map (fault_further (first_number lines.now)) found.now) }
{
    let first = first_number(lines);
    let mut own = Vec::with_capacity(alloc, found.len())?;
    for fault in found {
        own.push(fault_further(first, *fault)?)?;
    }
    Ok(own)
}

/// Whether these are no faults.
pub(crate) fn are_none(faults: &[Fault]) -> bool
    ensures { IsTrue result ↔ (faults.now ≡ []) }
{
    faults.is_empty()
}

/// The faults of the lines before an `end` line of this number, and where there is none their configuration. The lines are
/// read as they are counted from the first one that may tell something; only here a fault gets its number in the text.
pub(crate) fn read_part(
    alloc: Global,
    lines: &[TextLine],
    ends: u32,
) -> Result<PartRead, OutOfMemory>
    ensures { IfOk result (IsPartRead (part_at lines.now ends)) }
{
    let sections = sections_from_first(alloc, lines)?;
    let statements = statements_of(alloc, sections)?;
    let facts = process_facts_of(statements.ospf.as_slice(), statements.isis.as_slice());
    let interfaces = interfaces_of(alloc, &statements, facts)?;
    let ends = counted_ends(lines, ends);
    let found = faults_of(alloc, &statements, interfaces.faults.as_slice(), ends)?;
    if are_none(found.as_slice()) {
        let config = config_of(alloc, statements, interfaces.all, facts)?;
        return Ok(PartRead {
            config: Some(config),
            faults: found,
        });
    }
    Ok(PartRead {
        config: None,
        faults: faults_in_text(alloc, lines, found.as_slice())?,
    })
}
