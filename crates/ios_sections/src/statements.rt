ghost use Rattle.std.specs.Prelude.{◌≡◌, IfOk, option_copied};
ghost use Rattle.ios_sections.specs.Processes.{first_tag};
ghost use Rattle.ios_sections.specs.ProcessFaults.{first_isis_line};
ghost use Rattle.ios_sections.specs.Statements.{statements_of};

use crate::OutOfMemory;
use crate::gather::gather;
use crate::isis_process::{first_tag, isis_lines, tag_faults};
use crate::process::{first_process, mentions_of, ospf_lines, second_processes};
use crate::section::{InterfaceSection, IsisSection, Section};
use ios_lines::fault::Fault;
use ios_lines::isis_line::IsisStatement;
use ios_lines::ospf_line::OspfStatement;
use ios_lines::words::name_of;
use net_addr::Name;
use std::alloc::Global;
use std::marker::Model;

/// What the sections of a configuration say: its interfaces, and the lines of its two processes.
#[derive(Drop)]
pub struct Statements {
    /// The router's name, of the last good `hostname` line.
    pub name: Option<Name>,
    /// The interfaces, the sections of each as one, in the order in which they come first.
    pub interfaces: Vec<InterfaceSection>,
    /// The number of the OSPF process.
    pub process: Option<u32>,
    /// The lines of the OSPF process.
    pub ospf: Vec<OspfStatement>,
    /// The tag of the IS-IS process, where there is one.
    pub tag: Option<Name>,
    /// The number of the first `router isis` line.
    pub isis_line: Option<u32>,
    /// The lines of the IS-IS process.
    pub isis: Vec<IsisStatement>,
    /// The faults that lines at indent 0 have by themselves.
    pub head_faults: Vec<Fault>,
    /// The faults of the lines that name a second OSPF process.
    pub process_faults: Vec<Fault>,
    /// The faults of the `router isis` lines.
    pub tag_faults: Vec<Fault>,
}

impl Model for Statements {
    ghost use Rattle.ios_sections.specs.Statements.{Statements};

    ghost Value = { Statements };

    ghost view = { λ s. record {
      name = s.name;
      interfaces = s.interfaces.items;
      process = s.process;
      ospf = s.ospf.items;
      tag = s.tag;
      isis_line
          = s.isis_line;
      isis = s.isis.items;
      head_faults = s.head_faults.items;
      process_faults = s.process_faults.items;
      tag_faults = s.tag_faults.items;
    } };
}

/// The number of the first `router isis` line.
fn first_isis_line(sections: &[IsisSection]) -> Option<u32>
    ensures { result ≡ first_isis_line sections.now }
{
    match sections.first() {
        Some(section) => Some(section.line),
        None => None,
    }
}

/// The tag of the IS-IS process, where there is one.
fn tag_of(alloc: Global, sections: &[IsisSection]) -> Result<Option<Name>, OutOfMemory>
    ensures { IfOk result (λ tag. tag ≡ first_tag sections.now) }
{
    match sections.first() {
        Some(section) => Ok(Some(name_of(alloc, section.tag.as_slice())?)),
        None => Ok(None),
    }
}

/// The bytes of a tag.
pub fn tag_bytes(tag: &Option<Name>) -> Option<&[u8]>
    ensures { option_copied result ≡ tag.now }
{
    match tag {
        Some(name) => Some(name.as_slice()),
        None => None,
    }
}

/// What the sections of a configuration say.
pub fn statements_of(alloc: Global, sections: Vec<Section>) -> Result<Statements, OutOfMemory>
    ensures { IfOk result (λ s. s ≡ statements_of sections.items) }
{
    let gathering = gather(alloc, sections)?;
    let mentions = mentions_of(
        alloc,
        gathering.ospf.as_slice(),
        gathering.interfaces.as_slice(),
    )?;
    let process = first_process(mentions.as_slice());
    let process_faults = second_processes(alloc, process, mentions.as_slice())?;
    let tag_faults = tag_faults(
        alloc,
        first_tag(gathering.isis.as_slice()),
        gathering.isis.as_slice(),
    )?;
    let isis_line = first_isis_line(gathering.isis.as_slice());
    let tag = tag_of(alloc, gathering.isis.as_slice())?;
    let ospf = ospf_lines(alloc, process, gathering.ospf)?;
    let isis = isis_lines(alloc, tag_bytes(&tag), gathering.isis)?;
    Ok(Statements {
        name: gathering.name,
        interfaces: gathering.interfaces,
        process,
        ospf,
        tag,
        isis_line,
        isis,
        head_faults: gathering.faults,
        process_faults,
        tag_faults,
    })
}
