ghost use Rattle.std.specs.Prelude.{◌≡◌, flat_map, map, option_copied, IfOk};
ghost use Rattle.ios_reader.specs.Faults.{interface_faults};
ghost use Rattle.ios_reader.specs.InterfacesAsRead.{interface_as_read};
ghost use Rattle.ios_reader.specs.Configurations.{interfaces_by};
ghost use Rattle.ios_reader.specs.steps.FaultsBy.{interfaces_faults_by};
ghost use Rattle.ios_reader.specs.steps.Passives.{ArePassivesOf};
ghost use Rattle.ios_reader.specs.steps.ProcessFacts.{process_facts_of};

use crate::OutOfMemory;
use crate::facts::facts_of;
use crate::interface_fault::push_interface_faults;
use crate::interface_read::interface_with;
use crate::networks::networks_of;
use crate::passive::{Passives, passives_of};
use crate::router::{ProcessFacts, Router, router_with};
use ios_lines::fault::Fault;
use ios_lines::interface_line::counting;
use ios_lines::words::name_of;
use ios_sections::section::InterfaceSection;
use ios_sections::statements::{Statements, tag_bytes};
use net_model::Interface;
use std::alloc::Global;

/// What the interfaces of a router are read as, and what is wrong with them.
#[derive(Drop)]
pub(crate) struct InterfacesRead {
    /// The interfaces, in the order in which the configuration first names them.
    pub all: Vec<Interface>,
    /// Their faults.
    pub faults: Vec<Fault>,
}

/// Reads the interfaces of a router. What the lines of each say in the end is found once.
fn read_interfaces(
    alloc: Global,
    router: &Router,
    passives: &Passives,
    tag: Option<&[u8]>,
    sections: &[InterfaceSection],
) -> Result<InterfacesRead, OutOfMemory>
    requires { ArePassivesOf router.now passives.now }
    ensures all { IfOk result (λ read. read.all.items ≡ map (interface_as_read router.now) sections.now) }
    ensures faults { IfOk result (λ read. read.faults.items ≡ flat_map (interface_faults router.now (option_copied tag.entry)) sections.now) }
{
    let mut all = Vec::with_capacity(alloc, sections.len())?;
    let mut faults = Vec::new(alloc);
    for section in sections {
        let name = name_of(alloc, section.name.as_slice())?;
        let facts = facts_of(counting(section.lines.as_slice()));
        push_interface_faults(&mut faults, router, tag, section, &facts)?;
        all.push(interface_with(router, passives, name, &facts))?;
    }
    Ok(InterfacesRead { all, faults })
}

/// Reads the interfaces that the statements of a router make, whose processes say this in the end.
pub(crate) fn interfaces_of(
    alloc: Global,
    statements: &Statements,
    facts: ProcessFacts,
) -> Result<InterfacesRead, OutOfMemory>
    requires { facts ≡ process_facts_of statements.now.ospf statements.now.isis }
    ensures all { IfOk result (λ read. read.all.items ≡ interfaces_by statements.now) }
    ensures faults { IfOk result (λ read. read.faults.items ≡ interfaces_faults_by statements.now) }
{
    let networks = networks_of(alloc, statements.ospf.as_slice())?;
    let router = router_with(
        statements.process,
        statements.ospf.as_slice(),
        &networks,
        statements.isis.as_slice(),
        facts,
    );
    let passives = passives_of(alloc, &router)?;
    let read = read_interfaces(
        alloc,
        &router,
        &passives,
        tag_bytes(&statements.tag),
        statements.interfaces.as_slice(),
    )?;
    Ok(read)
}
