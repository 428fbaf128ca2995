ghost use Rattle.std.specs.Prelude.{◌≡◌, ◌++◌, ◌&&◌, option_copied, is_some, is_none, OnOk};
ghost use Rattle.ios_lines.specs.InterfaceLines.{counting};
ghost use Rattle.ios_reader.specs.Faults.{membership_of, membership_fault, statement_faults, interface_line_faults, long_mask, address_mask_faults};
ghost use Rattle.ios_reader.specs.InterfaceFacts.{facts_of};
ghost use Rattle.ios_reader.specs.InterfacesAsRead.{is_up, interface_area, ospf_cost};
ghost use Rattle.ios_reader.specs.Faults.{is_point_to_point, loopback_faults, bandwidth_faults, interface_faults};

use crate::OutOfMemory;
use crate::facts::{InterfaceFacts, PlacedAddress};
use crate::interface_read::{interface_area, is_loopback, is_up, ospf_cost};
use crate::router::Router;
use ios_lines::address::InterfaceAddress;
use ios_lines::fault::{Fault, push_fault_at, push_fault_if};
use ios_lines::interface_line::{
    InterfaceLine, InterfaceStatement, counting, interface_line_fault,
};
use ios_lines::kind::ReadKind;
use ios_lines::words::is_text;
use ios_sections::section::InterfaceSection;

/// The fault of `ip router isis` with this tag, where the process has another one or there is none.
fn membership_of(first: Option<&[u8]>, tag: &[u8]) -> Option<ReadKind>
    ensures { result ≡ membership_of (option_copied first.entry) tag.now }
{
    match first {
        None => Some(ReadKind::BadNet),
        Some(first) => {
            if is_text(tag, first) {
                None
            } else {
                Some(ReadKind::SecondProcess)
            }
        }
    }
}

/// The fault of a line by the process that the interface runs.
fn membership_fault(first: Option<&[u8]>, line: &InterfaceLine) -> Option<ReadKind>
    ensures { result ≡ membership_fault (option_copied first.entry) line.now }
{
    match line {
        InterfaceLine::Isis(tag) => membership_of(first, tag.as_slice()),
        _ => None,
    }
}

/// Takes in the faults of a line of an interface.
fn push_statement_faults(
    faults: &mut Vec<Fault>,
    first: Option<&[u8]>,
    statement: &InterfaceStatement,
) -> Result<(), OutOfMemory>
    ensures { OnOk result (faults.new.items ≡ faults.old.items ++ statement_faults (option_copied first.entry) statement.now) }
{
    push_fault_at(
        faults,
        statement.line,
        interface_line_fault(&statement.says),
    )?;
    push_fault_at(
        faults,
        statement.line,
        membership_fault(first, &statement.says),
    )
}

/// Takes in the faults of the lines of an interface.
fn push_interface_line_faults(
    faults: &mut Vec<Fault>,
    first: Option<&[u8]>,
    lines: &[InterfaceStatement],
) -> Result<(), OutOfMemory>
    ensures { OnOk result (faults.new.items ≡ faults.old.items ++ interface_line_faults (option_copied first.entry) lines.now) }
{
    for statement in lines {
        push_statement_faults(faults, first, statement)?;
    }
    Ok(())
}

/// Takes in the fault of an address line of a loopback, where its mask isn't of 32 bits.
fn push_long_mask(
    faults: &mut Vec<Fault>,
    line: u32,
    address: Result<InterfaceAddress, ReadKind>,
) -> Result<(), OutOfMemory>
    ensures { OnOk result (faults.new.items ≡ faults.old.items ++ long_mask line address) }
{
    if let Ok(given) = address {
        push_fault_if(faults, given.len() != 32, line, ReadKind::LoopbackMask)?;
    }
    Ok(())
}

/// Takes in the fault of the last address line of a loopback, where its mask isn't of 32 bits.
fn push_address_mask_fault(
    faults: &mut Vec<Fault>,
    address: Option<Option<PlacedAddress>>,
) -> Result<(), OutOfMemory>
    ensures { OnOk result (faults.new.items ≡ faults.old.items ++ address_mask_faults address) }
{
    if let Some(Some(placed)) = address {
        push_long_mask(faults, placed.line, placed.address)?;
    }
    Ok(())
}

/// Whether an interface is said to be point-to-point.
fn is_point_to_point(said: Option<Result<bool, ReadKind>>) -> bool
    ensures { result ≡ is_point_to_point said }
{
    match said {
        Some(Ok(point_to_point)) => point_to_point,
        _ => false,
    }
}

/// Takes in the fault of an up loopback whose mask isn't of 32 bits, and that isn't point-to-point.
fn push_loopback_fault(
    faults: &mut Vec<Fault>,
    name: &[u8],
    facts: &InterfaceFacts,
) -> Result<(), OutOfMemory>
    ensures { OnOk result (faults.new.items ≡ faults.old.items ++ loopback_faults name.now facts.now) }
{
    if is_loopback(name) && is_up(facts) && !is_point_to_point(facts.point_to_point) {
        push_address_mask_fault(faults, facts.address)
    } else {
        Ok(())
    }
}

/// Whether an interface is up and has an area, and nothing gives its cost.
fn lacks_cost(router: &Router, name: &[u8], facts: &InterfaceFacts) -> bool
    ensures { result ≡ (is_up facts.now && is_some (interface_area router.now facts.now) && is_none (ospf_cost router.now name.now facts.now)) }
{
    ospf_cost(router, name, facts).is_none()
        && is_up(facts)
        && interface_area(router, facts).is_some()
}

/// Takes in the fault of an up interface with an area, and without anything that gives its cost.
fn push_bandwidth_fault(
    faults: &mut Vec<Fault>,
    router: &Router,
    section: &InterfaceSection,
    facts: &InterfaceFacts,
) -> Result<(), OutOfMemory>
    ensures { OnOk result (faults.new.items ≡ faults.old.items ++ bandwidth_faults router.now section.now facts.now) }
{
    let lacks = lacks_cost(router, section.name.as_slice(), facts);
    push_fault_if(faults, lacks, section.line, ReadKind::NoBandwidth)
}

/// Takes in the faults of an interface, whose lines say this in the end.
pub(crate) fn push_interface_faults(
    faults: &mut Vec<Fault>,
    router: &Router,
    tag: Option<&[u8]>,
    section: &InterfaceSection,
    facts: &InterfaceFacts,
) -> Result<(), OutOfMemory>
    requires { facts.now ≡ facts_of (counting section.now.lines) }
    ensures { OnOk result (faults.new.items ≡ faults.old.items ++ interface_faults router.now (option_copied tag.entry) section.now) }
{
    push_interface_line_faults(faults, tag, counting(section.lines.as_slice()))?;
    push_loopback_fault(faults, section.name.as_slice(), facts)?;
    push_bandwidth_fault(faults, router, section, facts)
}
