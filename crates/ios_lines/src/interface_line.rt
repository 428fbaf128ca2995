ghost use Rattle.ios_lines.specs.InterfaceLines.{is_vrf, in_vrf, counting, masked_address, address_line, process_area, area_line, network_kind};
ghost use Rattle.ios_lines.specs.InterfaceLines.{ospf_of_interface, ip_of_interface, metric_line, isis_of_interface, bandwidth_line, plain_of_interface};
ghost use Rattle.ios_lines.specs.InterfaceLines.{interface_line, interface_line_fault};
ghost use Rattle.std.specs.Prelude.{◌≡◌, ◌≤◌, IfOk, IfSome};

use crate::OutOfMemory;
use crate::address::InterfaceAddress;
use crate::bounds::MOST_BANDWIDTH;
use crate::kind::ReadKind;
use crate::octets::{address_of, mask_of};
use crate::words::{Words, area_of, is_text, levels_of, name_of, number_from};
use net_addr::Name;
use net_model::{Levels, MOST_INTERFACE_COST, MOST_METRIC, MOST_PROCESS};
use std::alloc::Global;

/// An OSPF process and one of its areas.
#[derive(Clone, Copy, Debug)]
pub struct ProcessArea {
    /// The number of the process, from 1 to `MOST_PROCESS`.
    pub process: u32,
    /// The number of the area.
    pub area: u32,
}

/// What a line of an interface says.
#[derive(Debug, Drop)]
pub enum InterfaceLine {
    /// `ip address A M`
    Address(Result<InterfaceAddress, ReadKind>),
    /// `no ip address`
    NoAddress,
    /// `shutdown`, or `no shutdown`
    Shutdown(bool),
    /// `vrf forwarding X`, or `ip vrf forwarding X`
    Vrf,
    /// `bandwidth N`, in kbit/s
    Bandwidth(Result<u32, ReadKind>),
    /// `ip ospf cost N`
    Cost(Result<u32, ReadKind>),
    /// `ip ospf P area N`
    Area(Result<ProcessArea, ReadKind>),
    /// `ip ospf network K`: whether K is `point-to-point`
    PointToPoint(Result<bool, ReadKind>),
    /// `ip router isis`, with its tag, empty where there is none
    Isis(Name),
    /// `isis circuit-type L`
    Circuit(Result<Levels, ReadKind>),
    /// `isis metric N`
    Metric(Result<u32, ReadKind>),
    /// `isis metric N level-1`
    Metric1(Result<u32, ReadKind>),
    /// `isis metric N level-2`
    Metric2(Result<u32, ReadKind>),
    /// a line that is faulty and says nothing
    Faulty(ReadKind),
    /// a line without meaning here
    Skipped,
}

/// A line of an interface at its place in the text.
#[derive(Debug, Drop)]
pub struct InterfaceStatement {
    /// The number of the line.
    pub line: u32,
    /// What the line says.
    pub says: InterfaceLine,
}

/// An address with the length of its mask.
fn masked_address(
    address: Option<u32>,
    len: Option<u8>,
    secondary: bool,
) -> Result<InterfaceAddress, ReadKind>
    requires { IfSome len (λ n. n ≤ 32) }
    ensures { result ≡ masked_address address len secondary }
{
    let Some(address) = address else {
        return Err(ReadKind::BadAddress);
    };
    let Some(len) = len else {
        return Err(ReadKind::BadMask);
    };
    if secondary {
        return Err(ReadKind::Unsupported);
    }
    Ok(InterfaceAddress::new(address, len))
}

/// `ip address A M`
fn address_line(words: &Words) -> Result<InterfaceAddress, ReadKind>
    ensures { result ≡ address_line words.now }
{
    if words.says(2, b"dhcp") || words.says(2, b"negotiated") {
        return Err(ReadKind::Unsupported);
    }
    masked_address(
        address_of(words.at(2)),
        mask_of(words.at(3)),
        words.says(4, b"secondary"),
    )
}

/// An area of a process.
fn process_area(area: Option<u32>, process: Result<u32, ReadKind>) -> Result<ProcessArea, ReadKind>
    ensures { result ≡ process_area area process }
{
    let Some(area) = area else {
        return Err(ReadKind::BadArea);
    };
    match process {
        Ok(process) => Ok(ProcessArea { process, area }),
        Err(kind) => Err(kind),
    }
}

/// `ip ospf P area N`
fn area_line(words: &Words) -> Result<ProcessArea, ReadKind>
    ensures { result ≡ area_line words.now }
{
    process_area(
        area_of(words.at(4)),
        number_from(words.at(2), 1, MOST_PROCESS, ReadKind::SecondProcess),
    )
}

/// `ip ospf network K`
fn network_kind(word: &[u8]) -> Result<bool, ReadKind>
    ensures { result ≡ network_kind word.now }
{
    if is_text(word, b"point-to-point") {
        return Ok(true);
    }
    if is_text(word, b"broadcast") {
        return Ok(false);
    }
    Err(ReadKind::Unsupported)
}

/// `ip ospf cost N`, `ip ospf network K` and `ip ospf P area N`
fn ospf_of_interface(words: &Words) -> InterfaceLine
    ensures { result ≡ ospf_of_interface words.now }
{
    if words.says(2, b"cost") {
        return InterfaceLine::Cost(number_from(
            words.at(3),
            1,
            MOST_INTERFACE_COST,
            ReadKind::BadCost,
        ));
    }
    if words.says(2, b"network") {
        return InterfaceLine::PointToPoint(network_kind(words.at(3)));
    }
    if words.says(3, b"area") {
        return InterfaceLine::Area(area_line(words));
    }
    InterfaceLine::Skipped
}

/// The lines that begin with `ip`
fn ip_of_interface(alloc: Global, words: &Words) -> Result<InterfaceLine, OutOfMemory>
    ensures { IfOk result (λ line. line ≡ ip_of_interface words.now) }
{
    if words.says(1, b"address") {
        return Ok(InterfaceLine::Address(address_line(words)));
    }
    if words.says(1, b"unnumbered") {
        return Ok(InterfaceLine::Faulty(ReadKind::Unsupported));
    }
    if words.says(1, b"ospf") {
        return Ok(ospf_of_interface(words));
    }
    if words.says(1, b"vrf") && words.says(2, b"forwarding") {
        return Ok(InterfaceLine::Vrf);
    }
    if words.says(1, b"router") && words.says(2, b"isis") {
        return Ok(InterfaceLine::Isis(name_of(alloc, words.at(3))?));
    }
    Ok(InterfaceLine::Skipped)
}

/// `isis metric N`, with a level or without
fn metric_line(words: &Words) -> InterfaceLine
    ensures { result ≡ metric_line words.now }
{
    let metric = number_from(words.at(2), 1, MOST_METRIC, ReadKind::BadMetric);
    if words.lacks(3) {
        return InterfaceLine::Metric(metric);
    }
    if words.says(3, b"level-1") {
        return InterfaceLine::Metric1(metric);
    }
    if words.says(3, b"level-2") {
        return InterfaceLine::Metric2(metric);
    }
    InterfaceLine::Faulty(ReadKind::BadLevel)
}

/// The lines that begin with `isis`
fn isis_of_interface(words: &Words) -> InterfaceLine
    ensures { result ≡ isis_of_interface words.now }
{
    if words.says(1, b"circuit-type") {
        return InterfaceLine::Circuit(levels_of(words.at(2)));
    }
    if words.says(1, b"metric") {
        return metric_line(words);
    }
    InterfaceLine::Skipped
}

/// `bandwidth N`, where N begins with a digit
fn bandwidth_line(word: &[u8]) -> InterfaceLine
    ensures { result ≡ bandwidth_line word.now }
{
    match word.first() {
        Some(byte) if byte.is_ascii_digit() => {
            InterfaceLine::Bandwidth(number_from(word, 1, MOST_BANDWIDTH, ReadKind::NoBandwidth))
        }
        _ => InterfaceLine::Skipped,
    }
}

/// The other lines of an interface
fn plain_of_interface(words: &Words) -> InterfaceLine
    ensures { result ≡ plain_of_interface words.now }
{
    if words.says(0, b"bandwidth") {
        return bandwidth_line(words.at(1));
    }
    if words.says(0, b"shutdown") {
        return InterfaceLine::Shutdown(true);
    }
    if words.begins_with_two(b"no", b"shutdown") {
        return InterfaceLine::Shutdown(false);
    }
    if words.begins_with_three(b"no", b"ip", b"address") {
        return InterfaceLine::NoAddress;
    }
    if words.begins_with_two(b"vrf", b"forwarding") {
        return InterfaceLine::Vrf;
    }
    InterfaceLine::Skipped
}

/// What a line of an interface says.
pub fn interface_line(alloc: Global, words: &Words) -> Result<InterfaceLine, OutOfMemory>
    ensures { IfOk result (λ line. line ≡ interface_line words.now) }
{
    if words.says(0, b"ip") {
        return ip_of_interface(alloc, words);
    }
    if words.says(0, b"isis") {
        return Ok(isis_of_interface(words));
    }
    Ok(plain_of_interface(words))
}

/// The fault that a line has by itself.
pub fn interface_line_fault(line: &InterfaceLine) -> Option<ReadKind>
    ensures { result ≡ interface_line_fault line.now }
{
    match line {
        InterfaceLine::Address(Err(kind)) => Some(*kind),
        InterfaceLine::Bandwidth(r)
        | InterfaceLine::Cost(r)
        | InterfaceLine::Metric(r)
        | InterfaceLine::Metric1(r)
        | InterfaceLine::Metric2(r) => r.err(),
        InterfaceLine::Area(Err(kind)) => Some(*kind),
        InterfaceLine::PointToPoint(Err(kind)) => Some(*kind),
        InterfaceLine::Circuit(Err(kind)) => Some(*kind),
        InterfaceLine::Faulty(kind) => Some(*kind),
        _ => None,
    }
}

/// Whether a line puts the interface into a VRF.
fn is_vrf(line: &InterfaceLine) -> bool
    ensures { result ≡ is_vrf line.now }
{
    matches!(line, InterfaceLine::Vrf)
}

/// Whether an interface is in a VRF.
fn in_vrf(lines: &[InterfaceStatement]) -> bool
    ensures { result ≡ in_vrf lines.now }
{
    lines.iter().any(|statement| is_vrf(&statement.says))
}

/// The lines of an interface that count: none where it is in a VRF.
pub fn counting(lines: &[InterfaceStatement]) -> &[InterfaceStatement]
    ensures { result.now ≡ counting lines.now }
{
    if in_vrf(lines) { &[] } else { lines }
}
