ghost use Rattle.std.specs.Prelude.{◌≡◌, ◌≤◌, IfOk, IfSome};
ghost use Rattle.ios_lines.specs.OspfLines.{network_values, network_line, stub_values, stub_line, default_cost_values, default_cost_line, prefix_of};
ghost use Rattle.ios_lines.specs.OspfLines.{cost_place, range_cost, range_ends, range_prefix, range_line, is_unsupported_area, area_line, ospf_distance};
ghost use Rattle.ios_lines.specs.OspfLines.{ospf_passive, is_unsupported_ospf, plain_of_ospf, ospf_line, ospf_line_fault};

use crate::OutOfMemory;
use crate::bounds::MOST_REFERENCE;
use crate::kind::ReadKind;
use crate::octets::{address_of, mask_of};
use crate::words::{Words, area_of, is_text, name_of, number_from};
use net_addr::{Name, Prefix};
use net_model::{ISIS_DISTANCE, MOST_COST, MOST_DISTANCE, Range};
use std::alloc::Global;

/// A `network` line: the addresses that agree with `address` outside the bits of `wildcard` are of the area.
#[derive(Clone, Copy, Debug)]
pub struct NetworkLine {
    /// The address to agree with.
    pub address: u32,
    /// The bits that don't count.
    pub wildcard: u32,
    /// The number of the area.
    pub area: u32,
}

/// A stub area, and whether a border router announces its default route alone into it.
#[derive(Clone, Copy, Debug)]
pub struct StubLine {
    /// The number of the area, other than 0.
    pub area: u32,
    /// Whether the line ends with `no-summary`.
    pub no_summary: bool,
}

/// The cost of the default route into an area.
#[derive(Clone, Copy, Debug)]
pub struct DefaultCost {
    /// The number of the area.
    pub area: u32,
    /// The cost, at most `MOST_COST`.
    pub cost: u32,
}

/// Whether an interface is passive.
#[derive(Debug, Drop)]
pub struct PassiveLine {
    /// The name of the interface.
    pub name: Name,
    /// Whether the line makes it passive.
    pub passive: bool,
}

/// What a line of `router ospf` says.
#[derive(Debug, Drop)]
pub enum OspfLine {
    /// `network A W area N`
    Network(Result<NetworkLine, ReadKind>),
    /// `passive-interface NAME`, or with `no`
    Passive(PassiveLine),
    /// `passive-interface default`, or with `no`
    PassiveDefault(bool),
    /// `auto-cost reference-bandwidth N`, in Mbit/s
    Reference(Result<u32, ReadKind>),
    /// `area N stub`, or with `no-summary`
    Stub(Result<StubLine, ReadKind>),
    /// `area N default-cost C`
    DefaultCost(Result<DefaultCost, ReadKind>),
    /// `area N range A M` and what follows
    Range(Result<Range, ReadKind>),
    /// `distance N`
    Distance(Result<u8, ReadKind>),
    /// `compatible rfc1583`, or with `no`
    Rfc1583(bool),
    /// a line that is faulty and says nothing
    Faulty(ReadKind),
    /// a line without meaning here
    Skipped,
}

/// A line of `router ospf` at its place in the text.
#[derive(Debug, Drop)]
pub struct OspfStatement {
    /// The number of the line.
    pub line: u32,
    /// What the line says.
    pub says: OspfLine,
}

/// The values of a `network` line.
fn network_values(
    address: Option<u32>,
    wildcard: Option<u32>,
    named: bool,
    area: Option<u32>,
) -> Result<NetworkLine, ReadKind>
    ensures { result ≡ network_values address wildcard named area }
{
    let (Some(address), Some(wildcard), true) = (address, wildcard, named) else {
        return Err(ReadKind::BadAddress);
    };
    match area {
        Some(area) => Ok(NetworkLine {
            address,
            wildcard,
            area,
        }),
        None => Err(ReadKind::BadArea),
    }
}

/// `network A W area N`
fn network_line(words: &Words) -> Result<NetworkLine, ReadKind>
    ensures { result ≡ network_line words.now }
{
    network_values(
        address_of(words.at(1)),
        address_of(words.at(2)),
        words.says(3, b"area"),
        area_of(words.at(4)),
    )
}

/// A stub area other than the backbone.
fn stub_values(area: Option<u32>, no_summary: bool) -> Result<StubLine, ReadKind>
    ensures { result ≡ stub_values area no_summary }
{
    match area {
        None | Some(0) => Err(ReadKind::BadArea),
        Some(area) => Ok(StubLine { area, no_summary }),
    }
}

/// `area N stub`, `area N stub no-summary`
fn stub_line(words: &Words) -> Result<StubLine, ReadKind>
    ensures { result ≡ stub_line words.now }
{
    stub_values(area_of(words.at(1)), words.says(3, b"no-summary"))
}

/// The default cost of an area.
fn default_cost_values(
    cost: Result<u32, ReadKind>,
    area: Option<u32>,
) -> Result<DefaultCost, ReadKind>
    ensures { result ≡ default_cost_values cost area }
{
    match (cost, area) {
        (Err(kind), _) => Err(kind),
        (Ok(_), None) => Err(ReadKind::BadArea),
        (Ok(cost), Some(area)) => Ok(DefaultCost { area, cost }),
    }
}

/// `area N default-cost C`
fn default_cost_line(words: &Words) -> Result<DefaultCost, ReadKind>
    ensures { result ≡ default_cost_line words.now }
{
    default_cost_values(
        number_from(words.at(3), 0, MOST_COST, ReadKind::BadCost),
        area_of(words.at(1)),
    )
}

/// Where `cost` may stand on a range line.
fn cost_place(words: &Words) -> usize
    ensures value { result ≡ cost_place words.now }
    ensures small { result ≤ 6 }
{
    if words.says(5, b"advertise") || words.says(5, b"not-advertise") {
        6
    } else {
        5
    }
}

/// `cost C`, or nothing
fn range_cost(words: &Words, k: usize) -> Result<Option<u32>, ReadKind>
    requires { k ≤ 6 }
    ensures { result ≡ range_cost words.now k }
{
    if !words.says(k, b"cost") {
        return Ok(None);
    }
    match number_from(words.at(k + 1), 0, MOST_COST, ReadKind::BadCost) {
        Ok(cost) => Ok(Some(cost)),
        Err(kind) => Err(kind),
    }
}

/// Whether nothing else stands on a range line.
fn range_ends(words: &Words, k: usize) -> bool
    requires { k ≤ 6 }
    ensures { result ≡ range_ends words.now k }
{
    if words.says(k, b"cost") {
        words.lacks(k + 2)
    } else {
        words.lacks(k)
    }
}

/// The prefix of an address and the length of its mask.
pub(crate) fn prefix_of(address: u32, len: u8) -> Prefix
    requires { len ≤ 32 }
    ensures { result ≡ prefix_of address len }
{
    Prefix::around(address, len).unwrap()
}

/// The prefix of a range line; a bad address is the lesser fault.
fn range_prefix(address: Option<u32>, len: Option<u8>) -> Result<Prefix, ReadKind>
    requires { IfSome len (λ n. n ≤ 32) }
    ensures { result ≡ range_prefix address len }
{
    match (address, len) {
        (None, _) => Err(ReadKind::BadAddress),
        (Some(_), None) => Err(ReadKind::BadMask),
        (Some(address), Some(len)) => Ok(prefix_of(address, len)),
    }
}

/// `area N range A M` and what follows; faults in the order of their kinds.
fn range_line(words: &Words) -> Result<Range, ReadKind>
    ensures { result ≡ range_line words.now }
{
    let place = cost_place(words);
    let dest = range_prefix(address_of(words.at(3)), mask_of(words.at(4)))?;
    let cost = range_cost(words, place)?;
    let Some(area) = area_of(words.at(1)) else {
        return Err(ReadKind::BadArea);
    };
    if !range_ends(words, place) {
        return Err(ReadKind::Unsupported);
    }
    Ok(Range {
        area,
        dest,
        advertise: !words.says(5, b"not-advertise"),
        cost,
    })
}

/// Whether an area can do this, which isn't supported.
fn is_unsupported_area(word: &[u8]) -> bool
    ensures { result ≡ is_unsupported_area word.now }
{
    is_text(word, b"nssa")
        || is_text(word, b"virtual-link")
        || is_text(word, b"sham-link")
        || is_text(word, b"filter-list")
}

/// The lines that begin with `area`
fn area_line(words: &Words) -> OspfLine
    ensures { result ≡ area_line words.now }
{
    if words.says(2, b"stub") {
        return OspfLine::Stub(stub_line(words));
    }
    if words.says(2, b"default-cost") {
        return OspfLine::DefaultCost(default_cost_line(words));
    }
    if words.says(2, b"range") {
        return OspfLine::Range(range_line(words));
    }
    if is_unsupported_area(words.at(2)) {
        return OspfLine::Faulty(ReadKind::Unsupported);
    }
    OspfLine::Skipped
}

/// `distance N`, and nothing else
fn ospf_distance(words: &Words) -> Result<u8, ReadKind>
    ensures { result ≡ ospf_distance words.now }
{
    if words.says(1, b"ospf") || !words.lacks(2) {
        return Err(ReadKind::Unsupported);
    }
    match number_from(
        words.at(1),
        1,
        u32::from(MOST_DISTANCE),
        ReadKind::BadDistance,
    ) {
        Err(kind) => Err(kind),
        Ok(distance) if distance == u32::from(ISIS_DISTANCE) => Err(ReadKind::DistanceClash),
        Ok(distance) => Ok(distance as u8),
    }
}

/// `passive-interface NAME`, its name at this place
fn ospf_passive(
    alloc: Global,
    words: &Words,
    k: usize,
    passive: bool,
) -> Result<OspfLine, OutOfMemory>
    ensures { IfOk result (λ line. line ≡ ospf_passive words.now k passive) }
{
    if words.lacks(k) {
        return Ok(OspfLine::Skipped);
    }
    if words.says(k, b"default") {
        return Ok(OspfLine::PassiveDefault(passive));
    }
    let name = name_of(alloc, words.at(k))?;
    Ok(OspfLine::Passive(PassiveLine { name, passive }))
}

/// Whether a line that begins so isn't supported in `router ospf`.
fn is_unsupported_ospf(word: &[u8]) -> bool
    ensures { result ≡ is_unsupported_ospf word.now }
{
    is_text(word, b"redistribute")
        || is_text(word, b"default-information")
        || is_text(word, b"distribute-list")
        || is_text(word, b"max-metric")
        || is_text(word, b"summary-address")
        || is_text(word, b"shutdown")
}

/// The lines that set a value of the process or take something back
fn plain_of_ospf(words: &Words) -> OspfLine
    ensures { result ≡ plain_of_ospf words.now }
{
    if words.begins_with_two(b"auto-cost", b"reference-bandwidth") {
        return OspfLine::Reference(number_from(words.at(2), 1, MOST_REFERENCE, ReadKind::BadCost));
    }
    if words.says(0, b"distance") {
        return OspfLine::Distance(ospf_distance(words));
    }
    if words.begins_with_two(b"compatible", b"rfc1583") {
        return OspfLine::Rfc1583(true);
    }
    if words.begins_with_three(b"no", b"compatible", b"rfc1583") {
        return OspfLine::Rfc1583(false);
    }
    if is_unsupported_ospf(words.at(0)) {
        return OspfLine::Faulty(ReadKind::Unsupported);
    }
    OspfLine::Skipped
}

/// What a line of `router ospf` says.
pub fn ospf_line(alloc: Global, words: &Words) -> Result<OspfLine, OutOfMemory>
    ensures { IfOk result (λ line. line ≡ ospf_line words.now) }
{
    if words.says(0, b"network") {
        return Ok(OspfLine::Network(network_line(words)));
    }
    if words.says(0, b"area") {
        return Ok(area_line(words));
    }
    if words.says(0, b"passive-interface") {
        return ospf_passive(alloc, words, 1, true);
    }
    if words.begins_with_two(b"no", b"passive-interface") {
        return ospf_passive(alloc, words, 2, false);
    }
    Ok(plain_of_ospf(words))
}

/// The fault that a line has by itself.
pub fn ospf_line_fault(line: &OspfLine) -> Option<ReadKind>
    ensures { result ≡ ospf_line_fault line.now }
{
    match line {
        OspfLine::Network(Err(kind)) => Some(*kind),
        OspfLine::Reference(Err(kind)) => Some(*kind),
        OspfLine::Stub(Err(kind)) => Some(*kind),
        OspfLine::DefaultCost(Err(kind)) => Some(*kind),
        OspfLine::Range(Err(kind)) => Some(*kind),
        OspfLine::Distance(Err(kind)) => Some(*kind),
        OspfLine::Faulty(kind) => Some(*kind),
        _ => None,
    }
}
