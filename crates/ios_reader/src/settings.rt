ghost use Rattle.std.specs.Prelude.{◌≡◌, [], unwrap_or, IfOk};
ghost use Rattle.ios_lines.specs.Lookups.{value_or};
ghost use Rattle.ios_reader.specs.Configurations.{area_in, system_in, title_by, ospf_settings, isis_settings};
ghost use Rattle.ios_reader.specs.steps.ProcessFacts.{title_after, ospf_facts_of, isis_facts_of};

use crate::OutOfMemory;
use crate::areas::{ranges_in, stubs_in};
use crate::router::{IsisFacts, OspfFacts, levels_or_both};
use ios_lines::isis_line::{IsisLine, IsisStatement};
use ios_lines::kind::ReadKind;
use ios_lines::ospf_line::OspfStatement;
use ios_lines::title::Title;
use net_addr::Name;
use net_model::{ISIS_DISTANCE, Levels, OSPF_DISTANCE, Ranges, Stubs};
use std::alloc::Global;

/// What the lines of its OSPF process say of a configuration.
#[derive(Drop)]
pub(crate) struct OspfSettings {
    /// The number of the process.
    pub process: Option<u32>,
    /// The ranges of its areas.
    pub ranges: Ranges,
    /// Its stub areas.
    pub stubs: Stubs,
    /// Whether paths to a boundary router are preferred as RFC 1583 has it.
    pub rfc1583: bool,
    /// The administrative distance.
    pub distance: u8,
}

/// What the lines of its IS-IS process say of a configuration.
#[derive(Drop)]
pub(crate) struct IsisSettings {
    /// Whether there is a process.
    pub isis: bool,
    /// The tag of the process, empty where it has none.
    pub tag: Name,
    /// The area address, empty where there is no title.
    pub area: Name,
    /// The system id, 0 where there is no title.
    pub system: u64,
    /// The levels that the router runs.
    pub levels: Levels,
    /// Whether level 2 is leaked into level 1.
    pub leak: bool,
    /// The administrative distance.
    pub distance: u8,
}

/// What the lines of an OSPF process of this number say of a configuration.
pub(crate) fn ospf_settings(
    alloc: Global,
    process: Option<u32>,
    lines: &[OspfStatement],
    facts: OspfFacts,
) -> Result<OspfSettings, OutOfMemory>
    requires { facts ≡ ospf_facts_of lines.now }
    ensures { IfOk result (λ s. s ≡ ospf_settings process lines.now) }
{
    let ranges = ranges_in(alloc, lines)?;
    let stubs = stubs_in(alloc, lines)?;
    Ok(OspfSettings {
        process,
        ranges: Ranges::from_vec(ranges),
        stubs: Stubs::from_vec(stubs),
        rfc1583: facts.rfc1583.unwrap_or(true),
        distance: distance_or(facts.distance, OSPF_DISTANCE),
    })
}

/// What the lines of an IS-IS process with this tag say of a configuration.
pub(crate) fn isis_settings(
    alloc: Global,
    tag: Option<Name>,
    lines: Vec<IsisStatement>,
    facts: IsisFacts,
) -> IsisSettings
    requires { facts ≡ isis_facts_of lines.items }
    ensures { result ≡ isis_settings tag lines.items }
{
    let (area, system) = title_parts(alloc, title_of_lines(lines));
    IsisSettings {
        isis: tag.is_some(),
        tag: name_or_empty(alloc, tag),
        area,
        system,
        levels: levels_or_both(facts.levels),
        leak: facts.leak.unwrap_or(false),
        distance: distance_or(facts.distance, ISIS_DISTANCE),
    }
}

/// The title after one more line.
fn title_after(before: Option<Title>, says: IsisLine) -> Option<Title>
    ensures { result ≡ title_after before says }
{
    match says {
        IsisLine::Net(title) => title,
        _ => before,
    }
}

/// The title of the last `net` line.
#[tactic(auto, using(crate::proofs::LastTitle::title_push))]
fn title_of_lines(lines: Vec<IsisStatement>) -> Option<Title>
    ensures { result ≡ title_by lines.items }
{
    let mut title = None;
    for statement in lines {
        title = title_after(title, statement.says);
    }
    title
}

/// The area address and the system id of a title; without one they are empty and 0.
fn title_parts(alloc: Global, title: Option<Title>) -> (Name, u64)
    ensures area { result.0 ≡ area_in title }
    ensures system { result.1 ≡ system_in title }
{
    match title {
        Some(title) => (title.area, title.system),
        None => (Name::from_vec(Vec::new(alloc)), 0),
    }
}

/// A name, or the empty one.
pub(crate) fn name_or_empty(alloc: Global, name: Option<Name>) -> Name
    ensures { result ≡ unwrap_or name [] }
{
    match name {
        Some(name) => name,
        None => Name::from_vec(Vec::new(alloc)),
    }
}

/// A distance that is there and good, or else the one that holds without a line.
fn distance_or(value: Option<Result<u8, ReadKind>>, default: u8) -> u8
    ensures { result ≡ value_or value default }
{
    match value {
        Some(Ok(distance)) => distance,
        _ => default,
    }
}
