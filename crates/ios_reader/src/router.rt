ghost use Rattle.std.specs.Prelude.{◌≡◌, unwrap_or};
ghost use Rattle.ios_lines.specs.Lookups.{value_or};
ghost use Rattle.ios_reader.specs.Routers.{router_with};
ghost use Rattle.ios_reader.specs.InterfacesAsRead.{network_area};
ghost use Rattle.ios_reader.specs.steps.Networks.{placed_networks};
ghost use Rattle.ios_reader.specs.steps.ProcessFacts.{ospf_noted, ospf_facts_of, isis_noted, isis_facts_of, process_facts_of};

use crate::networks::Networks;
use ios_lines::isis_line::{IsisLine, IsisStatement};
use ios_lines::kind::ReadKind;
use ios_lines::ospf_line::{OspfLine, OspfStatement};
use ios_lines::{DEFAULT_METRIC, DEFAULT_REFERENCE};
use net_model::Levels;
use std::marker::Model;

/// What the lines of an OSPF process say in the end: of each form the last line, `None` where there is none.
#[derive(Clone, Copy, Debug)]
pub(crate) struct OspfFacts {
    /// `passive-interface default`, or with `no`.
    pub passive_default: Option<bool>,
    /// `auto-cost reference-bandwidth N`, in Mbit/s.
    pub reference: Option<Result<u32, ReadKind>>,
    /// `distance N`.
    pub distance: Option<Result<u8, ReadKind>>,
    /// `compatible rfc1583`, or with `no`.
    pub rfc1583: Option<bool>,
}

/// What the lines of an IS-IS process say in the end: of each form the last line, `None` where there is none.
#[derive(Clone, Copy, Debug)]
pub(crate) struct IsisFacts {
    /// `is-type L`.
    pub levels: Option<Result<Levels, ReadKind>>,
    /// `metric N`.
    pub metric: Option<Result<u32, ReadKind>>,
    /// `distance N`.
    pub distance: Option<Result<u8, ReadKind>>,
    /// `redistribute isis ip level-2 into level-1`.
    pub leak: Option<bool>,
}

/// What the lines of both processes say in the end.
#[derive(Clone, Copy, Debug)]
pub(crate) struct ProcessFacts {
    /// What those of the OSPF process say.
    pub ospf: OspfFacts,
    /// What those of the IS-IS process say.
    pub isis: IsisFacts,
}

/// What the lines of an OSPF process say in the end, with one more line.
fn note_ospf(facts: &mut OspfFacts, statement: &OspfStatement)
    ensures { facts.new ≡ ospf_noted facts.old statement.now }
{
    match &statement.says {
        OspfLine::PassiveDefault(passive) => facts.passive_default = Some(*passive),
        OspfLine::Reference(reference) => facts.reference = Some(*reference),
        OspfLine::Distance(distance) => facts.distance = Some(*distance),
        OspfLine::Rfc1583(compatible) => facts.rfc1583 = Some(*compatible),
        _ => {}
    }
}

/// What the lines of an OSPF process say in the end: of each form the last one.
fn ospf_facts_of(lines: &[OspfStatement]) -> OspfFacts
    ensures { result ≡ ospf_facts_of lines.now }
{
    let mut facts = OspfFacts {
        passive_default: None,
        reference: None,
        distance: None,
        rfc1583: None,
    };
    for statement in lines {
        note_ospf(&mut facts, statement);
    }
    facts
}

/// What the lines of an IS-IS process say in the end, with one more line.
fn note_isis(facts: &mut IsisFacts, statement: &IsisStatement)
    ensures { facts.new ≡ isis_noted facts.old statement.now }
{
    match &statement.says {
        IsisLine::Levels(levels) => facts.levels = Some(*levels),
        IsisLine::Metric(metric) => facts.metric = Some(*metric),
        IsisLine::Distance(distance) => facts.distance = Some(*distance),
        IsisLine::Leak => facts.leak = Some(true),
        _ => {}
    }
}

/// What the lines of an IS-IS process say in the end: of each form the last one.
fn isis_facts_of(lines: &[IsisStatement]) -> IsisFacts
    ensures { result ≡ isis_facts_of lines.now }
{
    let mut facts = IsisFacts {
        levels: None,
        metric: None,
        distance: None,
        leak: None,
    };
    for statement in lines {
        note_isis(&mut facts, statement);
    }
    facts
}

/// What the lines of both processes say in the end.
pub(crate) fn process_facts_of(ospf: &[OspfStatement], isis: &[IsisStatement]) -> ProcessFacts
    ensures { result ≡ process_facts_of ospf.now isis.now }
{
    ProcessFacts {
        ospf: ospf_facts_of(ospf),
        isis: isis_facts_of(isis),
    }
}

/// What the two processes of a router say that concerns its interfaces.
#[derive(Drop)]
pub(crate) struct Router<'a> {
    /// The number of the OSPF process.
    pub process: Option<u32>,
    /// The lines of the OSPF process.
    pub ospf: &'a [OspfStatement],
    /// The `network` lines among them.
    pub networks: &'a Networks,
    /// The lines of the IS-IS process.
    pub isis: &'a [IsisStatement],
    /// Whether interfaces that no line names are passive for OSPF.
    pub passive_default: bool,
    /// The reference bandwidth, in Mbit/s.
    pub reference: u32,
    /// The levels that the router runs.
    pub levels: Levels,
    /// The IS-IS metric of interfaces without one.
    pub metric: u32,
}

impl<'a> Model for Router<'a> {
    ghost use Rattle.std.specs.Prelude.{◌≡◌};
    ghost use Rattle.ios_reader.specs.Routers.{Router};
    ghost use Rattle.ios_reader.specs.steps.Networks.{placed_networks};

    ghost Value = { Router };

    ghost view = { λ r. record {
      process = r.process;
      ospf = r.ospf.now;
      isis = r.isis.now;
      passive_default = r.passive_default;
      reference = r.reference;
      levels = r.levels;
      metric = r.metric;
    } };

    ghost invariant = { λ r. r.networks.now ≡ placed_networks 0 r.ospf.now };
}

/// The area of the first `network` line that takes the address.
pub(crate) fn network_area(router: &Router, address: u32) -> Option<u32>
    ensures { result ≡ network_area router.now.ospf address }
{
    match router.networks.first_taking(address) {
        Some(line) => Some(line.network.area),
        None => None,
    }
}

/// A number that is there and good, or else the one that holds without a line.
fn value_or(value: Option<Result<u32, ReadKind>>, default: u32) -> u32
    ensures { result ≡ value_or value default }
{
    match value {
        Some(Ok(value)) => value,
        _ => default,
    }
}

/// Levels that are there and good, or else both.
pub(crate) fn levels_or_both(levels: Option<Result<Levels, ReadKind>>) -> Levels
    ensures { result ≡ value_or levels Levels.Both }
{
    match levels {
        Some(Ok(levels)) => levels,
        _ => Levels::Both,
    }
}

/// A router by the number of its OSPF process, the lines of its two processes, and what they say in the end.
pub(crate) fn router_with<'a>(
    process: Option<u32>,
    ospf: &'a [OspfStatement],
    networks: &'a Networks,
    isis: &'a [IsisStatement],
    facts: ProcessFacts,
) -> Router<'a>
    requires networks { networks.now ≡ placed_networks 0 ospf.now }
    requires facts { facts ≡ process_facts_of ospf.now isis.now }
    ensures { result ≡ router_with process ospf.entry.now isis.entry.now }
{
    Router {
        process,
        ospf,
        networks,
        isis,
        passive_default: facts.ospf.passive_default.unwrap_or(false),
        reference: value_or(facts.ospf.reference, DEFAULT_REFERENCE),
        levels: levels_or_both(facts.isis.levels),
        metric: value_or(facts.isis.metric, DEFAULT_METRIC),
    }
}
