ghost use Rattle.std.specs.Prelude.{◌≡◌};
ghost use Rattle.ios_reader.specs.InterfaceFacts.{facts_of, noted};

use ios_lines::address::InterfaceAddress;
use ios_lines::interface_line::{InterfaceLine, InterfaceStatement, ProcessArea};
use ios_lines::kind::ReadKind;
use net_model::Levels;

/// An `ip address` line, at its place in the text.
#[derive(Clone, Copy, Debug)]
pub struct PlacedAddress {
    /// The number of the line.
    pub line: u32,
    /// The address that the line gives.
    pub address: Result<InterfaceAddress, ReadKind>,
}

/// What the lines of an interface say in the end: of each form the last line, `None` where there is none.
#[derive(Clone, Copy, Debug)]
pub struct InterfaceFacts {
    /// `ip address A M`, and `None` inside where `no ip address` took it away.
    pub address: Option<Option<PlacedAddress>>,
    /// `shutdown`, or `no shutdown`.
    pub shut: Option<bool>,
    /// `bandwidth N`, in kbit/s.
    pub bandwidth: Option<Result<u32, ReadKind>>,
    /// `ip ospf cost N`.
    pub cost: Option<Result<u32, ReadKind>>,
    /// `ip ospf P area N`.
    pub area: Option<Result<ProcessArea, ReadKind>>,
    /// `ip ospf network K`.
    pub point_to_point: Option<Result<bool, ReadKind>>,
    /// `ip router isis`.
    pub isis: Option<bool>,
    /// `isis circuit-type L`.
    pub circuit: Option<Result<Levels, ReadKind>>,
    /// `isis metric N`.
    pub metric: Option<Result<u32, ReadKind>>,
    /// `isis metric N level-1`.
    pub metric1: Option<Result<u32, ReadKind>>,
    /// `isis metric N level-2`.
    pub metric2: Option<Result<u32, ReadKind>>,
}

/// What the lines of an interface say in the end, with one more line.
fn note(facts: &mut InterfaceFacts, statement: &InterfaceStatement)
    ensures { facts.new ≡ noted facts.old statement.now }
{
    match &statement.says {
        InterfaceLine::Address(address) => {
            facts.address = Some(Some(PlacedAddress {
                line: statement.line,
                address: *address,
            }));
        }
        InterfaceLine::NoAddress => facts.address = Some(None),
        InterfaceLine::Shutdown(shut) => facts.shut = Some(*shut),
        InterfaceLine::Bandwidth(bandwidth) => facts.bandwidth = Some(*bandwidth),
        InterfaceLine::Cost(cost) => facts.cost = Some(*cost),
        InterfaceLine::Area(area) => facts.area = Some(*area),
        InterfaceLine::PointToPoint(point_to_point) => facts.point_to_point = Some(*point_to_point),
        InterfaceLine::Isis(_) => facts.isis = Some(true),
        InterfaceLine::Circuit(circuit) => facts.circuit = Some(*circuit),
        InterfaceLine::Metric(metric) => facts.metric = Some(*metric),
        InterfaceLine::Metric1(metric) => facts.metric1 = Some(*metric),
        InterfaceLine::Metric2(metric) => facts.metric2 = Some(*metric),
        InterfaceLine::Vrf | InterfaceLine::Faulty(_) | InterfaceLine::Skipped => {}
    }
}

/// What the lines of an interface say in the end: of each form the last one.
pub(crate) fn facts_of(lines: &[InterfaceStatement]) -> InterfaceFacts
    ensures { result ≡ facts_of lines.now }
{
    let mut facts = InterfaceFacts {
        address: None,
        shut: None,
        bandwidth: None,
        cost: None,
        area: None,
        point_to_point: None,
        isis: None,
        circuit: None,
        metric: None,
        metric1: None,
        metric2: None,
    };
    for statement in lines {
        note(&mut facts, statement);
    }
    facts
}
