ghost use Rattle.std.specs.Prelude.{◌≢◌, ◌≤◌, All, AllPairs, IfOk};
ghost use Rattle.net_model.specs.Configuration.{AreRangesApart, IsInterface, IsRange, IsStub};

use crate::interface::{Addressed, ospf_interface, three_interfaces};
use crate::router::{AreaRules, ospf_router};
use net_addr::Prefix;
use net_model::{Config, Configs, Interfaces, Range, Ranges, Stub, Stubs};
use std::alloc::{AllocError as OutOfMemory, Global};

/// What the border routers of a ring say of its area 1.
#[derive(Clone, Copy)]
pub struct Rules {
    /// Whether they have the range 10.1.0.0/16.
    pub ranged: bool,
    /// Whether a range costs the least of its components.
    pub rfc1583: bool,
    /// The default cost of R1 into the area, where it is totally stubby there.
    pub near: Option<u32>,
    /// The default cost of R3 into the area, where it is totally stubby there and at R2.
    pub far: Option<u32>,
}

impl Rules {
    /// What a border router says, with this default cost.
    fn border(self, default_cost: Option<u32>) -> Border {
        Border {
            ranged: self.ranged,
            default_cost,
            rfc1583: self.rfc1583,
        }
    }
}

/// Four routers in a ring, whose links cost 1 but where a number stands: 10 from R1 to R2, and 5 both ways
/// between R0 and R3.
///
/// ```text
///   R1 -- 10 -- R2
///   |           |
///   R0 --- 5 -- R3
/// ```
///
/// The links of R0 are in area 0 and those of R2 in area 1, so R1 and R3 are border routers. R1 has 10.1.2.0/24 in
/// area 1 as well, and R2 the loopback 10.1.0.3/32.
pub fn ring_of_areas(alloc: Global, rules: Rules) -> Result<Configs, OutOfMemory> {
    let mut all = Vec::new(alloc);
    let zero = interfaces(
        alloc,
        (0x0a00_0001, 32, 0),
        (0x0a00_0c01, 0, 1),
        (0x0a00_0e01, 0, 5),
    )?;
    all.push(router(alloc, 0, zero, plain(None))?)?;
    let one = interfaces(
        alloc,
        (0x0a01_0201, 24, 1),
        (0x0a00_0c02, 0, 1),
        (0x0a01_1701, 1, 10),
    )?;
    all.push(router(alloc, 1, one, rules.border(rules.near))?)?;
    let two = interfaces(
        alloc,
        (0x0a01_0003, 32, 1),
        (0x0a01_1702, 1, 1),
        (0x0a01_2201, 1, 1),
    )?;
    all.push(router(alloc, 2, two, plain(rules.far))?)?;
    let three = interfaces(
        alloc,
        (0x0a00_0004, 32, 0),
        (0x0a00_0e02, 0, 5),
        (0x0a01_2202, 1, 1),
    )?;
    all.push(router(alloc, 3, three, rules.border(rules.far))?)?;
    Ok(Configs::from_vec(all))
}

/// A subnet of this length in one area at cost 1, and two links of /30 with their areas and costs.
fn interfaces(
    alloc: Global,
    stub: (u32, u8, u32),
    one: (u32, u32, u32),
    two: (u32, u32, u32),
) -> Result<Interfaces, OutOfMemory>
    requires short { stub.1 ≤ 32 }
    requires some_one { 1 ≤ one.2 }
    requires most_one { one.2 ≤ 65535 }
    requires some_two { 1 ≤ two.2 }
    requires most_two { two.2 ≤ 65535 }
    ensures kept { IfOk result (All IsInterface) }
    ensures apart { IfOk result (AllPairs (λ i j. i.name ≢ j.name)) }
{
    let loopback = ospf_interface(
        alloc,
        Addressed {
            name: 0,
            address: stub.0,
            len: stub.1,
        },
        Some(stub.2),
        1,
    )?;
    let first = ospf_interface(
        alloc,
        Addressed {
            name: 1,
            address: one.0,
            len: 30,
        },
        Some(one.1),
        one.2,
    )?;
    let second = ospf_interface(
        alloc,
        Addressed {
            name: 2,
            address: two.0,
            len: 30,
        },
        Some(two.1),
        two.2,
    )?;
    three_interfaces(alloc, loopback, first, second)
}

/// What one router says of area 1: whether it has the range, the default cost of a totally stubby area, and whether a range costs
/// the least of its components.
#[derive(Clone, Copy)]
struct Border {
    ranged: bool,
    default_cost: Option<u32>,
    rfc1583: bool,
}

/// A router that says nothing of area 1 but that it is totally stubby, where it has a default cost.
fn plain(default_cost: Option<u32>) -> Border {
    Border {
        ranged: false,
        default_cost,
        rfc1583: true,
    }
}

/// The router of this number with its interfaces, with or without the range, and with stub area 1 where
/// it has a default cost.
fn router(
    alloc: Global,
    number: u8,
    interfaces: Interfaces,
    border: Border,
) -> Result<Config, OutOfMemory>
    requires digit { number ≤ 9 }
    requires kept { All IsInterface interfaces }
    requires apart { AllPairs (λ i j. i.name ≢ j.name) interfaces }
{
    let rules = AreaRules {
        ranges: ranges(alloc, border.ranged)?,
        stubs: stubs(alloc, border.default_cost)?,
        rfc1583: border.rfc1583,
    };
    ospf_router(alloc, number, interfaces, rules)
}

/// The range 10.1.0.0/16 of area 1, or none.
fn ranges(alloc: Global, ranged: bool) -> Result<Ranges, OutOfMemory>
    ensures kept { IfOk result (All IsRange) }
    ensures apart { IfOk result (AllPairs AreRangesApart) }
{
    let mut all = Vec::new(alloc);
    if let Some(dest) = Prefix::around(0x0a01_0000, 16) {
        if ranged {
            all.push(Range {
                area: 1,
                dest,
                advertise: true,
                cost: None,
            })?;
        }
    }
    Ok(Ranges::from_vec(all))
}

/// The stub area 1, or none.
fn stubs(alloc: Global, default_cost: Option<u32>) -> Result<Stubs, OutOfMemory>
    ensures kept { IfOk result (All IsStub) }
    ensures apart { IfOk result (AllPairs (λ s t. s.area ≢ t.area)) }
{
    let mut all = Vec::new(alloc);
    if let Some(default_cost) = default_cost {
        if default_cost <= 16777214 {
            all.push(Stub {
                area: 1,
                no_summary: true,
                default_cost,
            })?;
        }
    }
    Ok(Stubs::from_vec(all))
}
