ghost use Rattle.std.specs.Prelude.{◌≢◌, ◌≤◌, All, AllPairs, IfOk};
ghost use Rattle.net_model.specs.Configuration.{IsInterface};

use crate::interface::{Addressed, isis_interface, three_interfaces};
use crate::router::isis_router;
use net_model::{Configs, Interfaces, Levels};
use std::alloc::{AllocError as OutOfMemory, Global};

/// Four routers in a ring, on links whose metrics are 10, but for the one from R2 to R1:
///
/// ```text
///   R0 --- R2 --- R1
///     \          /
///      --- R3 ---
/// ```
///
/// R0 and R1 run both levels, R2 level 1 in their area, and R3 level 2 in another area. The loopback of Ri is
/// 10.0.0.i+1, the links are 10.0.13.0/30, 10.0.14.0/30, 10.0.23.0/30 and 10.0.24.0/30 in the order R0-R2, R0-R3, R2-R1, R3-R1.
pub fn ring_of_levels(alloc: Global, metric: u32) -> Result<Configs, OutOfMemory>
    requires some { 1 ≤ metric }
    requires most { metric ≤ 16777214 }
{
    let mut all = Vec::new(alloc);
    let zero = interfaces(alloc, 1, [0x0a00_0d01, 0x0a00_0e01], 10, Levels::Both)?;
    all.push(isis_router(alloc, 0, 1, Levels::Both, zero)?)?;
    let one = interfaces(alloc, 2, [0x0a00_1701, 0x0a00_1801], 10, Levels::Both)?;
    all.push(isis_router(alloc, 1, 1, Levels::Both, one)?)?;
    let two = interfaces(alloc, 3, [0x0a00_0d02, 0x0a00_1702], metric, Levels::One)?;
    all.push(isis_router(alloc, 2, 1, Levels::One, two)?)?;
    let three = interfaces(alloc, 4, [0x0a00_0e02, 0x0a00_1802], 10, Levels::Two)?;
    all.push(isis_router(alloc, 3, 2, Levels::Two, three)?)?;
    Ok(Configs::from_vec(all))
}

/// A loopback of 10.0.0.number and two links of /30; the metrics are 10, but for the second link's.
fn interfaces(
    alloc: Global,
    number: u8,
    links: [u32; 2],
    metric: u32,
    levels: Levels,
) -> Result<Interfaces, OutOfMemory>
    requires some { 1 ≤ metric }
    requires most { metric ≤ 16777214 }
    ensures kept { IfOk result (All IsInterface) }
    ensures apart { IfOk result (AllPairs (λ i j. i.name ≢ j.name)) }
{
    let loopback = isis_interface(
        alloc,
        Addressed {
            name: 0,
            address: 0x0a00_0000 + u32::from(number),
            len: 32,
        },
        10,
        levels,
    )?;
    let first = isis_interface(
        alloc,
        Addressed {
            name: 1,
            address: links[0],
            len: 30,
        },
        10,
        levels,
    )?;
    let second = isis_interface(
        alloc,
        Addressed {
            name: 2,
            address: links[1],
            len: 30,
        },
        metric,
        levels,
    )?;
    three_interfaces(alloc, loopback, first, second)
}
