ghost use Rattle.std.specs.Prelude.{◌≢◌, ◌≤◌, All, AllPairs};
ghost use Rattle.net_model.specs.Configuration.{IsInterface};

use crate::interface::{Addressed, one_interface, ospf_interface};
use crate::router::{AreaRules, ospf_router};
use net_model::{Config, Configs, Interfaces, Ranges, Stubs};
use std::alloc::{AllocError as OutOfMemory, Global};

/// The routers R1, R2 and so on, at most nine, without interfaces.
pub fn bare(alloc: Global, count: u8) -> Result<Configs, OutOfMemory> {
    let mut all = Vec::new(alloc);
    for number in 1..10 {
        if number <= count {
            let none = Interfaces::from_vec(Vec::new(alloc));
            all.push(plain_router(alloc, number, none)?)?;
        }
    }
    Ok(Configs::from_vec(all))
}

/// The routers R1, R2 and so on, at most nine, with the loopbacks 10.0.0.1, 10.0.0.2 and so on, of which OSPF
/// announces the last alone.
pub fn one_target(alloc: Global, count: u8) -> Result<Configs, OutOfMemory> {
    let mut all = Vec::new(alloc);
    for number in 1..10 {
        if number <= count {
            let area = if number == count { Some(0) } else { None };
            let loopback = ospf_interface(
                alloc,
                Addressed {
                    name: 0,
                    address: 0x0a00_0000 + u32::from(number),
                    len: 32,
                },
                area,
                1,
            )?;
            let interfaces = one_interface(alloc, loopback)?;
            all.push(plain_router(alloc, number, interfaces)?)?;
        }
    }
    Ok(Configs::from_vec(all))
}

/// The routers R1 and R2 on 10.0.0.0/28, in area 0 at a cost each.
pub fn pair(alloc: Global, one: u32, two: u32) -> Result<Configs, OutOfMemory>
    requires some_one { 1 ≤ one }
    requires most_one { one ≤ 65535 }
    requires some_two { 1 ≤ two }
    requires most_two { two ≤ 65535 }
{
    let mut all = Vec::new(alloc);
    let first = ospf_interface(
        alloc,
        Addressed {
            name: 0,
            address: 0x0a00_0001,
            len: 28,
        },
        Some(0),
        one,
    )?;
    let second = ospf_interface(
        alloc,
        Addressed {
            name: 0,
            address: 0x0a00_0002,
            len: 28,
        },
        Some(0),
        two,
    )?;
    all.push(plain_router(alloc, 1, one_interface(alloc, first)?)?)?;
    all.push(plain_router(alloc, 2, one_interface(alloc, second)?)?)?;
    Ok(Configs::from_vec(all))
}

/// The router of this number, without ranges and stub areas.
fn plain_router(alloc: Global, number: u8, interfaces: Interfaces) -> Result<Config, OutOfMemory>
    requires digit { number ≤ 9 }
    requires kept { All IsInterface interfaces }
    requires apart { AllPairs (λ i j. i.name ≢ j.name) interfaces }
{
    let rules = AreaRules {
        ranges: Ranges::from_vec(Vec::new(alloc)),
        stubs: Stubs::from_vec(Vec::new(alloc)),
        rfc1583: true,
    };
    ospf_router(alloc, number, interfaces, rules)
}
