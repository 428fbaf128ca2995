ghost use Rattle.std.specs.Prelude.{◌≢◌, ◌≤◌, All, AllPairs};
ghost use Rattle.net_model.specs.Configuration.{AreRangesApart, IsInterface, IsRange, IsStub};

use net_addr::Name;
use net_model::{Config, Distances, Interfaces, Levels, Ranges, Stubs};
use std::alloc::{AllocError as OutOfMemory, Global};

/// The distances of a router before a migration.
const DISTANCES: Distances = Distances {
    ospf: 110,
    isis: 255,
};

/// What a router says of its areas: their ranges, which of them are stub areas, and whether a range costs the least of its
/// components.
#[derive(Drop)]
pub(crate) struct AreaRules {
    pub ranges: Ranges,
    pub stubs: Stubs,
    pub rfc1583: bool,
}

/// The router of this number, with OSPF process 1 and without IS-IS.
pub(crate) fn ospf_router(
    alloc: Global,
    number: u8,
    interfaces: Interfaces,
    rules: AreaRules,
) -> Result<Config, OutOfMemory>
    requires digit { number ≤ 9 }
    requires kept { All IsInterface interfaces }
    requires apart { AllPairs (λ i j. i.name ≢ j.name) interfaces }
    requires ranges { All IsRange rules.ranges }
    requires ranges_apart { AllPairs AreRangesApart rules.ranges }
    requires stubs { All IsStub rules.stubs }
    requires stubs_apart { AllPairs (λ s t. s.area ≢ t.area) rules.stubs }
{
    let AreaRules {
        ranges,
        stubs,
        rfc1583,
    } = rules;
    Ok(Config {
        name: Name::from_vec(Vec::from_slice(alloc, &[b'R', b'0' + number])?),
        interfaces,
        process: Some(1),
        isis: false,
        tag: Name::from_vec(Vec::new(alloc)),
        isis_area: Name::from_vec(Vec::new(alloc)),
        system: 0,
        levels: Levels::Both,
        leak: false,
        ranges,
        stubs,
        rfc1583,
        distances: DISTANCES,
    })
}

/// The router of this number, with the levels of IS-IS that it runs in an area, and without OSPF.
pub(crate) fn isis_router(
    alloc: Global,
    number: u8,
    area: u8,
    levels: Levels,
    interfaces: Interfaces,
) -> Result<Config, OutOfMemory>
    requires digit { number ≤ 9 }
    requires kept { All IsInterface interfaces }
    requires apart { AllPairs (λ i j. i.name ≢ j.name) interfaces }
{
    Ok(Config {
        name: Name::from_vec(Vec::from_slice(alloc, &[b'R', b'0' + number])?),
        interfaces,
        process: None,
        isis: true,
        tag: Name::from_vec(Vec::new(alloc)),
        isis_area: Name::from_vec(Vec::from_slice(alloc, &[area])?),
        system: u64::from(number),
        levels,
        leak: false,
        ranges: Ranges::from_vec(Vec::new(alloc)),
        stubs: Stubs::from_vec(Vec::new(alloc)),
        rfc1583: true,
        distances: DISTANCES,
    })
}
