ghost use Rattle.std.specs.Prelude.{◌≡◌};

use crate::{Interfaces, Ranges, Stubs};
use net_addr::Name;
use std::marker::Model;

/// The levels of IS-IS that a router runs (RFC 1195).
#[derive(Clone, Copy, Debug, PartialEq, Eq)]
pub enum Levels {
    /// Level 1 alone.
    One,
    /// Level 2 alone.
    Two,
    /// Both levels.
    Both,
}

impl Levels {
    ghost use Rattle.net_model.specs.LevelSets.{has_level_one, has_level_two};

    /// Whether level 1 is among them.
    pub fn has_level_one(self) -> bool
        ensures { result ≡ has_level_one self }
    {
        matches!(self, Levels::One | Levels::Both)
    }

    /// Whether level 2 is among them.
    pub fn has_level_two(self) -> bool
        ensures { result ≡ has_level_two self }
    {
        matches!(self, Levels::Two | Levels::Both)
    }
}

/// The administrative distances of a router's two protocols; at `MOST_DISTANCE` a protocol installs nothing.
#[derive(Clone, Copy, Debug, PartialEq, Eq)]
pub struct Distances {
    /// The distance of OSPF, from 1 to `MOST_DISTANCE` and not `ISIS_DISTANCE`.
    pub ospf: u8,
    /// The distance of IS-IS, `ISIS_DISTANCE` or `MOST_DISTANCE`.
    pub isis: u8,
}

/// The configuration of one router.
///
/// Who makes one owes the facts that `IsConfiguration` lists: distinct interface names, ranges and
/// stub areas, a router name of 1 to 63 letters, digits, `-`, `_` and `.`, and numbers in their ranges.
#[derive(Debug, Drop)]
pub struct Config {
    /// The router's name.
    pub name: Name,
    /// Its interfaces, in the order of the configuration.
    pub interfaces: Interfaces,
    /// The number of its OSPF process, from 1 to `MOST_PROCESS`, `None` where it runs no OSPF.
    pub process: Option<u32>,
    /// Whether it has an IS-IS process. Where it has none the next five fields mean nothing.
    pub isis: bool,
    /// The tag of the IS-IS process, empty where it has none.
    pub tag: Name,
    /// The IS-IS area address, as written.
    pub isis_area: Name,
    /// The IS-IS system id, below 2^48.
    pub system: u64,
    /// The levels of IS-IS that the router runs.
    pub levels: Levels,
    /// Whether level 2 routes are leaked into level 1 (RFC 5302).
    pub leak: bool,
    /// The ranges of its OSPF areas.
    pub ranges: Ranges,
    /// Its stub areas.
    pub stubs: Stubs,
    /// Whether a range costs the least of its components; otherwise it costs the greatest.
    pub rfc1583: bool,
    /// The distances that its two protocols have.
    pub distances: Distances,
}

impl Model for Config {
    ghost use Rattle.net_model.specs.Configuration.{Configuration};
    ghost use Rattle.net_model.specs.ConfigViews.{IsConfig, config_view};

    ghost Value = { Configuration };

    ghost view = { config_view };

    ghost invariant = { IsConfig };
}

impl Config {
    ghost use Rattle.std.specs.Prelude.{◌≡◌, bytes_eq};

    /// Whether the router has this name.
    pub fn has_name(&self, name: &[u8]) -> bool
        ensures { result ≡ bytes_eq self.now.name name.now }
    {
        self.name.as_slice() == name
    }
}

/// Configurations, one for each router, in any order.
#[derive(Debug, Drop)]
pub struct Configs {
    all: Vec<Config>,
}

impl Model for Configs {
    ghost use Rattle.std.specs.Prelude.{List};
    ghost use Rattle.net_model.specs.Configuration.{Configuration};

    ghost Value = { List Configuration };

    ghost view = { λ x. x.all.items };
}

impl Configs {
    /// The configurations of a vector, in its order.
    pub fn from_vec(all: Vec<Config>) -> Configs
        ensures { result ≡ all.items }
    {
        Configs { all }
    }

    /// The configurations as a slice.
    pub fn as_slice(&self) -> &[Config]
        ensures { result.now ≡ self.now }
    {
        self.all.as_slice()
    }

    /// The vector that the configurations stand in.
    pub fn into_vec(self) -> Vec<Config>
        ensures { result.items ≡ self }
    {
        self.all
    }
}
