ghost use Rattle.std.specs.Prelude.{◌≡◌};

use net_addr::Name;
use net_model::Levels;
use std::marker::Model;

/// What a design settles for one router.
#[derive(Debug, Drop)]
pub struct SettledRouter {
    /// Its IS-IS area address, as written.
    pub area: Name,
    /// The levels of IS-IS that it runs.
    pub levels: Levels,
    /// Whether it leaks level 2 routes into level 1 (RFC 5302).
    pub leak: bool,
    /// Its IS-IS interfaces.
    pub interfaces: SettledInterfaces,
}

/// What a design settles for one IS-IS interface.
#[derive(Debug, Drop)]
pub struct SettledInterface {
    /// The interface's name.
    pub name: Name,
    /// Its metric in both levels, from 1 to `MOST_METRIC`.
    pub metric: u32,
    /// Whether its subnet is announced without an adjacency.
    pub passive: bool,
    /// The levels that the design names for it, `None` where it names none; on a passive interface they have no effect.
    pub circuit: Option<Levels>,
}

/// The IS-IS interfaces of a router, in the order of its configuration.
#[derive(Debug, Drop)]
pub struct SettledInterfaces {
    all: Vec<SettledInterface>,
}

impl Model for SettledInterfaces {
    ghost use Rattle.std.specs.Prelude.{List};
    ghost use Rattle.design_file.specs.declared.settled.SettledInterface.{SettledInterface};

    ghost Value = { List SettledInterface };

    ghost view = { λ x. x.all.items };
}

impl SettledInterfaces {
    /// The interfaces of a vector, in its order.
    pub fn from_vec(all: Vec<SettledInterface>) -> SettledInterfaces
        ensures { result ≡ all.items }
    {
        SettledInterfaces { all }
    }

    /// The interfaces as a slice.
    pub fn as_slice(&self) -> &[SettledInterface]
        ensures { result.now ≡ self.now }
    {
        self.all.as_slice()
    }
}

/// A design, settled for a network: what it says of each router, in the order of the routers' numbers.
#[derive(Debug, Drop)]
pub struct Settled {
    all: Vec<SettledRouter>,
}

impl Model for Settled {
    ghost use Rattle.std.specs.Prelude.{List};
    ghost use Rattle.design_file.specs.declared.settled.SettledRouter.{SettledRouter};

    ghost Value = { List SettledRouter };

    ghost view = { λ x. x.all.items };
}

impl Settled {
    /// The routers of a vector, in its order.
    pub fn from_vec(all: Vec<SettledRouter>) -> Settled
        ensures { result ≡ all.items }
    {
        Settled { all }
    }

    /// The routers as a slice.
    pub fn as_slice(&self) -> &[SettledRouter]
        ensures { result.now ≡ self.now }
    {
        self.all.as_slice()
    }
}
