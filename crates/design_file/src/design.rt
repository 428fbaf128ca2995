ghost use Rattle.std.specs.Prelude.{◌≡◌};

use net_addr::Name;
use net_model::Levels;
use std::marker::Model;

/// What a design says: for every router, and of some routers in place of that.
#[derive(Debug, Drop)]
pub struct Design {
    /// The IS-IS area address of routers without one of their own, as written.
    pub area: Name,
    /// The levels of IS-IS of routers without ones of their own.
    pub levels: Levels,
    /// The metric of interfaces for which nothing else is said, from 1 to `MOST_METRIC`.
    pub metric: u32,
    /// What is said of single routers.
    pub routers: DesignRouters,
}

/// What a design says of one router; `None` stands for a key that is missing.
#[derive(Debug, Drop)]
pub struct DesignRouter {
    /// The router's name.
    pub name: Name,
    /// Its IS-IS area address, as written.
    pub area: Option<Name>,
    /// The levels of IS-IS that it runs.
    pub levels: Option<Levels>,
    /// The metric of its interfaces without one of their own, from 1 to `MOST_METRIC`.
    pub metric: Option<u32>,
    /// Whether it leaks level 2 routes into level 1 (RFC 5302); false where the key is missing.
    pub leak: bool,
    /// What is said of single interfaces of it.
    pub interfaces: DesignInterfaces,
}

/// What a design says of one interface; `None` stands for a key that is missing.
#[derive(Debug, Drop)]
pub struct DesignInterface {
    /// The interface's name.
    pub name: Name,
    /// Its metric in both levels, from 1 to `MOST_METRIC`.
    pub metric: Option<u32>,
    /// The levels in which it forms adjacencies.
    pub levels: Option<Levels>,
    /// Whether its subnet is announced without an adjacency.
    pub passive: Option<bool>,
}

/// The routers that a design names, in byte order of their names.
#[derive(Debug, Drop)]
pub struct DesignRouters {
    all: Vec<DesignRouter>,
}

impl Model for DesignRouters {
    ghost use Rattle.std.specs.Prelude.{List};
    ghost use Rattle.design_file.specs.declared.design.DesignRouter.{DesignRouter};

    ghost Value = { List DesignRouter };

    ghost view = { λ x. x.all.items };
}

impl DesignRouters {
    /// The routers of a vector, in its order.
    pub fn from_vec(all: Vec<DesignRouter>) -> DesignRouters
        ensures { result ≡ all.items }
    {
        DesignRouters { all }
    }

    /// The routers as a slice.
    pub fn as_slice(&self) -> &[DesignRouter]
        ensures { result.now ≡ self.now }
    {
        self.all.as_slice()
    }
}

/// The interfaces that a design names of one router, in byte order of their names.
#[derive(Debug, Drop)]
pub struct DesignInterfaces {
    all: Vec<DesignInterface>,
}

impl Model for DesignInterfaces {
    ghost use Rattle.std.specs.Prelude.{List};
    ghost use Rattle.design_file.specs.declared.design.DesignInterface.{DesignInterface};

    ghost Value = { List DesignInterface };

    ghost view = { λ x. x.all.items };
}

impl DesignInterfaces {
    /// The interfaces of a vector, in its order.
    pub fn from_vec(all: Vec<DesignInterface>) -> DesignInterfaces
        ensures { result ≡ all.items }
    {
        DesignInterfaces { all }
    }

    /// The interfaces as a slice.
    pub fn as_slice(&self) -> &[DesignInterface]
        ensures { result.now ≡ self.now }
    {
        self.all.as_slice()
    }
}
