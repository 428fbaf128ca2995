ghost use Rattle.std.specs.Prelude.{◌≡◌, IfOk};
ghost use Rattle.migrate_cli.specs.steps.Tables.{AreBothTables, AreNewRoutes, MixesTables};

use crate::OutOfMemory;
use crate::moves::Move;
use isis_routes::IsisRoutes;
use net_model::Net;
use ospf_routes::OspfRoutes;
use rib_mix::Mixed;
use route_core::{RouteSource, Table};
use std::alloc::Global;
use std::marker::Model;
use used_routes::Sources;
use zone_graph::KnownWalks;

/// The tables that take over: those of IS-IS, or of a second OSPF process.
#[derive(Drop)]
pub(crate) enum NewRoutes {
    /// Of IS-IS.
    Isis(IsisRoutes),
    /// Of a second OSPF process.
    Ospf(OspfRoutes),
}

impl NewRoutes {
    /// The tables that take over in a migration, by least walks that are known of another network.
    fn over(alloc: Global, of: &Move<'_>, known: &KnownWalks) -> Result<NewRoutes, OutOfMemory>
        ensures { IfOk result (AreNewRoutes of.now) }
    {
        match of.redesign() {
            None => Ok(NewRoutes::Isis(IsisRoutes::build_over(alloc, of.net(), known)?)),
            Some(net) => Ok(NewRoutes::Ospf(OspfRoutes::build_over(alloc, net, known)?)),
        }
    }
}

impl RouteSource for NewRoutes {
    ghost use Rattle.migrate_cli.specs.steps.Tables.{new_table, routes_of};
    ghost use Rattle.ospf_routes.specs.RouteTables.{AreLinked, router_count};

    ghost routers = { λ new. router_count (routes_of new) };

    ghost table = { new_table };

    ghost prefixes = { λ new. (routes_of new).prefixes };

    ghost linked = { λ new u v. AreLinked (routes_of new) u v };

    fn routers(&self) -> u32 {
        match self {
            NewRoutes::Isis(routes) => routes.routers(),
            NewRoutes::Ospf(routes) => routes.routers(),
        }
    }

    fn table(&self, router: u32) -> &Table {
        match self {
            NewRoutes::Isis(routes) => routes.table(router),
            NewRoutes::Ospf(routes) => routes.table(router),
        }
    }

    fn linked(&self, u: u32, v: u32) -> bool {
        match self {
            NewRoutes::Isis(routes) => routes.linked(u, v),
            NewRoutes::Ospf(routes) => routes.linked(u, v),
        }
    }
}

/// The tables before and after a migration. Seen as the migration.
#[derive(Drop)]
pub(crate) struct Tables<'a> {
    of: &'a Move<'a>,
    old: OspfRoutes,
    new: NewRoutes,
}

impl<'a> Model for Tables<'a> {
    ghost use Rattle.migrate_cli.specs.steps.Tables.{AreBothTables, NetworkMove};

    ghost Value = { NetworkMove };

    ghost view = { λ x. x.of.now };

    ghost invariant = { λ x. AreBothTables x.of.now x.old x.new };
}

impl<'a> Tables<'a> {
    /// The tables of a migration.
    pub fn of(alloc: Global, of: &'a Move<'a>) -> Result<Tables<'a>, OutOfMemory>
        ensures { IfOk result (λ tables. tables ≡ of.now) }
    {
        Tables::over(alloc, of, &KnownWalks::none(alloc))
    }

    /// The same, by least walks that are known of another network.
    pub fn over(
        alloc: Global,
        of: &'a Move<'a>,
        known: &KnownWalks,
    ) -> Result<Tables<'a>, OutOfMemory>
        ensures { IfOk result (λ tables. tables ≡ of.now) }
    {
        let old = OspfRoutes::build_over(alloc, of.net(), known)?;
        let new = NewRoutes::over(alloc, of, known)?;
        Ok(Tables { of, old, new })
    }

    /// Mixed forwarding over them.
    pub fn mix(&self, alloc: Global) -> Result<Mixed<'_, OspfRoutes, NewRoutes>, OutOfMemory>
        ensures { IfOk result (MixesTables self.now) }
    {
        Mixed::build(alloc, self.of.net(), &self.old, &self.new)
    }

    /// The network with them.
    pub fn sources(&self) -> Sources<'_, OspfRoutes, NewRoutes>
        ensures net { result.net.now ≡ self.now.net }
        ensures tables { AreBothTables self.now result.old.now result.new.now }
    {
        Sources {
            net: self.of.net(),
            old: &self.old,
            new: &self.new,
        }
    }
}
