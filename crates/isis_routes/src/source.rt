ghost use Rattle.std.specs.Prelude.{IfOk};
ghost use Rattle.isis_routes.specs.RouteTables.{AreIsisRoutes};

use crate::OutOfMemory;
use crate::protocol::Isis;
use crate::segments::LevelSegments;
use net_model::Net;
use route_core::{RouteSource, Table};
use route_tables::RouteTables;
use std::alloc::Global;
use std::marker::Model;
use zone_graph::KnownWalks;

/// The route tables that IS-IS gives the routers of a network (RFC 1195, RFC 5302).
///
/// A router prefers level 1 routes to level 2 routes, and these to what is leaked into level 1 and marked
/// down, whatever they cost. A router that runs level 1 alone takes a default towards the nearest attached
/// routers; that a router of both levels takes none is this project's profile. Two routers are linked where they
/// are adjacent in level 1 or in level 2.
#[derive(Debug, Drop)]
pub struct IsisRoutes {
    all: RouteTables,
}

impl Model for IsisRoutes {
    ghost use Rattle.route_tables.specs.Tables.{Routes};

    ghost Value = { Routes };

    ghost view = { λ x. x.all };
}

impl IsisRoutes {
    /// The tables of all routers of the network.
    pub fn build(alloc: Global, net: &Net) -> Result<IsisRoutes, OutOfMemory>
        ensures { IfOk result (AreIsisRoutes net.now) }
    {
        IsisRoutes::build_over(alloc, net, &KnownWalks::none(alloc))
    }

    /// The same, where least walks of levels may be known of another network: they are taken for each level that has the same
    /// segments here, or some of them alone.
    pub fn build_over(
        alloc: Global,
        net: &Net,
        known: &KnownWalks,
    ) -> Result<IsisRoutes, OutOfMemory>
        ensures { IfOk result (AreIsisRoutes net.now) }
    {
        let segments = LevelSegments::build(alloc, net)?;
        let isis = Isis::build(alloc, net, known, &segments)?;
        let all = RouteTables::build(alloc, &isis, segments.joined()?)?;
        Ok(IsisRoutes { all })
    }
}

impl RouteSource for IsisRoutes {
    ghost use Rattle.route_tables.specs.Tables.{router_count, table_at, AreLinked};

    ghost routers = { router_count };

    ghost table = { table_at };

    ghost prefixes = { λ routes. routes.prefixes };

    ghost linked = { AreLinked };

    fn routers(&self) -> u32 {
        self.all.routers()
    }

    fn table(&self, router: u32) -> &Table {
        self.all.table(router)
    }

    fn linked(&self, router: u32, other: u32) -> bool {
        self.all.linked(router, other)
    }
}
