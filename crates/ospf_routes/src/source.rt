ghost use Rattle.std.specs.Prelude.{IfOk};
ghost use Rattle.ospf_routes.specs.RouteTables.{AreOspfRoutes};

use crate::OutOfMemory;
use crate::areas::{JoinedAreas, all_areas};
use crate::protocol::Ospf;
use net_model::Net;
use route_core::{RouteSource, Table};
use route_tables::RouteTables;
use std::alloc::Global;
use std::marker::Model;
use zone_graph::KnownWalks;

/// The route tables that OSPF gives the routers of a network (RFC 2328, section 16).
///
/// Within an area a router takes the least-cost routes to a subnet. Border routers announce the subnets
/// of an area, or the ranges that cover them, into the others, and what they reach over the backbone into
/// areas other than the backbone. A router prefers intra-area routes to inter-area routes, whatever they
/// cost, and discards what is covered by its own active ranges alone. Two routers are linked where they
/// are adjacent in some area.
#[derive(Debug, Drop)]
pub struct OspfRoutes {
    all: RouteTables,
}

impl Model for OspfRoutes {
    ghost use Rattle.route_tables.specs.Tables.{Routes};

    ghost Value = { Routes };

    ghost view = { λ x. x.all };
}

impl OspfRoutes {
    /// The tables of all routers of the network.
    pub fn build(alloc: Global, net: &Net) -> Result<OspfRoutes, OutOfMemory>
        ensures { IfOk result (AreOspfRoutes net.now) }
    {
        OspfRoutes::build_over(alloc, net, &KnownWalks::none(alloc))
    }

    /// The same, where least walks of areas may be known of another network: they are taken for each area that has the same
    /// segments here.
    pub fn build_over(
        alloc: Global,
        net: &Net,
        known: &KnownWalks,
    ) -> Result<OspfRoutes, OutOfMemory>
        ensures { IfOk result (AreOspfRoutes net.now) }
    {
        let JoinedAreas { areas, segments } = all_areas(alloc, net, known)?;
        let ospf = Ospf::build(alloc, net, areas)?;
        let all = RouteTables::build(alloc, &ospf, segments)?;
        Ok(OspfRoutes { all })
    }
}

impl RouteSource for OspfRoutes {
    ghost use Rattle.route_tables.specs.Tables.{router_count, table_at, AreLinked};

    ghost routers = { router_count };

    ghost table = { table_at };

    ghost prefixes = { λ routes. routes.prefixes };

    ghost linked = { AreLinked };

    fn routers(&self) -> u32 {
        self.all.routers()
    }

    fn table(&self, router: u32) -> &Table {
        self.all.table(router)
    }

    fn linked(&self, router: u32, other: u32) -> bool {
        self.all.linked(router, other)
    }
}
