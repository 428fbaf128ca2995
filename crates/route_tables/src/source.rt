ghost use Rattle.std.specs.Prelude.{IfOk};
ghost use Rattle.route_tables.specs.Entries.{AreJoinedBy};
ghost use Rattle.route_tables.specs.Tables.{AreRoutes};

use crate::OutOfMemory;
use crate::joined::are_joined;
use crate::protocol::Protocol;
use crate::table::all_tables;
use route_core::{RouteSource, Table};
use std::alloc::Global;
use std::marker::Model;
use walk_core::Segment;

/// The route tables that a protocol gives the routers of a network. Two routers are linked where the second is a
/// neighbor of the first.
#[derive(Debug, Drop)]
pub struct RouteTables {
    tables: Vec<Table>,
    segments: Vec<Segment>,
}

impl Model for RouteTables {
    ghost use Rattle.route_tables.specs.Tables.{AreSourceTables, Routes, routes_in};

    ghost Value = { Routes };

    ghost view = { λ x. routes_in x.tables.items x.segments.items };

    ghost invariant = { λ x. AreSourceTables x.tables.items x.segments.items };
}

impl RouteTables {
    /// The tables of all routers, with segments that join each router and its neighbors, and no others.
    pub fn build<P: Protocol>(
        alloc: Global,
        protocol: &P,
        segments: Vec<Segment>,
    ) -> Result<RouteTables, OutOfMemory>
        requires { AreJoinedBy (P.neighbor protocol.now) segments.items }
        ensures { IfOk result (AreRoutes (P.routes protocol.now).routers (P.routes protocol.now).entry
            (P.neighbor protocol.now)) }
    {
        let tables = all_tables(alloc, protocol)?;
        Ok(RouteTables { tables, segments })
    }
}

impl RouteSource for RouteTables {
    ghost use Rattle.route_tables.specs.Tables.{router_count, table_at, AreLinked};

    ghost routers = { router_count };

    ghost table = { table_at };

    ghost prefixes = { λ routes. routes.prefixes };

    ghost linked = { AreLinked };

    fn routers(&self) -> u32 {
        self.tables.len() as u32
    }

    fn table(&self, router: u32) -> &Table {
        &self.tables[router as usize]
    }

    fn linked(&self, router: u32, other: u32) -> bool {
        are_joined(self.segments.as_slice(), router, other)
    }
}
