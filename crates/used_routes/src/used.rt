ghost use Rattle.std.specs.Prelude.{◌≡◌, ◌<◌, ◌↔◌, IfNone, IfSome, IsTrue, length};
ghost use Rattle.igp_theory.specs.Forwarding.{NewCounts, OldCounts};
ghost use Rattle.igp_theory.specs.Migrations.{listed_migration};
ghost use Rattle.igp_theory.specs.MiddleLaws.{UsesNone};
ghost use Rattle.used_routes.specs.UsedRoutes.{IsOfTables, IsUsedRoute, usable_at};
ghost use Rattle.used_routes.specs.steps.Found.{IsFoundUsed, OfConnected, OfNew, OfOld};

use crate::better::better;
use igp_theory::Phase;
use net_addr::Prefix;
use net_model::{ISIS_DISTANCE, MOST_DISTANCE, Net};
use route_core::RouteSource;

/// Where a route comes from.
#[derive(Clone, Copy, Debug)]
pub enum Origin {
    /// A connected prefix.
    Connected,
    /// The entry at this place of the router's old table.
    Old(usize),
    /// The entry at this place of the router's new table.
    New(usize),
}

/// What a router uses for an address.
#[derive(Clone, Copy, Debug)]
pub struct UsedRoute {
    /// The prefix, which contains the address.
    pub prefix: Prefix,
    /// The administrative distance, 0 for a connected prefix.
    pub distance: u8,
    /// Where it comes from.
    pub origin: Origin,
}

/// A network with its old and its new tables.
#[derive(Drop)]
pub struct Sources<'a, O: RouteSource, N: RouteSource> {
    /// The network.
    pub net: &'a Net,
    /// The tables of the protocol that it is moved from, of as many routers.
    pub old: &'a O,
    /// The tables of the protocol that it is moved to, of as many routers.
    pub new: &'a N,
}

impl<O: RouteSource, N: RouteSource> Sources<'_, O, N> {
    /// What a router uses for the address `a` in a phase; none where it has nothing that contains the address.
    pub fn used_route(&self, router: u32, phase: Phase, a: u32) -> Option<UsedRoute>
        requires router { router < length self.now.net.now }
        requires old { O.routers self.now.old.now ≡ length self.now.net.now }
        requires new { N.routers self.now.new.now ≡ length self.now.net.now }
        ensures none { IfNone result (UsesNone
            (listed_migration self.now.net.now (O.table self.now.old.now) (N.table self.now.new.now)) router phase a) }
        ensures used { IfSome result (IsUsedRoute self.now.net.now (O.table self.now.old.now) (N.table self.now.new.now)
            router phase a) }
        ensures within { IfSome result (λ r. IsOfTables (O.table self.now.old.now router) (N.table self.now.new.now router)
            r.origin) }
    {
        let connected = self.connected(router, a);
        let old = self.of_old(router, phase, a);
        let new = self.of_new(router, phase, a);
        better(connected, better(old, new))
    }

    /// The longest connected prefix.
    fn connected(&self, router: u32, a: u32) -> Option<UsedRoute>
        requires { router < length self.now.net.now }
        ensures found { IsFoundUsed (usable_at (O.table self.now.old.now router) (N.table self.now.new.now router))
            (OfConnected self.now.net.now router) a result }
        ensures within { IfSome result (λ r. IsOfTables (O.table self.now.old.now router) (N.table self.now.new.now router)
            r.origin) }
    {
        let Some(prefix) = self.net.connected(router, a) else {
            return None;
        };
        Some(UsedRoute {
            prefix,
            distance: 0,
            origin: Origin::Connected,
        })
    }

    /// The longest entry of the old table, where that counts.
    fn of_old(&self, router: u32, phase: Phase, a: u32) -> Option<UsedRoute>
        requires router { router < length self.now.net.now }
        requires old { O.routers self.now.old.now ≡ length self.now.net.now }
        ensures found { IsFoundUsed (usable_at (O.table self.now.old.now router) (N.table self.now.new.now router))
            (OfOld self.now.net.now (O.table self.now.old.now router) router phase) a result }
        ensures within { IfSome result (λ r. IsOfTables (O.table self.now.old.now router) (N.table self.now.new.now router)
            r.origin) }
    {
        if !old_counts(phase) {
            return None;
        }
        let distance = self.net.config(router).distances.ospf;
        if distance == MOST_DISTANCE {
            return None;
        }
        let table = self.old.table(router);
        let Some(place) = table.longest(a) else {
            return None;
        };
        Some(UsedRoute {
            prefix: table.dest(place),
            distance,
            origin: Origin::Old(place),
        })
    }

    /// The longest entry of the new table, where that counts.
    fn of_new(&self, router: u32, phase: Phase, a: u32) -> Option<UsedRoute>
        requires router { router < length self.now.net.now }
        requires new { N.routers self.now.new.now ≡ length self.now.net.now }
        ensures found { IsFoundUsed (usable_at (O.table self.now.old.now router) (N.table self.now.new.now router))
            (OfNew (N.table self.now.new.now router) phase) a result }
        ensures within { IfSome result (λ r. IsOfTables (O.table self.now.old.now router) (N.table self.now.new.now router)
            r.origin) }
    {
        if !new_counts(phase) {
            return None;
        }
        let table = self.new.table(router);
        let Some(place) = table.longest(a) else {
            return None;
        };
        Some(UsedRoute {
            prefix: table.dest(place),
            distance: ISIS_DISTANCE,
            origin: Origin::New(place),
        })
    }
}

/// Whether the old table counts in a phase.
fn old_counts(phase: Phase) -> bool
    ensures { IsTrue result ↔ OldCounts phase }
{
    match phase {
        Phase::Old | Phase::Middle => true,
        Phase::New => false,
    }
}

/// Whether the new table counts in a phase.
fn new_counts(phase: Phase) -> bool
    ensures { IsTrue result ↔ NewCounts phase }
{
    match phase {
        Phase::Old => false,
        Phase::Middle | Phase::New => true,
    }
}
