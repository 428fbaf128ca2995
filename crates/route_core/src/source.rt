ghost use Rattle.std.specs.Prelude.{◌≡◌, ◌↔◌, ◌<◌, ℕ, List, IsTrue};
ghost use Rattle.net_addr.specs.Addresses.{Block};
ghost use Rattle.route_core.specs.declared.entry.Entry.{Entry};
ghost use Rattle.route_core.specs.Rows.{listed};
ghost use Rattle.route_core.specs.Tables.{AreTables};

use crate::table::Table;

/// Where the route tables of a network come from: one protocol's tables, of every router.
///
/// The answers are functions of the source, so they don't change while it stays as it is.
pub trait RouteSource {
    /// How many routers there are.
    ghost routers: { Self → ℕ };

    /// The entries of each router's table, in the table's order.
    ghost table: { Self → ℕ → List (Block × Entry) };

    /// The prefixes that all its tables keep. A table may have entries for some of them alone.
    ghost prefixes: { Self → List Block };

    /// Whether the first router has a link to the second one.
    ghost linked: { Self → ℕ → ℕ → Type 0 };

    /// How many routers there are. They are numbered from 0.
    fn routers(&self) -> u32
        ensures count { result ≡ routers self.now }
        ensures lawful { AreTables (routers self.now) (table self.now) (linked self.now) };

    /// The table of a router.
    fn table(&self, router: u32) -> &Table
        requires { router < routers self.now }
        ensures entries { listed result.now ≡ table self.now router }
        ensures prefixes { result.now.prefixes ≡ prefixes self.now };

    /// Whether router `u` has a link to router `v`.
    fn linked(&self, u: u32, v: u32) -> bool
        requires from_router { u < routers self.now }
        requires to_router { v < routers self.now }
        ensures { IsTrue result ↔ linked self.now u v };
}
