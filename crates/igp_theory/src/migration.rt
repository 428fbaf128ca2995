ghost use Rattle.igp_theory.specs.Migrations.{Migration};

/// Any network with any old and any new table of its routers, and any phases from which they start.
///
/// It exists for the laws, which hold of every migration; no program has a value of it.
pub trait AnyMigration {
    /// The network, its tables and the start.
    ghost migration: { Migration };
}
