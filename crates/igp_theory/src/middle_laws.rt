ghost use Rattle.igp_theory.specs.MiddleLaws.{MiddleUsesNone, MiddleActsAsOldOrNew};

use crate::migration::AnyMigration;

/// The law that a router in `Middle` uses no entry for an address where it uses none in `Old` and none in
/// `New`.
pub fn middle_uses_none<T: AnyMigration>()
    ensures { MiddleUsesNone T.migration }
{}

/// The law that over a network and tables that are lists of entries a router in `Middle` does with the
/// packets of an address exactly what it does in `Old`, or exactly what it does in `New`.
pub fn middle_acts_as_old_or_new()
    ensures { MiddleActsAsOldOrNew }
{}
