ghost use Rattle.igp_theory.specs.Laws.{SameUsedEntries, SameSteps, SameSoundStates, SameSeamlessOrders, SameLoops, SameArisingLoops, SameFaults};
ghost use Rattle.igp_theory.specs.Laws.{SameFirstFaults};

use crate::migration::AnyMigration;

/// The law that tables with the same entries at the routers of a network act alike there.
///
/// A table's entries for numbers that are no router's don't count.
pub fn same_tables_act_alike<T: AnyMigration, S: AnyMigration>()
    ensures used { SameUsedEntries T.migration S.migration.old S.migration.new }
    ensures steps { SameSteps T.migration S.migration.old S.migration.new }
    ensures sound { SameSoundStates T.migration S.migration.old S.migration.new }
    ensures seamless { SameSeamlessOrders T.migration S.migration.old S.migration.new }
    ensures loops { SameLoops T.migration S.migration.old S.migration.new }
    ensures arising { SameArisingLoops T.migration S.migration.old S.migration.new }
    ensures faults { SameFaults T.migration S.migration.old S.migration.new }
    ensures first_faults { SameFirstFaults T.migration S.migration.old S.migration.new }
{}
