ghost use Rattle.igp_theory.specs.WaveFaultLaws.{FaultsOverAreUnique, FaultsOverOneAreFaults, TimesFaultsAreUnique, TimesFaultsAreUnsound, SameDeliveries};
ghost use Rattle.igp_theory.specs.WaveFaultLaws.{SameSeamlessWaves, SameFaultsOver, SameTimesFaults};
ghost use Rattle.igp_theory.specs.Phases.{State};

use crate::migration::AnyMigration;

/// Any set of states.
///
/// It exists for the laws; no program has a value of it.
pub trait StateSet {
    /// The states of the set.
    ghost states: { State → Type 0 };
}

/// The law that a set of states has at most one fault, and that of a single state is the state's fault.
pub fn faults_over_states_are_unique<T: AnyMigration, S: StateSet>()
    ensures unique { FaultsOverAreUnique T.migration S.states }
    ensures single { FaultsOverOneAreFaults T.migration }
{}

/// The law that a timetable has at most one fault, and that a migration with one isn't sound throughout.
pub fn times_faults_are_unique<T: AnyMigration>()
    ensures unique { TimesFaultsAreUnique T.migration }
    ensures unsound { TimesFaultsAreUnsound T.migration }
{}

/// The law that tables with the same entries at the routers of a network have the same seamless wave lists
/// and the same faults of timetables, and deliver the same packets.
pub fn same_tables_have_same_waves<T: AnyMigration, U: AnyMigration, S: StateSet>()
    ensures deliveries { SameDeliveries T.migration U.migration.old U.migration.new }
    ensures seamless { SameSeamlessWaves T.migration U.migration.old U.migration.new }
    ensures faults { SameFaultsOver T.migration U.migration.old U.migration.new S.states }
    ensures times_faults { SameTimesFaults T.migration U.migration.old U.migration.new }
{}
