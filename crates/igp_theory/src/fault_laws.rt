ghost use Rattle.igp_theory.specs.Laws.{FaultsAreUnsound, FirstFaultsAreUnsound, FaultsAreUnique, FirstFaultsAreUnique};

use crate::migration::AnyMigration;

/// The law that a state with a fault isn't sound, and an order with a first fault isn't seamless.
pub fn faults_are_unsound<T: AnyMigration>()
    ensures state { FaultsAreUnsound T.migration }
    ensures order { FirstFaultsAreUnsound T.migration }
{}

/// The law that a state has at most one fault, and an order at most one first fault.
pub fn faults_are_unique<T: AnyMigration>()
    ensures state { FaultsAreUnique T.migration }
    ensures order { FirstFaultsAreUnique T.migration }
{}
