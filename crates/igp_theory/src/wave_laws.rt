ghost use Rattle.igp_theory.specs.WaveLaws.{FlatRunsAreRuns, StatesAlongAreThoseOfOrders, FlatOrdersAreSeamless};
ghost use Rattle.igp_theory.specs.WaveLaws.{OrdersAreSeamlessWaves, OrdersAreOnes, OrdersHaveOneRun};

use crate::migration::AnyMigration;

/// The law that the flat run of a wave list is a run of it, with the states of the flat order.
pub fn flat_runs_are_runs()
    ensures run { FlatRunsAreRuns }
    ensures states { StatesAlongAreThoseOfOrders }
{}

/// The law of wave lists and orders.
///
/// Where every router begins in `Old` a seamless wave list, written wave by wave in number order, is a seamless
/// order, and a seamless order is a seamless wave list of ones.
pub fn seamless_waves_are_orders<T: AnyMigration>()
    ensures flat { FlatOrdersAreSeamless T.migration }
    ensures ones { OrdersAreSeamlessWaves T.migration }
{}

/// The law that each order is a wave list of ones, and that as such it has one run.
pub fn orders_are_waves_of_ones()
    ensures ones { OrdersAreOnes }
    ensures one_run { OrdersHaveOneRun }
{}
