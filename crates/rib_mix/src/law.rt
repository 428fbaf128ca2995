ghost use Rattle.rib_mix.specs.Laws.{StepsAreHops};

use igp_theory::AnyMigration;

/// The law that a router which has to pass packets on steps exactly to the hops of its answer.
pub fn steps_are_hops<T: AnyMigration>()
    ensures { StepsAreHops T.migration }
{}
