ghost use Rattle.plan_theory.specs.Laws.{NightPlansAreOne, NightPlansMean, PlansAreOne, PlansMean};
ghost use Rattle.plan_theory.specs.Laws.{RankingsAreDecided, RankingsPickOne};

use igp_theory::AnyMigration;

/// The law that loops decide which rankings are good, of routers and of single changes: every good ranking puts the number
/// of some turn tagged `Old` of each loop with both tags before that of some turn tagged `New`. And one loop at most is told
/// of a ranking, and none of a good one.
pub fn rankings_are_decided<T: AnyMigration>()
    ensures decisive { RankingsAreDecided T.migration }
    ensures one { RankingsPickOne T.migration }
{}

/// The law that there is one plan: of one kind, with the same fault, or the same waves, chain and nodes.
pub fn plans_are_one<T: AnyMigration>()
    ensures night { NightPlansAreOne T.migration }
    ensures routers { PlansAreOne T.migration }
{}

/// The law of what a plan means.
///
/// Throughout planned waves the migration is sound. Where there is a refutation, or an end that isn't sound, no ranking is
/// good, and no list of the changes has only sound states: of routers none along an order, each router's changes next to each
/// other; of single changes none at all with each router's first before its second.
///
/// Where routers are ranked and every one begins in `Old`, the order that writes planned waves wave by wave is seamless, and
/// where there are none no order is.
pub fn plans_mean<T: AnyMigration>()
    ensures night { NightPlansMean T.migration }
    ensures routers { PlansMean T.migration }
{}
