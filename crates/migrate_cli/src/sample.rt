ghost use Rattle.std.specs.Prelude.{◌≡◌, ◌<◌, IfOk, length};
ghost use Rattle.net_model.specs.Refusals.{IsNetwork};
ghost use Rattle.order_search.specs.Trees.{branch_count, branches_at};
ghost use Rattle.igp_theory.specs.Migrations.{ospf_to_isis};
ghost use Rattle.plan_theory.specs.Plans.{IsPlanned};
ghost use Rattle.migrate_words.specs.declared.command.TheConstants.{USUAL_BUDGET};
ghost use Rattle.migrate_cli.specs.SampleDecision.{IsSampleDecision};

use crate::OutOfMemory;
use crate::originated::count_originated;
use crate::plan::plan_network;
use migrate_words::USUAL_BUDGET;
use migration_report::{Decision, PlanCounts};
use net_model::Net;
use order_search::{Found, Node, Tree};
use plan_theory::Planned;
use std::alloc::Global;

/// What is decided of the network of a sample of so many routers: the summary of the waves that are planned of it, or what
/// else is planned.
pub(crate) fn judge_sample(alloc: Global, routers: u32, net: &Net) -> Result<Decision, OutOfMemory>
    requires { 0 < length net.now }
    ensures { IfOk result (IsSampleDecision routers net.now) }
{
    let planned = plan_network(alloc, USUAL_BUDGET, net)?;
    sum_up(alloc, routers, net, planned)
}

/// What is decided where this is planned.
fn sum_up(alloc: Global, routers: u32, net: &Net, planned: Planned) -> Result<Decision, OutOfMemory>
    requires some { 0 < length net.now }
    requires network { IsNetwork net.now }
    requires planned { IsPlanned (ospf_to_isis net.now) USUAL_BUDGET planned }
    ensures { IfOk result (IsSampleDecision routers net.now) }
{
    match planned {
        Planned::Searched { found } => sum_up_found(alloc, routers, net, found),
        Planned::UnsoundOld { fault } => Ok(Decision::Plan {
            planned: Planned::UnsoundOld { fault },
        }),
        Planned::UnsoundNew { fault } => Ok(Decision::Plan {
            planned: Planned::UnsoundNew { fault },
        }),
    }
}

/// What is decided where this was found between sound ends.
fn sum_up_found(
    alloc: Global,
    routers: u32,
    net: &Net,
    found: Found,
) -> Result<Decision, OutOfMemory>
    requires some { 0 < length net.now }
    requires network { IsNetwork net.now }
    requires planned { IsPlanned (ospf_to_isis net.now) USUAL_BUDGET (Planned.Searched found) }
    ensures { IfOk result (IsSampleDecision routers net.now) }
{
    let (waves, trail) = match found {
        Found::Waves { waves, trail, .. } => (waves, trail),
        Found::Refuted { tree } => {
            let found = Found::Refuted { tree };
            let planned = Planned::Searched { found };
            return Ok(Decision::Plan { planned });
        }
        Found::Spent { tree } => {
            let found = Found::Spent { tree };
            let planned = Planned::Searched { found };
            return Ok(Decision::Plan { planned });
        }
    };
    let prefixes = count_originated(alloc, net)?;
    let branches = count_branches(&trail);
    let counts = PlanCounts {
        routers,
        prefixes,
        branches,
    };
    Ok(Decision::Summary { counts, waves })
}

/// How many nodes of a tree are branches.
fn count_branches(tree: &Tree) -> u64
    ensures { result ≡ branch_count tree.now }
{
    let nodes = tree.as_slice();
    let mut branches = 0;
    for node in nodes {
        branches += branches_at(node);
    }
    branches
}

/// How many branches a node is.
fn branches_at(node: &Node) -> u64
    ensures { result ≡ branches_at node.now }
{
    if matches!(node, Node::Branch { .. }) {
        1
    } else {
        0
    }
}
