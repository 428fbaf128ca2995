ghost use Rattle.std.specs.Prelude.{◌≡◌, IfOk, length};
ghost use Rattle.net_model.specs.RouterNames.{names_of};
ghost use Rattle.plan_theory.specs.declared.items.Items.TheVariants.{Routers};
ghost use Rattle.wave_oracle.specs.PlannedTexts.{IsPrintable};
ghost use Rattle.migration_report.specs.Outcomes.{IsPlanTellable};
ghost use Rattle.migration_report.specs.RestPlanTexts.{found_rest_text, rest_plan_text};

use crate::ends::{End, start_text, unsound_text};
use igp_theory::Phase;
use live_replan::{rest_text, rest_tree_text};
use net_addr::Bytes;
use net_model::Net;
use order_search::Found;
use plan_theory::Planned;
use std::alloc::{AllocError, Global};
use std::marker::Model;

/// The phase from which each router of a stopped migration goes on.
#[derive(Debug, Drop)]
pub struct RestStart {
    phases: Vec<Phase>,
}

impl Model for RestStart {
    ghost use Rattle.std.specs.Prelude.{List};
    ghost use Rattle.igp_theory.specs.declared.phase.Phase.{Phase};

    ghost Value = { List Phase };

    ghost view = { λ x. x.phases.items };
}

impl RestStart {
    /// These phases.
    pub fn from_vec(phases: Vec<Phase>) -> RestStart
        ensures { result ≡ phases.items }
    {
        RestStart { phases }
    }

    /// The phases, in the order of the routers.
    pub fn as_slice(&self) -> &[Phase]
        ensures { result.now ≡ self.now }
    {
        self.phases.as_slice()
    }
}

/// What is printed of what is planned from a start. The only error is want of memory.
pub(crate) fn rest_plan_text(
    alloc: Global,
    net: &Net,
    start: &[Phase],
    planned: &Planned,
) -> Result<Bytes, AllocError>
    requires start { length start.now ≡ length net.now }
    requires planned { IsPlanTellable Routers net.now planned.now }
    ensures { IfOk result (λ text. text ≡ rest_plan_text (names_of net.now) start.now planned.now) }
{
    match planned {
        Planned::UnsoundOld { fault } => start_text(alloc, net, fault),
        Planned::UnsoundNew { fault } => unsound_text(alloc, net, End::New, fault),
        Planned::Searched { found } => found_rest_text(alloc, net, start, found),
    }
}

/// What is printed of what was found from a start: the waves of the rest, or a tree with the line of the start.
fn found_rest_text(
    alloc: Global,
    net: &Net,
    start: &[Phase],
    found: &Found,
) -> Result<Bytes, AllocError>
    requires start { length start.now ≡ length net.now }
    requires found { IsPrintable Routers net.now found.now }
    ensures { IfOk result (λ text. text ≡ found_rest_text (names_of net.now) start.now found.now) }
{
    match found {
        Found::Waves { waves, chain, .. } => rest_text(alloc, net, start, waves, chain.as_slice()),
        Found::Refuted { tree } | Found::Spent { tree } => rest_tree_text(alloc, net, start, tree),
    }
}
