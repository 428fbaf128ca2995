ghost use Rattle.std.specs.Prelude.{◌≡◌, IfOk};
ghost use Rattle.net_model.specs.RouterNames.{names_of};
ghost use Rattle.migration_report.specs.Outcomes.{IsPlanTellable, IsTellable, decision_status, decision_text};
ghost use Rattle.migration_report.specs.Outcomes.{found_status, plan_status, plan_text, verdict_status};

use crate::Status;
use crate::design::refused_design_text;
use crate::ends::{End, unsound_text};
use crate::journal::{Nexts, departs_text, reached_text};
use crate::kinds::order_kind_name;
use crate::refusal::faulty_line;
use crate::report::{safe_text, unsafe_text, waves_safe_text, waves_unsafe_text};
use crate::rest::{RestStart, rest_plan_text};
use crate::summary::{PlanCounts, summary_text};
use crate::tree::verdict_text;
use design_file::DesignKind;
use net_addr::{Bytes, Name};
use net_model::Net;
use order_core::Waves;
use order_search::Found;
use ospf_pair::{PairRefusal, pair_refusal_text};
use plan_theory::{EndFault, Items, Planned};
use refutation_check::Verdict;
use std::alloc::{AllocError, Global};
use step_scripts::{OrderKind, Version, script_text};
use wave_oracle::planned_text;

/// What a command decided of a network.
#[derive(Debug, Drop)]
pub enum Decision {
    /// All states of an order are sound.
    Safe,
    /// All states of a wave list are sound.
    SafeWaves {
        /// How many waves it has.
        waves: u32,
    },
    /// A state of an order isn't sound.
    Unsafe {
        /// The number of the first such state.
        state: u32,
        /// What is wrong in it.
        fault: EndFault,
    },
    /// A state of a wave list isn't sound.
    UnsafeWave {
        /// The number of the first wave with such a state, from 1.
        wave: u32,
        /// What is wrong in its states.
        fault: EndFault,
    },
    /// What is planned.
    Plan {
        /// An end that isn't sound, or what was found between sound ends.
        planned: Planned,
    },
    /// What is planned where a router makes its two changes apart.
    TwoPass {
        /// An end that isn't sound, or what was found between sound ends.
        planned: Planned,
    },
    /// Waves are planned, and summed up.
    Summary {
        /// What is counted.
        counts: PlanCounts,
        /// The waves.
        waves: Waves,
    },
    /// What is found of a tree file.
    Tree {
        /// Whether it is a closed tree.
        verdict: Verdict,
    },
    /// An order file names waves, whose script is asked for.
    Script {
        /// The version of the file.
        version: Version,
        /// The waves.
        waves: Waves,
    },
    /// The changes of a journal begin a run.
    Reached {
        /// How many they are.
        made: u32,
        /// Of each router the change that may come next.
        nexts: Nexts,
    },
    /// A line of a journal, the first, fits no run.
    Departs {
        /// The line, counted from 1.
        line: u32,
    },
    /// The configurations with the lines of a design.
    Prepared {
        /// One after the other.
        text: Bytes,
    },
    /// The lines to type for each change between two OSPF processes.
    PairScript {
        /// All of them.
        text: Bytes,
    },
    /// A design, as TOML.
    Designed {
        /// Its text.
        text: Bytes,
    },
    /// Two networks make no pair.
    BadPair {
        /// Why.
        refusal: PairRefusal,
    },
    /// A line of an order file is faulty.
    BadOrder {
        /// The name of the file.
        file: Bytes,
        /// The line, counted from 1.
        line: u32,
        /// Why it is faulty.
        kind: OrderKind,
    },
    /// A line of an order file of single changes is faulty.
    BadChanges {
        /// The line that tells it.
        text: Bytes,
    },
    /// A design is refused.
    BadDesign {
        /// The name of the file.
        file: Bytes,
        /// The path of keys to what is wrong.
        path: Name,
        /// What is wrong.
        kind: DesignKind,
    },
    /// The waves of an order file are safe, and are cut into smaller ones.
    Split {
        /// The order file of these.
        text: Bytes,
    },
    /// The lines of a design alone.
    Delta {
        /// Router by router.
        text: Bytes,
    },
    /// The entries of the route tables of both protocols.
    Tables {
        /// A line each.
        text: Bytes,
    },
    /// What is planned of the rest of a migration that was stopped.
    Rest {
        /// The phase from which each router goes on.
        start: RestStart,
        /// An end that isn't sound, or what was found between sound ends.
        planned: Planned,
    },
    /// The changes of a journal begin a run, and are taken back.
    WayBack {
        /// The lines that undo them, from the last to the first.
        text: Bytes,
    },
    /// A run leads to what the configurations of now show.
    Observed {
        /// The journal of its changes up to there.
        text: Bytes,
    },
    /// The configurations of now differ in more than distances, or no run leads to what they show.
    NotObserved {
        /// The line that tells the router.
        text: Bytes,
    },
    /// All states of an order or of a wave list are sound, and more is told: by `why` what keeps routers or changes from earlier
    /// waves, by `picture` the network with its waves.
    ExplainedSafe {
        /// The line that it is safe, and behind it the reasons; or the picture with that line in it.
        text: Bytes,
    },
    /// A state of an order or of a wave list isn't sound, and more is told: by `why` what packets do there, by `picture` the network
    /// with its waves and the fault.
    ExplainedUnsafe {
        /// The line that it is unsafe, and behind it the way of a packet; or the picture with that line in it.
        text: Bytes,
    },
}

/// How a call ends that decided so.
pub(crate) fn decision_status(decision: &Decision) -> Status
    ensures { result ≡ decision_status decision.now }
{
    match decision {
        Decision::Safe => Status::Done,
        Decision::SafeWaves { .. } => Status::Done,
        Decision::Unsafe { .. } => Status::Negative,
        Decision::UnsafeWave { .. } => Status::Negative,
        Decision::Plan { planned } => plan_status(planned),
        Decision::TwoPass { planned } => plan_status(planned),
        Decision::Summary { .. } => Status::Done,
        Decision::Tree { verdict } => verdict_status(*verdict),
        Decision::Script { .. } => Status::Done,
        Decision::Reached { .. } => Status::Done,
        Decision::Departs { .. } => Status::Negative,
        Decision::Prepared { .. } => Status::Done,
        Decision::PairScript { .. } => Status::Done,
        Decision::Designed { .. } => Status::Done,
        Decision::BadPair { .. } => Status::Refused,
        Decision::BadOrder { .. } => Status::Refused,
        Decision::BadChanges { .. } => Status::Refused,
        Decision::BadDesign { .. } => Status::Refused,
        Decision::Split { .. } => Status::Done,
        Decision::Delta { .. } => Status::Done,
        Decision::Tables { .. } => Status::Done,
        Decision::Rest { planned, .. } => plan_status(planned),
        Decision::WayBack { .. } => Status::Done,
        Decision::Observed { .. } => Status::Done,
        Decision::NotObserved { .. } => Status::Negative,
        Decision::ExplainedSafe { .. } => Status::Done,
        Decision::ExplainedUnsafe { .. } => Status::Negative,
    }
}

/// How a call ends that planned so.
fn plan_status(planned: &Planned) -> Status
    ensures { result ≡ plan_status planned.now }
{
    match planned {
        Planned::UnsoundOld { .. } => Status::Unsound,
        Planned::UnsoundNew { .. } => Status::Unsound,
        Planned::Searched { found } => found_status(found),
    }
}

/// How a call ends that found this between sound ends.
fn found_status(found: &Found) -> Status
    ensures { result ≡ found_status found.now }
{
    match found {
        Found::Waves { .. } => Status::Done,
        Found::Refuted { .. } => Status::Negative,
        Found::Spent { .. } => Status::Spent,
    }
}

/// How a call ends that found this of a tree.
fn verdict_status(verdict: Verdict) -> Status
    ensures { result ≡ verdict_status verdict }
{
    match verdict {
        Verdict::Closed { .. } => Status::Done,
        Verdict::Unfinished { .. } => Status::Negative,
        Verdict::Wrong { .. } => Status::Negative,
    }
}

/// What is printed of a decision on a network. The only error is want of memory.
pub(crate) fn decision_text(
    alloc: Global,
    net: &Net,
    decision: Decision,
) -> Result<Bytes, AllocError>
    requires { IsTellable net.now decision }
    ensures { IfOk result (λ text. text ≡ decision_text net.now decision) }
{
    match decision {
        Decision::Safe => safe_text(alloc, 2 * net.routers()),
        Decision::SafeWaves { waves } => waves_safe_text(alloc, 2 * net.routers(), waves),
        Decision::Unsafe { state, fault } => unsafe_text(alloc, net, state, &fault),
        Decision::UnsafeWave { wave, fault } => waves_unsafe_text(alloc, net, wave, &fault),
        Decision::Plan { planned } => plan_text(alloc, Items::Routers, net, &planned),
        Decision::TwoPass { planned } => plan_text(alloc, Items::Changes, net, &planned),
        Decision::Summary { counts, waves } => summary_text(alloc, net, counts, &waves),
        Decision::Tree { verdict } => verdict_text(alloc, verdict),
        Decision::Script { version, waves } => script_text(alloc, net, &waves, version),
        Decision::Reached { made, nexts } => reached_text(alloc, net, made, nexts.as_slice()),
        Decision::Departs { line } => departs_text(alloc, line),
        Decision::Prepared { text } => Ok(text),
        Decision::PairScript { text } => Ok(text),
        Decision::Designed { text } => Ok(text),
        Decision::BadPair { refusal } => pair_refusal_text(alloc, &refusal),
        Decision::BadOrder { file, line, kind } => {
            faulty_line(alloc, file.as_slice(), line, order_kind_name(kind))
        }
        Decision::BadChanges { text } => Ok(text),
        Decision::BadDesign { file, path, kind } => {
            refused_design_text(alloc, file.as_slice(), path.as_slice(), kind)
        }
        Decision::Split { text } => Ok(text),
        Decision::Delta { text } => Ok(text),
        Decision::Tables { text } => Ok(text),
        Decision::Rest { start, planned } => rest_plan_text(alloc, net, start.as_slice(), &planned),
        Decision::WayBack { text } => Ok(text),
        Decision::Observed { text } => Ok(text),
        Decision::NotObserved { text } => Ok(text),
        Decision::ExplainedSafe { text } => Ok(text),
        Decision::ExplainedUnsafe { text } => Ok(text),
    }
}

/// What is printed of a plan.
fn plan_text(alloc: Global, items: Items, net: &Net, planned: &Planned) -> Result<Bytes, AllocError>
    requires { IsPlanTellable items net.now planned.now }
    ensures { IfOk result (λ text. text ≡ plan_text items (names_of net.now) planned.now) }
{
    match planned {
        Planned::UnsoundOld { fault } => unsound_text(alloc, net, End::Old, fault),
        Planned::UnsoundNew { fault } => unsound_text(alloc, net, End::New, fault),
        Planned::Searched { found } => planned_text(alloc, items, net, found),
    }
}
