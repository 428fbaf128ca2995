use crate::decision::{Decision, decision_status, decision_text};
use crate::refusal::{Refusal, refusal_status, refusal_text};
use crate::{OutOfMemory, Status};
use net_addr::Bytes;
use net_model::Net;
use std::alloc::Global;

/// What was decided of the input of a call.
#[derive(Drop)]
pub enum Outcome {
    /// The input is refused.
    Refused {
        /// Why.
        refusal: Refusal,
    },
    /// A command has decided.
    Decided {
        /// The network of its configurations.
        net: Net,
        /// What it decided of it.
        decision: Decision,
    },
    /// The texts of configurations are surveyed.
    Survey {
        /// Whether something stands out.
        stands_out: bool,
        /// What is told of them.
        text: Bytes,
    },
}

impl Outcome {
    ghost use Rattle.std.specs.Prelude.{◌≡◌, IfOk};
    ghost use Rattle.migration_report.specs.Outcomes.{HasOutcomeText, status_of, survey_status, outcome_text};

    /// How a call ends that comes to this and writes its text whole.
    pub fn status(&self) -> Status
        ensures { result ≡ status_of self.now }
    {
        match self {
            Outcome::Refused { refusal } => refusal_status(refusal),
            Outcome::Decided { decision, .. } => decision_status(decision),
            Outcome::Survey { stands_out, .. } => Outcome::survey_status(*stands_out),
        }
    }

    /// How a survey ends.
    fn survey_status(stands_out: bool) -> Status
        ensures { result ≡ survey_status stands_out }
    {
        if stands_out {
            Status::Negative
        } else {
            Status::Done
        }
    }

    /// The text that tells it. The only error is want of memory.
    pub fn text(self, alloc: Global) -> Result<Bytes, OutOfMemory>
        requires { HasOutcomeText self }
        ensures { IfOk result (λ text. text ≡ outcome_text self) }
    {
        match self {
            Outcome::Refused { refusal } => refusal_text(alloc, &refusal),
            Outcome::Decided { net, decision } => decision_text(alloc, &net, decision),
            Outcome::Survey { text, .. } => Ok(text),
        }
    }
}
