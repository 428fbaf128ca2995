ghost use Rattle.std.specs.Prelude.{◌≡◌, IfOk, length};
ghost use Rattle.net_model.specs.RouterNames.{names_of};
ghost use Rattle.plan_theory.specs.Plans.{fault_told};
ghost use Rattle.migration_report.specs.EndTexts.{EndFaultBelow, end_word, unsound_text};
ghost use Rattle.migration_report.specs.declared.ends.End.TheVariants.{Start};

use crate::report::fault_words;
use net_addr::Bytes;
use net_model::Net;
use plan_theory::EndFault;
use printed_lines::LineBuilder;
use std::alloc::{AllocError, Global};

/// An end of a migration.
#[derive(Clone, Copy, Debug, PartialEq, Eq)]
pub enum End {
    /// The first state, in which every router is in its old phase.
    Old,
    /// The last state, in which every router is in its new phase.
    New,
    /// The state in which a migration was stopped, from which it goes on.
    Start,
}

/// The line that tells what is wrong in an end that isn't sound. The only error is want of memory.
pub fn unsound_text(
    alloc: Global,
    net: &Net,
    end: End,
    fault: &EndFault,
) -> Result<Bytes, AllocError>
    requires { EndFaultBelow (length net.now) fault.now }
    ensures { IfOk result (λ text. text ≡ unsound_text end (names_of net.now) (fault_told fault.now)) }
{
    let line = LineBuilder::start(alloc, b"unsound")?.word(end_word(end))?;
    fault_words(line, net, fault)?.finish()
}

/// The line that tells what is wrong in the state in which a migration was stopped, where that isn't sound. The only error is want
/// of memory.
pub fn start_text(alloc: Global, net: &Net, fault: &EndFault) -> Result<Bytes, AllocError>
    requires { EndFaultBelow (length net.now) fault.now }
    ensures { IfOk result (λ text. text ≡ unsound_text Start (names_of net.now) (fault_told fault.now)) }
{
    unsound_text(alloc, net, End::Start, fault)
}

/// The word for an end.
fn end_word(end: End) -> &'static [u8]
    ensures { result.now ≡ end_word end }
{
    match end {
        End::Old => b"old",
        End::New => b"new",
        End::Start => b"start",
    }
}
