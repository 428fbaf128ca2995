ghost use Rattle.std.specs.Prelude.{◌≡◌, not, nat_eq, nat_lt, IfOk};
ghost use Rattle.std.specs.Ordering.{nat_cmp};
ghost use Rattle.std.specs.List.Sorted.{IsPermutation};
ghost use Rattle.ios_reader.specs.FaultyLines.{AreLeastOnLines};
ghost use Rattle.ios_reader.specs.steps.ToldFaults.{order_of, is_further, AreFaultsInOrder};

use crate::OutOfMemory;
use ios_lines::fault::{Fault, is_before};
use std::alloc::Global;
use std::cmp::Ordering;

/// Which of two faults comes first: that on the lesser line, then that with the lesser kind.
#[tactic(auto, using(crate::proofs::FaultyLineFacts::order_less, crate::proofs::FaultyLineFacts::order_greater, crate::proofs::FaultyLineFacts::order_equal))]
fn fault_order(f: &Fault, g: &Fault) -> Ordering
    ensures { result ≡ nat_cmp (order_of f.now) (order_of g.now) }
{
    if is_before(*f, *g) {
        Ordering::Less
    } else if is_before(*g, *f) {
        Ordering::Greater
    } else {
        Ordering::Equal
    }
}

/// Faults in their order.
fn in_order(faults: Vec<Fault>) -> Vec<Fault>
    ensures moved { IsPermutation faults.items result.items }
    ensures sorted { AreFaultsInOrder result.items }
{
    let mut sorted = faults;
    sorted.sort_unstable_by(|f, g| fault_order(f, g));
    sorted
}

/// Whether a fault is on another line than the one before it.
fn is_further(before: Option<Fault>, fault: Fault) -> bool
    ensures { result ≡ is_further before fault }
{
    match before {
        Some(before) => before.line != fault.line,
        None => true,
    }
}

/// Of faults in their order the first on each line.
fn firsts_on_lines(alloc: Global, sorted: &[Fault]) -> Result<Vec<Fault>, OutOfMemory>
    requires { AreFaultsInOrder sorted.now }
    ensures { IfOk result (λ told. AreLeastOnLines sorted.now told.items) }
{
    let mut told = Vec::new(alloc);
    let mut before = None;
    for fault in sorted {
        if is_further(before, *fault) {
            told.push(*fault)?;
        }
        before = Some(*fault);
    }
    Ok(told)
}

/// The faulty lines that have these faults, ascending, each once with its least kind.
pub(crate) fn faulty_lines(alloc: Global, faults: Vec<Fault>) -> Result<Vec<Fault>, OutOfMemory>
    ensures { IfOk result (λ told. AreLeastOnLines faults.items told.items) }
{
    let sorted = in_order(faults);
    let told = firsts_on_lines(alloc, sorted.as_slice())?;
    Ok(told)
}
