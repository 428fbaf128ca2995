ghost use Rattle.std.specs.Prelude.{◌≡◌, ◌++◌, OnOk};
ghost use Rattle.ios_lines.specs.FaultOrder.{rank, is_before, lesser_fault, least_fault, faults_at, faults_if};

use crate::OutOfMemory;
use crate::kind::ReadKind;

/// Why a line of a text is faulty.
#[derive(Clone, Copy, Debug, PartialEq, Eq)]
pub struct Fault {
    /// The number of the line, from 1.
    pub line: u32,
    /// Why it is faulty.
    pub kind: ReadKind,
}

/// The place of a kind in the order of kinds.
fn rank(kind: ReadKind) -> u8
    ensures { result ≡ rank kind }
{
    kind as u8
}

/// Whether the first fault is before the second: on a lesser line, or on the same line with a lesser kind.
pub fn is_before(f: Fault, g: Fault) -> bool
    ensures { result ≡ is_before f g }
{
    f.line < g.line || (f.line == g.line && rank(f.kind) < rank(g.kind))
}

/// The lesser of two faults, where there is one.
fn lesser_fault(f: Option<Fault>, g: Option<Fault>) -> Option<Fault>
    ensures { result ≡ lesser_fault f g }
{
    match (f, g) {
        (None, g) => g,
        (Some(f), None) => Some(f),
        (Some(f), Some(g)) => { if is_before(g, f) { Some(g) } else { Some(f) } }
    }
}

/// The least of some faults.
#[tactic(auto, using(crate::proofs::FaultFacts::least_next))]
pub fn least_fault(faults: &[Fault]) -> Option<Fault>
    ensures { result ≡ least_fault faults.now }
{
    let mut least = None;
    for fault in faults {
        least = lesser_fault(least, Some(*fault));
    }
    least
}

/// Takes in the fault of a line, where it has one.
pub fn push_fault_at(
    faults: &mut Vec<Fault>,
    line: u32,
    kind: Option<ReadKind>,
) -> Result<(), OutOfMemory>
    ensures { OnOk result (faults.new.items ≡ faults.old.items ++ faults_at line kind) }
{
    if let Some(kind) = kind {
        faults.push(Fault { line, kind })?;
    }
    Ok(())
}

/// Takes in a fault of a line, where the test holds.
pub fn push_fault_if(
    faults: &mut Vec<Fault>,
    faulty: bool,
    line: u32,
    kind: ReadKind,
) -> Result<(), OutOfMemory>
    ensures { OnOk result (faults.new.items ≡ faults.old.items ++ faults_if faulty line kind) }
{
    if faulty {
        faults.push(Fault { line, kind })?;
    }
    Ok(())
}
