ghost use Rattle.std.specs.Prelude.{◌≡◌, ◌++◌, ◌∷◌, [], ◌↔◌, ◌≤◌, IfOk, IsTrue, OnOk};
ghost use Rattle.net_model.specs.Refusals.{IsBelow};
ghost use Rattle.design_file.specs.Faults.{IsToldRather, fault, design_kind_rank};
ghost use Rattle.design_file.specs.steps.FaultLists.{IsToldAmong, IsToldOf};
ghost use Rattle.design_file.specs.Keys.{below};

use crate::DesignKind;
use net_addr::Name;
use std::alloc::{AllocError, Global};
use std::cmp::Ordering;

/// A fault of a design.
#[derive(Debug, Drop)]
pub(crate) struct Fault {
    /// What is wrong.
    pub kind: DesignKind,
    /// Where: keys joined by dots.
    pub path: Name,
}

/// The path of a key in a table of this path, which is empty for the whole document.
pub(crate) fn below(alloc: Global, path: &[u8], word: &[u8]) -> Result<Vec<u8>, AllocError>
    ensures { IfOk result (λ all. all.items ≡ below path.now word.now) }
{
    if path.is_empty() {
        return Vec::from_slice(alloc, word);
    }
    let mut all = Vec::from_slice(alloc, path)?;
    all.push(b'.')?;
    all.extend_from_slice(word)?;
    Ok(all)
}

/// Adds a fault of this kind at this path.
pub(crate) fn add(
    alloc: Global,
    faults: &mut Vec<Fault>,
    kind: DesignKind,
    path: &[u8],
) -> Result<(), AllocError>
    ensures { OnOk result (faults.new.items ≡ faults.old.items ++ fault kind path.now ∷ []) }
{
    let path = Name::from_vec(Vec::from_slice(alloc, path)?);
    faults.push(Fault { kind, path })?;
    Ok(())
}

/// The place of a kind in their order.
fn rank(kind: DesignKind) -> u8
    ensures value { result ≡ design_kind_rank kind }
    ensures most { result ≤ 9 }
{
    kind as u8
}

/// Whether a path is less than another in byte order.
fn is_below(one: &[u8], other: &[u8]) -> bool
    ensures { IsTrue result ↔ IsBelow one.now other.now }
{
    one.cmp(other) == Ordering::Less
}

/// Whether one fault is told rather than another.
fn is_told(one: &Fault, other: &Fault) -> bool
    ensures { IsTrue result ↔ IsToldRather one.now other.now }
{
    rank(one.kind) < rank(other.kind)
        || rank(one.kind) == rank(other.kind)
            && is_below(one.path.as_slice(), other.path.as_slice())
}

/// The one of two faults that is told.
fn told_of(best: Option<Fault>, other: Fault) -> Fault
    ensures { IsToldOf best other result }
{
    match best {
        Some(best) if !is_told(&other, &best) => best,
        _ => other,
    }
}

/// The fault of a list that is told.
pub(crate) fn least(faults: Vec<Fault>) -> Option<Fault>
    ensures { IsToldAmong faults.items result }
{
    let mut best = None;
    for fault in faults {
        best = Some(told_of(best, fault));
    }
    best
}
