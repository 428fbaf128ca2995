ghost use Rattle.std.specs.Prelude.{◌≡◌, ℕ, ◌<◌, ◌≤◌, length, Contains, Some, ◌⊎◌, IfSome, IfNone};
ghost use Rattle.order_core.specs.Marks.{IsMarked};
ghost use Rattle.precedence_set.specs.steps.Graphs.{IsGraph};
ghost use Rattle.precedence_set.specs.steps.Walking.{IsKnownUpTo};

use crate::graph::SuccessorGraph;

/// The lowest-numbered marked router that is assumed after x, if there is one.
pub(crate) fn lowest_marked_after(graph: &SuccessorGraph<'_>, marks: &[bool], x: u32) -> Option<u32>
    requires x_in { x < length marks.now }
    requires graph { IsGraph (length marks.now) graph.now }
    ensures after { IfSome result (λ w. Contains graph.now.pairs.now (x, w)) }
    ensures marked { IfSome result (λ w. IsMarked marks.now w) }
    ensures lowest { IfSome result (λ w. (q : ℕ) → Contains graph.now.pairs.now (x, q) → IsMarked marks.now q → w ≤ q) }
    ensures none { IfNone result ((q : ℕ) → Contains graph.now.pairs.now (x, q) → ¬ IsMarked marks.now q) }
{
    let mut lowest = None;
    let mut at = graph.successors.first(x);
    while let Some(number) = at {
        let (_, v) = graph.pairs[number as usize];
        lowest = lowest_with(marks, lowest, v);
        at = graph.successors.next(number);
    }
    lowest
}

/// The lower of a router that may be known and of v where that is marked.
fn lowest_with(marks: &[bool], lowest: Option<u32>, v: u32) -> Option<u32>
    requires { v < length marks.now }
    ensures found { (w : ℕ) → result ≡ Some w → (lowest ≡ Some w) ⊎ ((w ≡ v) × IsMarked marks.now v) }
    ensures no_higher { (q : ℕ) → IsKnownUpTo lowest q → IsKnownUpTo result q }
    ensures at_most { IsMarked marks.now v → IsKnownUpTo result v }
{
    if !marks[v as usize] {
        return lowest;
    }
    match lowest {
        Some(w) if w < v => lowest,
        _ => Some(v),
    }
}
