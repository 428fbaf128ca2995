ghost use Rattle.std.specs.Prelude.{◌≡◌, ◌≢◌, ℕ, ◌+◌, ◌-◌, ◌^◌, ◌<◌, ◌≤◌, length, true, false, take, slice_index};
ghost use Rattle.std.specs.Prelude.{slice_set, IfSome, IfNone, OnSome};
ghost use Rattle.order_core.specs.Pairs.{HasNoCycle, Reaches};
ghost use Rattle.precedence_set.specs.LeastCycle.{IsLeastCycle};
ghost use Rattle.order_core.specs.Marks.{IsMarked};
ghost use Rattle.precedence_set.specs.steps.Graphs.{IsGraph};

use crate::following::lowest_marked_after;
use crate::graph::SuccessorGraph;
use crate::reaching::{list_reached, prune};

/// Where the pair (u, v) closes a cycle, writes that cycle and says how long it is. Walks from v along the pairs
/// and stops at u, in time of the routers that it reaches and the pairs from them. Where that closes a cycle, the
/// way back is then found among the routers that may lead to u.
pub(crate) fn closed_cycle(
    graph: &SuccessorGraph<'_>,
    pair: (u32, u32),
    marks: &mut [bool],
    list: &mut [u32],
    path: &mut [u32],
) -> Option<usize>
    requires small { length path.old < 2 ^ 31 }
    requires marks_length { length marks.old ≡ length path.old }
    requires list_length { length list.old ≡ length path.old }
    requires graph { IsGraph (length path.old) graph.now }
    requires u_in { pair.0 < length path.old }
    requires v_in { pair.1 < length path.old }
    requires differ { pair.0 ≢ pair.1 }
    requires acyclic { HasNoCycle graph.now.pairs.now }
    ensures closes { IfSome result (λ _. Reaches graph.now.pairs.now pair.1 pair.0) }
    ensures within { IfSome result (λ count. count ≤ length path.new) }
    ensures cycle { IfSome result (λ count. IsLeastCycle graph.now.pairs.now pair.0 pair.1 (take count path.new)) }
    ensures open { IfNone result (¬ Reaches graph.now.pairs.now pair.1 pair.0) }
{
    let (u, v) = pair;
    let count = list_reached(graph, u, v, marks, list);
    if !marks[u as usize] {
        return None;
    }
    mark_all(marks);
    prune(graph, u, marks, list, count);
    way_back(graph, u, v, marks, path)
}

/// Writes u, v and the way back from v to u by lowest numbers, where there is one; how long that is. Goes depth
/// first and each time to the lowest-numbered marked router, and takes the mark of a router from which it comes
/// back. What reaches u is marked.
fn way_back(
    graph: &SuccessorGraph<'_>,
    u: u32,
    v: u32,
    marks: &mut [bool],
    path: &mut [u32],
) -> Option<usize>
    requires small { length path.old < 2 ^ 31 }
    requires marks_length { length marks.old ≡ length path.old }
    requires graph { IsGraph (length path.old) graph.now }
    requires u_in { u < length path.old }
    requires v_in { v < length path.old }
    requires differ { u ≢ v }
    requires acyclic { HasNoCycle graph.now.pairs.now }
    requires begun { IsMarked marks.old v }
    requires complete { (r : ℕ) → Reaches graph.now.pairs.now r u → IsMarked marks.old r }
    ensures closes { IfSome result (λ _. Reaches graph.now.pairs.now v u) }
    ensures within { IfSome result (λ count. count ≤ length path.new) }
    ensures cycle { IfSome result (λ count. IsLeastCycle graph.now.pairs.now u v (take count path.new)) }
    ensures open { IfNone result (¬ Reaches graph.now.pairs.now v u) }
{
    path[0] = u;
    path[1] = v;
    let mut count = 2;
    while count > 1 {
        let next = lowest_marked_after(graph, marks, path[count - 1]);
        if next == Some(u) {
            return Some(count);
        }
        count = step(marks, path, count, next);
    }
    None
}

/// Each router is marked.
fn mark_all(marks: &mut [bool])
    ensures { (r : ℕ) → r < length marks.new → IsMarked marks.new r }
{
    for mark in marks.iter_mut() {
        *mark = true;
    }
}

/// Takes the next router to the path; where there is none, takes the last one off and takes its mark. How
/// long the path is then.
fn step(marks: &mut [bool], path: &mut [u32], count: usize, next: Option<u32>) -> usize
    requires some { 1 ≤ count }
    requires within { count ≤ length path.old }
    requires room { OnSome next (count < length path.old) }
    requires last_in { slice_index path.old (count - 1) < length marks.old }
    ensures longer { OnSome next (result ≡ count + 1) }
    ensures added { IfSome next (λ w. path.new ≡ slice_set path.old count w) }
    ensures kept { OnSome next (marks.new ≡ marks.old) }
    ensures shorter { IfNone next (result + 1 ≡ count) }
    ensures same { IfNone next (path.new ≡ path.old) }
    ensures taken { IfNone next (marks.new ≡ slice_set marks.old (slice_index path.old (count - 1)) false) }
{
    match next {
        Some(router) => {
            path[count] = router;
            count + 1
        }
        None => {
            marks[path[count - 1] as usize] = false;
            count - 1
        }
    }
}
