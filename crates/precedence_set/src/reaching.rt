ghost use Rattle.std.specs.Prelude.{◌≡◌, ◌≢◌, ℕ, ◌^◌, ◌<◌, ◌≤◌, ◌⊎◌, length, slice_index, Contains};
ghost use Rattle.order_core.specs.Pairs.{Reaches};
ghost use Rattle.order_core.specs.Marks.{IsMarked};
ghost use Rattle.precedence_set.specs.steps.Marks.{AreListed};
ghost use Rattle.precedence_set.specs.steps.Graphs.{IsGraph};

use crate::following::lowest_marked_after;
use crate::graph::SuccessorGraph;

/// How far a list of routers is: how many are listed, and which of them is looked at next.
#[derive(Clone, Copy)]
struct Queue {
    next: usize,
    count: usize,
}

/// Marks and lists what v reaches by the pairs, but nothing by the pairs from u; how many routers are listed. In
/// time of these routers and the pairs from them.
pub(crate) fn list_reached(
    graph: &SuccessorGraph<'_>,
    u: u32,
    v: u32,
    marks: &mut [bool],
    list: &mut [u32],
) -> usize
    requires small { length list.old < 2 ^ 31 }
    requires marks_length { length marks.old ≡ length list.old }
    requires graph { IsGraph (length list.old) graph.now }
    requires v_in { v < length list.old }
    ensures sound { (r : ℕ) → IsMarked marks.new r → Reaches graph.now.pairs.now v r }
    ensures complete { Reaches graph.now.pairs.now v u → IsMarked marks.new u }
    ensures inside { (j : ℕ) → j < result → slice_index list.new j < length list.new }
    ensures within { result ≤ length list.new }
{
    unmark_all(marks);
    let mut count = list_one(marks, list, 0, v);
    let mut k = 0;
    while k < count {
        let queue = Queue { next: k, count };
        count = list_after(graph, u, marks, list, queue);
        k += 1;
    }
    count
}

/// No router is marked.
fn unmark_all(marks: &mut [bool])
    ensures { (r : ℕ) → ¬ IsMarked marks.new r }
{
    for mark in marks.iter_mut() {
        *mark = false;
    }
}

/// Marks and lists what is assumed after the router that is next, unless that is u; how many are listed then.
fn list_after(
    graph: &SuccessorGraph<'_>,
    u: u32,
    marks: &mut [bool],
    list: &mut [u32],
    queue: Queue,
) -> usize
    requires small { length list.old < 2 ^ 31 }
    requires marks_length { length marks.old ≡ length list.old }
    requires graph { IsGraph (length list.old) graph.now }
    requires place { queue.next < queue.count }
    requires listed { AreListed marks.old list.old queue.count }
    ensures listed { AreListed marks.new list.new result }
    ensures kept { (r : ℕ) → IsMarked marks.old r → IsMarked marks.new r }
    ensures from { (r : ℕ) → IsMarked marks.new r → IsMarked marks.old r ⊎ Contains graph.now.pairs.now (slice_index list.old queue.next, r) }
    ensures after { slice_index list.old queue.next ≢ u → (w : ℕ) → Contains graph.now.pairs.now (slice_index list.old queue.next, w) → IsMarked marks.new w }
    ensures same { (j : ℕ) → j < queue.count → slice_index list.new j ≡ slice_index list.old j }
    ensures no_fewer { queue.count ≤ result }
{
    let x = list[queue.next];
    if x == u {
        return queue.count;
    }
    let mut count = queue.count;
    let mut at = graph.successors.first(x);
    while let Some(number) = at {
        let (_, w) = graph.pairs[number as usize];
        count = list_one(marks, list, count, w);
        at = graph.successors.next(number);
    }
    count
}

/// Marks and lists router w, unless it is marked; how many are listed then.
fn list_one(marks: &mut [bool], list: &mut [u32], count: usize, w: u32) -> usize
    requires small { length list.old < 2 ^ 31 }
    requires marks_length { length marks.old ≡ length list.old }
    requires w_in { w < length marks.old }
    requires listed { AreListed marks.old list.old count }
    ensures listed { AreListed marks.new list.new result }
    ensures kept { (r : ℕ) → IsMarked marks.old r → IsMarked marks.new r }
    ensures from { (r : ℕ) → IsMarked marks.new r → IsMarked marks.old r ⊎ (r ≡ w) }
    ensures marked { IsMarked marks.new w }
    ensures same { (j : ℕ) → j < count → slice_index list.new j ≡ slice_index list.old j }
    ensures no_fewer { count ≤ result }
{
    if marks[w as usize] {
        return count;
    }
    marks[w as usize] = true;
    list[count] = w;
    count + 1
}

/// Takes the mark of each of the first listed routers, the last one first, that is before no marked router and
/// isn't u. What reaches u keeps its mark.
pub(crate) fn prune(
    graph: &SuccessorGraph<'_>,
    u: u32,
    marks: &mut [bool],
    list: &[u32],
    count: usize,
)
    requires graph { IsGraph (length marks.old) graph.now }
    requires within { count ≤ length list.now }
    requires inside { (j : ℕ) → j < count → slice_index list.now j < length marks.old }
    requires complete { (r : ℕ) → Reaches graph.now.pairs.now r u → IsMarked marks.old r }
    ensures { (r : ℕ) → Reaches graph.now.pairs.now r u → IsMarked marks.new r }
{
    for j in (0..count).rev() {
        prune_one(graph, u, marks, list[j]);
    }
}

/// Takes the mark of router x, where it isn't u and is before no marked router.
fn prune_one(graph: &SuccessorGraph<'_>, u: u32, marks: &mut [bool], x: u32)
    requires graph { IsGraph (length marks.old) graph.now }
    requires x_in { x < length marks.old }
    requires complete { (r : ℕ) → Reaches graph.now.pairs.now r u → IsMarked marks.old r }
    ensures { (r : ℕ) → Reaches graph.now.pairs.now r u → IsMarked marks.new r }
{
    if x == u || lowest_marked_after(graph, marks, x).is_some() {
        return;
    }
    marks[x as usize] = false;
}
