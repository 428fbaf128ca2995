ghost use Rattle.std.specs.Prelude.{◌≡◌, ℕ, ◌+◌, ◌-◌, ◌^◌, ◌<◌, ◌≤◌, length, slice_index, slice_set};
ghost use Rattle.order_core.specs.Pairs.{AreBelow, HasNoCycle};
ghost use Rattle.precedence_set.specs.steps.Graphs.{IsGraph};
ghost use Rattle.precedence_set.specs.steps.Sorting.{AreFree, AreLeftCounts, IsGone, IsListing, IsTopological, queue};

use crate::graph::SuccessorGraph;

/// Lists all routers so that each stands after its predecessors, in time of the pairs and routers. The counts
/// are room to work in.
pub(crate) fn sort_all(graph: &SuccessorGraph<'_>, counts: &mut [u32], order: &mut [u32])
    requires small { length order.old < 2 ^ 31 }
    requires pairs_small { length graph.now.pairs.now < 2 ^ 31 }
    requires acyclic { HasNoCycle graph.now.pairs.now }
    requires graph { IsGraph (length order.old) graph.now }
    requires counts_length { length counts.old ≡ length order.old }
    ensures { IsTopological (length order.new) graph.now.pairs.now order.new }
{
    count_pairs(graph.pairs, counts);
    let mut count = list_free(counts, order);
    for k in 0..order.len() {
        count = list_after(graph, counts, order, k, count);
    }
}

/// Counts the pairs into each router.
fn count_pairs(pairs: &[(u32, u32)], counts: &mut [u32])
    requires below { AreBelow (length counts.old) pairs.now }
    requires pairs_small { length pairs.now < 2 ^ 31 }
    ensures { AreLeftCounts pairs.now (IsGone pairs.now counts.new 0) counts.new }
{
    clear_numbers(counts);
    for i in 0..pairs.len() {
        let (_, v) = pairs[i];
        counts[v as usize] += 1;
    }
}

/// Each number becomes 0.
pub(crate) fn clear_numbers(numbers: &mut [u32])
    ensures { (s : ℕ) → slice_index numbers.new s ≡ 0 }
{
    for number in numbers.iter_mut() {
        *number = 0;
    }
}

/// Lists the routers that wait for no pair; how many they are.
fn list_free(counts: &[u32], order: &mut [u32]) -> usize
    requires small { length order.old < 2 ^ 31 }
    requires counts_length { length counts.now ≡ length order.old }
    ensures { AreFree counts.now order.new result (length order.new) }
{
    let mut count = 0;
    for router in 0..order.len() as u32 {
        if counts[router as usize] == 0 {
            order[count] = router;
            count += 1;
        }
    }
    count
}

/// Lists what waits for no router after the one at place k; how many are listed then.
fn list_after(
    graph: &SuccessorGraph<'_>,
    counts: &mut [u32],
    order: &mut [u32],
    k: usize,
    count: usize,
) -> usize
    requires small { length order.old < 2 ^ 31 }
    requires graph { IsGraph (length order.old) graph.now }
    requires counts_length { length counts.old ≡ length order.old }
    requires listed { k < count }
    requires within { count ≤ length order.old }
    requires listing { IsListing (length order.old) graph.now.pairs.now (queue counts.old order.old count) }
    requires counted { AreLeftCounts graph.now.pairs.now (IsGone graph.now.pairs.now order.old k) counts.old }
    ensures listing { IsListing (length order.new) graph.now.pairs.now (queue counts.new order.new result) }
    ensures within { result ≤ length order.new }
    ensures placed { k < result }
    ensures counted { AreLeftCounts graph.now.pairs.now (IsGone graph.now.pairs.now order.new (k + 1)) counts.new }
{
    let mut count = count;
    let mut at = graph.successors.first(order[k]);
    while let Some(number) = at {
        let (_, v) = graph.pairs[number as usize];
        count = free_one(counts, order, count, v);
        at = graph.successors.next(number);
    }
    count
}

/// Router v waits for one pair less; where that was the last one, v is listed. How many are listed then.
fn free_one(counts: &mut [u32], order: &mut [u32], count: usize, v: u32) -> usize
    requires v_in { v < length counts.old }
    requires some { 0 < slice_index counts.old v }
    requires room { slice_index counts.old v ≡ 1 → count < length order.old }
    requires small { length order.old < 2 ^ 31 }
    ensures counts { counts.new ≡ slice_set counts.old v (slice_index counts.old v - 1) }
    ensures count { slice_index counts.old v ≡ 1 → result ≡ count + 1 }
    ensures order { slice_index counts.old v ≡ 1 → order.new ≡ slice_set order.old count v }
    ensures same_count { 1 < slice_index counts.old v → result ≡ count }
    ensures same_order { 1 < slice_index counts.old v → order.new ≡ order.old }
{
    counts[v as usize] -= 1;
    if counts[v as usize] > 0 {
        return count;
    }
    order[count] = v;
    count + 1
}
