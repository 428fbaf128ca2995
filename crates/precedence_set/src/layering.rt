ghost use Rattle.std.specs.Prelude.{◌≡◌, ◌≢◌, ℕ, ◌+◌, ◌^◌, ◌<◌, ◌≤◌, ◌⊎◌, true, false, List, [], ◌∷◌, ◌++◌};
ghost use Rattle.std.specs.Prelude.{length, Contains};
ghost use Rattle.order_core.specs.Pairs.{Pair, HasNoCycle};
ghost use Rattle.order_core.specs.Rankings.{IsRanking, rank_of, wave_count};
ghost use Rattle.precedence_set.specs.Layers.{AreLayers};
ghost use Rattle.precedence_set.specs.steps.Sorting.{IsTopological};
ghost use Rattle.precedence_set.specs.steps.Graphs.{IsGraph};
ghost use Rattle.precedence_set.specs.Successors.{AreSuccessors};

use crate::graph::SuccessorGraph;
use crate::sorting::{clear_numbers, sort_all};
use link_trail::Links;

/// Makes the layers those of the pairs, where they are stale, in time of the pairs and routers. The counts and
/// the order are room to work in.
pub(crate) fn refresh_layers(
    graph: &SuccessorGraph<'_>,
    counts: &mut [u32],
    order: &mut [u32],
    layers: &mut [u32],
    stale: &mut bool,
)
    requires small { length layers.old < 2 ^ 31 }
    requires pairs_small { length graph.now.pairs.now < 2 ^ 31 }
    requires acyclic { HasNoCycle graph.now.pairs.now }
    requires graph { IsGraph (length layers.old) graph.now }
    requires counts_length { length counts.old ≡ length layers.old }
    requires order_length { length order.old ≡ length layers.old }
    requires fresh { stale.old ≡ false → AreLayers (length layers.old) graph.now.pairs.now layers.old }
    ensures layers { AreLayers (length layers.new) graph.now.pairs.now layers.new }
    ensures fresh { stale.new ≡ false }
{
    if !*stale {
        return;
    }
    sort_all(graph, counts, order);
    raise_all(graph, order, layers);
    *stale = false;
}

/// Takes the pair (u, v) to the layers of the pairs before it, where it moves no router but v. Whether the
/// layers are stale then.
pub(crate) fn add_to_layers(
    successors: &Links,
    layers: &mut [u32],
    stale: bool,
    u: u32,
    v: u32,
) -> bool
    requires u_in { u < length layers.old }
    requires v_in { v < length layers.old }
    requires differ { u ≢ v }
    requires lists { length layers.old ≡ length successors.now.lists }
    requires few { stale ≡ false → rank_of layers.old u + 1 < 2 ^ 32 }
    ensures stays { stale ≡ true → result ≡ true }
    ensures layers { (pairs : List Pair) → result ≡ false → AreSuccessors (length layers.old) pairs successors.now.lists
        → AreLayers (length layers.old) pairs layers.old → AreLayers (length layers.new) (pairs ++ (u, v) ∷ []) layers.new }
{
    if stale {
        return true;
    }
    if layers[u as usize] < layers[v as usize] {
        return false;
    }
    if successors.first(v).is_some() {
        return true;
    }
    layers[v as usize] = layers[u as usize] + 1;
    false
}

/// Raises each router above its predecessors, in an order in which it stands after them.
fn raise_all(graph: &SuccessorGraph<'_>, order: &[u32], layers: &mut [u32])
    requires small { length layers.old < 2 ^ 31 }
    requires graph { IsGraph (length layers.old) graph.now }
    requires order { IsTopological (length layers.old) graph.now.pairs.now order.now }
    ensures layers { AreLayers (length layers.new) graph.now.pairs.now layers.new }
    ensures ranking { IsRanking (length layers.new) layers.new }
{
    clear_numbers(layers);
    for k in 0..order.len() {
        raise_after(graph, layers, order[k]);
    }
}

/// Raises each router that is assumed after u above it.
fn raise_after(graph: &SuccessorGraph<'_>, layers: &mut [u32], u: u32)
    requires u_in { u < length layers.old }
    requires few { rank_of layers.old u + 1 < 2 ^ 32 }
    requires graph { IsGraph (length layers.old) graph.now }
    ensures no_lower { (v : ℕ) → rank_of layers.old v ≤ rank_of layers.new v }
    ensures above { (v : ℕ) → Contains graph.now.pairs.now (u, v) → rank_of layers.old u + 1 ≤ rank_of layers.new v }
    ensures from { (v : ℕ) → (rank_of layers.new v ≡ rank_of layers.old v) ⊎
        (Contains graph.now.pairs.now (u, v) × (rank_of layers.new v ≡ rank_of layers.old u + 1)) }
{
    let above = layers[u as usize] + 1;
    let mut at = graph.successors.first(u);
    while let Some(number) = at {
        let (_, v) = graph.pairs[number as usize];
        layers[v as usize] = layers[v as usize].max(above);
        at = graph.successors.next(number);
    }
}

/// How many layers there are.
pub(crate) fn count_layers(layers: &[u32]) -> u32
    requires small { length layers.now < 2 ^ 31 }
    requires ranking { IsRanking (length layers.now) layers.now }
    ensures { result ≡ wave_count layers.now }
{
    let mut count: u32 = 0;
    for layer in layers {
        count = count.max(*layer + 1);
    }
    count
}
