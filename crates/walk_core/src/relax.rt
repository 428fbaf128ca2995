ghost use Rattle.std.specs.Prelude.{◌≡◌, ◌+◌, ◌*◌, ◌^◌, ◌<◌, ◌↔◌, ℕ, length, IsTrue, Some, slice_set, if◌then◌else◌, IfOk};
ghost use Rattle.std.specs.Bool.{OnFalse};
ghost use Rattle.walk_core.specs.Distances.{distance_at};
ghost use Rattle.walk_core.specs.steps.Rows.{AreLeastDistances};
ghost use Rattle.walk_core.specs.steps.Relaxing.{weight_of, HaveRoom, IsTightFrom, Relaxes};

use crate::distance::Distance;
use crate::rows::Distances;
use crate::{CostGraph, OutOfMemory};
use std::alloc::Global;

/// The distances from a root.
pub(crate) fn distances_from<G: CostGraph>(
    alloc: Global,
    graph: &G,
    root: u32,
) -> Result<Distances, OutOfMemory>
    requires { root < G.vertex_count graph.now }
    ensures least { IfOk result (λ ds. AreLeastDistances (G.has_arc graph.now) root ds) }
    ensures whole { IfOk result (λ ds. length ds ≡ G.vertex_count graph.now) }
    ensures near { IfOk result (λ ds. (v d : ℕ) → distance_at ds v ≡ Some d →
        d < G.vertex_count graph.now * 2 ^ 32) }
{
    let mut distances = vec![in alloc; Distance::none(); graph.vertices() as usize]?;
    distances[root as usize] = Distance::of(0);
    while relax_all(graph, &mut distances) {}
    Ok(Distances::from_vec(distances))
}

/// The distance of v.
#[inline(always)]
pub(crate) fn distance_in(distances: &[Distance], v: u32) -> Distance
    ensures { result ≡ distance_at distances.now v }
{
    match distances.get(v as usize) {
        Some(distance) => *distance,
        None => Distance::none(),
    }
}

/// How far v is, and None where there is no distance.
#[inline(always)]
pub(crate) fn distance_at(distances: &[Distance], v: u32) -> Option<u64>
    ensures { result ≡ distance_at distances.now v }
{
    distance_in(distances, v).get()
}

/// Relaxes every arc twice, by ascending and by descending numbers of where they begin: whether some distance fell. So
/// distances spread along a row of vertices in one call, whichever way their numbers run.
fn relax_all<G: CostGraph>(graph: &G, distances: &mut [Distance]) -> bool
    requires vertices { length distances.old ≡ G.vertex_count graph.now }
    requires room { HaveRoom distances.old }
    ensures relaxes { Relaxes (G.has_arc graph.now) distances.old distances.new result }
    ensures tight { OnFalse result ((u : ℕ) → u < G.vertex_count graph.now →
        IsTightFrom (G.has_arc graph.now) u distances.new) }
{
    let mut fell = false;
    for u in 0..graph.vertices() {
        fell |= relax_from(graph, graph.vertices() - 1 - u, distances);
        fell |= relax_from(graph, u, distances);
    }
    fell
}

/// Relaxes the arcs from u: whether some distance fell.
fn relax_from<G: CostGraph>(graph: &G, u: u32, distances: &mut [Distance]) -> bool
    requires vertices { length distances.old ≡ G.vertex_count graph.now }
    requires vertex { u < G.vertex_count graph.now }
    requires room { HaveRoom distances.old }
    ensures relaxes { Relaxes (G.has_arc graph.now) distances.old distances.new result }
    ensures tight { OnFalse result (IsTightFrom (G.has_arc graph.now) u distances.new) }
{
    let Some(near) = distances[u as usize].get() else {
        return false;
    };
    let mut fell = false;
    for i in 0..graph.arcs(u) {
        let (v, cost) = graph.arc(u, i);
        fell |= relax(distances, v, near + u64::from(cost));
    }
    fell
}

/// Notes that some walk to v costs `found`: whether none that was known cost as little.
pub(crate) fn relax(distances: &mut [Distance], v: u32, found: u64) -> bool
    requires vertex { v < length distances.old }
    requires fits { found + 1 < 2 ^ 64 }
    ensures falls { IsTrue result ↔ (found < weight_of (distance_at distances.old v)) }
    ensures after { distances.new ≡
        (if result then slice_set distances.old v (Some found) else distances.old) }
{
    let falls = match distances[v as usize].get() {
        None => true,
        Some(known) => found < known,
    };
    if falls {
        distances[v as usize] = Distance::of(found);
    }
    falls
}
