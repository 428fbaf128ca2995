ghost use Rattle.std.specs.Prelude.{◌≡◌, ◌+◌, ◌<◌, ◌≤◌, ℕ, [], ◌∷◌, ◌++◌, length, drop, slice_index, All, vec_len};
ghost use Rattle.std.specs.Bool.{OnFalse, OnTrue};
ghost use Rattle.std.specs.Vec.{vec_capacity};
ghost use Rattle.igp_theory.specs.Loops.{IsFoundRing};
ghost use Rattle.order_core.specs.Marks.{IsMarked};
ghost use Rattle.order_core.specs.Rings.{IsTurned};
ghost use Rattle.loop_finder.specs.steps.Live.{AreBounded};
ghost use Rattle.loop_finder.specs.steps.Walks.{PlaceOf, ReturnsNever, WalkEnd};

use crate::graph::StepGraph;
use crate::live::{lowest_marked_hop, mark_all};

/// Finds the ring of steps that is told where there is one, and leaves it in `path`; whether there is one.
pub(crate) fn find_ring<G: StepGraph>(graph: &G, live: &mut [bool], path: &mut Vec<u32>) -> bool
    requires size { length live.old ≡ G.size graph.now }
    requires room { length live.old ≤ vec_capacity path.old }
    ensures none { OnFalse result (ReturnsNever (G.step graph.now)) }
    ensures found { OnTrue result (IsFoundRing (G.step graph.now) (G.size graph.now) path.new.items) }
    ensures capacity { vec_capacity path.old ≤ vec_capacity path.new }
{
    mark_all(live);
    for start in 0..graph.size() {
        if let Some(place) = walk(graph, live, start, path) {
            turn(path, place);
            return true;
        }
    }
    false
}

/// Walks from a router if it's marked, each time to the lowest-numbered marked hop, until a router repeats; the place of that
/// router's first visit. A router without a marked hop loses its mark, and the walk goes back to the router before it.
fn walk<G: StepGraph>(
    graph: &G,
    live: &mut [bool],
    start: u32,
    path: &mut Vec<u32>,
) -> Option<usize>
    requires size { length live.old ≡ G.size graph.now }
    requires start { start < G.size graph.now }
    requires bounded { AreBounded (G.step graph.now) live.old }
    requires room { length live.old ≤ vec_capacity path.old }
    ensures bounded { AreBounded (G.step graph.now) live.new }
    ensures fewer { (r : ℕ) → IsMarked live.new r → IsMarked live.old r }
    ensures end { WalkEnd (G.step graph.now) live.new start path.new.items result }
    ensures capacity { vec_capacity path.old ≤ vec_capacity path.new }
{
    path.clear();
    if live[start as usize] {
        visit(path, start);
    }
    while !path.is_empty() {
        let last = path[path.len() - 1];
        match lowest_marked_hop(graph, live, last) {
            Some(next) => {
                if let Some(place) = place_of(path.as_slice(), next) {
                    return Some(place);
                }
                visit(path, next);
            }
            None => {
                live[last as usize] = false;
                path.pop();
            }
        }
    }
    None
}

/// Adds a router for which there is room.
pub(crate) fn visit(path: &mut Vec<u32>, router: u32)
    requires { vec_len path.old < vec_capacity path.old }
    ensures items { path.new.items ≡ path.old.items ++ router ∷ [] }
    ensures capacity { vec_capacity path.old ≤ vec_capacity path.new }
{
    path.push_reserved(router);
}

/// The first place of a router in a list.
fn place_of(routers: &[u32], router: u32) -> Option<usize>
    ensures { PlaceOf routers.now router result }
{
    for (place, other) in routers.iter().enumerate() {
        if *other == router {
            return Some(place);
        }
    }
    None
}

/// Cuts the routers before a place off, and turns the rest so that the lowest-numbered router is first.
fn turn(path: &mut Vec<u32>, place: usize)
    requires { place < vec_len path.old }
    ensures turned { IsTurned (drop place path.old.items) path.new.items }
    ensures capacity { vec_capacity path.new ≡ vec_capacity path.old }
{
    let kept = path.len() - place;
    path.rotate_left(place);
    path.truncate(kept);
    let least = least_place(path.as_slice());
    path.rotate_left(least);
}

/// The place of the lowest-numbered router.
fn least_place(routers: &[u32]) -> usize
    requires { 0 < length routers.now }
    ensures within { result < length routers.now }
    ensures least { All (λ u. slice_index routers.now result ≤ u) routers.now }
{
    let mut least = 0;
    for place in 1..routers.len() {
        if routers[place] < routers[least] {
            least = place;
        }
    }
    least
}
