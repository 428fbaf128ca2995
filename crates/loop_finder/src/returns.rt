ghost use Rattle.std.specs.Prelude.{◌≡◌, ◌<◌, ◌≤◌, ℕ, Contains, length};
ghost use Rattle.std.specs.Bool.{OnFalse, OnTrue};
ghost use Rattle.std.specs.Vec.{vec_capacity};
ghost use Rattle.order_core.specs.Marks.{IsMarked, marked_count};
ghost use Rattle.loop_finder.specs.Returns.{NeverReturnsTo};
ghost use Rattle.loop_finder.specs.steps.Returns.{AreReached, ReachesMore};

use crate::graph::StepGraph;
use crate::live::mark_none;
use crate::ring::visit;

/// Whether steps lead from a router back to it.
pub(crate) fn may_return<G: StepGraph>(
    graph: &G,
    router: u32,
    seen: &mut [bool],
    reached: &mut Vec<u32>,
) -> bool
    requires router { router < G.size graph.now }
    requires inside { (u h : ℕ) → G.step graph.now u h → u < G.size graph.now }
    requires size { length seen.old ≡ G.size graph.now }
    requires room { length seen.old ≤ vec_capacity reached.old }
    ensures never { OnFalse result (NeverReturnsTo (G.step graph.now) router) }
    ensures capacity { vec_capacity reached.old ≤ vec_capacity reached.new }
{
    if ends_alone(graph, router) {
        return false;
    }
    mark_none(seen);
    reached.clear();
    if reach_hops(graph, router, router, seen, reached) {
        return true;
    }
    let mut place = 0;
    while place < reached.len() {
        let next = reached[place];
        if reach_hops(graph, next, router, seen, reached) {
            return true;
        }
        place += 1;
    }
    false
}

/// Whether steps lead from a router to one other router after another, and then no further.
fn ends_alone<G: StepGraph>(graph: &G, router: u32) -> bool
    requires router { router < G.size graph.now }
    ensures { OnTrue result (NeverReturnsTo (G.step graph.now) router) }
{
    let mut last = router;
    for _ in 0..graph.size() {
        let (hops, others) = graph.hops(last);
        if hops.len() > 1 || others.len() > 0 {
            return false;
        }
        if hops.is_empty() {
            return true;
        }
        let hop = hops[0];
        if hop == router || hop >= graph.size() {
            return false;
        }
        last = hop;
    }
    false
}

/// Reaches the hops of a router; whether one is the goal.
fn reach_hops<G: StepGraph>(
    graph: &G,
    router: u32,
    goal: u32,
    seen: &mut [bool],
    reached: &mut Vec<u32>,
) -> bool
    requires router { router < G.size graph.now }
    requires reached { AreReached goal seen.old reached.old.items }
    requires room { length seen.old ≤ vec_capacity reached.old }
    ensures reached { OnFalse result (AreReached goal seen.new reached.new.items) }
    ensures more { OnFalse result (ReachesMore seen.old reached.old.items seen.new reached.new.items) }
    ensures hops { OnFalse result ((h : ℕ) → G.step graph.now router h → h < length seen.old → IsMarked seen.new h) }
    ensures capacity { vec_capacity reached.old ≤ vec_capacity reached.new }
{
    let (hops, others) = graph.hops(router);
    if reach(hops, goal, seen, reached) {
        return true;
    }
    reach(others, goal, seen, reached)
}

/// Reaches some routers; whether one is the goal.
fn reach(routers: &[u32], goal: u32, seen: &mut [bool], reached: &mut Vec<u32>) -> bool
    requires reached { AreReached goal seen.old reached.old.items }
    requires room { length seen.old ≤ vec_capacity reached.old }
    ensures reached { OnFalse result (AreReached goal seen.new reached.new.items) }
    ensures more { OnFalse result (ReachesMore seen.old reached.old.items seen.new reached.new.items) }
    ensures routers { OnFalse result ((h : ℕ) → Contains routers.now h → h < length seen.old → IsMarked seen.new h) }
    ensures capacity { vec_capacity reached.old ≤ vec_capacity reached.new }
{
    for router in routers {
        if *router == goal {
            return true;
        }
        reach_one(*router, seen, reached);
    }
    false
}

/// Reaches a router, where it wasn't reached before.
fn reach_one(router: u32, seen: &mut [bool], reached: &mut Vec<u32>)
    requires count { length reached.old.items ≡ marked_count seen.old }
    requires room { length seen.old ≤ vec_capacity reached.old }
    ensures reached { (goal : ℕ) → ¬ (router ≡ goal) → AreReached goal seen.old reached.old.items →
        AreReached goal seen.new reached.new.items }
    ensures more { ReachesMore seen.old reached.old.items seen.new reached.new.items }
    ensures router { router < length seen.old → IsMarked seen.new router }
    ensures capacity { vec_capacity reached.old ≤ vec_capacity reached.new }
{
    if let Some(false) = seen.get(router as usize) {
        visit(reached, router);
        seen[router as usize] = true;
    }
}
