ghost use Rattle.std.specs.Prelude.{◌≡◌, ◌∷◌, [], ◌<◌, ◌≤◌, ◌^◌, ◌↔◌, ℕ, All, Contains, false, length, slice_set, IsTrue};
ghost use Rattle.std.specs.Bool.{OnFalse, OnTrue};
ghost use Rattle.order_core.specs.Marks.{IsMarked};
ghost use Rattle.net_model.specs.Links.{lower_of};
ghost use Rattle.loop_finder.specs.steps.Live.{AreBounded, HasMarkedHop, LowestMarked};
ghost use Rattle.loop_finder.specs.steps.Walks.{LowestMarkedHop, ReturnsNever};

use crate::graph::StepGraph;

/// Whether no list of steps returns to a router, where it's known which routers step on. Only these are marked at first, and
/// looked at.
pub(crate) fn returns_never<G: StepGraph>(graph: &G, steppers: &[u32], live: &mut [bool]) -> bool
    requires size { length live.old ≡ G.size graph.now }
    requires below { All (λ u. u < G.size graph.now) steppers.now }
    requires whole { (u h : ℕ) → G.step graph.now u h → Contains steppers.now u }
    ensures { OnTrue result (ReturnsNever (G.step graph.now)) }
{
    mark_none(live);
    mark_those(steppers, live);
    peel_all(graph, steppers, live);
    none_marked(live)
}

/// Marks every router.
pub(crate) fn mark_all(marks: &mut [bool])
    ensures { (r : ℕ) → r < length marks.new → IsMarked marks.new r }
{
    for mark in marks.iter_mut() {
        *mark = true;
    }
}

/// Marks some routers.
fn mark_those(routers: &[u32], marks: &mut [bool])
    requires { All (λ u. u < length marks.old) routers.now }
    ensures { All (IsMarked marks.new) routers.now }
{
    for router in routers {
        marks[*router as usize] = true;
    }
}

/// Takes the mark from every router.
pub(crate) fn mark_none(marks: &mut [bool])
    ensures { (r : ℕ) → ¬ IsMarked marks.new r }
{
    for mark in marks.iter_mut() {
        *mark = false;
    }
}

/// Whether no router is marked.
pub(crate) fn none_marked(marks: &[bool]) -> bool
    ensures { OnTrue result ((u : ℕ) → ¬ IsMarked marks.now u) }
{
    let mut some = false;
    for mark in marks {
        some |= *mark;
    }
    !some
}

/// Takes the mark from each of some routers that steps to no marked one, until none is left to be taken.
fn peel_all<G: StepGraph>(graph: &G, routers: &[u32], live: &mut [bool])
    requires size { length live.old ≡ G.size graph.now }
    requires below { All (λ u. u < G.size graph.now) routers.now }
    requires bounded { AreBounded (G.step graph.now) live.old }
    ensures { AreBounded (G.step graph.now) live.new }
{
    for _ in 0..routers.len() {
        if !peel_those(graph, routers, live) {
            return;
        }
        peel_back(graph, routers, live);
    }
}

/// Goes once over some routers and takes the mark from each that steps to no marked one; whether any had it.
fn peel_those<G: StepGraph>(graph: &G, routers: &[u32], live: &mut [bool]) -> bool
    requires size { length live.old ≡ G.size graph.now }
    requires below { All (λ u. u < G.size graph.now) routers.now }
    requires bounded { AreBounded (G.step graph.now) live.old }
    ensures { AreBounded (G.step graph.now) live.new }
{
    let mut peeled = false;
    for router in routers {
        peeled |= peel_one(graph, live, *router);
    }
    peeled
}

/// Goes once over some routers from the last one back, and takes the mark from each that steps to no marked one.
fn peel_back<G: StepGraph>(graph: &G, routers: &[u32], live: &mut [bool])
    requires size { length live.old ≡ G.size graph.now }
    requires below { All (λ u. u < G.size graph.now) routers.now }
    requires bounded { AreBounded (G.step graph.now) live.old }
    ensures { AreBounded (G.step graph.now) live.new }
{
    for place in 0..routers.len() {
        let _ = peel_one(graph, live, routers[routers.len() - 1 - place]);
    }
}

/// Takes the mark from a router that steps to no marked one; whether it had it.
fn peel_one<G: StepGraph>(graph: &G, live: &mut [bool], u: u32) -> bool
    requires size { length live.old ≡ G.size graph.now }
    requires router { u < G.size graph.now }
    ensures same { OnFalse result (live.new ≡ live.old) }
    ensures leads { OnFalse result (IsMarked live.old u → HasMarkedHop (G.step graph.now) live.old u) }
    ensures taken { OnTrue result (live.new ≡ slice_set live.old u false) }
    ensures marked { OnTrue result (IsMarked live.old u) }
    ensures stuck { OnTrue result ((h : ℕ) → G.step graph.now u h → ¬ IsMarked live.old h) }
{
    if !live[u as usize] {
        return false;
    }
    match lowest_marked_hop(graph, live, u) {
        Some(_) => false,
        None => {
            live[u as usize] = false;
            true
        }
    }
}

/// The lowest-numbered marked hop of a router.
#[inline(never)]
pub(crate) fn lowest_marked_hop<G: StepGraph>(graph: &G, marks: &[bool], router: u32) -> Option<u32>
    requires { router < G.size graph.now }
    ensures { LowestMarkedHop (G.step graph.now) marks.now router result }
{
    let (hops, others) = graph.hops(router);
    lower_of(lowest_marked(hops, marks), lowest_marked(others, marks))
}

/// The lower of two routers that may be known.
fn lower_of(one: Option<u32>, other: Option<u32>) -> Option<u32>
    ensures { result ≡ lower_of one other }
{
    match (one, other) {
        (Some(u), Some(v)) => Some(u.min(v)),
        (None, _) => other,
        (Some(_), None) => one,
    }
}

/// The lowest-numbered of some routers that is marked.
fn lowest_marked(routers: &[u32], marks: &[bool]) -> Option<u32>
    ensures { LowestMarked routers.now marks.now result }
{
    let mut lowest = None;
    for router in routers {
        lowest = lower_of(lowest, marked_one(marks, *router));
    }
    lowest
}

/// A router where it's marked.
fn marked_one(marks: &[bool], router: u32) -> Option<u32>
    ensures { LowestMarked (router ∷ []) marks.now result }
{
    if is_marked(marks, router) {
        return Some(router);
    }
    None
}

/// Whether a router is marked.
pub(crate) fn is_marked(marks: &[bool], router: u32) -> bool
    ensures { IsTrue result ↔ IsMarked marks.now router }
{
    marks.get(router as usize).copied().unwrap_or(false)
}
