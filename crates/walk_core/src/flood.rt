ghost use Rattle.std.specs.Prelude.{◌≡◌, ◌+◌, ◌^◌, ◌<◌, ◌≤◌, ◌↔◌, ℕ, true, false, length, slice_index_or, IsTrue, Some, MatchOption, slice_set};
ghost use Rattle.std.specs.Prelude.{if◌then◌else◌, IfOk};
ghost use Rattle.std.specs.Bool.{OnTrue};
ghost use Rattle.walk_core.specs.steps.Cheapest.{HasCost};
ghost use Rattle.walk_core.specs.Distances.{distance_at};
ghost use Rattle.walk_core.specs.steps.Begun.{IsBegun};
ghost use Rattle.walk_core.specs.steps.Flooding.{cost_onto, segment_at, what_is_left, AreAllAtMost, AreSettled, IsLastAbove, IsNextStale, Lowers};
ghost use Rattle.walk_core.specs.steps.Floods.{marked_in, IsFlood, IsRoom};
ghost use Rattle.walk_core.specs.steps.Relaxing.{AreWalked, Fall, IsAtMost, IsTightFrom, weight_of};
ghost use Rattle.walk_core.specs.steps.Rows.{IsDistanceRow};
ghost use Rattle.walk_core.specs.steps.SegmentWalks.{IsLan};
ghost use Rattle.walk_core.specs.Segments.{Sends, SendsAcross};

use crate::OutOfMemory;
use crate::distance::Distance;
use crate::outlets::Outlet;
use crate::relax::relax;
use crate::rows::Distances;
use crate::segment::ports_at;
use crate::segment_graph::SegmentGraph;
use std::alloc::Global;
use std::mem;

/// How far a flood has come: how far the vertices are by the walks that were found, which of them are stale, and at what
/// cost each segment was entered. The floods from the roots of a graph take turns in one of these, so that its marks and
/// entries take memory once.
#[derive(Debug, Drop)]
pub(crate) struct Flood {
    distances: Vec<Distance>,
    stale: Vec<bool>,
    entries: Vec<Option<u64>>,
}

impl Flood {
    ghost use Rattle.std.specs.Prelude.{IfOk};
    ghost use Rattle.walk_core.specs.steps.Floods.{IsRoom};

    /// Room for the floods over a graph, before the first of them.
    pub fn new(alloc: Global, graph: &SegmentGraph<'_>) -> Result<Flood, OutOfMemory>
        ensures { IfOk result (IsRoom graph.now) }
    {
        let stale = vec![in alloc; false; graph.count() as usize]?;
        let entries = vec![in alloc; None; graph.segments().len()]?;
        Ok(Flood {
            distances: Vec::new(alloc),
            stale,
            entries,
        })
    }
}

/// The distances from a root of a graph of segments, by a flood in the room of an earlier one, which begins with these.
/// What that entered is forgotten; it left no mark, and one that it had left would cost no more than time.
pub(crate) fn distances_over(
    alloc: Global,
    graph: &SegmentGraph<'_>,
    root: u32,
    begun: Vec<Distance>,
    flood: &mut Flood,
) -> Distances
    requires root { root < graph.now.count }
    requires begun { IsBegun graph.now root begun.items }
    requires room { IsRoom graph.now flood.old }
    ensures row { IsDistanceRow (SendsAcross graph.now.segments) graph.now.count root result }
    ensures room { IsRoom graph.now flood.new }
{
    flood.distances = begun;
    flood.stale[root as usize] = true;
    flood.entries.fill(None);
    settle(graph, flood);
    Distances::from_vec(take_distances(alloc, flood))
}

/// Takes the distances out of a flood that is done.
fn take_distances(alloc: Global, flood: &mut Flood) -> Vec<Distance>
    ensures taken { result.items ≡ flood.old.distances.items }
    ensures stale { flood.new.stale.items ≡ flood.old.stale.items }
    ensures entries { flood.new.entries.items ≡ flood.old.entries.items }
{
    mem::replace(&mut flood.distances, Vec::new(alloc))
}

/// Lets distances fall to the costs of walks until no vertex is stale. The next one lies ahead, as long as one does, so
/// that distances spread along a row of vertices whichever way they are numbered.
fn settle(graph: &SegmentGraph<'_>, flood: &mut Flood)
    requires flood { IsFlood graph.now flood.old }
    requires settled { AreSettled graph.now.segments flood.old.distances.items flood.old.stale.items }
    ensures flood { IsFlood graph.now flood.new }
    ensures walked { (root : ℕ) → AreWalked (Sends graph.now.segments) root flood.old.distances.items →
        AreWalked (Sends graph.now.segments) root flood.new.distances.items }
    ensures tight { (u : ℕ) → u < graph.now.count → IsTightFrom (Sends graph.now.segments) u flood.new.distances.items }
{
    let mut up = true;
    let mut u = next_stale(flood.stale.as_slice(), 0, up);
    while u < flood.stale.len() {
        spread_stale(graph, u, flood);
        let next = next_stale(flood.stale.as_slice(), u, up);
        up = u < next;
        u = next;
    }
}

/// The next stale vertex from this one on, ahead if one is there, else behind, and the number of all where none is stale.
fn next_stale(stale: &[bool], u: usize, up: bool) -> usize
    requires { u ≤ length stale.now }
    ensures { IsNextStale stale.now result }
{
    if up {
        let above = stale_from(stale, u);
        if above < stale.len() {
            return above;
        }
        return stale_below(stale, u);
    }
    let below = stale_below(stale, u);
    if below < stale.len() {
        return below;
    }
    stale_from(stale, u)
}

/// The first stale vertex from this one on, and the number of all where none is.
fn stale_from(stale: &[bool], from: usize) -> usize
    requires { from ≤ length stale.now }
    ensures found { result < length stale.now → slice_index_or stale.now result false ≡ true }
    ensures none { length stale.now ≤ result → (v : ℕ) → from ≤ v → v < length stale.now → slice_index_or stale.now v true ≡ false }
{
    for u in from..stale.len() {
        if stale[u] {
            return u;
        }
    }
    stale.len()
}

/// The last stale vertex before this one, and the number of all where none is.
fn stale_below(stale: &[bool], below: usize) -> usize
    requires { below ≤ length stale.now }
    ensures found { result < length stale.now → slice_index_or stale.now result false ≡ true }
    ensures none { length stale.now ≤ result → (v : ℕ) → v < below → slice_index_or stale.now v true ≡ false }
{
    for passed in 0..below {
        let u = below - 1 - passed;
        if stale[u] {
            return u;
        }
    }
    stale.len()
}

/// Relaxes the arcs from a stale vertex, which then isn't stale.
fn spread_stale(graph: &SegmentGraph<'_>, u: usize, flood: &mut Flood)
    requires vertex { u < graph.now.count }
    requires stale { slice_index_or flood.old.stale.items u false ≡ true }
    requires flood { IsFlood graph.now flood.old }
    requires settled { AreSettled graph.now.segments flood.old.distances.items flood.old.stale.items }
    ensures flood { IsFlood graph.now flood.new }
    ensures walked { (root : ℕ) → AreWalked (Sends graph.now.segments) root flood.old.distances.items →
        AreWalked (Sends graph.now.segments) root flood.new.distances.items }
    ensures settled { AreSettled graph.now.segments flood.new.distances.items flood.new.stale.items }
    ensures less { what_is_left flood.new.distances.items flood.new.stale.items < what_is_left flood.old.distances.items flood.old.stale.items }
{
    spread_from(graph, u, flood);
    flood.stale[u] = false;
}

/// Relaxes the arcs from a vertex, and marks the vertices whose distances fell.
fn spread_from(graph: &SegmentGraph<'_>, u: usize, flood: &mut Flood)
    requires vertex { u < graph.now.count }
    requires flood { IsFlood graph.now flood.old }
    requires settled { AreSettled graph.now.segments flood.old.distances.items flood.old.stale.items }
    ensures flood { IsFlood graph.now flood.new }
    ensures falls { Fall (Sends graph.now.segments) flood.old.distances.items flood.new.distances.items }
    ensures settled { AreSettled graph.now.segments flood.new.distances.items flood.new.stale.items }
    ensures tight { IsTightFrom (Sends graph.now.segments) u flood.new.distances.items }
    ensures marked { slice_index_or flood.old.stale.items u false ≡ true → slice_index_or flood.new.stale.items u false ≡ true }
    ensures left { what_is_left flood.new.distances.items flood.new.stale.items ≤ what_is_left flood.old.distances.items flood.old.stale.items }
{
    let Some(near) = flood.distances[u].get() else {
        return;
    };
    let ports = graph.ports(u);
    for outlet in ports {
        let found = near + u64::from(outlet.cost);
        cross(graph, *outlet, found, flood);
    }
}

/// Lets the vertices behind an outlet fall to `found`, what it costs to come there.
fn cross(graph: &SegmentGraph<'_>, outlet: Outlet, found: u64, flood: &mut Flood)
    requires place { outlet.place < length graph.now.segments }
    requires fits { found + 1 < 2 ^ 64 }
    requires flood { IsFlood graph.now flood.old }
    requires entry { HasCost (cost_onto flood.old.distances.items) (segment_at graph.now.segments outlet.place) found }
    requires others { MatchOption outlet.to (IsLan (segment_at graph.now.segments outlet.place))
        (IsLastAbove flood.old.distances.items (segment_at graph.now.segments outlet.place) found) }
    ensures flood { IsFlood graph.now flood.new }
    ensures falls { Fall (Sends graph.now.segments) flood.old.distances.items flood.new.distances.items }
    ensures lowers { Lowers found (marked_in flood.old) (marked_in flood.new) }
    ensures all { AreAllAtMost flood.new.distances.items (segment_at graph.now.segments outlet.place) found }
{
    match outlet.to {
        Some(to) => {
            lower_vertex(to, found, flood);
        }
        None => enter(graph, outlet.place, found, flood),
    }
}

/// Lets the vertices of a segment fall to `found`, unless it was entered at as little before.
fn enter(graph: &SegmentGraph<'_>, place: usize, found: u64, flood: &mut Flood)
    requires place { place < length graph.now.segments }
    requires fits { found + 1 < 2 ^ 64 }
    requires flood { IsFlood graph.now flood.old }
    requires entry { HasCost (cost_onto flood.old.distances.items) (segment_at graph.now.segments place) found }
    ensures flood { IsFlood graph.now flood.new }
    ensures falls { Fall (Sends graph.now.segments) flood.old.distances.items flood.new.distances.items }
    ensures lowers { Lowers found (marked_in flood.old) (marked_in flood.new) }
    ensures all { AreAllAtMost flood.new.distances.items (segment_at graph.now.segments place) found }
{
    if is_at_most(flood.entries[place], found) {
        return;
    }
    lower(graph, place, found, flood);
    note_entry(&mut flood.entries, place, found);
}

/// Notes at what cost a segment was entered.
fn note_entry(entries: &mut Vec<Option<u64>>, place: usize, found: u64)
    requires { place < length entries.old.items }
    ensures { entries.new.items ≡ slice_set entries.old.items place (Some found) }
{
    entries[place] = Some(found);
}

/// Whether something is known to cost at most this.
fn is_at_most(known: Option<u64>, most: u64) -> bool
    ensures { OnTrue result (IsAtMost known most) }
{
    match known {
        Some(known) => known <= most,
        None => false,
    }
}

/// Lets the vertices of a segment fall to `found`, what it costs to come onto the segment from one of them, and marks
/// those that did.
fn lower(graph: &SegmentGraph<'_>, place: usize, found: u64, flood: &mut Flood)
    requires place { place < length graph.now.segments }
    requires fits { found + 1 < 2 ^ 64 }
    requires flood { IsFlood graph.now flood.old }
    requires entry { HasCost (cost_onto flood.old.distances.items) (segment_at graph.now.segments place) found }
    ensures flood { IsFlood graph.now flood.new }
    ensures falls { Fall (Sends graph.now.segments) flood.old.distances.items flood.new.distances.items }
    ensures lowers { Lowers found (marked_in flood.old) (marked_in flood.new) }
    ensures all { AreAllAtMost flood.new.distances.items (segment_at graph.now.segments place) found }
{
    for port in ports_at(graph.segments(), place) {
        lower_vertex(port.vertex, found, flood);
    }
}

/// Notes that some walk to a vertex costs `found`, and marks it where none that was known cost as little: whether none
/// did.
fn lower_vertex(vertex: u32, found: u64, flood: &mut Flood) -> bool
    requires vertex { vertex < length flood.old.distances.items }
    requires fits { found + 1 < 2 ^ 64 }
    requires marks { vertex < length flood.old.stale.items }
    ensures falls { IsTrue result ↔ (found < weight_of (distance_at flood.old.distances.items vertex)) }
    ensures after { flood.new.distances.items ≡
        (if result then slice_set flood.old.distances.items vertex (Some found) else flood.old.distances.items) }
    ensures stale { flood.new.stale.items ≡ (if result then slice_set flood.old.stale.items vertex true else flood.old.stale.items) }
    ensures entries { flood.new.entries.items ≡ flood.old.entries.items }
{
    if relax(&mut flood.distances, vertex, found) {
        flood.stale[vertex as usize] = true;
        return true;
    }
    false
}
