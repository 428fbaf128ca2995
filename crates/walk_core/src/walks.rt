ghost use Rattle.std.specs.Prelude.{◌≡◌, ◌<◌, ◌⊎◌, length, IfOk};
ghost use Rattle.walk_core.specs.steps.Rows.{IsDistanceRow, KnowsEnds};
ghost use Rattle.walk_core.specs.Reach.{AreLeastWalks, AreNear};

use crate::distance::Distance;
use crate::far_walks::FarWalks;
use crate::hops::{Departure, departures_from, find_first_hops};
use crate::number_lists::NumberLists;
use crate::relax::distances_from;
use crate::rows::{Distances, distance_to_lone, rows_beyond};
use crate::stretch::Extent;
use crate::{CostGraph, OutOfMemory};
use std::alloc::Global;
use std::marker::Model;

/// The least-cost walks from one vertex of a graph, the root: how far each vertex is, and with
/// which first hops one goes there. Those that `segment_walks` finds from a vertex without a port take no memory.
#[derive(Debug, Drop)]
pub struct LeastWalks {
    known: KeptWalks,
}

/// What is known of the walks from a root.
#[derive(Debug, Drop)]
pub(crate) enum KeptWalks {
    /// This is the root, which reaches itself alone.
    Lone(u32),
    /// How far the vertices are, and their first hops.
    Far(Box<FarWalks>),
}

impl Model for LeastWalks {
    ghost use Rattle.walk_core.specs.Reach.{Reach};
    ghost use Rattle.walk_core.specs.KeptWalks.{reach_known};

    ghost Value = { Reach };

    ghost view = { λ w. reach_known w.known };
}

/// The least-cost walks from the root, over walks of any length. In the graph
///
/// ```text
///       1
///     /   \
///   0       3     4
///     \   /
///       2
/// ```
///
/// whose arcs lead from left to right and cost 1 each, the walks from 0 to 3 cost 2 and begin
/// with 1 or with 2, and no walk leads to 4.
pub fn least_walks<G: CostGraph>(
    alloc: Global,
    graph: &G,
    root: u32,
) -> Result<LeastWalks, OutOfMemory>
    requires { root < G.vertex_count graph.now }
    ensures least { IfOk result (λ walks. AreLeastWalks (G.has_arc graph.now) root walks) }
    ensures near { IfOk result (AreNear (G.vertex_count graph.now)) }
{
    let distances = distances_from(alloc, graph, root)?;
    let rows = rows_beyond(alloc, graph, root)?;
    walks_over(alloc, graph, root, distances, rows.as_slice())
}

/// The least-cost walks from the root, by its distances and those from where its arcs lead.
fn walks_over<G: CostGraph>(
    alloc: Global,
    graph: &G,
    root: u32,
    distances: Distances,
    rows: &[Distances],
) -> Result<LeastWalks, OutOfMemory>
    requires root { root < G.vertex_count graph.now }
    requires row { IsDistanceRow (G.has_arc graph.now) (G.vertex_count graph.now) root distances }
    requires ends { KnowsEnds (G.has_arc graph.now) root rows.now }
    ensures least { IfOk result (AreLeastWalks (G.has_arc graph.now) root) }
    ensures near { IfOk result (AreNear (G.vertex_count graph.now)) }
{
    let departures = departures_from(alloc, graph, root)?;
    let mut hops = NumberLists::none(alloc);
    let mut found = Vec::new(alloc);
    for v in 0..most_ends(departures.as_slice(), graph.vertices()) {
        find_first_hops(&mut found, departures.as_slice(), rows, v, distances.at(v))?;
        hops.push(found.as_slice())?;
    }
    LeastWalks::of(alloc, distances, hops)
}

/// How many of the vertices may have a first hop: all of them, and none where no arc leaves the root.
fn most_ends(departures: &[Departure], vertices: u32) -> u32
    ensures { (result ≡ vertices) ⊎ (length departures.now ≡ 0) }
{
    if departures.is_empty() { 0 } else { vertices }
}

impl LeastWalks {
    ghost use Rattle.std.specs.Prelude.{◌≡◌, ◌≤◌, ◌↔◌, [], length, IfOk, IsTrue};
    ghost use Rattle.std.specs.Bool.{OnTrue};
    ghost use Rattle.std.specs.List.Sorted.{IsStrictlyIncreasing};
    ghost use Rattle.walk_core.specs.Reach.{distance_of, listed_hops_of, HasHop};
    ghost use Rattle.walk_core.specs.steps.Ascending.{AreAscending};
    ghost use Rattle.walk_core.specs.KeptWalks.{lone_row, reach_over};
    ghost use Rattle.walk_core.specs.Stretches.{reach_along};

    /// These distances, and these lists of first hops.
    pub(crate) fn of(
        alloc: Global,
        distances: Distances,
        hops: NumberLists,
    ) -> Result<LeastWalks, OutOfMemory>
        requires { AreAscending hops }
        ensures { IfOk result (λ walks. walks ≡ (record { distances = distances; hops = hops })) }
    {
        if hops.is_empty() {
            if let Some(root) = distances.lone() {
                return Ok(LeastWalks::of_lone(root));
            }
        }
        let distances = distances.into_vec(alloc)?;
        LeastWalks::along(alloc, 0, distances, hops)
    }

    /// These distances, and these lists of first hops, from a vertex on.
    pub(crate) fn along(
        alloc: Global,
        first: u32,
        distances: Vec<Distance>,
        hops: NumberLists,
    ) -> Result<LeastWalks, OutOfMemory>
        requires { AreAscending hops }
        ensures { IfOk result (λ walks. walks ≡
            reach_along (record { first = first; distances = distances.items; hops = hops })) }
    {
        let far = Box::new(alloc, FarWalks::from(first, distances, hops))?;
        Ok(LeastWalks {
            known: KeptWalks::Far(far),
        })
    }

    /// How far the walks lead. Route tables read a router's first hops along it, and no others.
    pub fn extent(&self) -> Extent<'_>
        ensures { reach_over result ≡ self.now }
    {
        match &self.known {
            KeptWalks::Lone(root) => Extent::Alone(*root),
            KeptWalks::Far(far) => Extent::Along(far.stretch()),
        }
    }

    /// Those from a vertex that reaches itself alone.
    pub(crate) fn of_lone(root: u32) -> LeastWalks
        ensures { result ≡ (record { distances = lone_row root; hops = [] }) }
    {
        LeastWalks {
            known: KeptWalks::Lone(root),
        }
    }

    /// A copy of the distances.
    pub(crate) fn copy_distances(&self, alloc: Global) -> Result<Distances, OutOfMemory>
        ensures { IfOk result (λ copy. copy ≡ self.now.distances) }
    {
        match &self.known {
            KeptWalks::Lone(root) => Ok(Distances::of_lone(*root)),
            KeptWalks::Far(far) => far.copy_distances(alloc),
        }
    }

    /// A copy of the lists of first hops.
    pub(crate) fn copy_hops(&self, alloc: Global) -> Result<NumberLists, OutOfMemory>
        ensures lists { IfOk result (λ copy. copy ≡ self.now.hops) }
        ensures ascending { AreAscending self.now.hops }
    {
        match &self.known {
            KeptWalks::Lone(_) => Ok(NumberLists::none(alloc)),
            KeptWalks::Far(far) => far.copy_hops(alloc),
        }
    }

    /// Whether distances are known of so many vertices at most.
    pub(crate) fn are_within(&self, count: u32) -> bool
        ensures { OnTrue result (length self.now.distances ≤ count) }
    {
        match &self.known {
            KeptWalks::Lone(root) => *root < count,
            KeptWalks::Far(far) => far.are_within(count),
        }
    }

    /// The least cost of a walk from the root to v, and None where no walk leads there.
    #[inline(always)]
    pub fn distance(&self, v: u32) -> Option<u64>
        ensures { result ≡ distance_of self.now v }
    {
        match &self.known {
            KeptWalks::Lone(root) => distance_to_lone(*root, v).get(),
            KeptWalks::Far(far) => far.distance(v),
        }
    }

    /// Whether some least-cost walk to v begins with the leg from the root to h. Equal-cost walks
    /// give several first hops, and the root itself has none.
    pub fn first_hop(&self, v: u32, h: u32) -> bool
        ensures { IsTrue result ↔ HasHop self.now v h }
    {
        self.hops_to(v).contains(&h)
    }

    /// The first hops towards v, in ascending order: those with which the least-cost walks to v begin. There are none
    /// towards the root itself, nor where no walk leads.
    #[inline(always)]
    pub fn hops_to(&self, v: u32) -> &[u32]
        ensures hops { result.now ≡ listed_hops_of self.now v }
        ensures ascending { IsStrictlyIncreasing result.now }
    {
        match &self.known {
            KeptWalks::Lone(_) => &[],
            KeptWalks::Far(far) => far.hops_to(v),
        }
    }
}
