ghost use Rattle.std.specs.Prelude.{◌≤◌, List, IfNone, IfOk, IfSome, length};
ghost use Rattle.std.specs.Bool.{OnTrue};
ghost use Rattle.walk_core.specs.Reach.{AreWalksBelow};
ghost use Rattle.walk_core.specs.Segments.{AreSegments, IsLeftOf, SendsAcross};
ghost use Rattle.walk_core.specs.steps.Flooding.{segment_at};
ghost use Rattle.walk_core.specs.steps.Kept.{AllUnused, StayLeast, IsDearPort, IsDearTo, IsNearer, IsUnused, LosesSegments};
ghost use Rattle.walk_core.specs.declared.segment.Port.{Port as PortValue};

use crate::lost::lost_segments;
use crate::outlets::all_outlets;
use crate::segment::{Port, Segment, ports_at};
use crate::segment_graph::SegmentGraph;
use crate::{LeastWalks, OutOfMemory};
use std::alloc::Global;

/// Segments, and the least-cost walks over them from every vertex.
#[derive(Clone, Copy, Debug)]
pub struct WalksOver<'a> {
    /// The segments.
    pub segments: &'a [Segment],
    /// The walks.
    pub walks: &'a [LeastWalks],
}

/// Walks, and from which roots they are kept.
#[derive(Clone, Copy)]
pub(crate) struct Kept<'a> {
    /// Whether those from each root are kept.
    pub roots: &'a [bool],
    /// The walks from each root.
    pub walks: &'a [LeastWalks],
}

/// The least-cost walks from every one of so many vertices over segments, as `segment_walks` gives them, by those over other
/// segments: where these are the same and some more, in the same order, and none where they aren't. A root keeps its walks
/// unless one of the segments that went is on a least-cost walk from it. It takes time of both lists of segments, of the
/// vertices and the pairs of ports that went, and of the roots that don't keep their walks. `None` where they aren't left of the others.
pub fn segment_walks_without(
    alloc: Global,
    segments: &[Segment],
    count: u32,
    known: WalksOver<'_>,
) -> Result<Option<Vec<LeastWalks>>, OutOfMemory>
    requires segments { AreSegments count segments.now }
    requires known { AreWalksBelow (SendsAcross known.segments.now) count count known.walks.now }
    ensures walks { IfOk result (λ found. IfSome found (λ all. AreWalksBelow (SendsAcross segments.now) count count all.items)) }
    ensures none { IfOk result (λ found. IfNone found (IsLeftOf segments.now known.entry.segments.now → ⊥)) }
{
    let Some(lost) = lost_segments(alloc, known.segments, segments)? else {
        return Ok(None);
    };
    let roots = kept_roots(alloc, known, lost.as_slice(), count)?;
    let outlets = all_outlets(alloc, segments, count)?;
    let graph = SegmentGraph::new(count, segments, outlets.as_slice());
    let kept = Kept {
        roots: roots.as_slice(),
        walks: known.walks,
    };
    let all = graph.walks_keeping(alloc, kept)?;
    Ok(Some(all))
}

impl<'a> Kept<'a> {
    ghost use Rattle.std.specs.Prelude.{◌≡◌, ◌<◌, [], IfSome, slice_index_or, false, true};
    ghost use Rattle.walk_core.specs.steps.SegmentWalks.{reach_at};

    /// Nothing that is kept.
    pub fn none() -> Kept<'a>
        ensures { result.roots.now ≡ [] }
    {
        Kept {
            roots: &[],
            walks: &[],
        }
    }

    /// The walks from a root, where they are kept.
    pub fn walks_from(self, root: u32) -> Option<&'a LeastWalks>
        ensures root { IfSome result (λ walks. slice_index_or self.entry.roots.now root false ≡ true) }
        ensures walks { IfSome result (λ walks. walks.now ≡ reach_at self.entry.walks.now root) }
    {
        let is_kept = *self.roots.get(root as usize)?;
        if !is_kept {
            return None;
        }
        self.walks.get(root as usize)
    }
}

/// From which of so many roots the walks are kept without the segments at some places.
fn kept_roots(
    alloc: Global,
    known: WalksOver<'_>,
    lost: &[usize],
    count: u32,
) -> Result<Vec<bool>, OutOfMemory>
    requires known { AreWalksBelow (SendsAcross known.segments.now) count count known.walks.now }
    ensures { IfOk result (λ roots. (after : List (List PortValue)) → LosesSegments known.entry.segments.now after lost.now →
        StayLeast (SendsAcross after) count roots.items known.entry.walks.now) }
{
    let mut roots = Vec::with_capacity(alloc, known.walks.len())?;
    for walks in known.walks {
        roots.push(is_kept(known.segments, lost, walks, count))?;
    }
    Ok(roots)
}

/// Whether the walks from a root are those of so many vertices, and none of the segments at some places is of use to it.
fn is_kept(segments: &[Segment], lost: &[usize], walks: &LeastWalks, count: u32) -> bool
    ensures within { OnTrue result (length walks.now.distances ≤ count) }
    ensures unused { OnTrue result (AllUnused segments.now lost.now walks.now) }
{
    walks.are_within(count) && are_unused(segments, lost, walks)
}

/// Whether the segments at some places are of no use to the root of some walks.
fn are_unused(segments: &[Segment], lost: &[usize], walks: &LeastWalks) -> bool
    ensures { OnTrue result (AllUnused segments.now lost.now walks.now) }
{
    for place in lost {
        if !is_unused_at(segments, *place, walks) {
            return false;
        }
    }
    true
}

/// Whether the segment at a place is of no use to it.
fn is_unused_at(segments: &[Segment], place: usize, walks: &LeastWalks) -> bool
    ensures { OnTrue result (IsUnused walks.now (segment_at segments.now place)) }
{
    match segments.get(place) {
        Some(segment) => is_unused(segment.as_slice(), walks),
        None => false,
    }
}

/// Whether a segment of these ports is of no use to it.
fn is_unused(ports: &[Port], walks: &LeastWalks) -> bool
    ensures { OnTrue result (IsUnused walks.now ports.now) }
{
    for near in ports {
        if !is_dear_port(ports, *near, walks) {
            return false;
        }
    }
    true
}

/// Whether from a port of these it reaches no other vertex at its distance.
fn is_dear_port(ports: &[Port], near: Port, walks: &LeastWalks) -> bool
    ensures { OnTrue result (IsDearPort walks.now ports.now near) }
{
    for far in ports {
        if !is_dear_to(near, *far, walks) {
            return false;
        }
    }
    true
}

/// Whether from one port the vertex of another isn't reached at its distance, where it's another vertex.
fn is_dear_to(near: Port, far: Port, walks: &LeastWalks) -> bool
    ensures { OnTrue result (IsDearTo walks.now near far) }
{
    if near.vertex == far.vertex {
        return true;
    }
    is_nearer(
        walks.distance(near.vertex),
        near.cost,
        walks.distance(far.vertex),
    )
}

/// Whether one vertex is nearer than it is from another one at this cost, where both are reached.
fn is_nearer(near: Option<u64>, cost: u32, far: Option<u64>) -> bool
    ensures { OnTrue result (IsNearer near cost far) }
{
    match (near, far) {
        (Some(near), Some(far)) => far < near || far - near < u64::from(cost),
        _ => true,
    }
}
