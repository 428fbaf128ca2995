ghost use Rattle.std.specs.Prelude.{◌≡◌, ◌<◌, List, length, IfOk};
ghost use Rattle.walk_core.specs.Reach.{AreWalksBelow};
ghost use Rattle.walk_core.specs.Segments.{AreSegments, SendsAcross};
ghost use Rattle.walk_core.specs.declared.segment.Port.{Port};
ghost use Rattle.walk_core.specs.steps.Members.{AreMembers, AreMemberLists, AreMemberWalks, PlacesFit, IsSpreadReach};
ghost use Rattle.walk_core.specs.steps.SegmentWalks.{AreAllOutlets, IsJoinedEnd};

use crate::kept::Kept;
use crate::members::{Members, first_of};
use crate::number_lists::NumberLists;
use crate::outlets::{Outlets, all_outlets, is_lone};
use crate::rows::Distances;
use crate::segment::Segment;
use crate::segment_graph::SegmentGraph;
use crate::{LeastWalks, OutOfMemory};
use std::alloc::Global;

/// The least-cost walks from every one of so many vertices over the segments that join them. Those without a port reach
/// themselves alone, and where they are the most, no time is spent on them in looking for the walks of the others.
pub fn segment_walks(
    alloc: Global,
    segments: &[Segment],
    count: u32,
) -> Result<Vec<LeastWalks>, OutOfMemory>
    requires { AreSegments count segments.now }
    ensures { IfOk result (λ all. AreWalksBelow (SendsAcross segments.now) count count all.items) }
{
    let members = Members::of(alloc, segments, count)?;
    if members.are_few() {
        return member_walks(alloc, segments, &members);
    }
    let outlets = all_outlets(alloc, segments, count)?;
    whole_walks(alloc, segments, outlets.as_slice(), count)
}

/// The walks from every vertex, by those over the vertices alone that have a port.
fn member_walks(
    alloc: Global,
    segments: &[Segment],
    members: &Members,
) -> Result<Vec<LeastWalks>, OutOfMemory>
    requires { AreMembers segments.now members.now }
    ensures { IfOk result (λ all. AreWalksBelow (SendsAcross segments.now) members.now.count members.now.count all.items) }
{
    let placed = members.placed_segments(alloc, segments)?;
    let count = members.len();
    let outlets = all_outlets(alloc, placed.as_slice(), count)?;
    let graph = SegmentGraph::new(count, placed.as_slice(), outlets.as_slice());
    let rows = graph.rows(alloc)?;
    let lists = graph.hops_by(alloc, rows.as_slice(), Kept::none())?;
    let all = spread_all(alloc, members, rows.as_slice(), lists.as_slice())?;
    Ok(all)
}

/// The walks from every vertex, by the distances and first hops between members.
fn spread_all(
    alloc: Global,
    members: &Members,
    rows: &[Distances],
    lists: &[NumberLists],
) -> Result<Vec<LeastWalks>, OutOfMemory>
    requires numbered { PlacesFit members.now }
    requires rows { length rows.now ≡ length members.now.vertices }
    requires lists { AreMemberLists (length members.now.vertices) lists.now }
    ensures { IfOk result (λ all. (segments : List (List Port)) → AreMembers segments members.now →
        AreMemberWalks segments members.now (record { rows = rows.now; lists = lists.now }) →
        AreWalksBelow (SendsAcross segments) members.now.count members.now.count all.items) }
{
    let count = members.count();
    let mut all = Vec::with_capacity(alloc, count as usize)?;
    for root in 0..count {
        let walks = spread_from(alloc, members, rows, lists, root)?;
        all.push(walks)?;
    }
    Ok(all)
}

/// The walks from a vertex, by those from its place among the members.
fn spread_from(
    alloc: Global,
    members: &Members,
    rows: &[Distances],
    lists: &[NumberLists],
    root: u32,
) -> Result<LeastWalks, OutOfMemory>
    requires numbered { PlacesFit members.now }
    requires rows { length rows.now ≡ length members.now.vertices }
    requires lists { AreMemberLists (length members.now.vertices) lists.now }
    ensures { IfOk result (IsSpreadReach members.now (record { rows = rows.now; lists = lists.now }) root) }
{
    let place = members.place(root);
    if place >= members.len() {
        return Ok(LeastWalks::of_lone(root));
    }
    let vertices = members.vertices();
    let distances = rows[place as usize].spread(alloc, vertices, members.end())?;
    let hops = lists[place as usize].spread(alloc, vertices, members.end())?;
    let walks = LeastWalks::along(alloc, first_of(vertices), distances, hops)?;
    Ok(walks)
}

/// The walks over all vertices up to the last one that has a port.
fn whole_walks(
    alloc: Global,
    segments: &[Segment],
    outlets: &[Outlets],
    count: u32,
) -> Result<Vec<LeastWalks>, OutOfMemory>
    requires segments { AreSegments count segments.now }
    requires outlets { AreAllOutlets segments.now count outlets.now }
    ensures { IfOk result (λ all. AreWalksBelow (SendsAcross segments.now) count count all.items) }
{
    let end = joined_end(outlets, count);
    let graph = SegmentGraph::new(end, segments, &outlets[..end as usize]);
    let mut all = graph.walks(alloc)?;
    all.reserve((count - end) as usize)?;
    for root in end..count {
        all.push(LeastWalks::of_lone(root))?;
    }
    Ok(all)
}

/// One past the last vertex that has a port.
fn joined_end(outlets: &[Outlets], count: u32) -> u32
    requires { length outlets.now ≡ count }
    ensures { IsJoinedEnd outlets.now result }
{
    let mut end = count;
    while end > 0 && is_lone(outlets[end as usize - 1].as_slice()) {
        end -= 1;
    }
    end
}
