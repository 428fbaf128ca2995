ghost use Rattle.std.specs.Prelude.{◌≡◌, ◌<◌, length, IfOk, OnOk};
ghost use Rattle.walk_core.specs.steps.Cheapest.{IsCheapestCost};
ghost use Rattle.walk_core.specs.steps.SegmentWalks.{AreEnds, AreWalksFrom, IsLan, JoinsNearest, KnowsBeyond, beyond_port, reach_at};

use crate::OutOfMemory;
use crate::distance::{Distance, nearer_of};
use crate::found_walks::FoundWalks;
use crate::number_lists::NumberLists;
use crate::outlets::is_lan;
use crate::rows::{Distances, row_distance};
use crate::segment::{Port, Segment, ports_at};
use crate::union::put_in_order;
use std::alloc::Global;

/// The least walks that begin on each LAN, by the distances from the vertices.
pub(crate) fn all_beyond(
    alloc: Global,
    segments: &[Segment],
    rows: &[Distances],
    count: u32,
) -> Result<Vec<FoundWalks>, OutOfMemory>
    ensures { IfOk result (λ beyond.
        KnowsBeyond (record { count = count; segments = segments.now; rows = rows.now; beyond = beyond.items }) (length segments.now)) }
{
    let mut beyond = Vec::with_capacity(alloc, segments.len())?;
    for place in 0..segments.len() {
        beyond.push(walks_beyond(alloc, ports_at(segments, place), rows, count)?)?;
    }
    Ok(beyond)
}

/// The least walks that begin on the segment of a place.
pub(crate) fn walks_at(beyond: &[FoundWalks], place: usize) -> &FoundWalks
    requires { place < length beyond.now }
    ensures { result.now ≡ reach_at beyond.now place }
{
    &beyond[place]
}

/// The least walks that begin on a LAN: how far each vertex is from the nearest vertex of the LAN, and which vertices of
/// the LAN are that near. So each pair of a LAN and a vertex is looked at once for all roots.
fn walks_beyond(
    alloc: Global,
    ports: &[Port],
    rows: &[Distances],
    count: u32,
) -> Result<FoundWalks, OutOfMemory>
    ensures { IfOk result (λ walks. IsLan ports.now → AreWalksFrom rows.now ports.now count walks) }
{
    if !is_lan(ports) {
        return Ok(FoundWalks::none(alloc));
    }
    let mut distances = Vec::with_capacity(alloc, count as usize)?;
    let mut hops = NumberLists::with_room(alloc, count as usize)?;
    let mut ends = Vec::new(alloc);
    for v in 0..count {
        let distance = find_ends(&mut ends, ports, rows, v)?;
        put_in_order(&mut ends);
        distances.push(distance)?;
        hops.push(ends.as_slice())?;
    }
    Ok(FoundWalks::of(Distances::from_vec(distances), hops))
}

/// Finds how far v is from the nearest vertex of a segment, and which vertices of the segment are that near.
fn find_ends(
    ends: &mut Vec<u32>,
    ports: &[Port],
    rows: &[Distances],
    v: u32,
) -> Result<Distance, OutOfMemory>
    ensures nearest { IfOk result (IsCheapestCost (beyond_port rows.now v) ports.now) }
    ensures ends { IfOk result (λ distance. AreEnds rows.now ports.now v distance ends.new.items) }
{
    ends.clear();
    let mut nearest = Distance::none();
    for port in ports {
        let distance = row_distance(rows, port.vertex, v);
        join_nearest(ends, port.vertex, distance.get(), nearest.get())?;
        nearest = nearer_of(nearest, distance);
    }
    Ok(nearest)
}

/// Lets a vertex at this distance join the nearest ones so far, which are at that one, or take their place.
#[inline(always)]
fn join_nearest(
    ends: &mut Vec<u32>,
    vertex: u32,
    distance: Option<u64>,
    nearest: Option<u64>,
) -> Result<(), OutOfMemory>
    ensures { OnOk result (JoinsNearest vertex distance (record { distance = nearest; ends = ends.old.items }) ends.new.items) }
{
    let Some(distance) = distance else {
        return Ok(());
    };
    if let Some(nearest) = nearest {
        if nearest < distance {
            return Ok(());
        }
        if nearest == distance {
            return Ok(ends.push(vertex)?);
        }
    }
    ends.clear();
    Ok(ends.push(vertex)?)
}
