ghost use Rattle.std.specs.Prelude.{◌≡◌, ◌<◌, [], IfOk, length, slice_index_or, slice_set};
ghost use Rattle.walk_core.specs.Segments.{SendsAcross};
ghost use Rattle.walk_core.specs.steps.Ascending.{AreAscending};
ghost use Rattle.walk_core.specs.steps.FirstHops.{ListFirstHops};
ghost use Rattle.walk_core.specs.steps.Kept.{StayLeast};
ghost use Rattle.walk_core.specs.steps.SegmentWalks.{AreOutlets};

use crate::begun::begun_row;
use crate::beyond::all_beyond;
use crate::flood::{Flood, distances_over};
use crate::kept::Kept;
use crate::number_lists::NumberLists;
use crate::outlets::{Outlet, Outlets, is_lone, outlets_of};
use crate::rows::Distances;
use crate::segment::Segment;
use crate::ways::Ways;
use crate::{LeastWalks, OutOfMemory};
use std::alloc::Global;
use std::marker::Model;
use std::mem;

/// So many vertices, the segments that join them, and the ports of each.
#[derive(Drop)]
pub(crate) struct SegmentGraph<'a> {
    count: u32,
    segments: &'a [Segment],
    outlets: &'a [Outlets],
}

impl<'a> Model for SegmentGraph<'a> {
    ghost use Rattle.walk_core.specs.steps.SegmentWalks.{Joined, IsJoined};

    ghost Value = { Joined };

    ghost view = { λ x. record { count = x.count; segments = x.segments.now; outlets = x.outlets.now } };

    ghost invariant = { λ x. IsJoined (record { count = x.count; segments = x.segments.now; outlets = x.outlets.now }) };
}

impl<'a> SegmentGraph<'a> {
    ghost use Rattle.std.specs.Prelude.{◌≡◌, ◌+◌, ◌^◌, ◌<◌, false, true, length, slice_index_or, IfOk, OnOk};
    ghost use Rattle.walk_core.specs.Reach.{AreWalksBelow};
    ghost use Rattle.walk_core.specs.Segments.{SendsAcross};
    ghost use Rattle.walk_core.specs.steps.FirstHops.{AreAllHops};
    ghost use Rattle.walk_core.specs.steps.Floods.{IsRoom};
    ghost use Rattle.walk_core.specs.steps.Kept.{StayLeast};
    ghost use Rattle.walk_core.specs.steps.Rows.{AreDistanceRows, IsDistanceRow};
    ghost use Rattle.walk_core.specs.steps.SegmentWalks.{AreOutlets, IsJoined};

    /// The graph of these vertices, which have these ports.
    pub fn new(count: u32, segments: &'a [Segment], outlets: &'a [Outlets]) -> SegmentGraph<'a>
        requires { IsJoined (record { count = count; segments = segments.now; outlets = outlets.now }) }
        ensures { result ≡ (record { count = count; segments = segments.now; outlets = outlets.now }) }
    {
        SegmentGraph {
            count,
            segments,
            outlets,
        }
    }

    /// How many vertices there are.
    pub fn count(&self) -> u32
        ensures value { result ≡ self.now.count }
        ensures few { self.now.count < 2 ^ 32 }
        ensures joined { IsJoined self.now }
    {
        self.count
    }

    /// The segments.
    pub fn segments(&self) -> &[Segment]
        ensures value { result.now ≡ self.now.segments }
        ensures joined { IsJoined self.now }
    {
        self.segments
    }

    /// The ports of a vertex.
    pub fn ports(&self, vertex: usize) -> &[Outlet]
        requires { vertex < self.now.count }
        ensures ports { AreOutlets self.now.segments vertex (length self.now.segments) result.now }
        ensures joined { IsJoined self.now }
    {
        outlets_of(self.outlets, vertex)
    }

    /// The least-cost walks from every vertex.
    pub fn walks(&self, alloc: Global) -> Result<Vec<LeastWalks>, OutOfMemory>
        ensures { IfOk result (λ all. AreWalksBelow (SendsAcross self.now.segments) self.now.count self.now.count all.items) }
    {
        self.walks_keeping(alloc, Kept::none())
    }

    /// The least-cost walks from every vertex, where some of them are kept.
    pub fn walks_keeping(
        &self,
        alloc: Global,
        kept: Kept<'_>,
    ) -> Result<Vec<LeastWalks>, OutOfMemory>
        requires { StayLeast (SendsAcross self.now.segments) self.now.count kept.roots.now kept.walks.now }
        ensures { IfOk result (λ all. AreWalksBelow (SendsAcross self.now.segments) self.now.count self.now.count all.items) }
    {
        let rows = self.rows_keeping(alloc, kept)?;
        let lists = self.hops_by(alloc, rows.as_slice(), kept)?;
        self.joined(alloc, rows, lists)
    }

    /// The first hops from every vertex, by the distances from it, where some of them are kept.
    pub fn hops_by(
        &self,
        alloc: Global,
        rows: &[Distances],
        kept: Kept<'_>,
    ) -> Result<Vec<NumberLists>, OutOfMemory>
        requires rows { AreDistanceRows (SendsAcross self.now.segments) self.now.count self.now.count rows.now }
        requires kept { StayLeast (SendsAcross self.now.segments) self.now.count kept.roots.now kept.walks.now }
        ensures { IfOk result (λ lists. AreAllHops (SendsAcross self.now.segments) self.now.count lists.items) }
    {
        let count = self.count();
        let beyond = all_beyond(alloc, self.segments, rows, count)?;
        let ways = Ways::new(count, self.segments, rows, beyond.as_slice());
        let lists = self.all_hops(alloc, &ways, kept)?;
        Ok(lists)
    }

    /// The least-cost walks from every vertex, by their distances and first hops.
    fn joined(
        &self,
        alloc: Global,
        rows: Vec<Distances>,
        lists: Vec<NumberLists>,
    ) -> Result<Vec<LeastWalks>, OutOfMemory>
        requires rows { AreDistanceRows (SendsAcross self.now.segments) self.now.count self.now.count rows.items }
        requires lists { AreAllHops (SendsAcross self.now.segments) self.now.count lists.items }
        ensures { IfOk result (λ all. AreWalksBelow (SendsAcross self.now.segments) self.now.count self.now.count all.items) }
    {
        let count = self.count();
        let (mut rows, mut lists) = (rows, lists);
        let mut all = Vec::with_capacity(alloc, count as usize)?;
        for root in 0..count {
            let hops = take_hops(alloc, &mut lists, root);
            let distances = take_row(alloc, &mut rows, root);
            let walks = LeastWalks::of(alloc, distances, hops)?;
            all.push(walks)?;
        }
        Ok(all)
    }

    /// The distances from every vertex, those of kept walks copied.
    fn rows_keeping(&self, alloc: Global, kept: Kept<'_>) -> Result<Vec<Distances>, OutOfMemory>
        requires { StayLeast (SendsAcross self.now.segments) self.now.count kept.roots.now kept.walks.now }
        ensures { IfOk result (λ rows. AreDistanceRows (SendsAcross self.now.segments) self.now.count self.now.count rows.items) }
    {
        let count = self.count();
        let mut flood = Flood::new(alloc, self)?;
        let mut rows = Vec::with_capacity(alloc, count as usize)?;
        for root in 0..count {
            let row = match kept.walks_from(root) {
                Some(walks) => walks.copy_distances(alloc)?,
                None => self.row_from(alloc, rows.as_slice(), root, &mut flood)?,
            };
            rows.push(row)?;
        }
        Ok(rows)
    }

    /// The first hops from every vertex, those of kept walks copied, and the others by the ways over the segments.
    fn all_hops(
        &self,
        alloc: Global,
        ways: &Ways<'_>,
        kept: Kept<'_>,
    ) -> Result<Vec<NumberLists>, OutOfMemory>
        requires count { ways.now.count ≡ self.now.count }
        requires segments { ways.now.segments ≡ self.now.segments }
        requires kept { StayLeast (SendsAcross self.now.segments) self.now.count kept.roots.now kept.walks.now }
        ensures { IfOk result (λ lists. AreAllHops (SendsAcross self.now.segments) self.now.count lists.items) }
    {
        let count = self.count();
        let mut lists = Vec::with_capacity(alloc, count as usize)?;
        for root in 0..count {
            let hops = hops_keeping(alloc, ways, kept, self.ports(root as usize), root)?;
            lists.push(hops)?;
        }
        Ok(lists)
    }

    /// The distances from every vertex.
    pub fn rows(&self, alloc: Global) -> Result<Vec<Distances>, OutOfMemory>
        ensures { IfOk result (λ rows. AreDistanceRows (SendsAcross self.now.segments) self.now.count self.now.count rows.items) }
    {
        self.rows_keeping(alloc, Kept::none())
    }

    /// The distances from the root, by those from the vertices before it.
    fn row_from(
        &self,
        alloc: Global,
        rows: &[Distances],
        root: u32,
        flood: &mut Flood,
    ) -> Result<Distances, OutOfMemory>
        requires root { root < self.now.count }
        requires rows { AreDistanceRows (SendsAcross self.now.segments) self.now.count root rows.now }
        requires room { IsRoom self.now flood.old }
        ensures row { IfOk result (IsDistanceRow (SendsAcross self.now.segments) self.now.count root) }
        ensures room { IsRoom self.now flood.new }
    {
        if is_lone(self.ports(root as usize)) {
            return Ok(Distances::of_lone(root));
        }
        let begun = begun_row(alloc, self, rows, root)?;
        Ok(distances_over(alloc, self, root, begun, flood))
    }
}

/// The first hops from a root, which has these ports, copied where its walks are kept.
fn hops_keeping(
    alloc: Global,
    ways: &Ways<'_>,
    kept: Kept<'_>,
    outlets: &[Outlet],
    root: u32,
) -> Result<NumberLists, OutOfMemory>
    requires root { root < ways.now.count }
    requires outlets { AreOutlets ways.now.segments root (length ways.now.segments) outlets.now }
    requires kept { StayLeast (SendsAcross ways.now.segments) ways.now.count kept.roots.now kept.walks.now }
    ensures exact { IfOk result (ListFirstHops (SendsAcross ways.now.segments) root) }
    ensures ascending { IfOk result AreAscending }
{
    let Some(walks) = kept.walks_from(root) else {
        return ways.hops_from(alloc, outlets, root);
    };
    let hops = walks.copy_hops(alloc)?;
    Ok(hops)
}

/// Takes the first hops from a vertex out of those of all.
fn take_hops(alloc: Global, lists: &mut Vec<NumberLists>, root: u32) -> NumberLists
    requires { root < length lists.old.items }
    ensures taken { result ≡ slice_index_or lists.old.items root [] }
    ensures others { lists.new.items ≡ slice_set lists.old.items root [] }
{
    mem::replace(&mut lists[root as usize], NumberLists::none(alloc))
}

/// Takes the distances from a vertex out of those of all.
fn take_row(alloc: Global, rows: &mut Vec<Distances>, root: u32) -> Distances
    requires { root < length rows.old.items }
    ensures taken { result ≡ slice_index_or rows.old.items root [] }
    ensures others { rows.new.items ≡ slice_set rows.old.items root [] }
{
    mem::replace(&mut rows[root as usize], Distances::none(alloc))
}
