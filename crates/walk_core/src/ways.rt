ghost use Rattle.std.specs.Prelude.{◌≡◌, ◌<◌, ◌↔◌, IsTrue, MatchOption, Some};
ghost use Rattle.walk_core.specs.steps.SegmentWalks.{IsBehind};

use crate::OutOfMemory;
use crate::beyond::walks_at;
use crate::exits::{TwoExits, exits_over, find_far_ends, push_exits, two_exits, whole_row};
use crate::found_walks::FoundWalks;
use crate::number_lists::NumberLists;
use crate::outlets::{Outlet, is_lone, only_lan};
use crate::relax::distance_in;
use crate::rows::{Distances, distance_between};
use crate::segment::Segment;
use crate::union::{add_behind, put_in_order};
use std::alloc::Global;
use std::marker::Model;

/// A vertex that is looked for, and how far away.
#[derive(Clone, Copy, Debug)]
struct Aim {
    vertex: u32,
    distance: u64,
}

/// Segments, how far their vertices are from each other, and the walks that begin on LANs: what first hops are read from.
#[derive(Drop)]
pub(crate) struct Ways<'a> {
    count: u32,
    segments: &'a [Segment],
    rows: &'a [Distances],
    beyond: &'a [FoundWalks],
}

impl<'a> Model for Ways<'a> {
    ghost use Rattle.walk_core.specs.steps.SegmentWalks.{IsMesh, Mesh};

    ghost Value = { Mesh };

    ghost view = { λ x. record { count = x.count; segments = x.segments.now; rows = x.rows.now; beyond = x.beyond.now } };

    ghost invariant = { λ x. IsMesh (record { count = x.count; segments = x.segments.now; rows = x.rows.now; beyond = x.beyond.now }) };
}

impl<'a> Ways<'a> {
    ghost use Rattle.std.specs.Prelude.{◌≡◌, ◌^◌, ◌<◌, ◌↔◌, ◌∷◌, ℕ, [], None, length, IfOk, IfSome, OnOk, Contains};
    ghost use Rattle.std.specs.List.Sorted.{IsStrictlyIncreasing};
    ghost use Rattle.walk_core.specs.steps.Rows.{distance_between};
    ghost use Rattle.walk_core.specs.steps.Ascending.{AreAscending};
    ghost use Rattle.walk_core.specs.Segments.{SendsAcross};
    ghost use Rattle.walk_core.specs.Walks.{FirstHop};
    ghost use Rattle.walk_core.specs.steps.Adding.{AddsNumbers};
    ghost use Rattle.walk_core.specs.steps.Exits.{HasTwoExits};
    ghost use Rattle.walk_core.specs.steps.FirstHops.{ListFirstHops};
    ghost use Rattle.walk_core.specs.steps.Flooding.{segment_at};
    ghost use Rattle.walk_core.specs.steps.SegmentWalks.{AreOutlets, AreWalksFrom, EndsAlone, GoesOver, IsEndAt, IsLinkEnd, IsLan, IsMesh, IsNoNearer};

    /// The ways over these segments.
    pub fn new(
        count: u32,
        segments: &'a [Segment],
        rows: &'a [Distances],
        beyond: &'a [FoundWalks],
    ) -> Ways<'a>
        requires { IsMesh (record { count = count; segments = segments.now; rows = rows.now; beyond = beyond.now }) }
        ensures { result ≡ (record { count = count; segments = segments.now; rows = rows.now; beyond = beyond.now }) }
    {
        Ways {
            count,
            segments,
            rows,
            beyond,
        }
    }

    /// How many vertices there are.
    fn count(&self) -> u32
        ensures value { result ≡ self.now.count }
        ensures few { self.now.count < 2 ^ 32 }
        ensures mesh { IsMesh self.now }
    {
        self.count
    }

    /// How far v is from u.
    fn distance(&self, u: u32, v: u32) -> Option<u64>
        ensures { result ≡ distance_between self.now.rows u v }
    {
        distance_between(self.rows, u, v)
    }

    /// The walks that begin on the segment of a place, if it is a LAN.
    fn walks(&self, place: usize) -> &FoundWalks
        requires { place < length self.now.segments }
        ensures { IsLan (segment_at self.now.segments place) →
            AreWalksFrom self.now.rows (segment_at self.now.segments place) self.now.count result.now }
    {
        walks_at(self.beyond, place)
    }

    /// The first hops from the root, which has these ports, towards each vertex. Those from a root without a port take
    /// no time.
    pub fn hops_from(
        &self,
        alloc: Global,
        outlets: &[Outlet],
        root: u32,
    ) -> Result<NumberLists, OutOfMemory>
        requires root { root < self.now.count }
        requires outlets { AreOutlets self.now.segments root (length self.now.segments) outlets.now }
        ensures exact { IfOk result (ListFirstHops (SendsAcross self.now.segments) root) }
        ensures ascending { IfOk result AreAscending }
    {
        let count = self.count();
        if is_lone(outlets) {
            return Ok(NumberLists::none(alloc));
        }
        if let Some(outlet) = only_lan(outlets) {
            return self.hops_over_lan(alloc, outlet, root);
        }
        if let Some(exits) = two_exits(self.rows, outlets, root) {
            return self.hops_over_exits(alloc, exits);
        }
        if let Some(hops) = self.hops_over_links(alloc, outlets, root)? {
            return Ok(hops);
        }
        let mut hops = NumberLists::with_room(alloc, count as usize)?;
        let mut found = Vec::new(alloc);
        for v in 0..count {
            self.find_hops(&mut found, outlets, root, v)?;
            hops.push(found.as_slice())?;
        }
        Ok(hops)
    }

    /// The first hops from a root whose only port is on a LAN: those of the walks that begin there, but for the root.
    fn hops_over_lan(
        &self,
        alloc: Global,
        outlet: Outlet,
        root: u32,
    ) -> Result<NumberLists, OutOfMemory>
        requires mesh { IsMesh self.now }
        requires root { root < self.now.count }
        requires lan { outlet.to ≡ None }
        requires outlets { AreOutlets self.now.segments root (length self.now.segments) (outlet ∷ []) }
        ensures exact { IfOk result (ListFirstHops (SendsAcross self.now.segments) root) }
        ensures ascending { IfOk result AreAscending }
    {
        let walks = self.walks(outlet.place);
        walks.hops_without(alloc, root)
    }

    /// The first hops from the root of two exits.
    fn hops_over_exits(
        &self,
        alloc: Global,
        exits: TwoExits<'_>,
    ) -> Result<NumberLists, OutOfMemory>
        requires mesh { IsMesh self.now }
        requires root { exits.root < self.now.count }
        requires exits { HasTwoExits self.now exits }
        ensures exact { IfOk result (ListFirstHops (SendsAcross self.now.segments) exits.entry.root) }
        ensures ascending { IfOk result AreAscending }
    {
        let count = self.count();
        let mut hops = NumberLists::with_room(alloc, count as usize)?;
        for v in 0..count {
            push_exits(&mut hops, exits, v)?;
        }
        Ok(hops)
    }

    /// The first hops from the root, which has these ports, if all are on links.
    fn hops_over_links(
        &self,
        alloc: Global,
        outlets: &[Outlet],
        root: u32,
    ) -> Result<Option<NumberLists>, OutOfMemory>
        requires mesh { IsMesh self.now }
        requires root { root < self.now.count }
        requires outlets { AreOutlets self.now.segments root (length self.now.segments) outlets.now }
        ensures exact { IfOk result (λ found. IfSome found (ListFirstHops (SendsAcross self.now.segments) root)) }
        ensures ascending { IfOk result (λ found. IfSome found AreAscending) }
    {
        let count = self.count();
        let Some(row) = whole_row(self.rows, root) else {
            return Ok(None);
        };
        let Some(exits) = exits_over(alloc, self.rows, outlets)? else {
            return Ok(None);
        };
        let mut hops = NumberLists::with_room(alloc, count as usize)?;
        let mut found = Vec::new(alloc);
        for v in 0..count {
            find_far_ends(&mut found, exits.as_slice(), v, distance_in(row, v))?;
            hops.push(found.as_slice())?;
        }
        Ok(Some(hops))
    }

    /// Finds the first hops from the root, which has these ports, towards v, in ascending order.
    fn find_hops(
        &self,
        found: &mut Vec<u32>,
        outlets: &[Outlet],
        root: u32,
        v: u32,
    ) -> Result<(), OutOfMemory>
        requires mesh { IsMesh self.now }
        requires root { root < self.now.count }
        requires vertex { v < self.now.count }
        requires outlets { AreOutlets self.now.segments root (length self.now.segments) outlets.now }
        ensures exact { OnOk result ((h : ℕ) → Contains found.new.items h ↔ FirstHop (SendsAcross self.now.segments) root v h) }
        ensures ascending { OnOk result (IsStrictlyIncreasing found.new.items) }
    {
        found.clear();
        let Some(distance) = self.distance(root, v) else {
            return Ok(());
        };
        for outlet in outlets {
            self.add_hops(
                found,
                *outlet,
                Aim {
                    vertex: v,
                    distance,
                },
            )?;
        }
        put_in_order(found);
        Ok(())
    }

    /// Adds the first hops over an outlet towards what is looked for.
    fn add_hops(&self, found: &mut Vec<u32>, outlet: Outlet, aim: Aim) -> Result<(), OutOfMemory>
        requires place { outlet.place < length self.now.segments }
        requires vertex { aim.vertex < self.now.count }
        requires near { IsNoNearer self.now outlet aim }
        requires far { EndsAlone self.now outlet aim }
        ensures { OnOk result (AddsNumbers (GoesOver self.now aim outlet) found.old.items found.new.items) }
    {
        let Some(rest) = behind(aim, outlet.cost) else {
            return Ok(());
        };
        match outlet.to {
            Some(to) => self.add_end(found, to, rest),
            None => self.add_ends_of(found, outlet.place, rest),
        }
    }

    /// Adds the end of a link, if it is as far as this from what is looked for.
    fn add_end(&self, found: &mut Vec<u32>, to: u32, rest: Aim) -> Result<(), OutOfMemory>
        ensures { OnOk result (AddsNumbers (IsLinkEnd self.now.rows rest to) found.old.items found.new.items) }
    {
        if is_at(self.distance(to, rest.vertex), rest.distance) {
            found.push(to)?;
        }
        Ok(())
    }

    /// Adds the vertices of the LAN of a place that are as far as this from what is looked for.
    fn add_ends_of(&self, found: &mut Vec<u32>, place: usize, rest: Aim) -> Result<(), OutOfMemory>
        requires place { place < length self.now.segments }
        requires lan { IsLan (segment_at self.now.segments place) }
        requires vertex { rest.vertex < self.now.count }
        requires near { IsNoNearer self.now (record { place = place; cost = 0; to = None }) rest }
        ensures { OnOk result (AddsNumbers (IsEndAt self.now.rows (segment_at self.now.segments place) rest) found.old.items found.new.items) }
    {
        let walks = self.walks(place);
        if is_at(walks.distance(rest.vertex), rest.distance) {
            add_behind(found, walks.hops_to(rest.vertex))?;
        }
        Ok(())
    }
}

/// What is left behind a cost, and `None` where it costs more than that.
fn behind(aim: Aim, cost: u32) -> Option<Aim>
    ensures { MatchOption result (aim.distance < cost) (IsBehind aim cost) }
{
    if aim.distance < u64::from(cost) {
        return None;
    }
    Some(Aim {
        vertex: aim.vertex,
        distance: aim.distance - u64::from(cost),
    })
}

/// Whether there is a distance, and this is it.
fn is_at(distance: Option<u64>, this: u64) -> bool
    ensures { IsTrue result ↔ (distance ≡ Some this) }
{
    match distance {
        Some(distance) => distance == this,
        None => false,
    }
}
