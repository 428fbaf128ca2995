ghost use Rattle.std.specs.Prelude.{◌≡◌, ◌<◌, ◌++◌, ◌∷◌, [], ℕ, List, All, IfOk, OnOk, length, not, slice_index_or};
ghost use Rattle.std.specs.Bool.{OnFalse, OnTrue};
ghost use Rattle.rib_mix.specs.declared.both_tables.BothTables.{BothTables};
ghost use Rattle.rib_mix.specs.steps.Features.{AreLanesOf, AreOneKind, HasKindsBefore, HasLane, HaveLanesOf};
ghost use Rattle.rib_mix.specs.steps.Features.{HaveSameKinds, IsOneAt};

use crate::both_tables::BothTables;
use route_core::{Number, OutOfMemory};
use std::alloc::Global;

/// The kinds of the prefixes that some tables share. The tables of an area's routers have one lane.
#[derive(Clone, Copy, Debug)]
pub(crate) struct Lane<'a> {
    /// The kind of each prefix.
    pub kinds: &'a [u32],
}

/// The lanes of all routers' tables, each once.
#[derive(Drop)]
pub(crate) struct Lanes<'a> {
    /// Those of the old tables.
    pub olds: Vec<Lane<'a>>,
    /// Those of the new tables.
    pub news: Vec<Lane<'a>>,
    /// Of each router whether its lanes may be others than those of the router before.
    pub begins: Vec<bool>,
}

impl<'a> Lanes<'a> {
    /// The lanes of some tables. Each is compared with those of the router before, which mostly has the same.
    pub fn of_tables(alloc: Global, tables: &[BothTables<'a>]) -> Result<Lanes<'a>, OutOfMemory>
        ensures { IfOk result (AreLanesOf tables.now (length tables.now)) }
    {
        let mut lanes = Lanes {
            olds: Vec::new(alloc),
            news: Vec::new(alloc),
            begins: Vec::with_capacity(alloc, tables.len())?,
        };
        for router in 0..tables.len() {
            let both = &tables[router];
            lanes.add(both, goes_on(tables, router, both))?;
        }
        Ok(lanes)
    }

    /// Adds the lanes of the next router, unless it has those of the router before.
    fn add(&mut self, both: &BothTables<'a>, goes_on: bool) -> Result<(), OutOfMemory>
        ensures kept { OnOk result ((one : BothTables) → HaveLanesOf self.old one → HaveLanesOf self.new one) }
        ensures have { OnOk result (OnFalse goes_on (HaveLanesOf self.new both.now)) }
        ensures begins { OnOk result (self.new.begins.items ≡ self.old.begins.items ++ not goes_on ∷ []) }
    {
        if !goes_on {
            let old = both.old.kinds;
            let new = both.new.kinds;
            add_lane(&mut self.olds, Lane { kinds: old })?;
            add_lane(&mut self.news, Lane { kinds: new })?;
        }
        Ok(self.begins.push(!goes_on)?)
    }
}

/// Whether these tables of a router have the same kinds as those of the router before.
fn goes_on(tables: &[BothTables<'_>], router: usize, both: &BothTables<'_>) -> bool
    requires { router < length tables.now }
    ensures { OnTrue result (HasKindsBefore tables.now router both.now) }
{
    match router.checked_sub(1) {
        Some(before) => have_same_kinds(&tables[before], both),
        None => false,
    }
}

/// Whether the tables of two routers have the same kinds.
fn have_same_kinds(one: &BothTables<'_>, other: &BothTables<'_>) -> bool
    ensures { OnTrue result (HaveSameKinds one.now other.now) }
{
    are_same_kinds(one.old.kinds, other.old.kinds) && are_same_kinds(one.new.kinds, other.new.kinds)
}

/// Adds a lane where it isn't among some.
fn add_lane<'a>(lanes: &mut Vec<Lane<'a>>, lane: Lane<'a>) -> Result<(), OutOfMemory>
    ensures kept { OnOk result ((kinds : List ℕ) → HasLane lanes.old.items kinds → HasLane lanes.new.items kinds) }
    ensures has { OnOk result (HasLane lanes.new.items lane.entry.kinds.now) }
{
    if is_among(lanes.as_slice(), lane) {
        return Ok(());
    }
    Ok(lanes.push(lane)?)
}

/// Whether a lane is among some. The latest is looked at first: routers that follow each other mostly have one lane.
fn is_among(lanes: &[Lane<'_>], lane: Lane<'_>) -> bool
    ensures { OnTrue result (HasLane lanes.now lane.entry.kinds.now) }
{
    for other in lanes.iter().rev() {
        if are_same_kinds(other.kinds, lane.kinds) {
            return true;
        }
    }
    false
}

/// Whether two lists of kinds are the same.
fn are_same_kinds(one: &[u32], other: &[u32]) -> bool
    ensures { OnTrue result (one.now ≡ other.now) }
{
    one == other
}

/// Whether the prefixes at two spots are of one kind in each lane, or at neither is one.
pub(crate) fn are_one_kind(lanes: &[Lane<'_>], one: Number, other: Number) -> bool
    ensures { OnTrue result (AreOneKind lanes.now one other) }
{
    match (one.get(), other.get()) {
        (None, None) => true,
        (Some(one), Some(other)) => are_one_in_each(lanes, one as usize, other as usize),
        _ => false,
    }
}

/// Whether the prefixes at two spots are of one kind in each lane.
fn are_one_in_each(lanes: &[Lane<'_>], one: usize, other: usize) -> bool
    ensures { OnTrue result (All (IsOneAt one other) lanes.now) }
{
    for lane in lanes {
        if lane.kind(one) != lane.kind(other) {
            return false;
        }
    }
    true
}

impl Lane<'_> {
    /// The kind of the prefix at a spot.
    #[inline(always)]
    pub fn kind(self, spot: usize) -> u32
        ensures { result ≡ slice_index_or self.entry.kinds.now spot 0 }
    {
        match self.kinds.get(spot) {
            Some(kind) => *kind,
            None => 0,
        }
    }
}
