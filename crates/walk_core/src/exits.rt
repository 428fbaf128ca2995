ghost use Rattle.std.specs.Prelude.{◌≡◌, ◌↔◌, ◌∷◌, ◌++◌, ◌+◌, ◌<◌, ℕ, [], Some, slice_index_or, Contains, IfOk, IfSome, OnOk};
ghost use Rattle.std.specs.List.Sorted.{IsStrictlyIncreasing};
ghost use Rattle.walk_core.specs.Distances.{distance_at};
ghost use Rattle.walk_core.specs.declared.exits.Exit.{Exit};
ghost use Rattle.walk_core.specs.steps.Exits.{AddsHops, AreExits, AreTwoExits, FitsOver, IsExit, IsNoFarther, OneLeadsAsFar, cost_over, list_of_two};

use crate::OutOfMemory;
use crate::distance::{Distance, is_over};
use crate::number_lists::NumberLists;
use crate::outlets::Outlet;
use crate::relax::{distance_at, distance_in};
use crate::rows::Distances;
use crate::union::put_in_order;
use std::alloc::Global;

/// A link of a root: where it leads, what it costs, and how far the vertices are from its end.
#[derive(Clone, Copy)]
pub(crate) struct Exit<'a> {
    to: u32,
    cost: u32,
    row: &'a [Distance],
}

/// A root of two ports, and its links, which these are, by ascending ends.
#[derive(Clone, Copy)]
pub(crate) struct TwoExits<'a> {
    root: u32,
    one: Exit<'a>,
    other: Exit<'a>,
}

/// The exits of a root that has these ports, by the rows of distances, if there are two over links to different vertices.
pub(crate) fn two_exits<'a>(
    rows: &'a [Distances],
    outlets: &[Outlet],
    root: u32,
) -> Option<TwoExits<'a>>
    ensures { IfSome result (AreTwoExits rows.now outlets.now root) }
{
    let [first, second] = outlets else {
        return None;
    };
    let one = exit_of(rows, *first)?;
    let other = exit_of(rows, *second)?;
    if one.to < other.to {
        return Some(TwoExits { root, one, other });
    }
    if other.to < one.to {
        return Some(TwoExits {
            root,
            one: other,
            other: one,
        });
    }
    None
}

/// The exits over these ports, if all are on links.
pub(crate) fn exits_over<'a>(
    alloc: Global,
    rows: &'a [Distances],
    outlets: &[Outlet],
) -> Result<Option<Vec<Exit<'a>>>, OutOfMemory>
    ensures { IfOk result (λ exits. IfSome exits (λ all. AreExits rows.now outlets.now all.items)) }
{
    let mut exits = Vec::with_capacity(alloc, outlets.len())?;
    for outlet in outlets {
        let Some(exit) = exit_of(rows, *outlet) else {
            return Ok(None);
        };
        exits.push(exit)?;
    }
    Ok(Some(exits))
}

/// The exit over a port, if it is on a link.
fn exit_of<'a>(rows: &'a [Distances], outlet: Outlet) -> Option<Exit<'a>>
    ensures { IfSome result (IsExit rows.now outlet) }
{
    let to = outlet.to?;
    let row = whole_row(rows, to)?;
    Some(Exit {
        to,
        cost: outlet.cost,
        row,
    })
}

/// The row of distances from u, unless u reaches itself alone.
pub(crate) fn whole_row(rows: &[Distances], u: u32) -> Option<&[Distance]>
    ensures { IfSome result (λ row. row.now ≡ slice_index_or rows.now u []) }
{
    rows.get(u as usize)?.whole()
}

/// Adds the list of the first hops towards v, in ascending order: the ends over which it is nearest, and none towards the
/// root itself.
#[inline(always)]
pub(crate) fn push_exits(
    hops: &mut NumberLists,
    exits: TwoExits<'_>,
    v: u32,
) -> Result<(), OutOfMemory>
    requires one { FitsOver exits.one }
    requires other { FitsOver exits.other }
    ensures { OnOk result (AddsHops exits.entry v hops.old hops.new) }
{
    if v == exits.root {
        return hops.push(&[]);
    }
    let one = cost_over(exits.one, v);
    let other = cost_over(exits.other, v);
    push_two(
        hops,
        no_farther_end(exits.one.to, one, other),
        no_farther_end(exits.other.to, other, one),
    )
}

/// What it costs to go to v over an exit, and `None` where no walk leads there.
#[inline(always)]
fn cost_over(exit: Exit<'_>, v: u32) -> Option<u64>
    requires { FitsOver exit }
    ensures { result ≡ cost_over exit.entry v }
{
    let beyond = distance_at(exit.row, v)?;
    Some(beyond + u64::from(exit.cost))
}

/// The end of an exit over which it costs this, unless it costs less over the other one.
#[inline(always)]
fn no_farther_end(to: u32, cost: Option<u64>, rival: Option<u64>) -> Option<u32>
    ensures { (h : ℕ) → (result ≡ Some h) ↔ (IsNoFarther cost rival × (to ≡ h)) }
{
    match (cost, rival) {
        (Some(cost), Some(rival)) if rival < cost => None,
        (Some(_), _) => Some(to),
        (None, _) => None,
    }
}

/// Adds the list of two numbers, of which either may be missing.
#[inline(always)]
fn push_two(hops: &mut NumberLists, one: Option<u32>, other: Option<u32>) -> Result<(), OutOfMemory>
    ensures { OnOk result (hops.new ≡ hops.old ++ list_of_two one other ∷ []) }
{
    match (one, other) {
        (Some(one), Some(other)) => hops.push(&[one, other]),
        (Some(one), None) => hops.push(&[one]),
        (None, Some(other)) => hops.push(&[other]),
        (None, None) => hops.push(&[]),
    }
}

/// Finds the ends of the exits over which it is as far to v as this, in ascending order.
#[inline(always)]
pub(crate) fn find_far_ends(
    found: &mut Vec<u32>,
    exits: &[Exit<'_>],
    v: u32,
    distance: Distance,
) -> Result<(), OutOfMemory>
    requires { (exit : Exit) → Contains exits.now exit → FitsOver exit }
    ensures exact { OnOk result ((h : ℕ) → Contains found.new.items h ↔ OneLeadsAsFar exits.now v distance h) }
    ensures ascending { OnOk result (IsStrictlyIncreasing found.new.items) }
{
    found.clear();
    if distance.get().is_none() {
        return Ok(());
    }
    for exit in exits {
        if is_over(distance, distance_in(exit.row, v), exit.cost) {
            found.push(exit.to)?;
        }
    }
    put_in_order(found);
    Ok(())
}
