ghost use Rattle.std.specs.Prelude.{◌≡◌, ◌<◌, ◌==◌, if◌then◌else◌, [], IfOk, IfSome, None, Some};
ghost use Rattle.std.specs.Prelude.{length, slice_index_or, slice_set};
ghost use Rattle.std.specs.Bool.{OnTrue};
ghost use Rattle.net_model.specs.Refusals.{IsNetwork};
ghost use Rattle.route_core.specs.Rows.{kept_in};
ghost use Rattle.rib_mix.specs.Cells.{no_cell};
ghost use Rattle.rib_mix.specs.steps.Features.{AreBegins};
ghost use Rattle.rib_mix.specs.steps.OwnCells.{AreAllOwn, AreByLanes, AreEntryCells, Connects, HasCodes, HasFew};
ghost use Rattle.rib_mix.specs.steps.OwnCells.{HaveAllCodes, TellsOfRouter, kinds_of};
ghost use Rattle.rib_mix.specs.steps.Sites.{HasOspfDistance};
ghost use Rattle.rib_mix.specs.steps.Uses.{cell_of_two, connected_cell};

use crate::both_tables::BothTables;
use crate::cell::{Cell, cell_between};
use crate::homes::Homes;
use crate::kinds::{Kinds, NO_KIND, kind_at_spot};
use crate::sorts::Sorts;
use crate::spots::{BothSpots, Spots};
use crate::used::Use;
use net_model::{ISIS_DISTANCE, MOST_DISTANCE, Net};
use prefix_atoms::Atoms;
use route_core::{Number, OutOfMemory, TableParts};
use std::alloc::Global;

/// What serves all routers: the classes, where their prefixes stand among those of the tables, at which routers they are
/// connected, and their sorts.
#[derive(Clone, Copy)]
pub(crate) struct Shared<'a> {
    /// The classes.
    pub atoms: &'a Atoms,
    /// Where their prefixes stand.
    pub spots: &'a Spots,
    /// The routers at which each is connected.
    pub homes: &'a [Homes],
    /// The sorts of the prefixes.
    pub sorts: &'a Sorts,
    /// Of each router whether its tables' kinds may be others than those of the router before.
    pub begins: &'a [bool],
}

/// Of a router what tells what it uses.
#[derive(Clone, Copy, Debug)]
pub(crate) struct OfRouter<'a> {
    /// The kind that the old table has of each prefix.
    pub old_kinds: &'a [u32],
    /// The kind that the new table has of each prefix.
    pub new_kinds: &'a [u32],
    /// Whether these may be others than those of the router before.
    pub begins: bool,
    /// The numbers of the old table's kinds, and none where that table doesn't count.
    pub olds: &'a [Number],
    /// The numbers of the new table's kinds.
    pub news: &'a [Number],
    /// Whether entries of the old table come before those of the new one.
    pub old_first: bool,
}

/// What tells what each router of a network uses that has these tables.
pub(crate) fn all_own<'a>(
    alloc: Global,
    net: &Net,
    tables: &[BothTables<'a>],
    begins: &[bool],
) -> Result<Vec<OfRouter<'a>>, OutOfMemory>
    requires tables { length tables.now ≡ length net.now }
    requires begins { AreBegins tables.now (length tables.now) begins.now }
    ensures { IfOk result (λ all. AreAllOwn net.now tables.now all.items) }
{
    let mut all = Vec::with_capacity(alloc, tables.len())?;
    for router in 0..net.routers() {
        let both = &tables[router as usize];
        let own = of_router(both, ospf_distance(net, router), begins[router as usize])?;
        all.push(own)?;
    }
    Ok(all)
}

/// The OSPF distance of a router.
fn ospf_distance(net: &Net, router: u32) -> u8
    requires { router < length net.now }
    ensures distance { HasOspfDistance net.now router result }
    ensures network { IsNetwork net.now }
{
    net.config(router).distances.ospf
}

/// What tells what a router uses that has these tables and this OSPF distance.
fn of_router<'a>(both: &BothTables<'a>, ospf: u8, begins: bool) -> Result<OfRouter<'a>, OutOfMemory>
    ensures tells { IfOk result (TellsOfRouter both.now ospf) }
    ensures begins { IfOk result (λ own. own.begins ≡ begins) }
{
    if has_few(both.old) && has_few(both.new) {
        Ok(OfRouter {
            old_kinds: both.old.kinds,
            new_kinds: both.new.kinds,
            begins,
            olds: counted_numbers(both.old, ospf),
            news: both.new.numbers,
            old_first: ospf < ISIS_DISTANCE,
        })
    } else {
        Err(OutOfMemory)
    }
}

/// Whether all kinds and entries of a table have numbers.
fn has_few(parts: TableParts<'_>) -> bool
    ensures { OnTrue result (HasFew (kept_in parts.entry)) }
{
    parts.numbers.len() <= NO_KIND && parts.entries.len() < Use::MOST_NUMBERS as usize
}

/// The numbers of the kinds of a router's old table, and none where that doesn't count.
fn counted_numbers<'a>(parts: TableParts<'a>, ospf: u8) -> &'a [Number]
    ensures { result.now ≡ (if ospf == MOST_DISTANCE then [] else parts.entry.numbers.now) }
{
    if ospf == MOST_DISTANCE {
        &[]
    } else {
        parts.numbers
    }
}

/// Puts what each router uses for the prefix at these spots where that isn't connected, in place of what it uses for the parent.
/// The kinds are looked up once for each run of routers that have the same.
#[inline(never)]
pub(crate) fn fill_column(column: &mut [Cell], all: &[OfRouter<'_>], spots: &BothSpots)
    requires many { length column.old ≡ length all.now }
    requires lanes { AreByLanes all.now }
    requires codes { HaveAllCodes all.now }
    ensures count { length column.new ≡ length column.old }
    ensures cells { AreEntryCells all.now spots.now column.old (length all.now) column.new }
{
    let mut kinds = Kinds {
        old: NO_KIND,
        new: NO_KIND,
    };
    for (router, own) in all.iter().enumerate() {
        kinds = own_kinds(own, spots, kinds);
        column[router] = own_cell(own, kinds, column, router);
    }
}

/// The kinds that a router's tables have of the prefix at these spots: those of the router before, where it has the same of all.
#[inline(always)]
fn own_kinds(own: &OfRouter<'_>, spots: &BothSpots, before: Kinds) -> Kinds
    ensures { result ≡ (if own.now.begins then kinds_of own.now spots.now else before) }
{
    if own.begins {
        Kinds {
            old: kind_at_spot(own.old_kinds, spots.old),
            new: kind_at_spot(own.new_kinds, spots.new),
        }
    } else {
        before
    }
}

/// What a router uses for a prefix of these kinds. Mostly both tables have an entry: what is used for the parent isn't read then.
#[inline(always)]
fn own_cell(own: &OfRouter<'_>, kinds: Kinds, ups: &[Cell], router: usize) -> Cell
    requires codes { HasCodes own.now }
    requires router { router < length ups.now }
    ensures { result ≡ cell_of_two (slice_index_or own.now.olds.now kinds.old None)
        (slice_index_or own.now.news.now kinds.new None) own.now.old_first (slice_index_or ups.now router no_cell) }
{
    match both_numbers(own, kinds) {
        Some((old, new)) => cell_between(Use::old(old), Use::new(new), own.old_first),
        None => any_cell(own, kinds, ups[router]),
    }
}

/// The numbers of both tables' entries for a prefix of these kinds, if there are both.
#[inline(always)]
fn both_numbers(own: &OfRouter<'_>, kinds: Kinds) -> Option<(u32, u32)>
    ensures old { IfSome result (λ both. slice_index_or own.now.olds.now kinds.old None ≡ Some both.0) }
    ensures new { IfSome result (λ both. slice_index_or own.now.news.now kinds.new None ≡ Some both.1) }
{
    let old = number_at(own.olds, kinds.old)?;
    let new = number_at(own.news, kinds.new)?;
    Some((old, new))
}

/// What a router uses for a prefix of these kinds, and at an end where it has nothing what it uses for the parent. Of entries of
/// both tables that of lower distance comes first.
#[inline(always)]
fn any_cell(own: &OfRouter<'_>, kinds: Kinds, up: Cell) -> Cell
    requires { HasCodes own.now }
    ensures { result ≡ cell_of_two (slice_index_or own.now.olds.now kinds.old None)
        (slice_index_or own.now.news.now kinds.new None) own.now.old_first up }
{
    match number_at(own.olds, kinds.old) {
        Some(old) => match number_at(own.news, kinds.new) {
            Some(new) => cell_between(Use::old(old), Use::new(new), own.old_first),
            None => Cell {
                middle: Use::old(old),
                other: up.in_new(),
            },
        },
        None => match number_at(own.news, kinds.new) {
            Some(new) => Cell {
                middle: Use::new(new),
                other: up.in_old(),
            },
            None => up,
        },
    }
}

/// The number of the entry for the prefixes of a kind, if there is one.
#[inline(always)]
fn number_at(numbers: &[Number], kind: usize) -> Option<u32>
    ensures { result ≡ slice_index_or numbers.now kind None }
{
    match numbers.get(kind) {
        Some(number) => number.get(),
        None => None,
    }
}

/// Puts that a connected prefix is used at some routers.
pub(crate) fn connect(column: &mut [Cell], homes: &[u32])
    ensures { Connects homes.now column.old column.new }
{
    for router in homes {
        connect_at(column, *router);
    }
}

/// Puts that a connected prefix is used at a router, if that is there.
fn connect_at(column: &mut [Cell], router: u32)
    ensures { column.new ≡ slice_set column.old router connected_cell }
{
    if (router as usize) < column.len() {
        column[router as usize] = Cell::connected();
    }
}
