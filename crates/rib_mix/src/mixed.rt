ghost use Rattle.std.specs.Prelude.{◌≡◌, ◌<◌, ◌↔◌, IfOk, IfSome, IsTrue, OnOk, length, map, slice_index};
ghost use Rattle.std.specs.Bool.{OnTrue};
ghost use Rattle.net_model.specs.Network.{Connected};
ghost use Rattle.igp_theory.specs.Migrations.{migration};
ghost use Rattle.prefix_atoms.specs.Classes.{AreClasses, IsClassing, IsInClass, SourceEntry};
ghost use Rattle.rib_mix.specs.Answers.{AddsAllBut, AreAlike, IsAlikeAt, IsAlikeToKnown, IsNextAtAnEnd, IsNextOf, ShowsEntry};
ghost use Rattle.rib_mix.specs.Mixture.{migration_of};
ghost use Rattle.rib_mix.specs.Cells.{IsKeptUse};
ghost use Rattle.rib_mix.specs.steps.Uses.{ShowsUse};
ghost use Rattle.rib_mix.specs.Rows.{AreAllSubnets, AreRows};
ghost use Rattle.rib_mix.specs.steps.Features.{AreBegins};
ghost use Rattle.rib_mix.specs.steps.Homes.{AreNetHomes, ArePrefixHomes};
ghost use Rattle.rib_mix.specs.steps.Sorts.{AreSorts, sort_at};
ghost use Rattle.rib_mix.specs.steps.Likeness.{AreLike, own_placed};
ghost use Rattle.rib_mix.specs.steps.OwnCells.{AreByLanes, AreColumnCells, HaveAllCodes, IsPlaceOfAll};
ghost use Rattle.rib_mix.specs.steps.Spots.{AreSharedSpots, HaveSpots};
ghost use Rattle.rib_mix.specs.Laws.{HaveAnswers};
ghost use Rattle.rib_mix.specs.steps.Sites.{AreTablesInParts, AllOccur};

use crate::both_tables::{BothTables, tables_of};
use crate::cell::Cell;
use crate::columns::{Columns, cell_of, is_same};
use crate::earlier::earlier_classes;
use crate::features::Features;
use crate::homes::Homes;
use crate::lanes::Lanes;
use crate::next::Next;
use crate::own::{OfRouter, Shared, all_own, connect, fill_column};
use crate::sorts::{Sorts, sort_at};
use crate::spots::{BothSpots, Spots};
use crate::subnets::Subnets;
use crate::unlike::{add_routers, add_unlike_cells, both_sorts};
use crate::used::Used;
use igp_theory::Phase;
use net_addr::Prefix;
use net_model::Net;
use prefix_atoms::Atoms;
use route_core::{Entry, OutOfMemory, RouteSource};
use std::alloc::Global;
use std::marker::Model;

/// Mixed forwarding over a network, an old and a new source of tables: what each router does with the packets of each
/// class of addresses while it is `Old`, `Middle` or `New`.
#[derive(Drop)]
pub struct Mixed<'a, O: RouteSource, N: RouteSource> {
    net: &'a Net,
    old: &'a O,
    new: &'a N,
    atoms: Atoms,
    /// For each router the prefixes that are connected at it.
    subnets: Vec<Subnets>,
    /// Of each router both tables.
    tables: Vec<BothTables<'a>>,
    /// What each router uses for each sort of prefixes.
    columns: Columns,
    /// For each class the sort of its longest prefix.
    sorts: Vec<Option<u32>>,
    /// For each class an earlier one that every router treats alike, where one is known.
    earlier: Vec<Option<u32>>,
}

impl<'a, O: RouteSource, N: RouteSource> Model for Mixed<'a, O, N> {
    ghost use Rattle.rib_mix.specs.Mixture.{Mixture};
    ghost use Rattle.rib_mix.specs.Rows.{IsMixed};

    ghost Value = { Mixture O N };

    ghost view = { λ x. record { net = x.net.now; old = x.old.now; new = x.new.now; classes = x.atoms } };

    ghost invariant = { λ x. IsMixed (O.table x.old.now) (N.table x.new.now) (record {
      ground = record { net = x.net.now; tables = x.tables.items };
      classes = x.atoms;
      subnets = x.subnets.items;
      rows = x.columns;
      sorts = x.sorts.items;
      earlier = x.earlier.items;
    }) };
}

impl<'a, O: RouteSource, N: RouteSource> Mixed<'a, O, N> {
    /// Mixed forwarding over a network and two sources that have its routers. A table that keeps 2^31 - 2 entries or more
    /// gives `OutOfMemory`.
    pub fn build(
        alloc: Global,
        net: &'a Net,
        old: &'a O,
        new: &'a N,
    ) -> Result<Mixed<'a, O, N>, OutOfMemory>
        requires old_routers { O.routers old.now ≡ length net.now }
        requires new_routers { N.routers new.now ≡ length net.now }
        ensures net { IfOk result (λ mixed. mixed.net ≡ net.now) }
        ensures old { IfOk result (λ mixed. mixed.old ≡ old.now) }
        ensures new { IfOk result (λ mixed. mixed.new ≡ new.now) }
    {
        let atoms = Atoms::build(alloc, net, old, new)?;
        let subnets = all_subnets(alloc, net)?;
        let tables = tables_of(alloc, old, new)?;
        let spots = Spots::of_tables(alloc, atoms.prefixes(), tables.as_slice())?;
        let sorted = sorts_of(alloc, &atoms, subnets.as_slice(), tables.as_slice(), &spots)?;
        let shared = Shared {
            atoms: &atoms,
            spots: &spots,
            homes: sorted.homes.as_slice(),
            sorts: &sorted.sorts,
            begins: sorted.lanes.begins.as_slice(),
        };
        let columns = columns_of(alloc, net, tables.as_slice(), &shared)?;
        let class_sorts = class_sorts(alloc, &shared)?;
        let earlier = earlier_classes(alloc, &atoms, &sorted.sorts)?;
        Ok(Mixed {
            net,
            old,
            new,
            atoms,
            subnets,
            tables,
            columns,
            sorts: class_sorts,
            earlier,
        })
    }

    /// The classes of addresses.
    pub fn atoms(&self) -> &Atoms
        ensures atoms { result.now ≡ self.now.classes }
        ensures classes { AreClasses (migration self.now.net (SourceEntry (length self.now.net) (O.table self.now.old))
            (SourceEntry (length self.now.net) (N.table self.now.new))) self.now.classes }
    {
        &self.atoms
    }

    /// The network.
    pub fn net(&self) -> &Net
        ensures { result.now ≡ self.now.net }
    {
        self.net
    }

    /// Whether a prefix is connected at a router.
    pub fn originates(&self, router: u32, prefix: Prefix) -> bool
        requires { router < length self.now.net }
        ensures { IsTrue result ↔ Connected self.now.net router prefix }
    {
        self.subnets[router as usize].has(prefix)
    }

    /// What a router does in a phase with the packets of a class of addresses. In `Middle` that is what it does in
    /// `Old` or what it does in `New`.
    pub fn hops(&self, router: u32, atom: u32, phase: Phase) -> Next<'_>
        requires router { router < length self.now.net }
        requires atom { atom < length self.now.classes.samples }
        ensures next { IsNextOf (migration_of O.table N.table self.now) self.now.classes router atom phase result }
        ensures least { IsInClass self.now.classes atom (slice_index self.now.classes.samples atom) }
        ensures middle { phase ≡ Phase.Middle
            → IsNextAtAnEnd (migration_of O.table N.table self.now) self.now.classes router atom result }
    {
        let tables = &self.tables[router as usize];
        let cell = cell_of(&self.columns, self.sorts.as_slice(), router, atom);
        let old = tables.old.entries;
        let new = tables.new.entries;
        next_of(old, new, cell.used(phase))
    }

    /// The law that each router has an answer for each class in each phase: what `hops` gives.
    pub fn have_answers(&self)
        ensures { HaveAnswers (migration_of O.table N.table self.now) self.now.classes }
    {
        let _net = self.net;
    }

    /// Whether what a router does is known to be the same, in every phase, for the packets of two classes.
    pub fn is_alike_at(&self, router: u32, atom: u32, other: u32) -> bool
        requires router { router < length self.now.net }
        requires atom { atom < length self.now.classes.samples }
        requires other { other < length self.now.classes.samples }
        ensures { OnTrue result
            (IsAlikeAt (migration_of O.table N.table self.now) self.now.classes router atom other) }
    {
        let columns = &self.columns;
        let sorts = self.sorts.as_slice();
        is_same(
            cell_of(columns, sorts, router, atom),
            cell_of(columns, sorts, router, other),
        )
    }

    /// Adds to some routers at the end, ascending, those of the network of which it isn't known that what they do is the same,
    /// in every phase, for the packets of a class and of one that is known. Where none is known all are added.
    pub fn add_unlike(
        &self,
        atom: u32,
        known: Option<u32>,
        unlike: &mut Vec<u32>,
    ) -> Result<(), OutOfMemory>
        requires atom { atom < length self.now.classes.samples }
        requires known { IfSome known (λ other. other < length self.now.classes.samples) }
        ensures { OnOk result (AddsAllBut
            (IsAlikeToKnown (migration_of O.table N.table self.now) self.now.classes known atom)
            (length self.now.net) unlike.old.items unlike.new.items) }
    {
        let routers = self.net.routers();
        match both_sorts(self.sorts.as_slice(), atom, known) {
            Some(both) => add_unlike_cells(&self.columns, both, unlike),
            None => add_routers(routers, unlike),
        }
    }

    /// An earlier class that every router treats alike, where one is known.
    pub fn earlier_alike(&self, atom: u32) -> Option<u32>
        requires { atom < length self.now.classes.samples }
        ensures earlier { IfSome result (λ other. other < atom) }
        ensures alike { IfSome result (λ other. AreAlike (migration_of O.table N.table self.now) self.now.classes other atom) }
    {
        self.earlier[atom as usize]
    }
}

/// The sorts of prefixes, where these are connected, and the lanes of the tables.
#[derive(Drop)]
struct Sorted<'a> {
    /// The sorts.
    sorts: Sorts,
    /// Of each prefix the routers at which it is connected.
    homes: Vec<Homes>,
    /// The lanes of the tables.
    lanes: Lanes<'a>,
}

/// The prefixes that are connected at each router of a network.
fn all_subnets(alloc: Global, net: &Net) -> Result<Vec<Subnets>, OutOfMemory>
    ensures { IfOk result (λ v. AreAllSubnets net.now v.items) }
{
    let mut all = Vec::with_capacity(alloc, net.routers() as usize)?;
    for router in 0..net.routers() {
        let subnets = Subnets::of_router(alloc, net, router)?;
        all.push(subnets)?;
    }
    Ok(all)
}

/// The sorts of the prefixes that occur, the routers at which each of these is connected, and the lanes of the tables.
fn sorts_of<'a>(
    alloc: Global,
    atoms: &Atoms,
    subnets: &[Subnets],
    tables: &[BothTables<'a>],
    spots: &Spots,
) -> Result<Sorted<'a>, OutOfMemory>
    requires { HaveSpots (length atoms.now.prefixes) spots.now }
    ensures homes { IfOk result (λ sorted. ArePrefixHomes atoms.now.prefixes subnets.now sorted.homes.items) }
    ensures sorts { IfOk result (λ sorted. AreSorts
        (AreLike (record { spots = spots.now; homes = sorted.homes.items }) tables.now) atoms.now.parents
        (length atoms.now.parents) sorted.sorts) }
    ensures begins { IfOk result (λ sorted. AreBegins tables.now (length tables.now) sorted.lanes.begins.items) }
{
    let lanes = Lanes::of_tables(alloc, tables)?;
    let features = Features::of_prefixes(alloc, atoms.prefixes(), subnets, &lanes, spots)?;
    let sorts = Sorts::of_features(alloc, &features, atoms.parents())?;
    Ok(Sorted {
        sorts,
        homes: features.into_homes(),
        lanes,
    })
}

/// For each class the sort of its longest prefix.
fn class_sorts(alloc: Global, shared: &Shared<'_>) -> Result<Vec<Option<u32>>, OutOfMemory>
    requires { length shared.now.sorts.now.of_places.items ≡ length shared.now.atoms.now.prefixes }
    ensures { IfOk result (λ classes. classes.items ≡
        map (sort_at shared.now.sorts.now.of_places.items) shared.now.atoms.now.tops) }
{
    let tops = shared.atoms.tops();
    let of_places = shared.sorts.of_places.as_slice();
    let mut classes = Vec::with_capacity(alloc, tops.len())?;
    for top in tops {
        classes.push(sort_at(of_places, *top))?;
    }
    Ok(classes)
}

/// What each router of a network uses for each sort of prefixes: what it has for the first one, and otherwise what it uses for
/// the parents' sort, which has a lower number.
fn columns_of(
    alloc: Global,
    net: &Net,
    tables: &[BothTables<'_>],
    shared: &Shared<'_>,
) -> Result<Columns, OutOfMemory>
    requires tables { AreTablesInParts (length net.now) tables.now }
    requires occur { AllOccur shared.now.atoms.now.prefixes (record { net = net.now; tables = tables.now }) }
    requires classing { IsClassing shared.now.atoms.now }
    requires spots { AreSharedSpots shared.now.atoms.now.prefixes tables.now shared.now.spots.now }
    requires places { HaveSpots (length shared.now.atoms.now.prefixes) shared.now.spots.now }
    requires homes { AreNetHomes net.now shared.now.atoms.now.prefixes shared.now.homes.now }
    requires sorts { AreSorts (AreLike (own_placed shared.now) tables.now) shared.now.atoms.now.parents
        (length shared.now.atoms.now.parents) shared.now.sorts.now }
    requires begins { AreBegins tables.now (length tables.now) shared.now.begins.now }
    ensures { IfOk result (λ columns. AreRows (record { net = net.now; tables = tables.now }) shared.now.atoms.now.samples
        (map (sort_at shared.now.sorts.now.of_places.items) shared.now.atoms.now.tops) columns) }
{
    let all = all_own(alloc, net, tables, shared.begins)?;
    let count = shared.sorts.firsts.len();
    let mut columns = Columns::none(alloc, net.routers(), count)?;
    for sort in 0..count {
        let mut column = columns.copy_at(alloc, shared.sorts.parents[sort])?;
        fill_sort(&mut column, all.as_slice(), shared, sort);
        columns.add(column)?;
    }
    Ok(columns)
}

/// Puts what each router uses for a sort, in place of what it uses for that of the parents.
fn fill_sort(column: &mut [Cell], all: &[OfRouter<'_>], shared: &Shared<'_>, sort: usize)
    requires many { length column.old ≡ length all.now }
    requires lanes { AreByLanes all.now }
    requires codes { HaveAllCodes all.now }
    requires sort { sort < length shared.now.sorts.now.firsts.items }
    requires places { IsPlaceOfAll shared.now (slice_index shared.now.sorts.now.firsts.items sort) }
    ensures count { length column.new ≡ length column.old }
    ensures cells { AreColumnCells (own_placed shared.now) all.now (slice_index shared.now.sorts.now.firsts.items sort)
        column.old column.new }
{
    let first = shared.sorts.firsts[sort] as usize;
    let spots = BothSpots {
        old: shared.spots.olds[first],
        new: shared.spots.news[first],
    };
    fill_column(column, all, &spots);
    connect(column, shared.homes[first].as_slice());
}

/// What a router does that uses this.
fn next_of<'a>(old: &'a [Entry], new: &'a [Entry], used: Used) -> Next<'a>
    requires { IsKeptUse old.now new.now used }
    ensures { ShowsUse old.now new.now used result }
{
    match used {
        Used::Nothing => Next::Absent,
        Used::Connected => Next::Connected,
        Used::Old(number) => shown(&old[number as usize]),
        Used::New(number) => shown(&new[number as usize]),
    }
}

/// What an entry says.
fn shown(entry: &Entry) -> Next<'_>
    ensures { ShowsEntry result entry.now }
{
    match entry {
        Entry::Via(hops) => Next::Via(hops),
        Entry::Discard => Next::Discard,
    }
}
