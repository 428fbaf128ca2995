ghost use Rattle.std.specs.Prelude.{◌≡◌, ◌<◌, ◌+◌, All, IfOk, OnOk, length, map, slice_get, slice_index, Some};
ghost use Rattle.std.specs.List.Sorted.{IsStrictlyIncreasing};
ghost use Rattle.net_addr.specs.Addresses.{IsBlock};
ghost use Rattle.igp_theory.specs.Migrations.{migration};
ghost use Rattle.prefix_atoms.specs.Classes.{AreClasses, IsClassing, IsInClass, SourceEntry};
ghost use Rattle.prefix_atoms.specs.steps.Lists.{AreClassesOf, AreTargets};
ghost use Rattle.prefix_atoms.specs.steps.Longest.{AreKeys, key_of, top_of};
ghost use Rattle.prefix_atoms.specs.Nested.{AreAscendingPrefixes, AreTops};
ghost use Rattle.prefix_atoms.specs.Numbers.{InInterval};
ghost use Rattle.prefix_atoms.specs.steps.Numbers.{ArePicked, NumbersClasses};

use crate::collect::{add_net, add_source, originated_prefixes};
use crate::cuts::cuts_of;
use crate::distinct::keep_distinct_prefixes;
use crate::longest::{Longest, NOTHING, longest_in_prefixes};
use crate::number::{Numbering, number};
use crate::parents::parents_of;
use net_addr::Prefix;
use net_model::Net;
use route_core::RouteSource;
use std::alloc::{AllocError as OutOfMemory, Global};
use std::marker::Model;

/// Classes of addresses: two are in one class where the same prefixes contain them.
///
/// The prefixes are those that are connected or a range's, and those of two sources of tables. The
/// classes are numbered from 0 by their least addresses.
#[derive(Debug, Drop)]
pub struct Atoms {
    /// The prefixes that occur, in ascending order.
    prefixes: Vec<Prefix>,
    /// The place of the parent of each: the longest shorter prefix that contains it.
    parents: Vec<Option<u32>>,
    samples: Vec<u32>,
    /// For each class the place of its longest prefix.
    tops: Vec<Option<u32>>,
    targets: Vec<Option<Prefix>>,
    starts: Vec<u32>,
    numbers: Vec<u32>,
}

impl Model for Atoms {
    ghost use Rattle.prefix_atoms.specs.Classes.{Classes};
    ghost use Rattle.prefix_atoms.specs.Views.{IsAtoms, atoms_view};

    ghost Value = { Classes };

    ghost view = { atoms_view };

    ghost invariant = { IsAtoms };
}

impl Atoms {
    /// The classes of the prefixes that a network and two sources of tables have.
    pub fn build<O: RouteSource, N: RouteSource>(
        alloc: Global,
        net: &Net,
        old: &O,
        new: &N,
    ) -> Result<Atoms, OutOfMemory>
        ensures { IfOk result (λ atoms. AreClasses (migration net.now (SourceEntry (O.routers old.now) (O.table old.now))
            (SourceEntry (N.routers new.now) (N.table new.now))) atoms) }
    {
        let mut prefixes = Vec::new(alloc);
        add_net(&mut prefixes, net)?;
        add_source(alloc, &mut prefixes, old)?;
        add_source(alloc, &mut prefixes, new)?;
        keep_distinct_prefixes(&mut prefixes);
        let originated = originated_prefixes(alloc, net)?;
        classes_of(alloc, prefixes, originated.as_slice())
    }

    /// The prefixes, in ascending order, each once.
    pub fn prefixes(&self) -> &[Prefix]
        ensures prefixes { result.now ≡ self.now.prefixes }
        ensures classing { IsClassing self.now }
    {
        self.prefixes.as_slice()
    }

    /// The parent of each prefix, by its place: the longest shorter prefix that contains it.
    ///
    /// So the prefixes that contain an address are the longest one of its class, the parent of that, the parent of that
    /// parent and so on, each shorter than the one before.
    pub fn parents(&self) -> &[Option<u32>]
        ensures parents { result.now ≡ self.now.parents }
        ensures classing { IsClassing self.now }
    {
        self.parents.as_slice()
    }

    /// The longest prefix of each class, by its place.
    pub fn tops(&self) -> &[Option<u32>]
        ensures tops { result.now ≡ self.now.tops }
        ensures classing { IsClassing self.now }
    {
        self.tops.as_slice()
    }

    /// How many classes there are.
    pub fn count(&self) -> u64
        ensures count { result ≡ length self.now.samples }
        ensures classing { IsClassing self.now }
    {
        self.samples.len() as u64
    }

    /// The class of an address.
    pub fn of(&self, a: u32) -> u32
        ensures { IsInClass self.now result a }
    {
        self.numbers[interval_of(self.starts.as_slice(), a)]
    }

    /// The least address of a class.
    pub fn sample(&self, atom: u32) -> u32
        requires { atom < length self.now.samples }
        ensures sample { result ≡ slice_index self.now.samples atom }
        ensures class { IsInClass self.now atom result }
    {
        self.samples[atom as usize]
    }

    /// The target of a class, none where its addresses have none.
    pub fn target(&self, atom: u32) -> Option<Prefix>
        requires { atom < length self.now.samples }
        ensures { slice_get self.now.targets atom ≡ Some result }
    {
        self.targets[atom as usize]
    }
}

/// The classes that prefixes without repeats make, with the longest of some prefixes as targets.
fn classes_of(
    alloc: Global,
    prefixes: Vec<Prefix>,
    originated: &[Prefix],
) -> Result<Atoms, OutOfMemory>
    requires { AreAscendingPrefixes prefixes.items }
    ensures { IfOk result (λ atoms. AreClassesOf prefixes.items originated.now atoms) }
{
    let starts = cuts_of(alloc, prefixes.as_slice())?;
    let Numbering { numbers, firsts } = number_cuts(alloc, prefixes.as_slice(), starts.as_slice())?;
    let samples = picked(alloc, starts.as_slice(), firsts.as_slice())?;
    let parents = parents_of(alloc, prefixes.as_slice())?;
    let tops = tops_of(alloc, prefixes.as_slice(), samples.as_slice())?;
    let targets = targets_of(alloc, originated, samples.as_slice())?;
    Ok(Atoms {
        prefixes,
        parents,
        samples,
        tops,
        targets,
        starts,
        numbers,
    })
}

/// Numbers cuts by their classes: cuts in one class have one longest prefix.
fn number_cuts(alloc: Global, prefixes: &[Prefix], cuts: &[u32]) -> Result<Numbering, OutOfMemory>
    requires prefixes { AreAscendingPrefixes prefixes.now }
    requires cuts { IsStrictlyIncreasing cuts.now }
    ensures { IfOk result (λ n. NumbersClasses prefixes.now cuts.now n.numbers.items n.firsts.items) }
{
    let keys = keys_of(alloc, prefixes, cuts)?;
    number(alloc, keys.as_slice(), prefixes.len() + 1)
}

/// A key for each of some ascending addresses: the place of its longest prefix, and how many there are for none.
fn keys_of(alloc: Global, prefixes: &[Prefix], addresses: &[u32]) -> Result<Vec<usize>, OutOfMemory>
    requires { IsStrictlyIncreasing addresses.now }
    ensures keys { IfOk result (λ v. AreKeys prefixes.now addresses.now v.items) }
    ensures blocks { OnOk result (All IsBlock prefixes.now) }
{
    let mut found = vec![in alloc; NOTHING; addresses.len()]?;
    longest_in_prefixes(prefixes, addresses, &mut found)?;
    numbered(alloc, found.as_slice(), prefixes.len())
}

/// The number of each that is found, and this one for none.
fn numbered(alloc: Global, found: &[Longest], none: usize) -> Result<Vec<usize>, OutOfMemory>
    ensures { IfOk result (λ v. v.items ≡ map (key_of none) found.now) }
{
    found.iter().map(|one| key_of(*one, none)).collect(alloc)
}

/// The number that is found, and this one where none is.
fn key_of(found: Longest, none: usize) -> usize
    ensures { result ≡ key_of none found }
{
    if found.size == 0 {
        none
    } else {
        found.number as usize
    }
}

/// For each address the place of the longest of the prefixes that contain it.
fn tops_of(
    alloc: Global,
    prefixes: &[Prefix],
    addresses: &[u32],
) -> Result<Vec<Option<u32>>, OutOfMemory>
    requires { IsStrictlyIncreasing addresses.now }
    ensures { IfOk result (λ v. AreTops prefixes.now addresses.now v.items) }
{
    let mut found = vec![in alloc; NOTHING; addresses.len()]?;
    longest_in_prefixes(prefixes, addresses, &mut found)?;
    places_of(alloc, found.as_slice())
}

/// The number of each that is found.
fn places_of(alloc: Global, found: &[Longest]) -> Result<Vec<Option<u32>>, OutOfMemory>
    ensures { IfOk result (λ v. v.items ≡ map top_of found.now) }
{
    found.iter().map(|one| top_of(*one)).collect(alloc)
}

/// The number that is found.
fn top_of(found: Longest) -> Option<u32>
    ensures { result ≡ top_of found }
{
    if found.size == 0 {
        None
    } else {
        Some(found.number)
    }
}

/// The numbers that stand at these places.
fn picked(alloc: Global, numbers: &[u32], places: &[usize]) -> Result<Vec<u32>, OutOfMemory>
    requires { All (λ place. place < length numbers.now) places.now }
    ensures { IfOk result (λ v. ArePicked numbers.now places.now v.items) }
{
    let mut picked = Vec::new(alloc);
    for place in places {
        picked.push(numbers[*place])?;
    }
    Ok(picked)
}

/// For each address the longest of the prefixes that contain it.
fn targets_of(
    alloc: Global,
    prefixes: &[Prefix],
    addresses: &[u32],
) -> Result<Vec<Option<Prefix>>, OutOfMemory>
    requires { IsStrictlyIncreasing addresses.now }
    ensures { IfOk result (λ v. AreTargets prefixes.now addresses.now v.items) }
{
    let keys = keys_of(alloc, prefixes, addresses)?;
    targets_at(alloc, prefixes, keys.as_slice())
}

/// The prefixes at these places, none where the list has no such place.
fn targets_at(
    alloc: Global,
    prefixes: &[Prefix],
    places: &[usize],
) -> Result<Vec<Option<Prefix>>, OutOfMemory>
    ensures { IfOk result (λ v. v.items ≡ map (slice_get prefixes.now) places.now) }
{
    places
        .iter()
        .map(|place| prefix_at(prefixes, *place))
        .collect(alloc)
}

/// The prefix at a place, none where the list has no such place.
fn prefix_at(prefixes: &[Prefix], place: usize) -> Option<Prefix>
    ensures { result ≡ slice_get prefixes.now place }
{
    prefixes.get(place).copied()
}

/// The place of the interval that an address lies in.
fn interval_of(starts: &[u32], a: u32) -> usize
    requires ascending { IsStrictlyIncreasing starts.now }
    requires some { 0 < length starts.now }
    requires first { slice_index starts.now 0 ≡ 0 }
    ensures { InInterval starts.now result a }
{
    match starts.binary_search(&a) {
        Ok(place) => place,
        Err(place) => place - 1,
    }
}
