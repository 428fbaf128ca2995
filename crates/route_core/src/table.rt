ghost use Rattle.std.specs.Prelude.{◌≡◌, ◌<◌, length, slice_get, Contains, Some, IfOk, IfSome, IfNone};
ghost use Rattle.net_addr.specs.Addresses.{Block};
ghost use Rattle.route_core.specs.declared.entry.Entry.{Entry};
ghost use Rattle.net_addr.specs.LongestMatches.{HasNoMatch, LongestAt};
ghost use Rattle.route_core.specs.Rows.{IsTable, kept_in, kept_number, listed, rows_in};
ghost use Rattle.route_core.specs.Tables.{HasDistinctPrefixes, IsListed, LongestEntry, table_prefixes};

use crate::OutOfMemory;
use crate::entries::Entries;
use crate::entry::Entry;
use crate::matches::longest_match;
use crate::number::Number;
use net_addr::Prefix;
use std::alloc::Global;
use std::marker::Model;
use std::rc::Rc;

/// The route table of one router: entries for prefixes, no two for the same prefix.
///
/// Tables share what they have in common: the prefixes, of each prefix its kind, and the entries. Prefixes of one kind have
/// the same entry, so that a table has a number for each kind alone.
#[derive(Debug, Drop)]
pub struct Table {
    prefixes: Rc<Vec<Prefix>>,
    kinds: Rc<Vec<u32>>,
    entries: Rc<Vec<Entry>>,
    numbers: Vec<Number>,
}

/// A table in its parts, for callers that read many entries by their numbers.
#[derive(Clone, Copy, Debug)]
pub struct TableParts<'a> {
    /// The prefixes, of which the table may have entries for some alone.
    pub prefixes: &'a [Prefix],
    /// The kind of each prefix.
    pub kinds: &'a [u32],
    /// The number of each kind's entry, where it has one.
    pub numbers: &'a [Number],
    /// The entries, of which the table may have some alone.
    pub entries: &'a [Entry],
}

impl<'a> TableParts<'a> {
    /// The number of the entry for the prefix at a place, where it has one.
    #[inline(always)]
    pub fn number(self, place: usize) -> Option<u32>
        requires table { IsTable (kept_in self) }
        requires place { place < length self.prefixes.now }
        ensures { result ≡ kept_number (kept_in self.entry) place }
    {
        self.numbers[self.kinds[place] as usize].get()
    }
}

impl Model for Table {
    ghost use Rattle.route_core.specs.Rows.{IsTable, KeptTable};

    ghost Value = { KeptTable };

    ghost view = { λ x. record {
      prefixes = x.prefixes.value.items;
      kinds = x.kinds.value.items;
      numbers = x.numbers.items;
      entries = x.entries.value.items;
    } };

    ghost invariant = { λ x. IsTable (record {
      prefixes = x.prefixes.value.items;
      kinds = x.kinds.value.items;
      numbers = x.numbers.items;
      entries = x.entries.value.items;
    }) };
}

impl Table {
    /// The table of these entries, in their order, which shares nothing: each prefix is a kind of its own.
    pub fn from_entries(alloc: Global, entries: Entries) -> Result<Table, OutOfMemory>
        requires { HasDistinctPrefixes entries }
        ensures entries { IfOk result (λ table. listed table ≡ entries) }
        ensures prefixes { IfOk result (λ table. table.prefixes ≡ table_prefixes entries) }
    {
        let all = entries.into_vec();
        let mut prefixes = Vec::with_capacity(alloc, all.len())?;
        let mut kinds = Vec::with_capacity(alloc, all.len())?;
        let mut numbers = Vec::with_capacity(alloc, all.len())?;
        let mut own = Vec::with_capacity(alloc, all.len())?;
        for (dest, entry) in all {
            let Ok(number) = u32::try_from(own.len()) else {
                return Err(OutOfMemory);
            };
            prefixes.push(dest)?;
            kinds.push(number)?;
            numbers.push(Number::of(number)?)?;
            own.push(entry)?;
        }
        let prefixes = Rc::new(alloc, prefixes)?;
        let kinds = Rc::new(alloc, kinds)?;
        Table::of_kinds(&prefixes, &kinds, &Rc::new(alloc, own)?, numbers)
    }

    /// The table of these parts, which takes no memory but that of the numbers.
    pub fn of_kinds(
        prefixes: &Rc<Vec<Prefix>>,
        kinds: &Rc<Vec<u32>>,
        entries: &Rc<Vec<Entry>>,
        numbers: Vec<Number>,
    ) -> Result<Table, OutOfMemory>
        requires { IsTable (record {
          prefixes = prefixes.now.value.items;
          kinds = kinds.now.value.items;
          numbers = numbers.items;
          entries = entries.now.value.items;
        }) }
        ensures { IfOk result (λ table. table ≡ record {
          prefixes = prefixes.now.value.items;
          kinds = kinds.now.value.items;
          numbers = numbers.items;
          entries = entries.now.value.items;
        }) }
    {
        Ok(Table {
            prefixes: prefixes.clone()?,
            kinds: kinds.clone()?,
            entries: entries.clone()?,
            numbers,
        })
    }

    /// How many entries there are. It takes time of the prefixes.
    pub fn len(&self) -> usize
        ensures count { result ≡ length (listed self.now) }
        ensures distinct { HasDistinctPrefixes (listed self.now) }
    {
        count_rows(self.parts())
    }

    /// The prefix of an entry. It takes time of the prefixes.
    pub fn dest(&self, i: usize) -> Prefix
        requires { i < length (listed self.now) }
        ensures { (entry : Entry) × (slice_get (listed self.now) i ≡ Some (result, entry)) }
    {
        let (place, _) = row_at(self.parts(), i);
        self.prefixes[place]
    }

    /// What an entry says. It takes time of the prefixes.
    pub fn entry(&self, i: usize) -> &Entry
        requires { i < length (listed self.now) }
        ensures { (dest : Block) × (slice_get (listed self.now) i ≡ Some (dest, result.now)) }
    {
        let (_, number) = row_at(self.parts(), i);
        &self.entries[number as usize]
    }

    /// The prefixes that the table keeps, their kinds, the numbers of these and the entries.
    pub fn parts(&self) -> TableParts<'_>
        ensures parts { kept_in result ≡ self.now }
        ensures table { IsTable self.now }
    {
        TableParts {
            prefixes: self.prefixes.as_slice(),
            kinds: self.kinds.as_slice(),
            numbers: self.numbers.as_slice(),
            entries: self.entries.as_slice(),
        }
    }

    /// The entry with the longest prefix that contains the address `a` (RFC 1812, section 5.2.4.3).
    pub fn longest(&self, a: u32) -> Option<usize>
        ensures none { IfNone result (HasNoMatch (Contains (table_prefixes (listed self.now))) a) }
        ensures found { IfSome result (LongestAt (table_prefixes (listed self.now)) a) }
        ensures only { IfSome result (λ i. (dest : Block) (entry : Entry) →
            LongestEntry (IsListed (listed self.now)) a dest entry → slice_get (listed self.now) i ≡ Some (dest, entry)) }
        ensures within { IfSome result (λ i. i < length (listed self.now)) }
    {
        let found = longest_match(self.parts(), a)?;
        Some(found.place)
    }
}

/// How many rows a table has.
fn count_rows(parts: TableParts<'_>) -> usize
    requires { IsTable (kept_in parts) }
    ensures { result ≡ length (rows_in (kept_in parts.entry)) }
{
    let mut count = 0;
    for place in 0..parts.prefixes.len() {
        if parts.number(place).is_some() {
            count += 1;
        }
    }
    count
}

/// The row of a table that others stand before, as many as this: the place of its prefix, and the number of its entry.
fn row_at(parts: TableParts<'_>, i: usize) -> (usize, u32)
    requires table { IsTable (kept_in parts) }
    requires row { i < length (rows_in (kept_in parts)) }
    ensures { slice_get (rows_in (kept_in parts.entry)) i ≡ Some (record { place = result.0; number = result.1 }) }
{
    let mut before = 0;
    for place in 0..parts.prefixes.len() {
        if let Some(number) = parts.number(place) {
            if before == i {
                return (place, number);
            }
            before += 1;
        }
    }
    unreachable!()
}
