ghost use Rattle.std.specs.Prelude.{◌≡◌, ◌<◌, length, slice_index_or, IfOk, IfSome, IsTrue, ◌↔◌};
ghost use Rattle.route_tables.specs.steps.Sharing.{AreOverOne, HasNumber, Keeps};
ghost use Rattle.route_core.specs.declared.entry.Entry.TheVariants.{Discard, Via};

use crate::OutOfMemory;
use route_core::{Entry, Hops};
use std::alloc::Global;
use std::mem;

/// The entries of all tables: first those over one hop alone, each under the number of its hop, then those that each
/// table added, one table after another. Hop lists of several hops are hardly ever those of another router, so a table
/// looks among its own alone. Hops are put together in room that is made once.
#[derive(Debug, Drop)]
pub(crate) struct Pool {
    pub(crate) entries: Vec<Entry>,
    start: usize,
    room: Vec<u32>,
}

impl Pool {
    /// The entries over each hop below this count alone.
    pub(crate) fn over_each(alloc: Global, routers: u32) -> Result<Pool, OutOfMemory>
        ensures { IfOk result (λ pool. AreOverOne routers pool.entries.items) }
    {
        let mut entries = Vec::with_capacity(alloc, routers as usize)?;
        for hop in 0..routers {
            entries.push(Entry::Via(Hops::from_one(hop)))?;
        }
        Ok(Pool {
            entries,
            start: 0,
            room: Vec::new(alloc),
        })
    }

    /// Goes on to the next table, which has added nothing.
    pub(crate) fn begin_table(&mut self)
        ensures { self.new.entries.items ≡ self.old.entries.items }
    {
        self.start = self.entries.len();
    }

    /// The room for hops, which may hold some.
    pub(crate) fn take_room(&mut self, alloc: Global) -> Vec<u32>
        ensures { self.new.entries.items ≡ self.old.entries.items }
    {
        mem::replace(&mut self.room, Vec::new(alloc))
    }

    /// Gives the room for hops back.
    pub(crate) fn give_back(&mut self, room: Vec<u32>)
        ensures { self.new.entries.items ≡ self.old.entries.items }
    {
        self.room = room;
    }

    /// Keeps an entry of the table, and gives its number.
    pub(crate) fn keep(&mut self, entry: Entry) -> Result<u32, OutOfMemory>
        ensures { IfOk result (Keeps self.old self.new entry) }
    {
        let Ok(number) = u32::try_from(self.entries.len()) else {
            return Err(OutOfMemory);
        };
        self.entries.push(entry)?;
        Ok(number)
    }

    /// The number of the table's entry over these hops, where it has added one. It takes time of what it has added.
    pub(crate) fn find(&self, hops: &[u32]) -> Option<u32>
        ensures { IfSome result (HasNumber (λ entry. entry ≡ Via hops.now) self.now.entries.items) }
    {
        let place = place_over(self.entries.as_slice(), self.start, hops)?;
        u32::try_from(place).ok()
    }
}

/// The place of the first entry over these hops, from a place on.
fn place_over(entries: &[Entry], start: usize, hops: &[u32]) -> Option<usize>
    ensures within { IfSome result (λ i. i < length entries.now) }
    ensures over { IfSome result (λ i. slice_index_or entries.now i Discard ≡ Via hops.now) }
{
    for place in start..entries.len() {
        if goes_over(&entries[place], hops) {
            return Some(place);
        }
    }
    None
}

/// Whether the entry forwards to these hops.
fn goes_over(entry: &Entry, hops: &[u32]) -> bool
    ensures { IsTrue result ↔ (entry.now ≡ Via hops.now) }
{
    match entry {
        Entry::Via(own) => own.as_slice() == hops,
        Entry::Discard => false,
    }
}
