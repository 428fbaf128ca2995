ghost use Rattle.std.specs.Prelude.{◌≡◌, ◌≢◌, AllPairs, IfOk, IsPermutation, length};
ghost use Rattle.prefix_atoms.specs.Nested.{StandsBefore};
ghost use Rattle.shown_tables.specs.steps.Places.{AreInPrefixOrder, front_words, placed_below};

use crate::igp::Igp;
use net_addr::{Bytes, Prefix};
use printed_lines::LineBuilder;
use route_core::OutOfMemory;
use std::alloc::Global;

/// A prefix that the tables of a source may have an entry for, by its place among all of these.
#[derive(Debug, Drop)]
pub(crate) struct Placed {
    pub dest: Prefix,
    pub place: usize,
    /// How its lines go on behind the router: the protocol and the prefix, each after a blank.
    pub front: Bytes,
}

/// The prefixes of a source's tables, ascending.
pub(crate) fn prefix_order(
    alloc: Global,
    igp: Igp,
    prefixes: &[Prefix],
) -> Result<Vec<Placed>, OutOfMemory>
    requires { AllPairs (λ p q. p ≢ q) prefixes.now }
    ensures { IfOk result (λ all. AreInPrefixOrder igp prefixes.now all.items) }
{
    let mut all = in_table_order(alloc, igp, prefixes)?;
    sort_by_prefix(&mut all);
    Ok(all)
}

/// The same in the order of the tables.
fn in_table_order(alloc: Global, igp: Igp, prefixes: &[Prefix]) -> Result<Vec<Placed>, OutOfMemory>
    ensures { IfOk result (λ all. all.items ≡ placed_below igp prefixes.now (length prefixes.now)) }
{
    let mut all = Vec::with_capacity(alloc, prefixes.len())?;
    for place in 0..prefixes.len() {
        let dest = prefixes[place];
        let front = front_of(alloc, igp, dest)?;
        all.push(Placed { dest, place, front })?;
    }
    Ok(all)
}

/// How the lines of a prefix go on behind the router.
fn front_of(alloc: Global, igp: Igp, dest: Prefix) -> Result<Bytes, OutOfMemory>
    ensures { IfOk result (λ front. front ≡ front_words igp dest) }
{
    let line = LineBuilder::indented(alloc, igp.word())?.prefix(dest)?;
    let mut bytes = line.finish()?.into_vec();
    bytes.pop();
    Ok(Bytes::from_vec(bytes))
}

/// Puts them in the order of their prefixes, of which no two are the same.
fn sort_by_prefix(all: &mut Vec<Placed>)
    requires { AllPairs (λ one other. one.dest ≢ other.dest) all.old.items }
    ensures same { IsPermutation all.old.items all.new.items }
    ensures ascending { AllPairs (λ one other. StandsBefore one.dest other.dest) all.new.items }
{
    all.sort_unstable_by_key(|placed| placed.dest);
}
