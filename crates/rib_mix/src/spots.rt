ghost use Rattle.std.specs.Prelude.{◌≡◌, ◌<◌, Contains, IfNone, IfOk, IfSome, OnOk, Some, length, slice_get};
ghost use Rattle.prefix_atoms.specs.Nested.{AreAscendingPrefixes};
ghost use Rattle.rib_mix.specs.steps.Spots.{AreSharedSpots, AreSpots, HaveSpots, with_spot};

use crate::both_tables::BothTables;
use net_addr::Prefix;
use prefix_atoms::place_of_prefix;
use route_core::{Number, OutOfMemory};
use std::alloc::Global;

/// Where each of the prefixes that occur stands among those of the old tables, and among those of the new ones.
#[derive(Drop)]
pub(crate) struct Spots {
    /// Among those of the old tables.
    pub olds: Vec<Number>,
    /// Among those of the new tables.
    pub news: Vec<Number>,
}

/// Where one of them stands.
#[derive(Clone, Copy, Debug)]
pub(crate) struct BothSpots {
    /// Among those of the old tables.
    pub old: Number,
    /// Among those of the new tables.
    pub new: Number,
}

impl Spots {
    /// The spots of ascending prefixes in the tables of all routers, which share their prefixes.
    pub fn of_tables(
        alloc: Global,
        prefixes: &[Prefix],
        tables: &[BothTables<'_>],
    ) -> Result<Spots, OutOfMemory>
        requires { AreAscendingPrefixes prefixes.now }
        ensures places { IfOk result (HaveSpots (length prefixes.now)) }
        ensures spots { IfOk result (AreSharedSpots prefixes.now tables.now) }
    {
        match tables.first() {
            Some(both) => Ok(Spots {
                olds: find_spots(alloc, prefixes, both.old.prefixes)?,
                news: find_spots(alloc, prefixes, both.new.prefixes)?,
            }),
            None => Ok(Spots {
                olds: vec![in alloc; Number::none(); prefixes.len()]?,
                news: vec![in alloc; Number::none(); prefixes.len()]?,
            }),
        }
    }
}

/// Finds where each of some ascending prefixes stands in a list.
fn find_spots(
    alloc: Global,
    prefixes: &[Prefix],
    list: &[Prefix],
) -> Result<Vec<Number>, OutOfMemory>
    requires { AreAscendingPrefixes prefixes.now }
    ensures { IfOk result (λ spots. AreSpots prefixes.now list.now (length list.now) spots.items) }
{
    let Ok(count) = u32::try_from(list.len()) else {
        return Err(OutOfMemory);
    };
    let mut spots = vec![in alloc; Number::none(); prefixes.len()]?;
    let mut likely = 0;
    for spot in 0..count {
        let place = place_near(prefixes, list[spot as usize], likely);
        put_spot(&mut spots, place, spot)?;
        likely = place_behind(place);
    }
    Ok(spots)
}

/// Where a prefix stands among ascending ones, where it is likely at a place.
#[inline(always)]
fn place_near(prefixes: &[Prefix], prefix: Prefix, likely: usize) -> Option<usize>
    ensures found { IfSome result (λ i. slice_get prefixes.now i ≡ Some prefix) }
    ensures missed { AreAscendingPrefixes prefixes.now → IfNone result (¬ Contains prefixes.now prefix) }
{
    match prefixes.get(likely) {
        Some(own) if *own == prefix => Some(likely),
        _ => place_of_prefix(prefixes, prefix),
    }
}

/// The place behind another one, and the first where there is none.
#[inline(always)]
fn place_behind(place: Option<usize>) -> usize {
    match place {
        Some(place) => place.wrapping_add(1),
        None => 0,
    }
}

/// Puts a spot at a place, if there is one.
fn put_spot(spots: &mut Vec<Number>, place: Option<usize>, spot: u32) -> Result<(), OutOfMemory>
    requires { IfSome place (λ i. i < length spots.old.items) }
    ensures { OnOk result (spots.new.items ≡ with_spot place spot spots.old.items) }
{
    if let Some(place) = place {
        spots[place] = Number::of(spot)?;
    }
    Ok(())
}
