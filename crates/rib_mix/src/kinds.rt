ghost use Rattle.std.specs.Prelude.{◌≡◌, slice_index_or};
ghost use Rattle.rib_mix.specs.steps.OwnCells.{kind_at_spot};

use route_core::Number;

/// The kinds that both tables of a router have of a prefix.
#[derive(Clone, Copy, Debug)]
pub(crate) struct Kinds {
    /// The kind in the old table, and `NO_KIND` where that doesn't have the prefix.
    pub old: usize,
    /// That in the new table.
    pub new: usize,
}

/// What stands for a kind where there is none.
pub(crate) const NO_KIND: usize = 0xFFFF_FFFF;

/// The kind of the prefix at a spot.
#[inline(always)]
pub(crate) fn kind_at_spot(kinds: &[u32], spot: Number) -> usize
    ensures { result ≡ kind_at_spot kinds.now spot }
{
    match spot.get() {
        Some(spot) => kind_or_none(kinds, spot as usize),
        None => NO_KIND,
    }
}

/// The kind at a place, and `NO_KIND` beyond.
#[inline(always)]
fn kind_or_none(kinds: &[u32], place: usize) -> usize
    ensures { result ≡ slice_index_or kinds.now place NO_KIND }
{
    match kinds.get(place) {
        Some(kind) => *kind as usize,
        None => NO_KIND,
    }
}
