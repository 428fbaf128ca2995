ghost use Rattle.std.specs.Prelude.{◌≡◌, ◌∷◌, ◌++◌, ◌<◌, [], ℕ, Contains, IfOk, IfSome, OnOk, length, slice_index_or};
ghost use Rattle.std.specs.Bool.{OnTrue};
ghost use Rattle.igp_theory.specs.declared.phase.Phase.{Phase};
ghost use Rattle.loop_finder.specs.Parts.{hops_of, no_hops};
ghost use Rattle.loop_finder.specs.steps.PartRows.{HasMarked, HasRowHop};

use crate::row::Row;
use crate::shared_row::SharedRow;
use rib_mix::OutOfMemory;
use std::alloc::Global;
use std::marker::Model;

/// A row for each router. Those without hops share one, so that they take 4 bytes each. The others share those of an earlier part
/// where a router has the same hops in both.
#[derive(Drop)]
pub(crate) struct Rows<'m> {
    /// Of each router the place of its row.
    places: Vec<u32>,
    /// The rows, first one without hops.
    own: Vec<SharedRow<'m>>,
}

/// With what rows are made.
#[derive(Clone, Copy)]
pub(crate) struct RowRoom<'r, 'm> {
    /// Where they are allocated.
    pub alloc: Global,
    /// Those of an earlier part, where there is one.
    pub before: Option<&'r Rows<'m>>,
}

impl<'m> Model for Rows<'m> {
    ghost use Rattle.std.specs.Prelude.{List};
    ghost use Rattle.loop_finder.specs.Parts.{PhaseHops};
    ghost use Rattle.loop_finder.specs.steps.PartRows.{ArePlaced, placed_rows};

    ghost Value = { List PhaseHops };

    ghost view = { λ x. placed_rows x.own.items x.places.items };

    ghost invariant = { λ x. ArePlaced x.own.items x.places.items };
}

impl<'m> Rows<'m> {
    /// No rows, with room for so many, of which so many have hops.
    pub fn with_room(alloc: Global, all: usize, own: usize) -> Result<Rows<'m>, OutOfMemory>
        ensures { IfOk result (λ rows. rows ≡ []) }
    {
        let places = Vec::with_capacity(alloc, all)?;
        let mut own = Vec::with_capacity(alloc, own.saturating_add(1))?;
        own.push(SharedRow::of(alloc, Row::empty())?)?;
        Ok(Rows { places, own })
    }

    /// Adds the row of the next router.
    #[inline(always)]
    pub fn push(&mut self, row: Row<'m>, room: &RowRoom<'_, 'm>) -> Result<(), OutOfMemory>
        ensures { OnOk result (self.new ≡ self.old ++ row.entry ∷ []) }
    {
        if row.is_bare() {
            self.places.push(0)?;
            return Ok(());
        }
        let Ok(place) = u32::try_from(self.own.len()) else {
            return Err(OutOfMemory);
        };
        let row = shared_row(row, self.places.len(), room)?;
        self.own.push(row)?;
        self.places.push(place)?;
        Ok(())
    }

    /// How many rows there are.
    pub fn len(&self) -> usize
        ensures { result ≡ length self.now }
    {
        self.places.len()
    }

    /// How many rows have hops, which says how much room their routers take.
    pub fn own_len(&self) -> usize {
        self.own.len().saturating_sub(1)
    }

    /// The row of a router.
    #[inline(always)]
    pub fn at(&self, router: usize) -> &Row<'m>
        requires { router < length self.now }
        ensures { result.now ≡ slice_index_or self.now router no_hops }
    {
        self.own[self.places[router] as usize].as_row()
    }

    /// Whether a router is known to have no hops.
    #[inline(always)]
    pub fn is_bare_at(&self, router: usize) -> bool
        requires { router < length self.now }
        ensures { OnTrue result (slice_index_or self.now router no_hops ≡ no_hops) }
    {
        self.places[router] == 0
    }
}

/// A row of a router, and that of the earlier part where it's the same.
fn shared_row<'m>(
    row: Row<'m>,
    router: usize,
    room: &RowRoom<'_, 'm>,
) -> Result<SharedRow<'m>, OutOfMemory>
    ensures { IfOk result (λ shared. shared ≡ row.entry) }
{
    match same_before(&row, router, room.before) {
        Some(same) => same.shared(),
        None => SharedRow::of(room.alloc, row),
    }
}

/// The row of a router among those of an earlier part, where it's the same.
fn same_before<'r, 'm>(
    row: &Row<'m>,
    router: usize,
    before: Option<&'r Rows<'m>>,
) -> Option<&'r SharedRow<'m>>
    ensures { IfSome result (λ same. same.now ≡ row.now) }
{
    let rows = before?;
    let place = *rows.places.get(router)?;
    let same = rows.own.get(place as usize)?;
    if same.as_row().is_same(row) {
        Some(same)
    } else {
        None
    }
}
