ghost use Rattle.std.specs.Prelude.{◌≡◌, ◌<◌, ◌^◌, ◌⊎◌, ◌++◌, ◌∷◌, [], IfSome, OnOk, length, slice_index_or};
ghost use Rattle.rib_mix.specs.Answers.{AddsAllBut};
ghost use Rattle.rib_mix.specs.steps.Unlike.{AreBothSorts, HaveCells, HaveSameCells};

use crate::cell::Cell;
use crate::columns::{Columns, is_same};
use route_core::OutOfMemory;

/// The sorts of a class and of one that is known, where there is one and both have a sort.
pub(crate) fn both_sorts(sorts: &[Option<u32>], atom: u32, known: Option<u32>) -> Option<(u32, u32)>
    requires atom { atom < length sorts.now }
    requires known { IfSome known (λ other. other < length sorts.now) }
    ensures { IfSome result (AreBothSorts sorts.now known atom) }
{
    let other = sorts[known? as usize]?;
    Some((sorts[atom as usize]?, other))
}

/// Adds the routers whose cells of two sorts aren't the same.
pub(crate) fn add_unlike_cells(
    columns: &Columns,
    sorts: (u32, u32),
    unlike: &mut Vec<u32>,
) -> Result<(), OutOfMemory>
    requires many { length columns.now < 2 ^ 32 }
    requires one { HaveCells columns.now sorts.0 }
    requires other { HaveCells columns.now sorts.1 }
    ensures { OnOk result (AddsAllBut (λ u. HaveSameCells (slice_index_or columns.now u []) sorts) (length columns.now)
        unlike.old.items unlike.new.items) }
{
    let others = columns.of_sort(sorts.1);
    for (router, cell) in columns.of_sort(sorts.0).iter().enumerate() {
        add_unlike_cell(*cell, others[router], router as u32, unlike)?;
    }
    Ok(())
}

/// Adds a router whose two cells aren't the same.
#[inline(always)]
fn add_unlike_cell(
    one: Cell,
    other: Cell,
    router: u32,
    unlike: &mut Vec<u32>,
) -> Result<(), OutOfMemory>
    ensures { OnOk result ((unlike.new.items ≡ unlike.old.items ++ router ∷ [])
        ⊎ ((unlike.new.items ≡ unlike.old.items) × (one ≡ other))) }
{
    if is_same(one, other) {
        return Ok(());
    }
    unlike.push(router)?;
    Ok(())
}

/// Adds so many routers.
pub(crate) fn add_routers(count: u32, all: &mut Vec<u32>) -> Result<(), OutOfMemory>
    ensures { OnOk result (AddsAllBut (λ u. ⊥) count all.old.items all.new.items) }
{
    for router in 0..count {
        all.push(router)?;
    }
    Ok(())
}
