ghost use Rattle.std.specs.Prelude.{◌≡◌, ◌<◌, ◌⊎◌, ℕ, All, Contains, OnOk, length};
ghost use Rattle.loop_finder.specs.steps.Ends.{HasBothSteps};
ghost use Rattle.loop_finder.specs.steps.Parts.{AddsUnless};

use crate::end_lists::EndLists;
use rib_mix::OutOfMemory;
use std::mem;

/// Finds the routers without a hop in one of the networks, where those of the class before are known, and which routers changed.
pub(crate) fn find_still(
    lists: &EndLists<'_>,
    changed: &[u32],
    still: &mut Vec<u32>,
    room: &mut Vec<u32>,
) -> Result<(), OutOfMemory>
    requires still { All (λ u. u < length lists.now.olds) still.old.items }
    requires changed { All (λ u. u < length lists.now.olds) changed.now }
    ensures below { OnOk result (All (λ u. u < length lists.now.olds) still.new.items) }
    ensures was { OnOk result ((u : ℕ) → Contains still.old.items u → HasBothSteps lists.now u ⊎ Contains still.new.items u) }
    ensures changed { OnOk result ((u : ℕ) → Contains changed.now u → HasBothSteps lists.now u ⊎ Contains still.new.items u) }
{
    mem::swap(still, room);
    still.clear();
    add_still(lists, room.as_slice(), still)?;
    add_still(lists, changed, still)?;
    Ok(())
}

/// Adds those of some routers that have no hop in one of the networks.
fn add_still(lists: &EndLists<'_>, routers: &[u32], still: &mut Vec<u32>) -> Result<(), OutOfMemory>
    requires { All (λ u. u < length lists.now.olds) routers.now }
    ensures below { OnOk result (All (λ u. u < length lists.now.olds) still.old.items → All (λ u. u < length lists.now.olds) still.new.items) }
    ensures kept { OnOk result ((u : ℕ) → Contains still.old.items u → Contains still.new.items u) }
    ensures added { OnOk result ((u : ℕ) → Contains routers.now u → HasBothSteps lists.now u ⊎ Contains still.new.items u) }
{
    for router in routers {
        add_one(lists, *router, still)?;
    }
    Ok(())
}

/// Adds a router where it has no hop in one of the networks, and isn't there yet.
fn add_one(lists: &EndLists<'_>, router: u32, still: &mut Vec<u32>) -> Result<(), OutOfMemory>
    requires { router < length lists.now.olds }
    ensures { OnOk result (AddsUnless (HasBothSteps lists.now router ⊎ Contains still.old.items router) router still.old.items still.new.items) }
{
    if lists.moves(router) {
        return Ok(());
    }
    if still.contains(&router) {
        return Ok(());
    }
    still.push(router)?;
    Ok(())
}
