ghost use Rattle.std.specs.Prelude.{◌≡◌, ◌<◌, ◌≤◌, ◌↔◌, ◌++◌, ◌∷◌, [], ℕ, List, All, IfOk, IsTrue, OnOk, length, map, take};
ghost use Rattle.order_core.specs.Pairs.{AreBelow, Pair};
ghost use Rattle.order_core.specs.Turns.{HasBothTags, child_pairs};
ghost use Rattle.order_core.specs.declared.turn.Turn.{Turn};
ghost use Rattle.order_search.specs.Trees.{Place};
ghost use Rattle.refutation_check.specs.WrongLines.{IsAssumedRound};

use crate::assumed::Assumed;
use crate::cursor::Cursor;
use net_addr::OutOfMemory;
use order_core::Turn;
use std::alloc::Global;
use std::marker::Model;

/// Where a tree is read: the places that are open, of which the next node fills the first.
///
/// It holds what is assumed at that place, and a cursor for each branch above it.
#[derive(Drop)]
pub(crate) struct Walk {
    is_open: bool,
    cursors: Vec<Cursor>,
    assumed: Assumed,
}

impl Model for Walk {
    ghost use Rattle.refutation_check.specs.steps.Walks.{PlacesLeft, standing_of, IsHeldWalk};

    ghost Value = { PlacesLeft };

    ghost view = { standing_of };

    ghost invariant = { IsHeldWalk };
}

impl Walk {
    /// The place that assumes nothing is open.
    pub(crate) fn start(alloc: Global, routers: u32) -> Result<Walk, OutOfMemory>
        requires { routers ≤ 1000 }
        ensures routers { IfOk result (λ walk. walk.routers ≡ routers) }
        ensures left { IfOk result (λ walk. walk.left ≡ [] ∷ []) }
    {
        Ok(Walk {
            is_open: true,
            cursors: Vec::new(alloc),
            assumed: Assumed::new(alloc, routers)?,
        })
    }

    /// Whether no place is open.
    pub(crate) fn is_whole(&self) -> bool
        ensures { IsTrue result ↔ (self.now.left ≡ []) }
    {
        !self.is_open
    }

    /// Whether each router of a cycle is assumed before the next one at the first open place, and the last one before
    /// the first.
    pub(crate) fn assumes_round(&self, cycle: &[u32]) -> bool
        requires { All (λ (u : ℕ). u < self.now.routers) cycle.now }
        ensures { (place : Place) (left : List Place) → self.now.left ≡ place ∷ left → IsTrue result ↔ IsAssumedRound place cycle.now }
    {
        self.assumed.holds_round(cycle)
    }

    /// The walk with a branch at the first open place: its children are open before the places that were after it.
    pub(crate) fn enter(self, alloc: Global, turns: &[Turn]) -> Result<Walk, OutOfMemory>
        requires both { HasBothTags turns.now }
        requires below { All (λ (turn : Turn). turn.router < self.routers) turns.now }
        ensures routers { IfOk result (λ walk. walk.routers ≡ self.routers) }
        ensures left { IfOk result (λ walk. (place : Place) (left : List Place) → self.left ≡ place ∷ left
            → walk.left ≡ map (λ (p : Pair). place ++ p ∷ []) (child_pairs turns.now) ++ left) }
    {
        let Walk {
            is_open,
            mut cursors,
            mut assumed,
        } = self;
        let cursor = Cursor::first(alloc, turns)?;
        assume(&mut assumed, &cursor)?;
        cursors.push(cursor)?;
        Ok(Walk {
            is_open,
            cursors,
            assumed,
        })
    }

    /// The walk behind the first open place.
    pub(crate) fn leave(self) -> Result<Walk, OutOfMemory>
        ensures routers { IfOk result (λ walk. walk.routers ≡ self.routers) }
        ensures left { IfOk result (λ walk. (place : Place) (left : List Place) → self.left ≡ place ∷ left → walk.left ≡ left) }
    {
        let Walk {
            is_open: _,
            mut cursors,
            mut assumed,
        } = self;
        while let Some(cursor) = cursors.pop() {
            let next = cursor.next();
            assumed.take_back();
            if let Some(next) = next {
                assume(&mut assumed, &next)?;
                cursors.push(next)?;
                return Ok(Walk {
                    is_open: true,
                    cursors,
                    assumed,
                });
            }
        }
        Ok(Walk {
            is_open: false,
            cursors,
            assumed,
        })
    }
}

/// Assumes the pair of the child at a cursor.
fn assume(assumed: &mut Assumed, cursor: &Cursor) -> Result<(), OutOfMemory>
    requires { AreBelow assumed.old.routers cursor.now }
    ensures routers { assumed.new.routers ≡ assumed.old.routers }
    ensures some { 0 < length cursor.now }
    ensures pairs { OnOk result (assumed.new.pairs ≡ assumed.old.pairs ++ take 1 cursor.now) }
{
    let (before, after) = cursor.here();
    assumed.add(before, after)
}
