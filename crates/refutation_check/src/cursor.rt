ghost use Rattle.std.specs.Prelude.{◌≡◌, ◌<◌, ◌∷◌, [], IfOk, MatchOption, Some, drop, length};
ghost use Rattle.order_core.specs.Turns.{HasBothTags, child_pairs};

use net_addr::OutOfMemory;
use order_core::Turn;
use order_search::{new_routers_of, old_routers_of};
use std::alloc::Global;
use std::marker::Model;

/// A place among the children of a branch.
///
/// It is seen as the pairs of the children that are left, from the one that is visited on. The children themselves,
/// one for each Old and each New turn, are never listed.
#[derive(Drop)]
pub(crate) struct Cursor {
    olds: Vec<u32>,
    news: Vec<u32>,
    old: usize,
    new: usize,
}

impl Model for Cursor {
    ghost use Rattle.std.specs.Prelude.{List};
    ghost use Rattle.order_core.specs.Pairs.{Pair};

    ghost Value = { List Pair };

    ghost use Rattle.refutation_check.specs.steps.Cursors.{IsCursor, left_of};

    ghost view = { left_of };

    ghost invariant = { IsCursor };
}

impl Cursor {
    /// The first child of a branch.
    pub(crate) fn first(alloc: Global, turns: &[Turn]) -> Result<Cursor, OutOfMemory>
        requires { HasBothTags turns.now }
        ensures { IfOk result (λ cursor. cursor ≡ child_pairs turns.now) }
    {
        let olds = old_routers_of(alloc, turns)?;
        let news = new_routers_of(alloc, turns)?;
        Ok(Cursor {
            olds,
            news,
            old: 0,
            new: 0,
        })
    }

    /// The pair of the child that is visited.
    pub(crate) fn here(&self) -> (u32, u32)
        ensures { self.now ≡ result ∷ drop 1 self.now }
    {
        (self.olds[self.old], self.news[self.new])
    }

    /// The next child, none after the last.
    pub(crate) fn next(self) -> Option<Cursor>
        ensures some { 0 < length self }
        ensures next { MatchOption result (drop 1 self ≡ []) (λ cursor. cursor ≡ drop 1 self) }
    {
        let Cursor {
            olds,
            news,
            old,
            new,
        } = self;
        if new + 1 < news.len() {
            Some(Cursor {
                olds,
                news,
                old,
                new: new + 1,
            })
        } else if old + 1 < olds.len() {
            Some(Cursor {
                olds,
                news,
                old: old + 1,
                new: 0,
            })
        } else {
            None
        }
    }
}
