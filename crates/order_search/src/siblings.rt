ghost use Rattle.std.specs.Prelude.{◌≡◌, ◌<◌, ◌∷◌, [], length, map, IfOk, IfSome, IfNone};
ghost use Rattle.order_core.specs.Turns.{child_pairs, new_routers};
ghost use Rattle.order_search.specs.steps.Waiting.{child_of};

use crate::child::Child;
use crate::sides::{new_routers_of, old_routers_of};
use order_core::Turn;
use std::alloc::{AllocError, Global};
use std::marker::Model;

/// The children of a branch that wait: a cursor over its Old routers, the rows, and its New routers, the columns.
///
/// Seen as the list of these children, the next one first.
#[derive(Drop)]
pub(crate) struct Siblings {
    olds: Vec<u32>,
    news: Vec<u32>,
    row: usize,
    column: usize,
    above: u32,
}

impl Model for Siblings {
    ghost use Rattle.std.specs.Prelude.{List};
    ghost use Rattle.order_search.specs.declared.child.Child.{Child};

    ghost Value = { List Child };

    ghost use Rattle.order_search.specs.steps.Cursors.{children_left, StandsInRow};

    ghost view = { children_left };

    ghost invariant = { StandsInRow };
}

impl Siblings {
    /// All children of a branch with these turns, which assumes so many pairs.
    pub(crate) fn new(alloc: Global, turns: &[Turn], above: u32) -> Result<Siblings, AllocError>
        requires { 0 < length (new_routers turns.now) }
        ensures { IfOk result (λ s. s ≡ map (child_of above) (child_pairs turns.now)) }
    {
        Ok(Siblings {
            olds: old_routers_of(alloc, turns)?,
            news: new_routers_of(alloc, turns)?,
            row: 0,
            column: 0,
            above,
        })
    }

    /// Takes the next child, if there is one.
    pub(crate) fn next(&mut self) -> Option<Child>
        ensures some { IfSome result (λ child. self.old ≡ child ∷ self.new) }
        ensures none { IfNone result (self.old ≡ []) }
    {
        if self.row == self.olds.len() {
            return None;
        }
        let child = Child {
            before: self.olds[self.row],
            after: self.news[self.column],
            above: self.above,
        };
        self.column += 1;
        if self.column == self.news.len() {
            self.column = 0;
            self.row += 1;
        }
        Some(child)
    }
}
