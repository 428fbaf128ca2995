ghost use Rattle.std.specs.Prelude.{◌≡◌, ◌<◌, ◌∷◌, [], ◌++◌, length, map, OnOk, IfSome, IfNone};
ghost use Rattle.order_core.specs.Turns.{child_pairs, new_routers};
ghost use Rattle.order_search.specs.steps.Waiting.{child_of};

use crate::child::Child;
use crate::siblings::Siblings;
use order_core::Turn;
use std::alloc::{AllocError, Global};
use std::marker::Model;

/// The children that wait to be visited: a cursor for each branch above the place where the search stands.
///
/// Seen as the list of these children, the next one first.
#[derive(Drop)]
pub(crate) struct Waiting {
    branches: Vec<Siblings>,
}

impl Model for Waiting {
    ghost use Rattle.std.specs.Prelude.{List};
    ghost use Rattle.order_search.specs.declared.child.Child.{Child};

    ghost Value = { List Child };

    ghost use Rattle.order_search.specs.steps.Cursors.{all_children};

    ghost view = { λ w. all_children w.branches.items };
}

impl Waiting {
    /// No child; the list keeps the allocator.
    pub(crate) fn new(alloc: Global) -> Waiting
        ensures { result ≡ [] }
    {
        Waiting {
            branches: Vec::new(alloc),
        }
    }

    /// Adds the children of a branch with these turns, which assumes so many pairs: they come next.
    pub(crate) fn push(
        &mut self,
        alloc: Global,
        turns: &[Turn],
        above: u32,
    ) -> Result<(), AllocError>
        requires { 0 < length (new_routers turns.now) }
        ensures { OnOk result (self.new ≡ map (child_of above) (child_pairs turns.now) ++ self.old) }
    {
        self.branches.push(Siblings::new(alloc, turns, above)?)?;
        Ok(())
    }

    /// Takes the next child, if there is one.
    pub(crate) fn next(&mut self) -> Option<Child>
        ensures some { IfSome result (λ child. self.old ≡ child ∷ self.new) }
        ensures none { IfNone result (self.old ≡ []) }
        ensures left { IfNone result (self.new ≡ []) }
    {
        while let Some(mut siblings) = self.branches.pop() {
            if let Some(child) = siblings.next() {
                self.branches.push_reserved(siblings);
                return Some(child);
            }
        }
        None
    }
}
