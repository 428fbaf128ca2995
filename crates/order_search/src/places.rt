ghost use Rattle.std.specs.Prelude.{◌≡◌, List, ◌≤◌, ◌∷◌, [], IfOk, OnOk, take};
ghost use Rattle.std.specs.Bool.{OnTrue, OnFalse};
ghost use Rattle.order_core.specs.Pairs.{Pair};
ghost use Rattle.order_search.specs.steps.Waiting.{place_at, places_of, AreFresh, IsUnder};
ghost use Rattle.order_search.specs.steps.Leaves.{GrowsLeaves};

use crate::assumptions::Assumptions;
use crate::child::Child;
use crate::tree::{Node, Tree};
use crate::waiting::Waiting;
use std::alloc::{AllocError, Global};

/// Goes on to the next child whose pair closes no cycle, and assumes its pair; those before it are leaves.
/// Whether there is one.
pub(crate) fn next_place(
    alloc: Global,
    tree: &mut Tree,
    held: &mut Assumptions,
    waiting: &mut Waiting,
) -> Result<bool, AllocError>
    requires few { held.old.routers ≤ 1000 }
    requires stands { (base : List Pair) × IsUnder held.old.routers base held.old.pairs waiting.old }
    ensures routers { held.new.routers ≡ held.old.routers }
    ensures stands { OnOk result ((base : List Pair) → IsUnder held.old.routers base held.old.pairs waiting.old
        → IsUnder held.new.routers base held.new.pairs waiting.new) }
    ensures found { IfOk result (λ found. OnTrue found (GrowsLeaves tree.old tree.new
        (places_of held.old.pairs waiting.old) (held.new.pairs ∷ places_of held.new.pairs waiting.new))) }
    ensures none { IfOk result (λ found. OnFalse found (GrowsLeaves tree.old tree.new
        (places_of held.old.pairs waiting.old) [])) }
{
    while let Some(child) = waiting.next() {
        if enter(alloc, tree, held, child)? {
            return Ok(true);
        }
    }
    Ok(false)
}

/// Takes back what isn't above the child, and assumes its pair. Where that closes a cycle, the child is a
/// leaf. Whether it is a place to visit.
fn enter(
    alloc: Global,
    tree: &mut Tree,
    held: &mut Assumptions,
    child: Child,
) -> Result<bool, AllocError>
    requires few { held.old.routers ≤ 1000 }
    requires stands { (base : List Pair) × IsUnder held.old.routers base held.old.pairs (child ∷ []) }
    ensures routers { held.new.routers ≡ held.old.routers }
    ensures fresh { OnOk result ((base : List Pair) → IsUnder held.old.routers base held.old.pairs (child ∷ [])
        → AreFresh held.new.routers base held.new.pairs) }
    ensures place { IfOk result (λ found. OnTrue found (held.new.pairs ≡ place_at held.old.pairs child)) }
    ensures same { IfOk result (λ found. OnTrue found (tree.new ≡ tree.old)) }
    ensures back { IfOk result (λ found. OnFalse found (held.new.pairs ≡ take child.above held.old.pairs)) }
    ensures leaf { IfOk result (λ found. OnFalse found
        (GrowsLeaves tree.old tree.new (place_at held.old.pairs child ∷ []) [])) }
{
    match held.assume(alloc, child)? {
        None => Ok(true),
        Some(cycle) => {
            tree.push(Node::Leaf { cycle })?;
            Ok(false)
        }
    }
}
