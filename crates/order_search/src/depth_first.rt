ghost use Rattle.std.specs.Prelude.{◌≡◌, ℕ, List, ◌+◌, ◌<◌, ◌≤◌, ◌∷◌, [], ◌++◌, IfOk, OnOk, length, map};
ghost use Rattle.std.specs.Prelude.{Contains, IfNone};
ghost use Rattle.std.specs.Bool.{OnTrue, OnFalse};
ghost use Rattle.order_core.specs.Pairs.{Pair};
ghost use Rattle.order_core.specs.Turns.{child_pairs, new_routers};
ghost use Rattle.order_search.specs.Meanings.{Break, SameMeaning};
ghost use Rattle.order_search.specs.Places.{IsLayered};
ghost use Rattle.order_search.specs.Answers.{IsFound};
ghost use Rattle.order_search.specs.steps.Waiting.{child_of, places_of, children_below, IsUnder};
ghost use Rattle.order_search.specs.steps.Leaves.{GrowsLeaves};
ghost use Rattle.order_search.specs.steps.Steps.{IsSearching, StepsTo};

use crate::assumptions::Assumptions;
use crate::ending::{Ending, end};
use crate::found::Found;
use crate::oracle::{Answer, Oracle};
use crate::places::next_place;
use crate::stand::Stand;
use crate::tree::{Node, Tree};
use crate::waiting::Waiting;
use order_core::{Turn, Turns};
use std::alloc::{AllocError, Global};

/// Searches for a ranking that is good, place by place: at a place it asks the oracle for the layered list of the
/// assumed pairs, and branches on what breaks it, until the budget of branches is spent. After want of memory only
/// the oracle may have changed.
pub fn search<Q: Oracle>(alloc: Global, oracle: &mut Q, budget: u32) -> Result<Found, AllocError>
    requires budget_some { 1 ≤ budget }
    requires size_some { 1 ≤ (Q.meaning oracle.old).size }
    requires size_few { (Q.meaning oracle.old).size ≤ 1000 }
    ensures found { IfOk result (IsFound (Q.meaning oracle.old) budget) }
    ensures same { SameMeaning (Q.meaning oracle.old) (Q.meaning oracle.new) }
{
    let mut stand = Stand::new(alloc, &*oracle)?;
    loop {
        match take_step(alloc, oracle, &mut stand, budget)? {
            Some(ending) => return end(alloc, stand, ending),
            None => {}
        }
    }
}

/// Visits the place where the search stands, and goes on to the next one. What ends the search, if something does.
fn take_step<Q: Oracle>(
    alloc: Global,
    oracle: &mut Q,
    stand: &mut Stand,
    budget: u32,
) -> Result<Option<Ending>, AllocError>
    requires few { (Q.meaning oracle.old).size ≤ 1000 }
    requires searching { IsSearching (Q.meaning oracle.old) budget stand.old }
    ensures step { IfOk result (StepsTo (Q.meaning oracle.old) budget stand.new) }
    ensures branches { IfOk result (λ ending. IfNone ending (stand.new.branches ≡ stand.old.branches + 1)) }
    ensures same { SameMeaning (Q.meaning oracle.old) (Q.meaning oracle.new) }
{
    let address = match visit(oracle, &mut stand.held, &mut stand.ranks) {
        Answer::Fine => return Ok(Some(Ending::Good)),
        Answer::Breaks { address } => address,
    };
    if stand.branches == budget {
        return Ok(Some(Ending::Spent));
    }
    stand.branches += 1;
    let branch = Branch {
        address,
        turns: oracle.turns(),
    };
    let more = go_below(
        alloc,
        &mut stand.tree,
        &mut stand.held,
        &mut stand.waiting,
        &branch,
    )?;
    Ok(if more { None } else { Some(Ending::Closed) })
}

/// Asks the oracle for the layered list of the assumed pairs.
fn visit<Q: Oracle>(oracle: &mut Q, held: &mut Assumptions, ranks: &mut [u32]) -> Answer
    requires ranks_length { length ranks.old ≡ held.old.routers }
    requires size { (Q.meaning oracle.old).size ≡ held.old.routers }
    requires base { (pair : Pair) → Contains (Q.meaning oracle.old).base pair → Contains held.old.pairs pair }
    ensures same { held.new ≡ held.old }
    ensures layered { IsLayered held.old.routers held.old.pairs ranks.new }
    ensures fine { result ≡ Answer.Fine → (Q.meaning oracle.old).good ranks.new }
    ensures breaks { (address : ℕ) → result ≡ Answer.Breaks address → Break (Q.meaning oracle.old) ranks.new address (Q.shown oracle.new) }
    ensures meant { SameMeaning (Q.meaning oracle.old) (Q.meaning oracle.new) }
{
    held.layers(ranks);
    oracle.ask(ranks)
}

/// A branch: the address at which the layered list of a place breaks, and the turns of its ring.
#[derive(Clone, Copy)]
struct Branch<'a> {
    address: u32,
    turns: &'a [Turn],
}

/// Makes the place a branch, and goes on to the next place. Whether there is one.
fn go_below(
    alloc: Global,
    tree: &mut Tree,
    held: &mut Assumptions,
    waiting: &mut Waiting,
    branch: &Branch<'_>,
) -> Result<bool, AllocError>
    requires few { held.old.routers ≤ 1000 }
    requires some { 0 < length (new_routers branch.now.turns.now) }
    requires stands { (base : List Pair) × IsUnder held.old.routers base held.old.pairs
        (children_below held.old.pairs branch.now.turns.now waiting.old) }
    ensures routers { held.new.routers ≡ held.old.routers }
    ensures stands { OnOk result ((base : List Pair) → IsUnder held.old.routers base held.old.pairs
        (children_below held.old.pairs branch.now.turns.now waiting.old) → IsUnder held.new.routers base held.new.pairs waiting.new) }
    ensures found { IfOk result (λ found. OnTrue found (GrowsLeaves (tree.old ++ Node.Branch branch.now.address branch.now.turns.now ∷ []) tree.new
        (places_of held.old.pairs (children_below held.old.pairs branch.now.turns.now waiting.old))
        (held.new.pairs ∷ places_of held.new.pairs waiting.new))) }
    ensures none { IfOk result (λ found. OnFalse found (GrowsLeaves (tree.old ++ Node.Branch branch.now.address branch.now.turns.now ∷ []) tree.new
        (places_of held.old.pairs (children_below held.old.pairs branch.now.turns.now waiting.old)) [])) }
{
    branch_on(alloc, tree, waiting, branch, held.count())?;
    next_place(alloc, tree, held, waiting)
}

/// Adds a branch to the tree, and its children to those that wait.
fn branch_on(
    alloc: Global,
    tree: &mut Tree,
    waiting: &mut Waiting,
    branch: &Branch<'_>,
    above: u32,
) -> Result<(), AllocError>
    requires some { 0 < length (new_routers branch.now.turns.now) }
    ensures node { OnOk result (tree.new ≡ tree.old ++ Node.Branch branch.now.address branch.now.turns.now ∷ []) }
    ensures children { OnOk result (waiting.new ≡ map (child_of above) (child_pairs branch.now.turns.now) ++ waiting.old) }
{
    let Branch { address, turns } = *branch;
    waiting.push(alloc, turns, above)?;
    let turns = Turns::from_vec(Vec::from_slice(alloc, turns)?);
    tree.push(Node::Branch { address, turns })
}
