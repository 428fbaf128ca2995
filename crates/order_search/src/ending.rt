ghost use Rattle.std.specs.Prelude.{◌≡◌, ◌+◌, ◌<◌, ◌≤◌, ◌∷◌, [], ◌++◌, IfOk, OnOk, length, replicate};
ghost use Rattle.order_search.specs.Places.{IsLayered};
ghost use Rattle.order_search.specs.steps.Steps.{AreWavesOf, IsEndOf, EndsOrGoesOn};

use crate::assumptions::Assumptions;
use crate::found::Found;
use crate::stand::Stand;
use crate::tree::{Node, Tree};
use crate::waiting::Waiting;
use order_core::Waves;
use std::alloc::{AllocError, Global};

/// What ends a search.
#[derive(Clone, Copy)]
pub(crate) enum Ending {
    /// The layered list of the place is good.
    Good,
    /// The layered list of the place is broken, and the budget is spent.
    Spent,
    /// No place is left.
    Closed,
}

/// What was found where the search ends.
pub(crate) fn end(alloc: Global, stand: Stand, ending: Ending) -> Result<Found, AllocError>
    requires { EndsOrGoesOn stand ending }
    ensures { IfOk result (IsEndOf stand ending) }
{
    match ending {
        Ending::Good => found_waves(alloc, stand.tree, stand.held, stand.ranks),
        Ending::Spent => stopped(stand.tree, stand.waiting),
        Ending::Closed => Ok(Found::Refuted { tree: stand.tree }),
    }
}

/// The waves that were found, with their pairs, the chain, and the nodes up to their place.
fn found_waves(
    alloc: Global,
    mut tree: Tree,
    mut held: Assumptions,
    ranks: Vec<u32>,
) -> Result<Found, AllocError>
    requires some { 0 < held.routers }
    requires few { held.routers ≤ 1000 }
    requires layered { IsLayered held.routers held.pairs ranks.items }
    ensures { IfOk result (AreWavesOf held ranks.items (tree ++ Node.Unvisited ∷ [])) }
{
    let waves = Waves::from_ranks(alloc, &ranks)?;
    tree.push(Node::Unvisited)?;
    let chain = held.chain(ranks);
    Ok(Found::Waves {
        waves,
        pairs: held.into_pairs(),
        chain,
        trail: tree,
    })
}

/// The tree where the budget is spent: the place that was asked stays unvisited, and so do those that wait.
fn stopped(mut tree: Tree, mut waiting: Waiting) -> Result<Found, AllocError>
    ensures { IfOk result (λ found. found ≡ Found.Spent (tree ++ replicate (length waiting + 1) Node.Unvisited)) }
{
    tree.push(Node::Unvisited)?;
    leave_unvisited(&mut tree, &mut waiting)?;
    Ok(Found::Spent { tree })
}

/// Adds an unvisited place for each child that waits.
fn leave_unvisited(tree: &mut Tree, waiting: &mut Waiting) -> Result<(), AllocError>
    ensures { OnOk result (tree.new ≡ tree.old ++ replicate (length waiting.old) Node.Unvisited) }
{
    while let Some(_child) = waiting.next() {
        tree.push(Node::Unvisited)?;
    }
    Ok(())
}
