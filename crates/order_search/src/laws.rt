ghost use Rattle.std.specs.Prelude.{◌≡◌, ℕ, List};
ghost use Rattle.order_search.specs.Answers.{IsFound, IsRefutation};
ghost use Rattle.order_search.specs.Laws.{PicksOne};
ghost use Rattle.order_search.specs.Trees.{IsClosedTree, IsTreeNode};
ghost use Rattle.order_search.specs.declared.found.Found.{Found};
ghost use Rattle.order_search.specs.declared.tree.Node.{Node};

use crate::oracle::Oracle;

/// The law that a closed tree refutes: where a tree over an oracle's base is closed and its branches are real to the
/// oracle, no ranking is good to it. So none is where the search answers Refuted.
pub fn closed_trees_refute<Q: Oracle>()
    ensures closed { (oracle : Q) (tree : List Node) (ranks : List ℕ)
        → IsClosedTree (IsTreeNode (Q.meaning oracle).real) (Q.meaning oracle).base tree → ¬ (Q.meaning oracle).good ranks }
    ensures refuted { (oracle : Q) (budget : ℕ) (tree : List Node) (ranks : List ℕ)
        → IsRefutation (Q.meaning oracle) budget tree → ¬ (Q.meaning oracle).good ranks }
{}

/// The law that there is one answer: where an oracle picks one address and list of turns at most for a ranking, and
/// none for a good one, the search has one answer of one kind, with the same nodes, waves, pairs and chain.
pub fn answers_are_one<Q: Oracle>()
    ensures { (oracle : Q) (budget : ℕ) (found other : Found) → PicksOne (Q.meaning oracle).good (Q.meaning oracle).picked
        → IsFound (Q.meaning oracle) budget found → IsFound (Q.meaning oracle) budget other → found ≡ other }
{}
