ghost use Rattle.std.specs.Prelude.{ℕ, ◌≤◌, IfOk};
ghost use Rattle.order_search.specs.steps.Steps.{IsSearching};

use crate::assumptions::Assumptions;
use crate::oracle::Oracle;
use crate::tree::Tree;
use crate::waiting::Waiting;
use std::alloc::{AllocError, Global};

/// Where the search stands: at a place that isn't visited yet.
#[derive(Drop)]
pub(crate) struct Stand {
    /// The pairs that are assumed at the place.
    pub(crate) held: Assumptions,
    /// Room for its layered list.
    pub(crate) ranks: Vec<u32>,
    /// The nodes before it.
    pub(crate) tree: Tree,
    /// The children that wait to be visited after it.
    pub(crate) waiting: Waiting,
    /// How many of the nodes are branches.
    pub(crate) branches: u32,
}

impl Stand {
    /// At the first place, which assumes the base alone.
    pub(crate) fn new<Q: Oracle>(alloc: Global, oracle: &Q) -> Result<Stand, AllocError>
        requires { (Q.meaning oracle.now).size ≤ 1000 }
        ensures { IfOk result (λ stand. (budget : ℕ) → IsSearching (Q.meaning oracle.now) budget stand) }
    {
        let size = oracle.size();
        Ok(Stand {
            held: Assumptions::new(alloc, size, oracle.base())?,
            ranks: vec![in alloc; 0; size as usize]?,
            tree: Tree::new(alloc)?,
            waiting: Waiting::new(alloc),
            branches: 0,
        })
    }
}
