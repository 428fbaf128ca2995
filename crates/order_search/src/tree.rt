ghost use Rattle.std.specs.Prelude.{◌≡◌, [], ◌∷◌, ◌++◌, IfOk, OnOk, OnErr};

use order_core::Turns;
use std::alloc::{AllocError, Global};
use std::marker::Model;

/// Numbers each of which is assumed before the next: round a cycle, in which the last is assumed before the first, or
/// along a chain.
#[derive(Debug, Drop)]
pub struct Cycle {
    all: Vec<u32>,
}

impl Model for Cycle {
    ghost use Rattle.std.specs.Prelude.{List, ℕ};

    ghost Value = { List ℕ };

    ghost view = { λ x. x.all.items };
}

impl Cycle {
    /// These numbers.
    pub fn from_vec(all: Vec<u32>) -> Cycle
        ensures { result ≡ all.items }
    {
        Cycle { all }
    }

    /// The numbers in order.
    pub fn as_slice(&self) -> &[u32]
        ensures { result.now ≡ self.now }
    {
        self.all.as_slice()
    }

    /// The vector of the numbers.
    pub fn into_vec(self) -> Vec<u32>
        ensures { result.items ≡ self }
    {
        self.all
    }
}

/// A node of a tree of places.
#[derive(Debug, Drop)]
pub enum Node {
    /// A place where an address and the turns of its ring break the layered list.
    Branch {
        /// The address that the ring loops for.
        address: u32,
        /// The ring with its tags.
        turns: Turns,
    },
    /// A place whose pairs have a cycle.
    Leaf {
        /// The cycle.
        cycle: Cycle,
    },
    /// A place that the search didn't come to.
    Unvisited,
}

/// A tree of places: the list of its nodes, each followed by its children in order.
#[derive(Debug, Drop)]
pub struct Tree {
    nodes: Vec<Node>,
}

impl Model for Tree {
    ghost use Rattle.std.specs.Prelude.{List};
    ghost use Rattle.order_search.specs.declared.tree.Node.{Node};

    ghost Value = { List Node };

    ghost view = { λ x. x.nodes.items };
}

impl Tree {
    /// No node; the tree keeps the allocator.
    pub fn new(alloc: Global) -> Result<Tree, AllocError>
        ensures { IfOk result (λ tree. tree ≡ []) }
    {
        Ok(Tree {
            nodes: Vec::new(alloc),
        })
    }

    /// Adds the node at the end.
    pub fn push(&mut self, node: Node) -> Result<(), AllocError>
        ensures ok { OnOk result (self.new ≡ self.old ++ node ∷ []) }
        ensures err { OnErr result (self.new ≡ self.old) }
    {
        self.nodes.push(node)?;
        Ok(())
    }

    /// The nodes in order.
    pub fn as_slice(&self) -> &[Node]
        ensures { result.now ≡ self.now }
    {
        self.nodes.as_slice()
    }
}
