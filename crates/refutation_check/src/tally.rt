ghost use Rattle.std.specs.Prelude.{◌<◌, ◌^◌, ◌-◌};
ghost use Rattle.refutation_check.specs.steps.Counted.{CountsNode};

use order_search::Node;

/// How many branches, leaves and unvisited places were read.
#[derive(Clone, Copy, Debug)]
pub(crate) struct Tally {
    /// The branches.
    pub(crate) branches: u32,
    /// The leaves.
    pub(crate) leaves: u32,
    /// The unvisited places.
    pub(crate) unvisited: u32,
}

impl Tally {
    /// The counts with one node more.
    pub(crate) fn with(self, node: &Node) -> Tally
        requires branches { self.branches < 2 ^ 32 - 1 }
        requires leaves { self.leaves < 2 ^ 32 - 1 }
        requires unvisited { self.unvisited < 2 ^ 32 - 1 }
        ensures { CountsNode self result node.now }
    {
        match node {
            Node::Branch { .. } => Tally {
                branches: self.branches + 1,
                leaves: self.leaves,
                unvisited: self.unvisited,
            },
            Node::Leaf { .. } => Tally {
                branches: self.branches,
                leaves: self.leaves + 1,
                unvisited: self.unvisited,
            },
            Node::Unvisited => Tally {
                branches: self.branches,
                leaves: self.leaves,
                unvisited: self.unvisited + 1,
            },
        }
    }
}
