/// What is found of a tree file.
#[derive(Clone, Copy, Debug, PartialEq, Eq)]
pub enum Verdict {
    /// It is a closed tree: each line is right, and no place is unvisited.
    Closed {
        /// How many of its lines are branches.
        branches: u32,
        /// How many are leaves.
        leaves: u32,
    },
    /// Each line is right, and some places are unvisited.
    Unfinished {
        /// How many there are.
        unvisited: u32,
    },
    /// A line is wrong.
    Wrong {
        /// The number of the first wrong line, from 1; where the text ends too early, that of the line after its last.
        line: u32,
        /// The first kind that stands on it.
        kind: WrongKind,
    },
}

/// Why a line of a tree file is wrong; where several kinds stand on a line the first of this order counts.
#[derive(Clone, Copy, Debug, PartialEq, Eq)]
pub enum WrongKind {
    /// It isn't the line of a node, it stands after the whole tree, or the text ended before it.
    Form = 1,
    /// It has a name of no router, or one name twice.
    Router = 2,
    /// The address of a branch has no target.
    Address = 3,
    /// A router of a branch originates the target.
    Originator = 4,
    /// A tag of a branch isn't that of the router's step to the next one, or no phase steps there.
    Step = 5,
    /// A branch has no turn `O`, or none `N`.
    OneSided = 6,
    /// Two neighbors of a leaf's cycle are no pair that is assumed at its place.
    NotAssumed = 7,
}
