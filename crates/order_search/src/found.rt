ghost use Rattle.std.specs.Prelude.{◌≡◌};

use crate::tree::{Cycle, Tree};
use order_core::Waves;
use std::marker::Model;

/// Pairs of numbers, each assumed with its first number before its second.
#[derive(Debug, Drop)]
pub struct Pairs {
    all: Vec<(u32, u32)>,
}

impl Model for Pairs {
    ghost use Rattle.std.specs.Prelude.{List};
    ghost use Rattle.order_core.specs.Pairs.{Pair};

    ghost Value = { List Pair };

    ghost view = { λ x. x.all.items };
}

impl Pairs {
    /// These pairs.
    pub fn from_vec(all: Vec<(u32, u32)>) -> Pairs
        ensures { result ≡ all.items }
    {
        Pairs { all }
    }

    /// The pairs in the order in which they were assumed.
    pub fn as_slice(&self) -> &[(u32, u32)]
        ensures { result.now ≡ self.now }
    {
        self.all.as_slice()
    }
}

/// What the search found.
#[derive(Debug, Drop)]
pub enum Found {
    /// A good ranking.
    Waves {
        /// The ranking: the layers of the pairs.
        waves: Waves,
        /// The pairs that are assumed at its place: those of the base, and one for each branch above.
        pairs: Pairs,
        /// A number of each wave, each assumed before the next.
        chain: Cycle,
        /// The nodes of a tree up to the place.
        trail: Tree,
    },
    /// No ranking is good.
    Refuted {
        /// A closed tree.
        tree: Tree,
    },
    /// The budget of branches was spent.
    Spent {
        /// A tree whose last places are unvisited.
        tree: Tree,
    },
}
