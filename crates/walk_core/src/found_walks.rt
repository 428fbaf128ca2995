use crate::OutOfMemory;
use crate::number_lists::NumberLists;
use crate::rows::Distances;
use std::alloc::Global;
use std::marker::Model;

/// How far each vertex is from where walks begin, and which vertices the walks there begin with.
#[derive(Debug, Drop)]
pub(crate) struct FoundWalks {
    distances: Distances,
    hops: NumberLists,
}

impl Model for FoundWalks {
    ghost use Rattle.walk_core.specs.Reach.{Reach};
    ghost use Rattle.walk_core.specs.steps.Ascending.{AreAscending};

    ghost Value = { Reach };

    ghost view = { λ w. record { distances = w.distances; hops = w.hops } };

    ghost invariant = { λ w. AreAscending w.hops };
}

impl FoundWalks {
    ghost use Rattle.std.specs.Prelude.{◌≡◌, [], IfOk, slice_set};
    ghost use Rattle.std.specs.List.Sorted.{IsStrictlyIncreasing};
    ghost use Rattle.walk_core.specs.Reach.{distance_of, listed_hops_of};
    ghost use Rattle.walk_core.specs.steps.Ascending.{AreAscending};

    /// Nothing, of no vertex.
    pub fn none(alloc: Global) -> FoundWalks {
        FoundWalks {
            distances: Distances::none(alloc),
            hops: NumberLists::none(alloc),
        }
    }

    /// These distances, and these lists of hops.
    pub fn of(distances: Distances, hops: NumberLists) -> FoundWalks
        requires { AreAscending hops }
        ensures { result ≡ (record { distances = distances; hops = hops }) }
    {
        FoundWalks { distances, hops }
    }

    /// A copy of the lists of hops, but for an empty one towards v.
    pub fn hops_without(&self, alloc: Global, v: u32) -> Result<NumberLists, OutOfMemory>
        ensures lists { IfOk result (λ lists. lists ≡ slice_set self.now.hops v []) }
        ensures ascending { AreAscending self.now.hops }
    {
        self.hops.copy_without(alloc, v as usize)
    }

    /// How far v is, and None where no walk leads there.
    #[inline(always)]
    pub fn distance(&self, v: u32) -> Option<u64>
        ensures { result ≡ distance_of self.now v }
    {
        self.distances.at(v)
    }

    /// The hops towards v, in ascending order.
    #[inline(always)]
    pub fn hops_to(&self, v: u32) -> &[u32]
        ensures hops { result.now ≡ listed_hops_of self.now v }
        ensures ascending { IsStrictlyIncreasing result.now }
    {
        self.hops.at(v as usize)
    }
}
