use crate::OutOfMemory;
use crate::distance::Distance;
use crate::number_lists::NumberLists;
use crate::relax::distance_at;
use crate::rows::Distances;
use crate::stretch::WalkStretch;
use std::alloc::Global;
use std::marker::Model;

/// The walks from a root that reaches others: how far the vertices are, and their first hops, from one vertex on, in front of
/// which no walk leads.
#[derive(Debug, Drop)]
pub(crate) struct FarWalks {
    first: u32,
    distances: Vec<Distance>,
    hops: NumberLists,
}

impl Model for FarWalks {
    ghost use Rattle.walk_core.specs.Reach.{Reach};
    ghost use Rattle.walk_core.specs.Stretches.{reach_along};
    ghost use Rattle.walk_core.specs.steps.Ascending.{AreAscending};

    ghost Value = { Reach };

    ghost view = { λ w. reach_along (record { first = w.first; distances = w.distances.items; hops = w.hops }) };

    ghost invariant = { λ w. AreAscending w.hops };
}

impl FarWalks {
    ghost use Rattle.std.specs.Prelude.{◌≡◌, ◌≤◌, IfOk, length};
    ghost use Rattle.std.specs.Bool.{OnTrue};
    ghost use Rattle.std.specs.List.Sorted.{IsStrictlyIncreasing};
    ghost use Rattle.walk_core.specs.Reach.{distance_of, listed_hops_of};
    ghost use Rattle.walk_core.specs.Stretches.{reach_along};
    ghost use Rattle.walk_core.specs.steps.Ascending.{AreAscending};

    /// These distances and these lists of hops, from this vertex on.
    pub fn from(first: u32, distances: Vec<Distance>, hops: NumberLists) -> FarWalks
        requires { AreAscending hops }
        ensures { result ≡ reach_along (record { first = first; distances = distances.items; hops = hops }) }
    {
        FarWalks {
            first,
            distances,
            hops,
        }
    }

    /// They from the first vertex on.
    pub fn stretch(&self) -> WalkStretch<'_>
        ensures { reach_along result ≡ self.now }
    {
        WalkStretch::from(self.first, self.distances.as_slice(), &self.hops)
    }

    /// A copy of the distances, from vertex 0 on.
    pub fn copy_distances(&self, alloc: Global) -> Result<Distances, OutOfMemory>
        ensures { IfOk result (λ copy. copy ≡ self.now.distances) }
    {
        let mut all = vec![in alloc; Distance::none(); self.first as usize]?;
        all.extend_from_slice(self.distances.as_slice())?;
        Ok(Distances::from_vec(all))
    }

    /// A copy of the lists of hops, from vertex 0 on.
    pub fn copy_hops(&self, alloc: Global) -> Result<NumberLists, OutOfMemory>
        ensures lists { IfOk result (λ lists. lists ≡ self.now.hops) }
        ensures ascending { AreAscending self.now.hops }
    {
        self.hops.copy_behind(alloc, self.first)
    }

    /// Whether distances are known of so many vertices at most.
    pub fn are_within(&self, count: u32) -> bool
        ensures { OnTrue result (length self.now.distances ≤ count) }
    {
        self.first <= count && self.distances.len() <= (count - self.first) as usize
    }

    /// How far v is, and None where no walk leads there.
    #[inline(always)]
    pub fn distance(&self, v: u32) -> Option<u64>
        ensures { result ≡ distance_of self.now v }
    {
        let step = v.checked_sub(self.first)?;
        distance_at(self.distances.as_slice(), step)
    }

    /// The hops towards v, in ascending order.
    #[inline(always)]
    pub fn hops_to(&self, v: u32) -> &[u32]
        ensures hops { result.now ≡ listed_hops_of self.now v }
        ensures ascending { IsStrictlyIncreasing result.now }
    {
        match v.checked_sub(self.first) {
            Some(step) => self.hops.at(step as usize),
            None => &[],
        }
    }
}
