ghost use Rattle.std.specs.Prelude.{◌≡◌, ◌<◌, ◌+◌, ◌++◌, ◌∷◌, [], IfOk, IfSome, OnOk, length};
ghost use Rattle.std.specs.Bool.{OnTrue};
ghost use Rattle.rib_mix.specs.steps.Features.{HaveFeatures, HaveSameFeatures};
ghost use Rattle.rib_mix.specs.steps.Sorts.{AreSorts, AreEarlierPlaces, IsLikeSort, IsOfSort, IsSorting, sort_at};

use crate::features::Features;
use crate::proposals::proposals_of;
use route_core::OutOfMemory;
use std::alloc::Global;

/// Sorts of prefixes: every router treats those of one sort alike. They are numbered in the order of their first prefixes.
#[derive(Drop)]
pub(crate) struct Sorts {
    /// The sort of each prefix, by its place.
    pub of_places: Vec<u32>,
    /// Of each sort the place of its first prefix.
    pub firsts: Vec<u32>,
    /// Of each sort that of the parents of its prefixes.
    pub parents: Vec<Option<u32>>,
}

impl Sorts {
    /// The sorts of prefixes with these features and parents.
    pub fn of_features(
        alloc: Global,
        features: &Features<'_, '_>,
        parents: &[Option<u32>],
    ) -> Result<Sorts, OutOfMemory>
        requires features { HaveFeatures (length parents.now) features.now }
        requires parents { AreEarlierPlaces parents.now }
        ensures { IfOk result (AreSorts (HaveSameFeatures features.now) parents.now (length parents.now)) }
    {
        let proposals = proposals_of(alloc, features, parents)?;
        let mut sorts = Sorts {
            of_places: Vec::with_capacity(alloc, parents.len())?,
            firsts: Vec::new(alloc),
            parents: Vec::new(alloc),
        };
        for place in 0..parents.len() {
            let proposal = named_at(proposals.as_slice(), place);
            sorts.add(features, parents, proposal)?;
        }
        Ok(sorts)
    }

    /// Adds the next prefix.
    fn add(
        &mut self,
        features: &Features<'_, '_>,
        parents: &[Option<u32>],
        proposal: Option<u32>,
    ) -> Result<(), OutOfMemory>
        requires next { length self.old.of_places.items < length parents.now }
        requires features { HaveFeatures (length parents.now) features.now }
        requires parents { AreEarlierPlaces parents.now }
        requires sorts { AreSorts (HaveSameFeatures features.now) parents.now (length self.old.of_places.items) self.old }
        ensures { OnOk result (AreSorts (HaveSameFeatures features.now) parents.now
            (length self.old.of_places.items + 1) self.new) }
    {
        let sort = self.next_sort(features, parents, proposal)?;
        Ok(self.of_places.push(sort)?)
    }

    /// The sort of the next prefix: that of the proposal where the two are alike, and else a new one.
    fn next_sort(
        &mut self,
        features: &Features<'_, '_>,
        parents: &[Option<u32>],
        proposal: Option<u32>,
    ) -> Result<u32, OutOfMemory>
        requires next { length self.old.of_places.items < length parents.now }
        requires features { HaveFeatures (length parents.now) features.now }
        requires parents { AreEarlierPlaces parents.now }
        requires sorts { AreSorts (HaveSameFeatures features.now) parents.now (length self.old.of_places.items) self.old }
        ensures is { IfOk result (IsOfSort (HaveSameFeatures features.now) parents.now self.new
            (length self.old.of_places.items)) }
        ensures sorts { OnOk result (AreSorts (HaveSameFeatures features.now) parents.now
            (length self.old.of_places.items) self.new) }
    {
        let place = self.of_places.len();
        let parent = sort_at(self.of_places.as_slice(), parents[place]);
        match self.alike_sort(features, parents.len(), proposal, parent) {
            Some(sort) => Ok(sort),
            None => Ok(self.add_sort(parent)?),
        }
    }

    /// The sort of the proposal, where the next prefix with a parent of this sort is of it too.
    fn alike_sort(
        &self,
        features: &Features<'_, '_>,
        places: usize,
        proposal: Option<u32>,
        parent: Option<u32>,
    ) -> Option<u32>
        requires next { length self.now.of_places.items < places }
        requires features { HaveFeatures places features.now }
        requires sorts { IsSorting places self.now }
        ensures { IfSome result (IsLikeSort features.now self.now parent) }
    {
        let sort = *self.of_places.as_slice().get(proposal? as usize)?;
        let first = self.firsts[sort as usize];
        let is_parent = is_same_sort(self.parents[sort as usize], parent);
        if is_parent && features.are_same(self.of_places.len(), first as usize, places) {
            Some(sort)
        } else {
            None
        }
    }

    /// Adds the sort of the next prefix, whose parent is of this one.
    fn add_sort(&mut self, parent: Option<u32>) -> Result<u32, OutOfMemory>
        ensures of_places { OnOk result (self.new.of_places.items ≡ self.old.of_places.items) }
        ensures sort { IfOk result (λ sort. sort ≡ length self.old.firsts.items) }
        ensures firsts { OnOk result (self.new.firsts.items ≡ self.old.firsts.items ++ length self.old.of_places.items ∷ []) }
        ensures parents { OnOk result (self.new.parents.items ≡ self.old.parents.items ++ parent ∷ []) }
    {
        let Ok(first) = u32::try_from(self.of_places.len()) else {
            return Err(OutOfMemory);
        };
        let Ok(sort) = u32::try_from(self.firsts.len()) else {
            return Err(OutOfMemory);
        };
        self.firsts.push(first)?;
        self.parents.push(parent)?;
        Ok(sort)
    }
}

/// The sort of the prefix at a place, if there is one.
pub(crate) fn sort_at(of_places: &[u32], place: Option<u32>) -> Option<u32>
    requires { IfSome place (λ i. i < length of_places.now) }
    ensures { result ≡ sort_at of_places.now place }
{
    match place {
        Some(place) => Some(of_places[place as usize]),
        None => None,
    }
}

/// Whether two sorts are the same, or there is neither.
fn is_same_sort(one: Option<u32>, other: Option<u32>) -> bool
    ensures { OnTrue result (one ≡ other) }
{
    one == other
}

/// The proposal that is named at a place.
fn named_at(proposals: &[Option<u32>], place: usize) -> Option<u32> {
    proposals.get(place).copied().flatten()
}
