ghost use Rattle.std.specs.Prelude.{◌≡◌, ◌<◌, IfOk, length};
ghost use Rattle.std.specs.Bool.{OnTrue};
ghost use Rattle.prefix_atoms.specs.Nested.{AreAscendingPrefixes};
ghost use Rattle.rib_mix.specs.steps.Features.{HaveFeatures, HaveSameFeatures};
ghost use Rattle.rib_mix.specs.steps.Homes.{ArePrefixHomes};
ghost use Rattle.rib_mix.specs.steps.Spots.{HaveSpots};

use crate::homes::{Homes, are_same, homes_of};
use crate::lanes::{Lane, Lanes, are_one_kind};
use crate::spots::Spots;
use crate::subnets::Subnets;
use net_addr::Prefix;
use route_core::{Number, OutOfMemory};
use std::alloc::Global;

/// What tells prefixes apart: the kinds that tables have of them, and the routers at which they are connected.
#[derive(Drop)]
pub(crate) struct Features<'a, 'b> {
    /// Where they stand among the prefixes of the tables.
    pub spots: &'a Spots,
    /// The lanes of the tables.
    pub lanes: &'a Lanes<'b>,
    /// Of each prefix the routers at which it is connected.
    pub homes: Vec<Homes>,
}

/// What one feature changes in a number made of all.
const DIGEST_FACTOR: u64 = 0x9E37_79B9_7F4A_7C15;

impl<'a, 'b> Features<'a, 'b> {
    /// The features of ascending prefixes.
    pub fn of_prefixes(
        alloc: Global,
        prefixes: &[Prefix],
        subnets: &[Subnets],
        lanes: &'a Lanes<'b>,
        spots: &'a Spots,
    ) -> Result<Features<'a, 'b>, OutOfMemory>
        requires ascending { AreAscendingPrefixes prefixes.now }
        requires spots { HaveSpots (length prefixes.now) spots.now }
        ensures places { IfOk result (HaveFeatures (length prefixes.now)) }
        ensures homes { IfOk result (λ features. ArePrefixHomes prefixes.now subnets.now features.homes.items) }
        ensures lanes { IfOk result (λ features. features.lanes.now ≡ lanes.now) }
        ensures spots { IfOk result (λ features. features.spots.now ≡ spots.now) }
    {
        Ok(Features {
            spots,
            lanes,
            homes: homes_of(alloc, prefixes, subnets)?,
        })
    }

    /// Whether two prefixes are known to have the same features.
    pub fn are_same(&self, one: usize, other: usize, places: usize) -> bool
        requires places { HaveFeatures places self.now }
        requires one { one < places }
        requires other { other < places }
        ensures { OnTrue result (HaveSameFeatures self.now one other) }
    {
        let spots = self.spots;
        if !are_one_kind(
            self.lanes.olds.as_slice(),
            spots.olds[one],
            spots.olds[other],
        ) {
            return false;
        }
        if !are_one_kind(
            self.lanes.news.as_slice(),
            spots.news[one],
            spots.news[other],
        ) {
            return false;
        }
        are_same(self.homes[one].as_slice(), self.homes[other].as_slice())
    }

    /// Of each prefix the routers at which it is connected.
    pub fn into_homes(self) -> Vec<Homes>
        ensures { result.items ≡ self.entry.homes.items }
    {
        let Features {
            spots: _spots,
            lanes: _lanes,
            homes,
        } = self;
        homes
    }

    /// A number made of the features of a prefix, and of that of its parent.
    pub fn digest(&self, place: usize, parent: u64) -> u64 {
        let digest = match self.homes.get(place) {
            Some(homes) => digest_of(homes.as_slice(), parent),
            None => parent,
        };
        let digest = lanes_digest(
            self.lanes.olds.as_slice(),
            self.spots.olds.get(place),
            digest,
        );
        lanes_digest(
            self.lanes.news.as_slice(),
            self.spots.news.get(place),
            digest,
        )
    }
}

/// A number made of others.
fn digest_of(numbers: &[u32], digest: u64) -> u64 {
    let mut digest = digest;
    for number in numbers {
        digest = digest_with(digest, *number);
    }
    digest
}

/// A number made of the kinds of the prefix at a spot.
fn lanes_digest(lanes: &[Lane<'_>], spot: Option<&Number>, digest: u64) -> u64 {
    let Some(number) = spot else {
        return digest;
    };
    let Some(spot) = number.get() else {
        return digest_with(digest, 0);
    };
    let mut digest = digest_with(digest, 1);
    for lane in lanes {
        digest = digest_with(digest, lane.kind(spot as usize));
    }
    digest
}

/// A number made of another one and of this.
#[inline(always)]
fn digest_with(digest: u64, number: u32) -> u64 {
    let mixed = (digest ^ u64::from(number)).wrapping_mul(DIGEST_FACTOR);
    mixed ^ (mixed >> 29)
}
