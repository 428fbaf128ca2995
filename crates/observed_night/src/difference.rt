ghost use Rattle.std.specs.Prelude.{◌≡◌, MatchOption};
ghost use Rattle.net_model.specs.Configuration.{Configuration};
ghost use Rattle.net_model.specs.Network.{HasConfiguration};
ghost use Rattle.net_model.specs.Refusals.{IsNetwork};
ghost use Rattle.observed_night.specs.Differences.{AreOneNight, IsLeastDifference};
ghost use Rattle.observed_night.specs.Parts.{AreAlikeButDistances};
ghost use Rattle.observed_night.specs.steps.Sights.{AreAlikeAt, DifferAtNumber, DifferBy};

use crate::Part;
use crate::alike::first_part;
use net_model::{Config, Net};
use std::cmp::Ordering;

/// A router that isn't as it was, and what of it.
#[derive(Clone, Copy, Debug)]
pub struct Difference<'a> {
    /// Its name.
    pub name: &'a [u8],
    /// The first part that differs.
    pub part: Part,
}

/// The least router, by its name, that is another one now than before, distances apart.
///
/// It compares the interfaces of each router with each other.
pub fn first_difference<'a>(before: &'a Net, now: &'a Net) -> Option<Difference<'a>>
    ensures difference { MatchOption result
        (AreOneNight before.now now.now)
        (λ found. IsLeastDifference before.now now.now found.name.now found.part) }
    ensures network { IsNetwork before.now }
{
    for router in 0..before.routers().max(now.routers()) {
        if let Some(found) = difference_at(before, now, router) {
            return Some(found);
        }
    }
    None
}

/// What differs at a number: of two names the lesser one is told.
fn difference_at<'a>(before: &'a Net, now: &'a Net, router: u32) -> Option<Difference<'a>>
    ensures { MatchOption result
        (AreAlikeAt before.now now.now router)
        (λ found. DifferAtNumber before.now now.now router found.name.now found.part) }
{
    match (config_at(before, router), config_at(now, router)) {
        (Some(one), Some(its)) => difference_of(one, its),
        (Some(one), None) => Some(stands_alone(one)),
        (None, Some(its)) => Some(stands_alone(its)),
        (None, None) => None,
    }
}

/// The configuration of a number, where there is one.
fn config_at(net: &Net, router: u32) -> Option<&Config>
    ensures { MatchOption result
        ((config : Configuration) → HasConfiguration net.now router config → ⊥)
        (λ config. HasConfiguration net.now router config.now) }
{
    if router < net.routers() {
        Some(net.config(router))
    } else {
        None
    }
}

/// What two configurations of one number differ in.
fn difference_of<'a>(one: &'a Config, its: &'a Config) -> Option<Difference<'a>>
    ensures { MatchOption result
        (AreAlikeButDistances one.now its.now)
        (λ found. DifferBy one.now its.now found.name.now found.part) }
{
    match one.name.as_slice().cmp(its.name.as_slice()) {
        Ordering::Less => Some(stands_alone(one)),
        Ordering::Greater => Some(stands_alone(its)),
        Ordering::Equal => {
            let part = first_part(one, its)?;
            Some(Difference {
                name: one.name.as_slice(),
                part,
            })
        }
    }
}

/// That a router stands in one of the networks alone.
fn stands_alone(config: &Config) -> Difference<'_>
    ensures name { result.name.now ≡ config.now.name }
    ensures part { result.part ≡ Part.Name }
{
    Difference {
        name: config.name.as_slice(),
        part: Part::Name,
    }
}
