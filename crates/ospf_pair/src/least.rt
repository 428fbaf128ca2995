ghost use Rattle.std.specs.Prelude.{◌≡◌, ℕ, List, IfOk, MatchOption};
ghost use Rattle.net_model.specs.Least.{IsLowest};
ghost use Rattle.net_model.specs.Lookups.{IsNamed};
ghost use Rattle.net_model.specs.Refusals.{IsNetwork};
ghost use Rattle.ospf_pair.specs.NetworkPairs.{HaveSameRouters, NoRouterMeets, RouterMeets, StandsInOne, network_pair};
ghost use Rattle.ospf_pair.specs.PairRefusals.{IsLeastName};
ghost use Rattle.ospf_pair.specs.steps.Places.{IsLesserAt, IsLesserOf, IsNamedAlikeAt, MeetsAt};

use crate::conditions::PairCondition;
use net_addr::Name;
use net_model::Net;
use std::alloc::{AllocError, Global};
use std::cmp::Ordering;

/// The least name of a router that stands in one of the two networks alone.
///
/// The names of both ascend, so it is the lesser one at the first number where they differ.
pub(crate) fn least_missing(alloc: Global, old: &Net, new: &Net) -> Result<Option<Name>, AllocError>
    ensures { IfOk result (λ found. MatchOption found
        (HaveSameRouters (network_pair old.now new.now))
        (IsLeastName (StandsInOne (network_pair old.now new.now)))) }
{
    for router in 0..old.routers().max(new.routers()) {
        if let Some(name) = lesser_name(old, new, router) {
            return Ok(Some(copied(alloc, name)?));
        }
    }
    Ok(None)
}

/// The lesser of the names that the two networks have at a number, where they aren't the same.
fn lesser_name<'a>(old: &'a Net, new: &'a Net, router: u32) -> Option<&'a [u8]>
    ensures { MatchOption result
        (IsNamedAlikeAt (network_pair old.now new.now) router)
        (λ name. IsLesserAt (network_pair old.now new.now) router name.now) }
{
    match (name_at(old, router), name_at(new, router)) {
        (Some(one), Some(other)) => lesser(one, other),
        (Some(name), None) => Some(name),
        (None, found) => found,
    }
}

/// The name of the router of a number, where there is one.
fn name_at(net: &Net, router: u32) -> Option<&[u8]>
    ensures { MatchOption result
        ((name : List ℕ) → IsNamed net.now name router → ⊥)
        (λ name. IsNamed net.now name.now router) }
{
    if router < net.routers() {
        Some(net.config(router).name.as_slice())
    } else {
        None
    }
}

/// The lesser of two names, where they differ.
fn lesser<'a>(one: &'a [u8], other: &'a [u8]) -> Option<&'a [u8]>
    ensures { MatchOption result (one.now ≡ other.now) (λ name. IsLesserOf one.now other.now name.now) }
{
    match one.cmp(other) {
        Ordering::Less => Some(one),
        Ordering::Greater => Some(other),
        Ordering::Equal => None,
    }
}

/// The least name of a router that meets a condition.
pub(crate) fn least_meeting<C: PairCondition>(
    alloc: Global,
    old: &Net,
    new: &Net,
) -> Result<Option<Name>, AllocError>
    requires { HaveSameRouters (network_pair old.now new.now) }
    ensures { IfOk result (λ found. MatchOption found
        (NoRouterMeets C.condition (network_pair old.now new.now))
        (IsLeastName (RouterMeets C.condition (network_pair old.now new.now)))) }
{
    match first_meeting::<C>(old, new) {
        Some(router) => Ok(Some(copied(alloc, old.config(router).name.as_slice())?)),
        None => Ok(None),
    }
}

/// The lowest router that meets a condition.
fn first_meeting<C: PairCondition>(old: &Net, new: &Net) -> Option<u32>
    requires { HaveSameRouters (network_pair old.now new.now) }
    ensures found { MatchOption result
        ((u : ℕ) → MeetsAt C.condition (network_pair old.now new.now) u → ⊥)
        (IsLowest (MeetsAt C.condition (network_pair old.now new.now))) }
    ensures network { IsNetwork old.now }
{
    for router in 0..old.routers() {
        if C::is_met(old.config(router), new.config(router)) {
            return Some(router);
        }
    }
    None
}

/// A name of these bytes.
fn copied(alloc: Global, bytes: &[u8]) -> Result<Name, AllocError>
    ensures { IfOk result (λ name. name ≡ bytes.now) }
{
    Ok(Name::from_vec(Vec::from_slice(alloc, bytes)?))
}
