ghost use Rattle.std.specs.Prelude.{◌≡◌, ◌<◌, ◌↔◌, length, slice_index_or, None, Some, IfOk, IfSome, IsTrue};
ghost use Rattle.isis_routes.specs.steps.Alike.{AreAlikeDestinations, AreEarlierAlike, IsEarlierAlike};

use crate::OutOfMemory;
use crate::destinations::Destination;
use route_tables::{are_alike, is_all_addresses};
use std::alloc::Global;

/// For each destination an earlier one for which every router has the same routes, where one is known: the latest one
/// that is connected at the same router and at no other. It takes time of the destinations.
pub(crate) fn earlier_alike(
    alloc: Global,
    destinations: &[Destination],
    routers: u32,
) -> Result<Vec<Option<usize>>, OutOfMemory>
    ensures { IfOk result (λ earlier. AreEarlierAlike destinations.now earlier.items) }
{
    let mut latest = vec![in alloc; None; routers as usize]?;
    let mut all = Vec::with_capacity(alloc, destinations.len())?;
    for place in 0..destinations.len() {
        let earlier = take_latest(&mut latest, destinations, place);
        all.push(alike_before(destinations, place, earlier))?;
    }
    Ok(all)
}

/// The latest place of a destination that is connected at the router that a destination is, and there alone. From now
/// on it is the place of this one.
fn take_latest(
    latest: &mut Vec<Option<usize>>,
    destinations: &[Destination],
    place: usize,
) -> Option<usize>
    requires { place < length destinations.now }
{
    let router = destinations[place].one.lone_home()? as usize;
    if router >= latest.len() {
        return None;
    }
    let earlier = latest[router];
    latest[router] = Some(place);
    earlier
}

/// The place of an earlier destination, where it is alike.
fn alike_before(destinations: &[Destination], place: usize, earlier: Option<usize>) -> Option<usize>
    requires { place < length destinations.now }
    ensures { IfSome result (IsEarlierAlike destinations.now place) }
{
    match earlier {
        Some(earlier) if is_alike_before(destinations, place, earlier) => Some(earlier),
        _ => None,
    }
}

/// Whether a destination is earlier and alike.
fn is_alike_before(destinations: &[Destination], place: usize, earlier: usize) -> bool
    requires { place < length destinations.now }
    ensures { IsTrue result → IsEarlierAlike destinations.now place earlier }
{
    if place <= earlier {
        return false;
    }
    are_alike_destinations(&destinations[earlier], &destinations[place])
}

/// Whether two destinations have the same homes, neither is the prefix of all addresses, and what is offered and
/// announced of them differs by constants. What one kind of routes costs never decides between kinds.
fn are_alike_destinations(one: &Destination, other: &Destination) -> bool
    ensures { IsTrue result → AreAlikeDestinations one.now other.now }
{
    if !are_same(one.one.homes.as_slice(), other.one.homes.as_slice()) {
        return false;
    }
    if is_all_addresses(one.one.dest) {
        return false;
    }
    if is_all_addresses(other.one.dest) {
        return false;
    }
    if !are_alike(one.one.offers.as_slice(), other.one.offers.as_slice()) {
        return false;
    }
    if !are_alike(one.two.as_slice(), other.two.as_slice()) {
        return false;
    }
    are_alike(one.down.as_slice(), other.down.as_slice())
}

/// Whether two lists of routers are the same.
fn are_same(one: &[u32], other: &[u32]) -> bool
    ensures { IsTrue result ↔ (one.now ≡ other.now) }
{
    one == other
}

/// The earlier destination that is named at a place.
pub(crate) fn named_at(named: &[Option<usize>], place: usize) -> Option<usize>
    ensures { IfSome result (λ earlier. slice_index_or named.now place None ≡ Some earlier) }
{
    named.get(place).copied().flatten()
}
