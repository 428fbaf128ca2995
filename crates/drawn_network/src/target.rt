ghost use Rattle.std.specs.Prelude.{◌≡◌, ◌+◌, MatchOption};
ghost use Rattle.std.specs.List.{list_any};
ghost use Rattle.net_addr.specs.Addresses.{Block};
ghost use Rattle.net_addr.specs.LongestMatches.{IsBestMatch};
ghost use Rattle.igp_theory.specs.Forwarding.{IsOriginated};
ghost use Rattle.drawn_network.specs.Marks.{fault_marked};
ghost use Rattle.drawn_network.specs.Pictures.{IsFaultTarget};
ghost use Rattle.drawn_network.specs.RouterLines.{has_target, is_prefix, is_up_with};
ghost use Rattle.drawn_network.specs.steps.Originated.{IsBetter, IsLongerOf, IsOriginatedTo, OriginatesAt, is_running};

use crate::ends::interfaces_at;
use crate::mark::Mark;
use net_addr::Prefix;
use net_model::{Interface, Net};

/// The target of the address of a fault, none where there is no fault.
pub(crate) fn fault_target(net: &Net, mark: Mark<'_>) -> Option<Prefix>
    ensures { IsFaultTarget net.now (fault_marked mark.entry) result }
{
    match mark {
        Mark::Nothing => None,
        Mark::Ring { address, .. } | Mark::Lacking { address, .. } => target_of(net, address),
    }
}

/// The longest prefix with an address that OSPF or IS-IS originates.
fn target_of(net: &Net, a: u32) -> Option<Prefix>
    ensures { IsBestMatch (IsOriginated net.now) a result }
{
    let mut best = None;
    for router in 0..net.routers() {
        best = longest_at(net, router, a, best);
    }
    best
}

/// The longest of the best match among the routers before and the prefixes of this router.
fn longest_at(net: &Net, router: u32, a: u32, best: Option<Prefix>) -> Option<Prefix>
    requires { IsBestMatch (IsOriginatedTo net.now router 0) a best }
    ensures { IsBestMatch (IsOriginatedTo net.now (router + 1) 0) a result }
{
    let interfaces = interfaces_at(net, router);
    let mut best = best;
    for place in 0..interfaces.len() {
        best = better(a, best, &interfaces[place]);
    }
    best
}

/// The better of the best match so far and the prefix of an interface.
fn better(a: u32, best: Option<Prefix>, interface: &Interface) -> Option<Prefix>
    ensures { IsBetter a best interface.now result }
{
    match offered_at(interface, a) {
        Some(prefix) => Some(longer(best, prefix)),
        None => best,
    }
}

/// The prefix with an address that an interface originates.
fn offered_at(interface: &Interface, a: u32) -> Option<Prefix>
    ensures { MatchOption result ((p : Block) → OriginatesAt a interface.now p → ⊥) (OriginatesAt a interface.now) }
{
    let prefix = interface.subnet?;
    if is_running(interface) && prefix.contains(a) {
        Some(prefix)
    } else {
        None
    }
}

/// Whether an interface is up, and runs OSPF or a level of IS-IS.
fn is_running(interface: &Interface) -> bool
    ensures { result ≡ is_running interface.now }
{
    interface.up && (interface.area.is_some() || interface.level1 || interface.level2)
}

/// The longer of two prefixes, of which the first may be absent.
fn longer(best: Option<Prefix>, prefix: Prefix) -> Prefix
    ensures { IsLongerOf best prefix result }
{
    match best {
        Some(other) if prefix.len() <= other.len() => other,
        _ => prefix,
    }
}

/// Whether one of some interfaces is up, and its subnet is the target, if there is one.
pub(crate) fn has_target(target: Option<Prefix>, interfaces: &[Interface]) -> bool
    ensures { result ≡ has_target target interfaces.now }
{
    match target {
        Some(target) => has_prefix(target, interfaces),
        None => false,
    }
}

/// Whether one of them is up, and its subnet is this prefix.
fn has_prefix(prefix: Prefix, interfaces: &[Interface]) -> bool
    ensures { result ≡ list_any (is_up_with prefix) interfaces.now }
{
    interfaces
        .iter()
        .any(|interface| is_up_with(prefix, interface))
}

/// Whether an interface is up, and its subnet is this prefix.
fn is_up_with(prefix: Prefix, interface: &Interface) -> bool
    ensures { result ≡ is_up_with prefix interface.now }
{
    interface.up && is_prefix(prefix, interface.subnet)
}

/// Whether a prefix is that of an interface.
fn is_prefix(prefix: Prefix, subnet: Option<Prefix>) -> bool
    ensures { result ≡ is_prefix prefix subnet }
{
    match subnet {
        Some(subnet) => prefix.base() == subnet.base() && prefix.len() == subnet.len(),
        None => false,
    }
}
