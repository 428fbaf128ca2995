ghost use Rattle.std.specs.Prelude.{◌≡◌, ◌↔◌, ◌≤◌, Any, IsTrue};
ghost use Rattle.net_model.specs.Least.{IsBest};
ghost use Rattle.net_model.specs.steps.Subnets.{BestSubnet, HasSubnet, HasSubnetAround, longer_of};

use crate::Interface;
use net_addr::Prefix;

/// The longest subnet of an up interface that contains the address.
pub(crate) fn longest_subnet(interfaces: &[Interface], a: u32) -> Option<Prefix>
    ensures { BestSubnet a interfaces.now result }
{
    let mut best = None;
    for interface in interfaces {
        best = longer(best, subnet_around(interface, a));
    }
    best
}

/// The longer of two prefixes, or the one that there is.
fn longer(one: Option<Prefix>, other: Option<Prefix>) -> Option<Prefix>
    ensures { result ≡ longer_of one other }
{
    match (one, other) {
        (Some(p), Some(q)) => Some(if p.len() < q.len() { q } else { p }),
        (Some(p), None) => Some(p),
        (None, q) => q,
    }
}

/// The subnet of the interface, if it is up and contains the address.
fn subnet_around(interface: &Interface, a: u32) -> Option<Prefix>
    ensures { IsBest (λ p q. q.len ≤ p.len) (λ p. HasSubnetAround a p interface.now) result }
{
    match interface.subnet {
        Some(subnet) if interface.up && subnet.contains(a) => Some(subnet),
        _ => None,
    }
}

/// Whether the prefix is the subnet of an interface that is up.
pub(crate) fn has_subnet(interfaces: &[Interface], dest: Prefix) -> bool
    ensures { IsTrue result ↔ Any (HasSubnet dest) interfaces.now }
{
    interfaces.iter().any(|i| is_subnet(i, dest))
}

/// Whether the interface is up and has this subnet.
fn is_subnet(interface: &Interface, dest: Prefix) -> bool
    ensures { IsTrue result ↔ HasSubnet dest interface.now }
{
    match interface.subnet {
        Some(subnet) => interface.up && subnet == dest,
        None => false,
    }
}
