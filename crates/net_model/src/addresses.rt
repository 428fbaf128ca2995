ghost use Rattle.std.specs.Prelude.{◌^◌, ◌<◌, ◌≤◌, ◌↔◌, ℕ, length, Any, IfErr, IfOk, IsTrue, OnOk};
ghost use Rattle.std.specs.Bool.{OnTrue};
ghost use Rattle.net_model.specs.Conditions.{AddressesDiffer, HaveOneAddress};
ghost use Rattle.net_model.specs.Least.{IsBest};
ghost use Rattle.net_model.specs.Refusals.{MayStand};
ghost use Rattle.net_model.specs.steps.Scans.{ClashOnAddress, OffersAddress};

use crate::claims::{Claim, Claims, claims_agree};
use crate::links::lower;
use crate::pairs::{Clash, first_clash};
use crate::{Config, Interface, MOST_ROUTERS, NetRefusal};
use std::alloc::{AllocError, Global};

/// Refuses an address that two up interfaces have, if they belong to one router or one of them is no loopback.
pub fn check_addresses(alloc: Global, configs: &[Config]) -> Result<(), NetRefusal>
    requires { length configs.now ≤ MOST_ROUTERS }
    ensures ok { OnOk result (AddressesDiffer configs.now) }
    ensures err { IfErr result (λ e. MayStand 4 e configs.now) }
{
    if addresses_differ(alloc, configs)? {
        return Ok(());
    }
    match first_clash::<OneAddress>(alloc, configs)? {
        Some(pair) => Err(NetRefusal::AddressTwice {
            one: pair.one,
            two: pair.two,
            address: pair.item,
        }),
        None => Ok(()),
    }
}

/// Whether each address is of one router, which has it once, or of loopbacks. Then no pair of routers needs to be
/// looked at.
fn addresses_differ(alloc: Global, configs: &[Config]) -> Result<bool, AllocError>
    requires { length configs.now < 2 ^ 32 }
    ensures { IfOk result (λ apart. OnTrue apart (AddressesDiffer configs.now)) }
{
    let agree = claims_agree::<AddressClaims>(alloc, configs)?;
    Ok(agree && own_addresses_differ(configs))
}

/// Whether each router has its addresses once.
fn own_addresses_differ(configs: &[Config]) -> bool
    requires { length configs.now < 2 ^ 32 }
    ensures { OnTrue result ((u a : ℕ) → u < length configs.now → HaveOneAddress configs.now u u a → ⊥) }
{
    for router in 0..configs.len() as u32 {
        match OneAddress::least(configs, router, router) {
            Some(_) => return false,
            None => {}
        }
    }
    true
}

/// An up interface claims its address for its router, a loopback for all loopbacks.
struct AddressClaims;

impl Claims for AddressClaims {
    ghost use Rattle.net_model.specs.steps.Claims.{address_claim};

    ghost claimed = { address_claim };

    fn claim(router: u32, _config: &Config, interface: &Interface) -> Option<Claim> {
        if interface.up {
            Some(Claim {
                key: interface.address,
                value: if interface.loopback { u32::MAX } else { router },
            })
        } else {
            None
        }
    }
}

/// Two routers clash in an address that an interface of each has.
struct OneAddress;

impl Clash for OneAddress {
    type Item = u32;

    ghost clash = { HaveOneAddress };

    ghost at_most = { λ a b. a ≤ b };

    fn least(configs: &[Config], one: u32, two: u32) -> Option<u32> {
        let near = &configs[one as usize];
        let far = &configs[two as usize];
        least_address(
            one == two,
            near.interfaces.as_slice(),
            far.interfaces.as_slice(),
        )
    }
}

/// The least address over which an interface clashes with one of the others.
fn least_address(same: bool, interfaces: &[Interface], others: &[Interface]) -> Option<u32>
    ensures { IsBest (λ a b. a ≤ b) (λ a. Any (OffersAddress same others.now a) interfaces.now) result }
{
    let mut least = None;
    for interface in interfaces {
        least = lower(least, clashing_address(same, interface, others));
    }
    least
}

/// The interface's address, if it clashes over it with one of the others.
fn clashing_address(same: bool, interface: &Interface, others: &[Interface]) -> Option<u32>
    ensures { IsBest (λ a b. a ≤ b) (λ a. OffersAddress same others.now a interface.now) result }
{
    if clashes(same, interface, others) {
        Some(interface.address)
    } else {
        None
    }
}

/// Whether the interface clashes with one of the others.
fn clashes(same: bool, interface: &Interface, others: &[Interface]) -> bool
    ensures { IsTrue result ↔ Any (ClashOnAddress same interface.now) others.now }
{
    others.iter().any(|other| clash(same, interface, other))
}

/// Whether two interfaces, of one router or of two, have one address and may not.
fn clash(same: bool, one: &Interface, two: &Interface) -> bool
    ensures { IsTrue result ↔ ClashOnAddress same one.now two.now }
{
    one.up
        && two.up
        && one.address == two.address
        && if same {
            one.name.as_slice() != two.name.as_slice()
        } else {
            !one.loopback || !two.loopback
        }
}
