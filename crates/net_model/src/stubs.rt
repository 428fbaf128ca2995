ghost use Rattle.std.specs.Prelude.{◌≡◌, ◌≤◌, ◌↔◌, nat_eq, length, [], All, Any, IfErr, IsTrue, OnOk};
ghost use Rattle.std.specs.Bool.{OnTrue};
ghost use Rattle.std.specs.List.{list_any};
ghost use Rattle.net_model.specs.Conditions.{DifferOnStub, StubsAgree};
ghost use Rattle.net_model.specs.Least.{IsBest};
ghost use Rattle.net_model.specs.Refusals.{MayStand};
ghost use Rattle.net_model.specs.steps.Scans.{ClashOnStub, HaveStub, OffersArea, OneHasStub};

use crate::areas::has_area;
use crate::claims::{Claim, Claims, claims_agree};
use crate::links::lower;
use crate::pairs::{Clash, first_clash};
use crate::{Config, Interface, MOST_ROUTERS, NetRefusal, Stub};
use std::alloc::Global;

/// Refuses an area of two routers for which one of them alone has a stub line.
pub fn check_stubs(alloc: Global, configs: &[Config]) -> Result<(), NetRefusal>
    requires { length configs.now ≤ MOST_ROUTERS }
    ensures ok { OnOk result (StubsAgree configs.now) }
    ensures err { IfErr result (λ e. MayStand 10 e configs.now) }
{
    if lack_stubs(configs) {
        return Ok(());
    }
    if claims_agree::<StubClaims>(alloc, configs)? {
        return Ok(());
    }
    match first_clash::<OneStub>(alloc, configs)? {
        Some(pair) => Err(NetRefusal::StubMismatch {
            one: pair.one,
            two: pair.two,
            area: pair.item,
        }),
        None => Ok(()),
    }
}

/// Whether no router has a stub line.
fn lack_stubs(configs: &[Config]) -> bool
    ensures { OnTrue result (All (λ c. c.stubs ≡ []) configs.now) }
{
    for config in configs {
        if !config.stubs.as_slice().is_empty() {
            return false;
        }
    }
    true
}

/// An up interface that runs OSPF claims that its area is a stub area, or that it is none, as its router says.
struct StubClaims;

impl Claims for StubClaims {
    ghost use Rattle.net_model.specs.steps.Claims.{stub_claim};

    ghost claimed = { stub_claim };

    fn claim(_router: u32, config: &Config, interface: &Interface) -> Option<Claim> {
        match interface.area {
            Some(area) if interface.up => Some(Claim {
                key: area,
                value: if has_stub(config.stubs.as_slice(), area) {
                    1
                } else {
                    0
                },
            }),
            _ => None,
        }
    }
}

/// Two routers clash in an area of both for which one alone has a stub line.
struct OneStub;

impl Clash for OneStub {
    type Item = u32;

    ghost clash = { DifferOnStub };

    ghost at_most = { λ a b. a ≤ b };

    fn least(configs: &[Config], one: u32, two: u32) -> Option<u32> {
        least_area(&configs[one as usize], &configs[two as usize])
    }
}

/// The least area of two routers for which one of them alone has a stub line.
fn least_area(one: &Config, two: &Config) -> Option<u32>
    ensures { IsBest (λ a b. a ≤ b) (λ a. Any (OffersArea one.now two.now a) one.now.interfaces) result }
{
    let mut least = None;
    for interface in one.interfaces.as_slice() {
        least = lower(least, clashing_area(interface, one, two));
    }
    least
}

/// The area that the interface runs in, if an interface of the second router does too, and one router alone has a
/// stub line for it.
fn clashing_area(interface: &Interface, one: &Config, two: &Config) -> Option<u32>
    ensures { IsBest (λ a b. a ≤ b) (λ a. OffersArea one.now two.now a interface.now) result }
{
    match interface.area {
        Some(area) if interface.up && clash(area, one, two) => Some(area),
        _ => None,
    }
}

/// Whether an interface of the second router is in the area, and one router alone has a stub line for it.
fn clash(area: u32, one: &Config, two: &Config) -> bool
    ensures { IsTrue result ↔ ClashOnStub area one.now two.now }
{
    one_has_stub(area, one.stubs.as_slice(), two.stubs.as_slice())
        && has_area(two.interfaces.as_slice(), area)
}

/// Whether a stub line for the area is in one of the lists alone.
fn one_has_stub(area: u32, ones: &[Stub], twos: &[Stub]) -> bool
    ensures { IsTrue result ↔ OneHasStub area ones.now twos.now }
{
    has_stub(ones, area) != has_stub(twos, area)
}

/// Whether a stub line for the area is among these.
fn has_stub(stubs: &[Stub], area: u32) -> bool
    ensures whether { IsTrue result ↔ HaveStub area stubs.now }
    ensures value { result ≡ list_any (λ s. nat_eq s.area area) stubs.now }
{
    stubs.iter().any(|s| s.area == area)
}
