ghost use Rattle.std.specs.Prelude.{◌≡◌, ◌≤◌, ◌↔◌, ◌||◌, ◌&&◌, nat_eq, nat_lt, length, Any, IfErr, IsTrue, OnOk};
ghost use Rattle.net_model.specs.Conditions.{AreasAgree, RunTwoAreas};
ghost use Rattle.net_model.specs.Least.{IsBest, IsBlockAtMost};
ghost use Rattle.net_model.specs.Refusals.{MayStand};
ghost use Rattle.net_model.specs.Network.{RunsArea};
ghost use Rattle.net_model.specs.steps.Scans.{AreInTwoAreas, ClashOnArea, OffersDest, first_block};

use crate::claims::{Claim, Claims, claims_agree};
use crate::links::share_subnet;
use crate::pairs::{Clash, first_clash};
use crate::{Config, Interface, MOST_ROUTERS, NetRefusal};
use net_addr::Prefix;
use std::alloc::Global;

/// Refuses a subnet that up interfaces run in different OSPF areas.
pub fn check_areas(alloc: Global, configs: &[Config]) -> Result<(), NetRefusal>
    requires { length configs.now ≤ MOST_ROUTERS }
    ensures ok { OnOk result (AreasAgree configs.now) }
    ensures err { IfErr result (λ e. MayStand 5 e configs.now) }
{
    if claims_agree::<AreaClaims>(alloc, configs)? {
        return Ok(());
    }
    match first_clash::<TwoAreas>(alloc, configs)? {
        Some(pair) => Err(NetRefusal::PrefixInTwoAreas {
            one: pair.one,
            two: pair.two,
            dest: pair.item,
        }),
        None => Ok(()),
    }
}

/// An up interface that runs OSPF claims the first address of its subnet for its area.
struct AreaClaims;

impl Claims for AreaClaims {
    ghost use Rattle.net_model.specs.steps.Claims.{area_claim};

    ghost claimed = { area_claim };

    fn claim(_router: u32, _config: &Config, interface: &Interface) -> Option<Claim> {
        match (interface.subnet, interface.area) {
            (Some(subnet), Some(area)) if interface.up => Some(Claim {
                key: subnet.base(),
                value: area,
            }),
            _ => None,
        }
    }
}

/// Two routers clash in a subnet that an interface of each runs, in different areas.
struct TwoAreas;

impl Clash for TwoAreas {
    type Item = Prefix;

    ghost clash = { RunTwoAreas };

    ghost at_most = { IsBlockAtMost };

    fn least(configs: &[Config], one: u32, two: u32) -> Option<Prefix> {
        let near = &configs[one as usize];
        let far = &configs[two as usize];
        least_dest(near.interfaces.as_slice(), far.interfaces.as_slice())
    }
}

/// The least subnet of an interface that one of the others runs in another area.
fn least_dest(interfaces: &[Interface], others: &[Interface]) -> Option<Prefix>
    ensures { IsBest IsBlockAtMost (λ p. Any (OffersDest others.now p) interfaces.now) result }
{
    let mut least = None;
    for interface in interfaces {
        least = first(least, clashing_dest(interface, others));
    }
    least
}

/// The first of two prefixes, by base and then by length, or the one that there is.
fn first(one: Option<Prefix>, other: Option<Prefix>) -> Option<Prefix>
    ensures { result ≡ first_block one other }
{
    match (one, other) {
        (Some(p), Some(q)) => Some(if is_before(q, p) { q } else { p }),
        (Some(p), None) => Some(p),
        (None, q) => q,
    }
}

/// Whether the first prefix is before the second: by base, then by length.
fn is_before(one: Prefix, two: Prefix) -> bool
    ensures { result ≡ (nat_lt one.base two.base || (nat_eq one.base two.base && nat_lt one.len two.len)) }
{
    one.base() < two.base() || (one.base() == two.base() && one.len() < two.len())
}

/// The interface's subnet, if one of the others runs it in another area.
fn clashing_dest(interface: &Interface, others: &[Interface]) -> Option<Prefix>
    ensures { IsBest IsBlockAtMost (λ p. OffersDest others.now p interface.now) result }
{
    match interface.subnet {
        Some(subnet) if others.iter().any(|other| clash(interface, other)) => Some(subnet),
        _ => None,
    }
}

/// Whether two up interfaces of one subnet run OSPF in different areas.
fn clash(one: &Interface, two: &Interface) -> bool
    ensures { IsTrue result ↔ ClashOnArea one.now two.now }
{
    in_two_areas(one, two) && share_subnet(one, two)
}

/// Whether two interfaces are up and run OSPF in different areas.
pub(crate) fn in_two_areas(one: &Interface, two: &Interface) -> bool
    ensures { IsTrue result ↔ AreInTwoAreas one.now two.now }
{
    match (one.area, two.area) {
        (Some(area), Some(other)) => one.up && two.up && area != other,
        _ => false,
    }
}

/// Whether an up interface runs OSPF in the area.
pub(crate) fn has_area(interfaces: &[Interface], area: u32) -> bool
    ensures { IsTrue result ↔ Any (RunsArea area) interfaces.now }
{
    interfaces.iter().any(|i| runs_area(i, area))
}

/// Whether the interface is up and runs OSPF in the area.
fn runs_area(interface: &Interface, area: u32) -> bool
    ensures { IsTrue result ↔ RunsArea area interface.now }
{
    interface.up && interface.area == Some(area)
}
