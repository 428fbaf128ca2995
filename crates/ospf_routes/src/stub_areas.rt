ghost use Rattle.std.specs.Prelude.{◌≡◌, ◌<◌, ◌↔◌, length, Some, Any, IsTrue, OnOk};
ghost use Rattle.igp_theory.specs.Ospf.{IsTotallyStubby};
ghost use Rattle.walk_core.specs.declared.offers.Offer.{Offer as OfferValue};
ghost use Rattle.ospf_routes.specs.Lists.{Adds};
ghost use Rattle.ospf_routes.specs.steps.Areas.{IsArea};
ghost use Rattle.ospf_routes.specs.steps.Members.{IsBorderIn};
ghost use Rattle.ospf_routes.specs.steps.Summarized.{HasDefault, IsAlone, IsDefault, RouterDefault};

use crate::OutOfMemory;
use crate::areas::AreaWalks;
use crate::domain::Domain;
use net_addr::Prefix;
use net_model::Stub;
use route_tables::{is_all_addresses, push_option};
use walk_core::Offer;

/// Whether router `b` announces nothing but a default route into the area.
pub(crate) fn is_totally_stubby(domain: &Domain<'_>, b: u32, area: u32) -> bool
    requires { b < length domain.now.net }
    ensures { IsTrue result ↔ IsTotallyStubby domain.now.net b area }
{
    some_alone(domain.config(b).stubs.as_slice(), area)
}

/// Whether one of the stub areas is this one, with a default route alone.
fn some_alone(stubs: &[Stub], area: u32) -> bool
    ensures { IsTrue result ↔ Any (IsAlone area) stubs.now }
{
    stubs.iter().any(|stub| is_alone(*stub, area))
}

/// Whether the stub area is this one, with a default route alone.
fn is_alone(stub: Stub, area: u32) -> bool
    ensures { IsTrue result ↔ IsAlone area stub }
{
    stub.area == area && stub.no_summary
}

/// Adds the default route of each border router in the area that says of it that it is a stub area.
pub(crate) fn push_defaults(
    offers: &mut Vec<Offer>,
    domain: &Domain<'_>,
    area: &AreaWalks,
    dest: Prefix,
) -> Result<(), OutOfMemory>
    requires { IsArea domain.now.net area.now }
    ensures { OnOk result (Adds offers.old.items offers.new.items (λ o. HasDefault domain.now.net area.now.number dest o)) }
{
    if !is_all_addresses(dest) {
        return Ok(());
    }
    for b in area.borders.as_slice() {
        push_router_defaults(offers, domain, area.number, *b)?;
    }
    Ok(())
}

/// Adds the default route of router `b`, a border router in the area.
fn push_router_defaults(
    offers: &mut Vec<Offer>,
    domain: &Domain<'_>,
    area: u32,
    b: u32,
) -> Result<(), OutOfMemory>
    requires router { b < length domain.now.net }
    requires border { IsBorderIn domain.now.net area b }
    ensures { OnOk result (Adds offers.old.items offers.new.items (λ o. RouterDefault domain.now.net area b o)) }
{
    push_stub_defaults(offers, domain.config(b).stubs.as_slice(), area, b)
}

/// Adds the default route of each of the stub areas that is this one.
fn push_stub_defaults(
    offers: &mut Vec<Offer>,
    stubs: &[Stub],
    area: u32,
    b: u32,
) -> Result<(), OutOfMemory>
    ensures { OnOk result (Adds offers.old.items offers.new.items (λ o. Any (IsDefault area b o) stubs.now)) }
{
    for stub in stubs {
        push_option(offers, default_offer(*stub, area, b))?;
    }
    Ok(())
}

/// The default route into a stub area, where it is this one.
fn default_offer(stub: Stub, area: u32, b: u32) -> Option<Offer>
    ensures { (o : OfferValue) → (result ≡ Some o) ↔ IsDefault area b o stub }
{
    if stub.area == area {
        Some(Offer {
            at: b,
            asks: u64::from(stub.default_cost),
        })
    } else {
        None
    }
}
