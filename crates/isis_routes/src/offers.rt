ghost use Rattle.std.specs.Prelude.{◌≡◌, ◌<◌, ◌↔◌, length, Some, Any, OnOk};
ghost use Rattle.route_tables.specs.Lists.{Adds};
ghost use Rattle.walk_core.specs.declared.offers.Offer.{Offer as OfferValue};
ghost use Rattle.isis_routes.specs.steps.Homes.{AreRoutersAt};
ghost use Rattle.isis_routes.specs.steps.Offered.{AsksIn, IsOffer, OffersIn, AddsOffers, HoldsOffers};

use crate::OutOfMemory;
use crate::level::Level;
use net_addr::Prefix;
use net_model::{Interface, Net};
use route_tables::push_option;
use walk_core::Offer;

/// Puts what the subnets of all routers' interfaces in the level offer of a prefix, which is connected at these routers, in
/// place of other offers.
pub(crate) fn put_level_offers(
    offers: &mut Vec<Offer>,
    net: &Net,
    level: Level,
    dest: Prefix,
    homes: &[u32],
) -> Result<(), OutOfMemory>
    requires { AreRoutersAt net.now dest homes.now }
    ensures { OnOk result (HoldsOffers (OffersIn net.now level dest) offers.new.items) }
{
    offers.clear();
    for router in homes {
        push_router_offers(offers, net, level, dest, *router)?;
    }
    Ok(())
}

/// Adds what a router's own interfaces offer of a prefix.
pub(crate) fn push_router_offers(
    offers: &mut Vec<Offer>,
    net: &Net,
    level: Level,
    dest: Prefix,
    router: u32,
) -> Result<(), OutOfMemory>
    requires { router < length net.now }
    ensures { OnOk result (AddsOffers offers.old.items offers.new.items router (OffersIn net.now level dest router)) }
{
    let interfaces = net.config(router).interfaces.as_slice();
    push_offers(offers, level, dest, interfaces, router)
}

/// Adds what the interfaces of a router offer.
fn push_offers(
    offers: &mut Vec<Offer>,
    level: Level,
    dest: Prefix,
    interfaces: &[Interface],
    router: u32,
) -> Result<(), OutOfMemory>
    ensures { OnOk result (Adds offers.old.items offers.new.items (λ o. Any (λ i. IsOffer router (AsksIn level dest i) o) interfaces.now)) }
{
    for interface in interfaces {
        push_option(offers, interface_offer(level, dest, interface, router))?;
    }
    Ok(())
}

/// What an interface of a router offers of a prefix in the level, where the prefix is its subnet.
fn interface_offer(level: Level, dest: Prefix, interface: &Interface, router: u32) -> Option<Offer>
    ensures { (o : OfferValue) → (result ≡ Some o) ↔ IsOffer router (AsksIn level dest interface.now) o }
{
    let (runs, metric) = match level {
        Level::One => (interface.level1, interface.metric1),
        Level::Two => (interface.level2, interface.metric2),
    };
    match interface.subnet {
        Some(subnet) if interface.up && runs && subnet == dest => Some(Offer {
            at: router,
            asks: u64::from(metric),
        }),
        _ => None,
    }
}

/// Adds an offer at this cost, if there is one.
pub(crate) fn push_cost(
    offers: &mut Vec<Offer>,
    at: u32,
    cost: Option<u64>,
) -> Result<(), OutOfMemory>
    ensures { OnOk result (AddsOffers offers.old.items offers.new.items at (λ asks. cost ≡ Some asks)) }
{
    match cost {
        Some(asks) => Ok(offers.push(Offer { at, asks })?),
        None => Ok(()),
    }
}
