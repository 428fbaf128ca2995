ghost use Rattle.std.specs.Prelude.{◌<◌, length, IfOk, OnOk};
ghost use Rattle.igp_theory.specs.Isis.{LevelTwoAnnouncement};
ghost use Rattle.route_tables.specs.Lists.{Adds, Exactly};
ghost use Rattle.isis_routes.specs.steps.Destinations.{IsLevelOne};
ghost use Rattle.isis_routes.specs.steps.Homes.{AreRoutersAt};
ghost use Rattle.isis_routes.specs.steps.Offered.{AddsOffers, HoldsOffers, IsOfferOf, LevelOneAnnouncement, OwnAnnouncement};
ghost use Rattle.isis_routes.specs.steps.Near.{AreAllNear, HoldAnnouncers};

use crate::OutOfMemory;
use crate::domain::Domain;
use crate::level::Level;
use crate::level_one::LevelOne;
use crate::near::{NearRouters, announcers};
use crate::offer_room::OfferRoom;
use crate::offers::{push_cost, push_router_offers};
use crate::runs::runs_level_two;
use net_addr::Prefix;
use net_model::Net;
use route_tables::KeptOffers;
use walk_core::Offer;

/// What is announced of a prefix into level 2 (RFC 1195, section 3.2): by the routers at which it is connected their
/// own level 2 subnets, and by those of both levels what they reach by level 1.
pub(crate) fn announcements(
    room: &mut OfferRoom,
    domain: &Domain<'_>,
    near: &[NearRouters],
    one: &LevelOne,
) -> Result<KeptOffers, OutOfMemory>
    requires near { AreAllNear domain.now.net (length domain.now.net) near.now }
    requires one { IsLevelOne domain.now.net one.now }
    ensures { IfOk result (λ offers. HoldsOffers (LevelTwoAnnouncement domain.now.net one.now.dest) offers.items) }
{
    let offers = &mut room.offers;
    put_own_subnets(offers, domain.net(), one.dest, one.homes.as_slice())?;
    push_level_one(offers, domain, one, announcers(domain, near, one))?;
    room.kept()
}

/// Puts what routers announce of a prefix that is their own level 2 subnet in place of other offers.
fn put_own_subnets(
    offers: &mut Vec<Offer>,
    net: &Net,
    dest: Prefix,
    homes: &[u32],
) -> Result<(), OutOfMemory>
    requires { AreRoutersAt net.now dest homes.now }
    ensures { OnOk result (Exactly (IsOfferOf (OwnAnnouncement net.now dest)) offers.new.items) }
{
    offers.clear();
    for router in homes {
        push_own_subnets(offers, net, dest, *router)?;
    }
    Ok(())
}

/// Adds what a router announces of its own level 2 subnets.
fn push_own_subnets(
    offers: &mut Vec<Offer>,
    net: &Net,
    dest: Prefix,
    router: u32,
) -> Result<(), OutOfMemory>
    requires { router < length net.now }
    ensures { OnOk result (AddsOffers offers.old.items offers.new.items router (OwnAnnouncement net.now dest router)) }
{
    if !runs_level_two(net, router) {
        return Ok(());
    }
    push_router_offers(offers, net, Level::Two, dest, router)
}

/// Adds what these routers of both levels reach by level 1, of which the others reach nothing.
fn push_level_one(
    offers: &mut Vec<Offer>,
    domain: &Domain<'_>,
    one: &LevelOne,
    routers: &[u32],
) -> Result<(), OutOfMemory>
    requires one { IsLevelOne domain.now.net one.now }
    requires routers { HoldAnnouncers domain.now.net one.now.dest routers.now }
    ensures { OnOk result (Adds offers.old.items offers.new.items (IsOfferOf (LevelOneAnnouncement domain.now.net one.now.dest))) }
{
    for router in routers {
        push_cost(offers, *router, one.cost(domain, *router))?;
    }
    Ok(())
}
