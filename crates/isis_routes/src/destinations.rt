ghost use Rattle.std.specs.Prelude.{◌≡◌, All, IfOk, length};
ghost use Rattle.std.specs.List.Sorted.{IsNonDecreasingBy};
ghost use Rattle.isis_routes.specs.steps.Destinations.{HasAnnouncements, AreIsisDestinations, isis_prefixes};
ghost use Rattle.isis_routes.specs.steps.Homes.{AreHomes, AreRoutersAt};
ghost use Rattle.isis_routes.specs.steps.Near.{AreAllNear};

use crate::OutOfMemory;
use crate::announcements::announcements;
use crate::candidates::candidates_of;
use crate::domain::Domain;
use crate::homes::{Home, routers_at, sorted_homes};
use crate::leaked::put_down_announcements;
use crate::level_one::LevelOne;
use crate::near::{NearRouters, all_near};
use crate::offer_room::OfferRoom;
use net_addr::Prefix;
use route_tables::{Homes, KeptOffers};
use std::alloc::Global;

/// What both levels know of a prefix.
#[derive(Debug, Drop)]
pub(crate) struct Destination {
    /// Where it is connected, and what level 1 offers of it.
    pub one: LevelOne,
    /// What is announced of it into level 2.
    pub two: KeptOffers,
    /// What is announced of it into level 1, marked down.
    pub down: KeptOffers,
}

impl Destination {
    /// What both levels know of a prefix, which is connected at these routers.
    fn build(
        room: &mut OfferRoom,
        domain: &Domain<'_>,
        near: &[NearRouters],
        dest: Prefix,
        homes: Homes,
    ) -> Result<Destination, OutOfMemory>
        requires near { AreAllNear domain.now.net (length domain.now.net) near.now }
        requires homes { AreRoutersAt domain.now.net dest homes.items }
        ensures dest { IfOk result (λ d. d.one.dest ≡ dest) }
        ensures announced { IfOk result (λ d. HasAnnouncements domain.now.net d) }
    {
        let one = LevelOne::collect(room, domain.net(), dest, homes)?;
        let two = announcements(room, domain, near, &one)?;
        let leaking = domain.leaking();
        put_down_announcements(&mut room.offers, domain, &one, two.as_slice(), leaking)?;
        let down = room.kept()?;
        Ok(Destination { one, two, down })
    }
}

/// What both levels know of each prefix that may have an entry.
pub(crate) fn destinations(
    alloc: Global,
    domain: &Domain<'_>,
) -> Result<Vec<Destination>, OutOfMemory>
    ensures { IfOk result (λ all. AreIsisDestinations domain.now.net all.items) }
{
    let network = domain.net();
    let dests = candidates_of(alloc, network)?;
    let homes = sorted_homes(alloc, network)?;
    let near = all_near(alloc, domain)?;
    each_destination(
        alloc,
        domain,
        near.as_slice(),
        homes.as_slice(),
        dests.as_slice(),
    )
}

/// What both levels know of each of these prefixes, by the sorted homes of all.
fn each_destination(
    alloc: Global,
    domain: &Domain<'_>,
    near: &[NearRouters],
    homes: &[Home],
    dests: &[Prefix],
) -> Result<Vec<Destination>, OutOfMemory>
    requires near { AreAllNear domain.now.net (length domain.now.net) near.now }
    requires homes { AreHomes domain.now.net homes.now }
    requires sorted { IsNonDecreasingBy (λ h. h.dest.base) homes.now }
    ensures dests { IfOk result (λ all. isis_prefixes all.items ≡ dests.now) }
    ensures announced { IfOk result (λ all. All (HasAnnouncements domain.now.net) all.items) }
{
    let mut all = Vec::with_capacity(alloc, dests.len())?;
    let mut room = OfferRoom::none(alloc);
    for dest in dests {
        let routers = routers_at(alloc, homes, *dest)?;
        all.push(Destination::build(&mut room, domain, near, *dest, routers)?)?;
    }
    Ok(all)
}
