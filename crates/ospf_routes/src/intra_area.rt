ghost use Rattle.std.specs.Prelude.{◌≡◌, ◌<◌, ◌↔◌, ℕ, length, Some, All, Any, Contains, IfOk, IfNone, IfSome, IsTrue, OnOk};
ghost use Rattle.net_addr.specs.Addresses.{Block};
ghost use Rattle.net_model.specs.Network.{InArea};
ghost use Rattle.igp_theory.specs.Ospf.{IntraAreaCost, IsIntraArea};
ghost use Rattle.ospf_routes.specs.steps.AreaReach.{area_reach};
ghost use Rattle.ospf_routes.specs.steps.Areas.{AreAreas, HasArea, IsReach};
ghost use Rattle.ospf_routes.specs.steps.Destinations.{AddsArea, AddsPart, HasAreaPart, IsDestinationIn, IsSomePart, IsPartAt, IsPartFor, IsPartIn};
ghost use Rattle.ospf_routes.specs.steps.Offered.{InsideOf};
ghost use Rattle.ospf_routes.specs.steps.Subnets.{IsUpSubnet};
ghost use Rattle.ospf_routes.specs.Lists.{Exactly};
ghost use Rattle.walk_core.specs.BestOffers.{AreInRange};
ghost use Rattle.walk_core.specs.declared.offers.Offer.{Offer as OfferValue};

use crate::OutOfMemory;
use crate::area_route::{AreaRoute, offer_of, offers_inside};
use crate::domain::Domain;
use crate::ordered::HasPrefix;
use crate::subnets::{Subnets, homes_among, put_routes};
use net_addr::Prefix;
use route_tables::{Homes, KeptOffers};
use std::alloc::Global;
use walk_core::{LeastWalks, Offer};

/// Offers of a prefix in one area.
#[derive(Debug, Drop)]
pub(crate) struct AreaOffers {
    /// The area.
    pub area: u32,
    /// The place of the area among all.
    pub zone: usize,
    /// The offers.
    pub offers: KeptOffers,
}

/// A prefix with the routers that it is connected at, and what the interfaces of each area offer of it.
#[derive(Debug, Drop)]
pub(crate) struct Destination {
    /// The prefix.
    pub dest: Prefix,
    /// The routers of which an up interface has it as its subnet, whatever that interface runs.
    pub homes: Homes,
    /// The offers of each area that has some.
    pub parts: Vec<AreaOffers>,
}

impl HasPrefix for Destination {
    ghost prefix = { λ x. x.dest };

    fn prefix(&self) -> Prefix
        ensures { result ≡ self.now.dest }
    {
        self.dest
    }
}

impl Destination {
    /// A prefix with what is known of it by the areas and the subnets of a network.
    pub fn build(
        alloc: Global,
        domain: &Domain<'_>,
        subnets: &Subnets,
        dest: Prefix,
        routes: &mut Vec<AreaRoute>,
    ) -> Result<Destination, OutOfMemory>
        requires areas { AreAreas domain.now.net domain.now.areas }
        requires subnets { Exactly (IsUpSubnet domain.now.net) subnets.now }
        ensures dest { IfOk result (λ d. d.dest ≡ dest) }
        ensures is { IfOk result (IsDestinationIn domain.now) }
    {
        let near = subnets.around(dest);
        let homes = homes_among(alloc, near, dest)?;
        put_routes(routes, near, dest)?;
        let parts = area_parts(alloc, domain, routes.as_slice())?;
        Ok(Destination { dest, homes, parts })
    }

    /// Whether the prefix is connected at the router.
    pub fn is_home(&self, u: u32) -> bool
        ensures { IsTrue result ↔ Contains self.now.homes.items u }
    {
        self.homes.as_slice().iter().any(|home| *home == u)
    }
}

/// The routes of each area that has some, as offers. Mostly all are of one area.
fn area_parts(
    alloc: Global,
    domain: &Domain<'_>,
    routes: &[AreaRoute],
) -> Result<Vec<AreaOffers>, OutOfMemory>
    ensures each { IfOk result (λ parts. All (IsPartIn domain.now.areas routes.now) parts.items) }
    ensures every { IfOk result (λ parts. (n : ℕ) (o : OfferValue) → HasArea domain.now.areas n →
        Any (λ r. InsideOf n r o) routes.now → HasAreaPart parts.items n) }
{
    let mut parts = Vec::with_capacity(alloc, if routes.is_empty() { 0 } else { 1 })?;
    for route in routes {
        add_part(alloc, &mut parts, domain, routes, route.area)?;
    }
    Ok(parts)
}

/// Adds the offers of an area, unless they are there.
fn add_part(
    alloc: Global,
    parts: &mut Vec<AreaOffers>,
    domain: &Domain<'_>,
    routes: &[AreaRoute],
    area: u32,
) -> Result<(), OutOfMemory>
    ensures { OnOk result (AddsArea domain.now.areas routes.now area parts.old.items parts.new.items) }
{
    match part_of(parts.as_slice(), area) {
        Some(_) => Ok(()),
        None => match domain.place_of(area) {
            Some(zone) => push_part(alloc, parts, routes, area, zone),
            None => Ok(()),
        },
    }
}

/// Adds the offers of an area.
fn push_part(
    alloc: Global,
    parts: &mut Vec<AreaOffers>,
    routes: &[AreaRoute],
    area: u32,
    zone: usize,
) -> Result<(), OutOfMemory>
    ensures { OnOk result (AddsPart (IsPartAt routes.now area zone) parts.old.items parts.new.items) }
{
    let offers = offers_of(alloc, routes, area)?;
    Ok(parts.push(AreaOffers { area, zone, offers })?)
}

/// The routes of an area, as offers. Mostly they are one or two, and all of it.
fn offers_of(alloc: Global, routes: &[AreaRoute], area: u32) -> Result<KeptOffers, OutOfMemory>
    ensures { IfOk result (λ offers. Exactly (λ o. Any (λ r. InsideOf area r o) routes.now) offers.items) }
{
    match routes {
        [one] if one.area == area => Ok(KeptOffers::from_one(offer_of(*one))),
        [one, other] if one.area == area && other.area == area => {
            Ok(KeptOffers::from_two(offer_of(*one), offer_of(*other)))
        }
        _ => {
            let offers = offers_inside(alloc, routes, area)?;
            Ok(KeptOffers::from_vec(offers))
        }
    }
}

/// The offers of an area.
pub(crate) fn part_of(parts: &[AreaOffers], area: u32) -> Option<&AreaOffers>
    ensures none { IfNone result (HasAreaPart parts.now area → ⊥) }
    ensures among { IfSome result (λ part. Contains parts.now part.now) }
    ensures area { IfSome result (λ part. part.now.area ≡ area) }
{
    for part in parts {
        if part.area == area {
            return Some(part);
        }
    }
    None
}

/// The intra-area cost of a part's prefix at router `u` in the area of the part (RFC 2328, section 16.1).
pub(crate) fn part_cost(domain: &Domain<'_>, part: &AreaOffers, u: u32) -> Option<u64>
    requires router { u < length domain.now.net }
    requires part { IsSomePart domain.now part.now }
    ensures { (p : Block) → IsPartFor domain.now p part.now → (cost : ℕ) →
        (result ≡ Some cost) ↔ IntraAreaCost domain.now.net part.now.area p u cost }
{
    match part_reach(domain, part, u) {
        Some(walks) => walks.best_cost(part.offers.as_slice()),
        None => None,
    }
}

/// The least walks from the router in the area of a part, where the router is in that area.
pub(crate) fn part_reach<'a>(
    domain: &'a Domain<'_>,
    part: &AreaOffers,
    u: u32,
) -> Option<&'a LeastWalks>
    requires router { u < length domain.now.net }
    requires part { IsSomePart domain.now part.now }
    ensures none { IfNone result (InArea domain.now.net u part.now.area → ⊥) }
    ensures same { IfSome result (λ walks. area_reach domain.now.areas u part.now.zone ≡ walks.now) }
    ensures reach { IfSome result (λ walks. IsReach domain.now.net part.now.area u walks.now) }
    ensures range { IfSome result (λ walks. AreInRange walks.now part.now.offers.items) }
{
    if domain.area(part.zone).members.has(u) {
        Some(domain.walks(part.zone, u))
    } else {
        None
    }
}

/// Whether the prefix has an intra-area route at router `u`.
pub(crate) fn has_intra(domain: &Domain<'_>, destination: &Destination, u: u32) -> bool
    requires router { u < length domain.now.net }
    requires destination { IsDestinationIn domain.now destination.now }
    ensures { IsTrue result ↔ IsIntraArea domain.now.net destination.now.dest u }
{
    for part in destination.parts.as_slice() {
        if part_cost(domain, part, u).is_some() {
            return true;
        }
    }
    false
}
