ghost use Rattle.std.specs.Prelude.{◌≡◌, ◌+◌, ◌<◌, cond, length, IfOk};
ghost use Rattle.route_tables.specs.Prefixes.{prefix_at};
ghost use Rattle.ospf_routes.specs.steps.Areas.{AreAreas};
ghost use Rattle.ospf_routes.specs.steps.Asked.{IsQuestion};
ghost use Rattle.ospf_routes.specs.steps.Destinations.{IsDestinationIn, ospf_prefixes};
ghost use Rattle.ospf_routes.specs.steps.Heard.{AreHeardAt};
ghost use Rattle.ospf_routes.specs.declared.areas.TheConstants.{BACKBONE};
ghost use Rattle.ospf_routes.specs.steps.Lanes.{DecidesLane, DecidesListened};
ghost use Rattle.ospf_routes.specs.steps.Networks.{AreEarlierIn, lane_in};

use crate::OutOfMemory;
use crate::areas::{AreaWalks, BACKBONE};
use crate::destinations::destinations;
use crate::domain::Domain;
use crate::entry::{Asked, route_of};
use crate::intra_area::Destination;
use crate::lane_twins::{Heard, LaneTwins, all_lane_twins};
use crate::lanes::decision;
use crate::listeners::{Listeners, listened_decision};
use crate::originating::all_summaries;
use crate::ranges::{ActiveRanges, RangePrefixes, all_ranges};
use crate::summaries::Summaries;
use crate::twins::all_twins;
use net_addr::Prefix;
use net_model::Net;
use route_tables::{Behind, Decision, Protocol, Route};
use std::alloc::Global;
use std::marker::Model;
use walk_core::{LeastWalks, Offer};

/// OSPF on a network, with what its routers know, the places of the areas that they listen to, the active ranges of border
/// routers and their prefixes, whether there are border routers, what these announce of each prefix, and which prefixes have the
/// same routes, everywhere and within areas.
#[derive(Drop)]
pub(crate) struct Ospf<'a> {
    domain: Domain<'a>,
    destinations: Vec<Destination>,
    listens: Vec<Option<usize>>,
    ranges: Vec<ActiveRanges>,
    ranged: RangePrefixes,
    has_borders: bool,
    summaries: Summaries,
    twins: Vec<Option<usize>>,
    lane_twins: Vec<LaneTwins>,
}

impl<'a> Model for Ospf<'a> {
    ghost use Rattle.ospf_routes.specs.steps.Networks.{IsOspf, OspfNetwork};

    ghost Value = { OspfNetwork };

    ghost view = { λ x. record {
      domain = x.domain;
      destinations = x.destinations.items;
      listens = x.listens.items;
      ranges = x.ranges.items;
      ranged = x.ranged;
      has_borders = x.has_borders;
      summaries = x.summaries;
      twins = x.twins.items;
      lane_twins = x.lane_twins.items;
    } };

    ghost invariant = { λ x. IsOspf (record {
      domain = x.domain;
      destinations = x.destinations.items;
      listens = x.listens.items;
      ranges = x.ranges.items;
      ranged = x.ranged;
      has_borders = x.has_borders;
      summaries = x.summaries;
      twins = x.twins.items;
      lane_twins = x.lane_twins.items;
    }) };
}

impl<'a> Ospf<'a> {
    /// OSPF on this network (RFC 2328), which has these areas: what they offer (section 16.1), the active ranges (12.4.3,
    /// 11.1), and what border routers announce (12.4.3, 16.2, 3.6).
    pub fn build(
        alloc: Global,
        net: &'a Net,
        areas: Vec<AreaWalks>,
    ) -> Result<Ospf<'a>, OutOfMemory>
        requires { AreAreas net.now areas.items }
        ensures { IfOk result (λ ospf. ospf.domain.net ≡ net.now) }
    {
        // 1. What is offered of each prefix within the areas (section 16.1).
        let domain = Domain::new(net, areas);
        let destinations = destinations(alloc, &domain)?;
        let known = destinations.as_slice();
        let listens = domain.listens(alloc)?;
        // 2. Active ranges (sections 12.4.3 and 11.1).
        let ranges = all_ranges(alloc, &domain, known)?;
        let ranged = RangePrefixes::of_ranges(alloc, ranges.as_slice())?;
        // 3. What border routers announce into each area (sections 12.4.3, 16.2 and 3.6).
        let summaries = all_summaries(alloc, &domain, known, ranges.as_slice(), &ranged)?;
        // Prefixes that have the same entries, at every router and at those of one area.
        let twins = all_twins(alloc, &domain, known, &ranged, &summaries)?;
        let heard = Heard {
            domain: &domain,
            destinations: known,
            listens: listens.as_slice(),
            summaries: &summaries,
        };
        let lane_twins = all_lane_twins(alloc, heard, twins.as_slice())?;
        let has_borders = domain.has_borders();
        Ok(Ospf {
            domain,
            destinations,
            listens,
            ranges,
            ranged,
            has_borders,
            summaries,
            twins,
            lane_twins,
        })
    }

    /// Of each prefix an earlier one with the same entries at every router of a lane, where one is found.
    fn earlier(&self, lane: usize) -> &[Option<usize>]
        requires { lane < length self.now.domain.areas + cond self.now.has_borders 2 1 }
        ensures { AreEarlierIn self.now lane result.now }
    {
        if lane < self.domain.zones() {
            return self.lane_twins[lane].as_slice();
        }
        self.twins.as_slice()
    }

    /// What is known of the prefix at a place.
    #[inline(always)]
    fn destination(&self, place: usize) -> &Destination
        requires { place < length (ospf_prefixes self.now.destinations) }
        ensures known { IsDestinationIn self.now.domain result.now }
        ensures dest { result.now.dest ≡ prefix_at (ospf_prefixes self.now.destinations) place }
    {
        &self.destinations[place]
    }

    /// What is announced of the prefix at a place into the area at another.
    fn heard(&self, place: usize, zone: usize) -> &[Offer]
        requires place { place < length (ospf_prefixes self.now.destinations) }
        requires zone { zone < length self.now.domain.areas }
        ensures { AreHeardAt self.now.domain (prefix_at (ospf_prefixes self.now.destinations) place) zone result.now }
    {
        self.summaries.into_area(place, zone)
    }

    /// What decides the routes for the prefix at a place of the routers that are in the area at another place alone.
    fn decision_in(&self, zone: usize, place: usize) -> Decision
        requires zone { zone < length self.now.domain.areas }
        requires place { place < length (ospf_prefixes self.now.destinations) }
        ensures { DecidesLane (lane_in self.now zone) (prefix_at (ospf_prefixes self.now.destinations) place) result }
    {
        let destination = self.destination(place);
        let heard = self.heard(place, zone);
        let listens = self.listens.as_slice();
        decision(&self.domain, listens, zone, destination, heard)
    }

    /// What decides the routes for the prefix at a place of border routers, which listen to the backbone. It isn't known of
    /// active ranges.
    fn border_decision(&self, place: usize) -> Decision
        requires areas { AreAreas self.now.domain.net self.now.domain.areas }
        requires place { place < length (ospf_prefixes self.now.destinations) }
        ensures { DecidesListened (lane_in self.now BACKBONE) (prefix_at (ospf_prefixes self.now.destinations) place) result }
    {
        let destination = self.destination(place);
        if self.ranged.has(destination.dest) {
            return Decision::Unknown;
        }
        let listeners = Listeners {
            domain: &self.domain,
            listens: self.listens.as_slice(),
            zone: BACKBONE,
        };
        listened_decision(listeners, destination, self.heard(place, BACKBONE))
    }

    /// What is known of a router and of the prefix at a place.
    #[inline(always)]
    fn asked(&self, place: usize, router: u32) -> Asked<'_>
        requires place { place < length (ospf_prefixes self.now.destinations) }
        requires router { router < length self.now.domain.net }
        ensures asked { IsQuestion result }
        ensures domain { result.domain.now ≡ self.now.domain }
        ensures router { result.router ≡ router }
        ensures dest { result.destination.now.dest ≡ prefix_at (ospf_prefixes self.now.destinations) place }
    {
        let listens = self.listens[router as usize];
        let ranges = &self.ranges[router as usize];
        let destination = self.destination(place);
        let heard = self.summaries.into_some_area(place, listens);
        Asked {
            domain: &self.domain,
            router,
            listens,
            ranges,
            destination,
            heard,
        }
    }
}

impl<'a> Protocol for Ospf<'a> {
    ghost use Rattle.std.specs.Prelude.{◌+◌, cond, length};
    ghost use Rattle.igp_theory.specs.Laws.{IsOspfNeighbor};
    ghost use Rattle.ospf_routes.specs.steps.Destinations.{ospf_prefixes};
    ghost use Rattle.ospf_routes.specs.steps.Lanes.{given_by_ospf};

    ghost routes = { λ ospf. given_by_ospf ospf.domain ospf.listens };

    ghost neighbor = { λ ospf. IsOspfNeighbor ospf.domain.net };

    ghost candidates = { λ ospf. ospf_prefixes ospf.destinations };

    ghost lanes = { λ ospf. length ospf.domain.areas + cond ospf.has_borders 2 1 };

    fn routers(&self) -> u32 {
        self.domain.routers()
    }

    fn candidates(&self) -> usize {
        self.destinations.len()
    }

    fn candidate(&self, place: usize) -> Prefix {
        self.destinations[place].dest
    }

    fn lanes(&self) -> usize {
        self.domain.zones() + if self.has_borders { 2 } else { 1 }
    }

    fn lane(&self, router: u32) -> usize {
        match self.listens[router as usize] {
            Some(zone) if !self.domain.is_border(router) => zone,
            Some(zone) if zone == BACKBONE && self.has_borders => self.domain.zones() + 1,
            _ => self.domain.zones(),
        }
    }

    fn alike(&self, lane: usize, place: usize) -> Option<usize> {
        self.earlier(lane)[place]
    }

    fn zone_of_lane(&self, lane: usize) -> Option<usize> {
        if lane < self.domain.zones() {
            Some(lane)
        } else if lane > self.domain.zones() {
            Some(BACKBONE)
        } else {
            None
        }
    }

    fn decision(&self, lane: usize, place: usize) -> Decision {
        if lane < self.domain.zones() {
            self.decision_in(lane, place)
        } else if lane > self.domain.zones() {
            self.border_decision(place)
        } else {
            Decision::Unknown
        }
    }

    fn zone_behind(&self, _lane: usize) -> Option<usize> {
        None
    }

    fn behind(&self, _lane: usize, _place: usize, _zone: usize) -> Behind {
        Behind {
            first: Decision::Unknown,
            second: Decision::Unknown,
        }
    }

    fn route(
        &self,
        alloc: Global,
        place: usize,
        router: u32,
    ) -> Result<Option<Route>, OutOfMemory> {
        route_of(alloc, self.asked(place, router))
    }

    fn walks(&self, router: u32, zone: usize) -> &LeastWalks {
        self.domain.walks(zone, router)
    }
}
