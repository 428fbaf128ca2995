ghost use Rattle.std.specs.Prelude.{◌≡◌, ◌<◌, length, IfOk};
ghost use Rattle.route_tables.specs.Prefixes.{prefix_at};
ghost use Rattle.isis_routes.specs.steps.Asked.{IsIsisQuestion};
ghost use Rattle.isis_routes.specs.steps.Destinations.{AreIsisDestinations, HasAnnouncements, isis_prefixes};
ghost use Rattle.isis_routes.specs.steps.Domain.{IsKnown};
ghost use Rattle.isis_routes.specs.steps.Routing.{AreLevelSegments};

use crate::OutOfMemory;
use crate::alike::{earlier_alike, named_at};
use crate::asked::Asked;
use crate::destinations::{Destination, destinations};
use crate::domain::Domain;
use crate::entry::route_of;
use crate::lanes::{
    LANES, LevelLane, behind_of, decision_of, lane_of_number, number_of_lane, router_lane,
};
use crate::level_walks::ZONE_TWO;
use crate::segments::LevelSegments;
use net_addr::Prefix;
use net_model::Net;
use route_tables::{Behind, Decision, Protocol, Route};
use std::alloc::Global;
use std::marker::Model;
use walk_core::LeastWalks;
use zone_graph::KnownWalks;

/// IS-IS on a network: what its routers know, also of each prefix that may have entries, and for each an earlier one with the
/// same routes, where one is known.
#[derive(Drop)]
pub(crate) struct Isis<'a> {
    domain: Domain<'a>,
    destinations: Vec<Destination>,
    earlier: Vec<Option<usize>>,
}

impl<'a> Model for Isis<'a> {
    ghost use Rattle.isis_routes.specs.steps.Isis.{IsIsis, IsisNetwork};

    ghost Value = { IsisNetwork };

    ghost view = { λ x. record { domain = x.domain; destinations = x.destinations.items } };

    ghost invariant = { λ x. IsIsis (record { domain = x.domain; destinations = x.destinations.items }) x.earlier.items };
}

impl<'a> Isis<'a> {
    /// IS-IS on this network, which has these segments, by walks that are known of other networks.
    pub fn build(
        alloc: Global,
        net: &'a Net,
        known: &KnownWalks,
        segments: &LevelSegments,
    ) -> Result<Isis<'a>, OutOfMemory>
        requires { AreLevelSegments net.now segments.now }
        ensures { IfOk result (λ isis. isis.domain.net ≡ net.now) }
    {
        // 1. Least walks of both levels, and attached routers (RFC 1195, section 3.2).
        let domain = Domain::build(alloc, net, known, segments)?;
        // 2 to 5. Prefixes, and what is offered and announced of each in both levels (RFC 1195, section 3.2; RFC 5302).
        let destinations = destinations(alloc, &domain)?;
        // 6. Prefixes with the same routes.
        let earlier = earlier_alike(alloc, destinations.as_slice(), domain.net().routers())?;
        Ok(Isis {
            domain,
            destinations,
            earlier,
        })
    }

    /// What its routers know before any prefix.
    fn domain(&self) -> &Domain<'a>
        ensures { result.now ≡ self.now.domain }
    {
        &self.domain
    }

    /// What is known of each prefix.
    fn known(&self) -> &[Destination]
        ensures is { result.now ≡ self.now.destinations }
        ensures domain { IsKnown self.now.domain }
        ensures known { AreIsisDestinations self.now.domain.net self.now.destinations }
    {
        self.destinations.as_slice()
    }

    /// What is known of the prefix of this number.
    fn destination(&self, place: usize) -> &Destination
        requires { place < length (isis_prefixes self.now.destinations) }
        ensures domain { IsKnown self.now.domain }
        ensures announced { HasAnnouncements self.now.domain.net result.now }
        ensures dest { result.now.one.dest ≡ prefix_at (isis_prefixes self.now.destinations) place }
    {
        &self.known()[place]
    }

    /// What is known of a router and of the prefix of this number.
    #[inline(always)]
    fn asked(&self, place: usize, router: u32) -> Asked<'_>
        requires place { place < length (isis_prefixes self.now.destinations) }
        requires router { router < length self.now.domain.net }
        ensures asked { IsIsisQuestion result }
        ensures domain { result.domain.now ≡ self.now.domain }
        ensures router { result.router ≡ router }
        ensures dest { result.destination.now.one.dest ≡ prefix_at (isis_prefixes self.now.destinations) place }
    {
        let destination = self.destination(place);
        Asked {
            domain: &self.domain,
            destination,
            router,
        }
    }
}

impl<'a> Protocol for Isis<'a> {
    ghost use Rattle.igp_theory.specs.Laws.{IsIsisNeighbor};
    ghost use Rattle.isis_routes.specs.declared.lanes.TheConstants.{LANES};
    ghost use Rattle.isis_routes.specs.steps.Routes.{given_by_isis};

    ghost routes = { λ isis. given_by_isis isis.domain };

    ghost neighbor = { λ isis. IsIsisNeighbor isis.domain.net };

    ghost candidates = { λ isis. isis_prefixes isis.destinations };

    ghost lanes = { λ _. LANES };

    fn routers(&self) -> u32 {
        self.domain().net().routers()
    }

    fn candidates(&self) -> usize {
        self.known().len()
    }

    fn candidate(&self, place: usize) -> Prefix {
        self.destination(place).one.dest
    }

    fn lanes(&self) -> usize {
        LANES
    }

    fn lane(&self, router: u32) -> usize {
        number_of_lane(router_lane(self.domain(), router))
    }

    fn alike(&self, _lane: usize, place: usize) -> Option<usize> {
        named_at(self.earlier.as_slice(), place)
    }

    fn zone_of_lane(&self, lane: usize) -> Option<usize> {
        Some(lane_of_number(lane)?.zone())
    }

    fn decision(&self, lane: usize, place: usize) -> Decision {
        match lane_of_number(lane) {
            Some(own) => decision_of(self.domain(), self.destination(place), own),
            None => Decision::Unknown,
        }
    }

    fn zone_behind(&self, lane: usize) -> Option<usize> {
        match lane_of_number(lane)? {
            LevelLane::TwoAlone => None,
            LevelLane::OneAlone | LevelLane::Both => Some(ZONE_TWO),
        }
    }

    fn behind(&self, lane: usize, place: usize, zone: usize) -> Behind {
        match lane_of_number(lane) {
            Some(own) => behind_of(self.domain(), self.destination(place), own, zone),
            None => Behind {
                first: Decision::Unknown,
                second: Decision::Unknown,
            },
        }
    }

    fn route(
        &self,
        alloc: Global,
        place: usize,
        router: u32,
    ) -> Result<Option<Route>, OutOfMemory> {
        route_of(alloc, self.asked(place, router))
    }

    fn walks(&self, router: u32, zone: usize) -> &LeastWalks {
        self.domain().walks(router, zone)
    }
}
