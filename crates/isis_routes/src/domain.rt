ghost use Rattle.std.specs.Prelude.{◌≡◌, ◌<◌, ◌↔◌, ℕ, length, Some, IfOk, IsTrue};
ghost use Rattle.net_model.specs.Network.{Adjacent};
ghost use Rattle.walk_core.specs.BestOffers.{AreInRange, ListsOffer};
ghost use Rattle.walk_core.specs.Offers.{BestCost};
ghost use Rattle.igp_theory.specs.Isis.{Leaks, OffersDefault, RunsLevelOne, RunsLevelTwo};
ghost use Rattle.route_tables.specs.Lists.{Exactly};
ghost use Rattle.isis_routes.specs.steps.Domain.{IsKnown};
ghost use Rattle.isis_routes.specs.steps.LevelReach.{level_reach};
ghost use Rattle.isis_routes.specs.steps.Levels.{RunsLevel, zone_in, zone_number};
ghost use Rattle.isis_routes.specs.steps.Offered.{AreSmall, HoldsOffers};
ghost use Rattle.isis_routes.specs.steps.Routes.{IsBestIn, in_level};
ghost use Rattle.isis_routes.specs.steps.Routing.{AreLevelSegments, RunsBothLevels};

use crate::OutOfMemory;
use crate::attached::attached_routers;
use crate::level::Level;
use crate::level_walks::LevelWalks;
use crate::runs::{leaking_routers, routers_of_both_levels, runs_level_one, runs_level_two};
use crate::segments::LevelSegments;
use net_model::Net;
use route_tables::{Route, best_route};
use std::alloc::Global;
use std::marker::Model;
use walk_core::{LeastWalks, Offer};
use zone_graph::KnownWalks;

/// A network, and what its routers know by IS-IS before any prefix.
#[derive(Drop)]
pub(crate) struct Domain<'a> {
    net: &'a Net,
    walks: LevelWalks,
    both: Vec<u32>,
    leaking: Vec<u32>,
    attached: Vec<Offer>,
}

impl<'a> Model for Domain<'a> {
    ghost use Rattle.isis_routes.specs.steps.Domain.{IsisDomain, IsIsisDomain};

    ghost Value = { IsisDomain };

    ghost view = { λ x. record { net = x.net.now; walks = x.walks } };

    ghost invariant = { λ x. IsIsisDomain (record { net = x.net.now; walks = x.walks })
        (record { both = x.both.items; leaking = x.leaking.items; attached = x.attached.items }) };
}

impl<'a> Domain<'a> {
    /// What the routers of the network know, which has these segments, by walks that are known of other networks.
    pub fn build(
        alloc: Global,
        net: &'a Net,
        known: &KnownWalks,
        segments: &LevelSegments,
    ) -> Result<Domain<'a>, OutOfMemory>
        requires { AreLevelSegments net.now segments.now }
        ensures { IfOk result (λ domain. domain.net ≡ net.now) }
    {
        let walks = LevelWalks::over(alloc, net, known, segments)?;
        let both = routers_of_both_levels(alloc, net)?;
        let leaking = leaking_routers(alloc, net)?;
        let attached = attached_routers(alloc, net, &walks.two, both.as_slice())?;
        Ok(Domain {
            net,
            walks,
            both,
            leaking,
            attached,
        })
    }

    /// The network.
    pub fn net(&self) -> &Net
        ensures is { result.now ≡ self.now.net }
        ensures known { IsKnown self.now }
    {
        self.net
    }

    /// The routers that run both levels.
    pub fn both(&self) -> &[u32]
        ensures { Exactly (RunsBothLevels self.now.net) result.now }
    {
        self.both.as_slice()
    }

    /// The routers that leak level 2 routes into level 1.
    pub fn leaking(&self) -> &[u32]
        ensures { Exactly (Leaks self.now.net) result.now }
    {
        self.leaking.as_slice()
    }

    /// The attached routers, each as an offer of all addresses.
    pub fn attached(&self) -> &[Offer]
        ensures { HoldsOffers (OffersDefault self.now.net) result.now }
    {
        self.attached.as_slice()
    }

    /// Whether a router runs level 1.
    pub fn runs_level_one(&self, router: u32) -> bool
        requires { router < length self.now.net }
        ensures runs { IsTrue result ↔ RunsLevelOne self.now.net router }
        ensures known { IsKnown self.now }
    {
        runs_level_one(self.net(), router)
    }

    /// Whether a router runs level 2.
    pub fn runs_level_two(&self, router: u32) -> bool
        requires { router < length self.now.net }
        ensures runs { IsTrue result ↔ RunsLevelTwo self.now.net router }
        ensures known { IsKnown self.now }
    {
        runs_level_two(self.net(), router)
    }

    /// Whether a router runs a level.
    pub fn runs(&self, level: Level, router: u32) -> bool
        requires { router < length self.now.net }
        ensures { IsTrue result ↔ RunsLevel self.now.net level router }
    {
        match level {
            Level::One => self.runs_level_one(router),
            Level::Two => self.runs_level_two(router),
        }
    }

    /// The least walks from a router in the level of this number.
    pub fn walks(&self, router: u32, zone: usize) -> &LeastWalks
        requires { router < length self.now.net }
        ensures reach { result.now ≡ level_reach self.now.walks router zone }
        ensures known { IsKnown self.now }
    {
        self.walks.from_router(router, zone)
    }

    /// What the best of some offers costs a router in a level, and `None` where none is reached.
    pub fn best_cost(&self, level: Level, offers: &[Offer], router: u32) -> Option<u64>
        requires router { router < length self.now.net }
        requires small { AreSmall offers.now }
        ensures { (cost : ℕ) → (result ≡ Some cost) ↔ BestCost (Adjacent self.now.net (zone_in level)) (ListsOffer offers.now) router cost }
    {
        self.walks(router, level.zone()).best_cost(offers)
    }

    /// The route of a router in a level to the best of some offers, and `None` where none is reached.
    #[inline(always)]
    pub fn best_route(
        &self,
        alloc: Global,
        level: Level,
        offers: &[Offer],
        router: u32,
    ) -> Result<Option<Route>, OutOfMemory>
        requires router { router < length self.now.net }
        requires range { AreInRange (level_reach self.now.walks router (zone_number level)) offers.now }
        ensures { IfOk result (IsBestIn (in_level self.now level router) offers.now) }
    {
        let number = level.zone();
        let walks = self.walks(router, number);
        best_route(alloc, walks, number, offers, self.net().routers())
    }
}
