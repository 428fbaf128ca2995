ghost use Rattle.std.specs.Prelude.{◌≡◌, ◌<◌, ◌↔◌, ℕ, length, Some, Contains, IfOk, IfSome, IsTrue};
ghost use Rattle.igp_theory.specs.Isis.{LevelOneCost};
ghost use Rattle.walk_core.specs.BestOffers.{ListsOffer};
ghost use Rattle.isis_routes.specs.steps.Destinations.{IsLevelOne};
ghost use Rattle.isis_routes.specs.steps.Homes.{AreRoutersAt};

use crate::OutOfMemory;
use crate::domain::Domain;
use crate::level::Level;
use crate::offer_room::OfferRoom;
use crate::offers::put_level_offers;
use net_addr::Prefix;
use net_model::Net;
use route_tables::{Homes, KeptOffers};

/// Where a prefix is connected, and what level 1 offers of it: one offer for each interface with that subnet.
#[derive(Debug, Drop)]
pub(crate) struct LevelOne {
    /// The prefix.
    pub dest: Prefix,
    /// The routers at which it is connected.
    pub homes: Homes,
    /// The offers, each at a router and at the metric of its interface.
    pub offers: KeptOffers,
}

impl LevelOne {
    /// The offers of a prefix in level 1, which is connected at these routers.
    pub fn collect(
        room: &mut OfferRoom,
        net: &Net,
        dest: Prefix,
        homes: Homes,
    ) -> Result<LevelOne, OutOfMemory>
        requires { AreRoutersAt net.now dest homes.items }
        ensures dest { IfOk result (λ one. one.dest ≡ dest) }
        ensures is { IfOk result (IsLevelOne net.now) }
    {
        put_level_offers(&mut room.offers, net, Level::One, dest, homes.as_slice())?;
        let offers = room.kept()?;
        Ok(LevelOne {
            dest,
            homes,
            offers,
        })
    }

    /// Whether the prefix is connected at a router.
    pub fn is_connected(&self, router: u32) -> bool
        ensures { IsTrue result ↔ Contains self.now.homes.items router }
    {
        match self.homes.as_slice() {
            [one] => *one == router,
            [one, other] => *one == router || *other == router,
            homes => homes.contains(&router),
        }
    }

    /// The router at which the prefix is connected, where it is one alone.
    pub fn lone_home(&self) -> Option<u32> {
        match self.homes.as_slice() {
            [router] => Some(*router),
            _ => None,
        }
    }

    /// Whether level 1 offers nothing of it.
    pub fn has_no_offers(&self) -> bool
        ensures { IsTrue result ↔ (length self.now.offers.items ≡ 0) }
    {
        self.offers.as_slice().is_empty()
    }

    /// The router that makes the only offer, where there is one alone.
    pub fn lone_offer(&self) -> Option<u32>
        ensures { IfSome result (λ router. (at asks : ℕ) → ListsOffer self.now.offers.items at asks → at ≡ router) }
    {
        match self.offers.as_slice() {
            [offer] => Some(offer.at),
            _ => None,
        }
    }

    /// The level 1 cost of the prefix at a router.
    #[inline(always)]
    pub fn cost(&self, domain: &Domain<'_>, router: u32) -> Option<u64>
        requires router { router < length domain.now.net }
        requires one { IsLevelOne domain.now.net self.now }
        ensures { (cost : ℕ) → (result ≡ Some cost) ↔ LevelOneCost domain.now.net self.now.dest router cost }
    {
        if !domain.runs_level_one(router) {
            return None;
        }
        domain.best_cost(Level::One, self.offers.as_slice(), router)
    }
}
