ghost use Rattle.std.specs.Prelude.{◌≡◌, ◌<◌, ◌↔◌, ℕ, Some, OnOk};
ghost use Rattle.igp_theory.specs.Isis.{DownAnnouncement, Leaks, LevelTwoAnnouncement};
ghost use Rattle.route_tables.specs.Lists.{Exactly};
ghost use Rattle.isis_routes.specs.steps.Destinations.{IsLevelOne};
ghost use Rattle.isis_routes.specs.steps.Offered.{AreSmall, HoldsOffers};

use crate::OutOfMemory;
use crate::domain::Domain;
use crate::level::Level;
use crate::level_one::LevelOne;
use crate::offers::push_cost;
use walk_core::Offer;

/// Puts what is announced of a prefix into level 1, marked down, by the routers that leak (RFC 5302), in place of other offers.
pub(crate) fn put_down_announcements(
    offers: &mut Vec<Offer>,
    domain: &Domain<'_>,
    one: &LevelOne,
    two: &[Offer],
    leaking: &[u32],
) -> Result<(), OutOfMemory>
    requires one { IsLevelOne domain.now.net one.now }
    requires two { HoldsOffers (LevelTwoAnnouncement domain.now.net one.now.dest) two.now }
    requires small { AreSmall two.now }
    requires leaking { Exactly (Leaks domain.now.net) leaking.now }
    ensures { OnOk result (HoldsOffers (DownAnnouncement domain.now.net one.now.dest) offers.new.items) }
{
    offers.clear();
    for router in leaking {
        push_cost(offers, *router, leaked_cost(domain, one, two, *router))?;
    }
    Ok(())
}

/// The cost at which a router that leaks announces a prefix into level 1: that of its level 2 route. There is none
/// where the prefix is connected or has a level 1 route, so no announcement into level 2 is the router's own.
fn leaked_cost(domain: &Domain<'_>, one: &LevelOne, two: &[Offer], router: u32) -> Option<u64>
    requires leaks { Leaks domain.now.net router }
    requires one { IsLevelOne domain.now.net one.now }
    requires two { HoldsOffers (LevelTwoAnnouncement domain.now.net one.now.dest) two.now }
    requires small { AreSmall two.now }
    ensures { (cost : ℕ) → (result ≡ Some cost) ↔ DownAnnouncement domain.now.net one.now.dest router cost }
{
    if one.is_connected(router) {
        return None;
    }
    if one.cost(domain, router).is_some() {
        return None;
    }
    domain.best_cost(Level::Two, two, router)
}
