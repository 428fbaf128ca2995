ghost use Rattle.std.specs.Prelude.{◌≡◌, ◌<◌, ◌↔◌, ℕ, length, Some, IfOk, IsTrue};
ghost use Rattle.net_model.specs.declared.zone.Zone.TheVariants.{Two as ZoneTwo};
ghost use Rattle.igp_theory.specs.Isis.{OffersDefault};
ghost use Rattle.route_tables.specs.Lists.{Exactly};
ghost use Rattle.zone_graph.specs.Walks.{AreZoneWalks};
ghost use Rattle.isis_routes.specs.steps.Attached.{LeavesArea, LeadsOutside};
ghost use Rattle.isis_routes.specs.steps.Offered.{HoldsOffers};
ghost use Rattle.isis_routes.specs.steps.Routing.{RunsBothLevels};

use crate::OutOfMemory;
use crate::offers::push_cost;
use net_model::{Config, Net};
use std::alloc::Global;
use walk_core::Offer;
use zone_graph::ZoneWalks;

/// The attached routers, all of which run both levels, each as an offer of all addresses at no cost (RFC 1195,
/// section 3.2).
pub(crate) fn attached_routers(
    alloc: Global,
    net: &Net,
    walks: &ZoneWalks,
    both: &[u32],
) -> Result<Vec<Offer>, OutOfMemory>
    requires walks { AreZoneWalks net.now ZoneTwo walks.now }
    requires both { Exactly (RunsBothLevels net.now) both.now }
    ensures { IfOk result (λ offers. HoldsOffers (OffersDefault net.now) offers.items) }
{
    let mut offers = Vec::new(alloc);
    for router in both {
        push_cost(&mut offers, *router, default_cost(net, walks, *router))?;
    }
    Ok(offers)
}

/// What a router of both levels asks of all addresses: nothing, where it reaches a router of another area by level 2.
fn default_cost(net: &Net, walks: &ZoneWalks, router: u32) -> Option<u64>
    requires router { RunsBothLevels net.now router }
    requires walks { AreZoneWalks net.now ZoneTwo walks.now }
    ensures { (cost : ℕ) → (result ≡ Some cost) ↔ OffersDefault net.now router cost }
{
    if leaves_area(net, walks, router) {
        Some(0)
    } else {
        None
    }
}

/// Whether level 2 leads from the router to a router of another area.
fn leaves_area(net: &Net, walks: &ZoneWalks, router: u32) -> bool
    requires router { router < length net.now }
    requires walks { AreZoneWalks net.now ZoneTwo walks.now }
    ensures { IsTrue result ↔ LeavesArea net.now router }
{
    for other in 0..net.routers() {
        if leads_outside(net, walks, router, other) {
            return true;
        }
    }
    false
}

/// Whether level 2 leads from a router to another one, which is in another area.
fn leads_outside(net: &Net, walks: &ZoneWalks, router: u32, other: u32) -> bool
    requires from_router { router < length net.now }
    requires to_router { other < length net.now }
    requires walks { AreZoneWalks net.now ZoneTwo walks.now }
    ensures { IsTrue result ↔ LeadsOutside net.now router other }
{
    if have_one_area(net.config(router), net.config(other)) {
        return false;
    }
    walks.from_router(router).distance(other).is_some()
}

/// Whether two routers have the same IS-IS area.
fn have_one_area(one: &Config, other: &Config) -> bool
    ensures { IsTrue result ↔ (one.now.isis_area ≡ other.now.isis_area) }
{
    one.isis_area.as_slice() == other.isis_area.as_slice()
}
