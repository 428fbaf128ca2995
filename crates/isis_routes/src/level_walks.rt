ghost use Rattle.std.specs.Prelude.{◌≡◌, ◌<◌, length, IfOk};
ghost use Rattle.isis_routes.specs.steps.LevelReach.{level_reach};
ghost use Rattle.isis_routes.specs.steps.Routing.{AreLevelSegments, AreLevelWalks};

use crate::OutOfMemory;
use crate::segments::LevelSegments;
use net_model::Net;
use std::alloc::Global;
use std::rc::Rc;
use walk_core::LeastWalks;
use zone_graph::{KnownWalks, ZoneWalks};

/// The number of level 1 among the zones of routes.
pub(crate) const ZONE_ONE: usize = 0;

/// The number of level 2 among the zones of routes.
pub(crate) const ZONE_TWO: usize = 1;

/// The least walks of both levels.
#[derive(Debug, Drop)]
pub(crate) struct LevelWalks {
    /// Those of level 1.
    pub one: Rc<ZoneWalks>,
    /// Those of level 2.
    pub two: Rc<ZoneWalks>,
}

impl LevelWalks {
    /// The least walks of the network in both levels, over the segments of these, by those that are known of other networks.
    pub fn over(
        alloc: Global,
        net: &Net,
        known: &KnownWalks,
        segments: &LevelSegments,
    ) -> Result<LevelWalks, OutOfMemory>
        requires { AreLevelSegments net.now segments.now }
        ensures { IfOk result (AreLevelWalks net.now) }
    {
        let one = known.walks_over(alloc, net, segments.one.as_slice())?;
        let two = known.walks_over(alloc, net, segments.two.as_slice())?;
        Ok(LevelWalks { one, two })
    }

    /// The least walks from a router in the level of this number.
    pub fn from_router(&self, router: u32, zone: usize) -> &LeastWalks
        requires one { router < length self.now.one.value }
        requires two { router < length self.now.two.value }
        ensures { result.now ≡ level_reach self.now router zone }
    {
        if zone == ZONE_ONE {
            self.one.from_router(router)
        } else {
            self.two.from_router(router)
        }
    }
}
