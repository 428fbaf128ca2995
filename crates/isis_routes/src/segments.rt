ghost use Rattle.std.specs.Prelude.{◌≡◌, ◌++◌, IfOk};
ghost use Rattle.isis_routes.specs.steps.Routing.{AreLevelSegments};

use crate::OutOfMemory;
use net_model::{Net, Zone};
use std::alloc::Global;
use walk_core::Segment;
use zone_graph::zone_segments;

/// The segments of both levels.
#[derive(Debug, Drop)]
pub(crate) struct LevelSegments {
    /// Those of level 1.
    pub one: Vec<Segment>,
    /// Those of level 2.
    pub two: Vec<Segment>,
}

impl LevelSegments {
    /// The segments of the network in both levels.
    pub fn build(alloc: Global, net: &Net) -> Result<LevelSegments, OutOfMemory>
        ensures { IfOk result (AreLevelSegments net.now) }
    {
        let one = zone_segments(alloc, net, Zone::One)?;
        let two = zone_segments(alloc, net, Zone::Two)?;
        Ok(LevelSegments { one, two })
    }

    /// All of them in one list.
    pub fn joined(self) -> Result<Vec<Segment>, OutOfMemory>
        ensures { IfOk result (λ segments. segments.items ≡ self.one.items ++ self.two.items) }
    {
        let LevelSegments { one, two } = self;
        let mut all = one;
        let mut two = two;
        all.append(&mut two)?;
        Ok(all)
    }
}
