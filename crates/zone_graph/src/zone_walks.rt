ghost use Rattle.std.specs.Prelude.{◌≡◌, ◌<◌, length, IfOk, IfSome, slice_get, Some};
ghost use Rattle.walk_core.specs.Segments.{AreSegments};
ghost use Rattle.zone_graph.specs.Walks.{AreLeastOver, AreWalksOver, AreZoneWalks};

use crate::OutOfMemory;
use crate::segments::zone_segments;
use net_model::{Net, Zone};
use std::alloc::Global;
use std::marker::Model;
use walk_core::{LeastWalks, Segment, WalksOver, segment_walks, segment_walks_without};

/// The least walks of one zone of a network, from every router.
#[derive(Debug, Drop)]
pub struct ZoneWalks {
    all: Vec<LeastWalks>,
}

impl Model for ZoneWalks {
    ghost use Rattle.std.specs.Prelude.{List};
    ghost use Rattle.walk_core.specs.Reach.{Reach};

    ghost Value = { List Reach };

    ghost view = { λ x. x.all.items };
}

impl ZoneWalks {
    /// The least walks over the adjacencies of a zone (RFC 2328, section 16.1; RFC 1195). It is here for users of a network
    /// as a library: the protocols keep a zone's segments, and take `KnownWalks::walks_over`.
    pub fn build(alloc: Global, net: &Net, zone: Zone) -> Result<ZoneWalks, OutOfMemory>
        ensures { IfOk result (AreZoneWalks net.now zone) }
    {
        let segments = zone_segments(alloc, net, zone)?;
        ZoneWalks::over(alloc, net, segments.as_slice())
    }

    /// The least walks of a zone, over its segments: of this network, and of every other one with as many routers where some
    /// zone has the same segments. Of segments that are no zone's nothing is said.
    fn over(alloc: Global, net: &Net, segments: &[Segment]) -> Result<ZoneWalks, OutOfMemory>
        requires { AreSegments (length net.now) segments.now }
        ensures { IfOk result (AreWalksOver (length net.now) segments.now) }
    {
        let walks = ZoneWalks::least_over(alloc, segments, net.routers())?;
        Ok(walks)
    }

    /// The least walks over segments, from each of so many routers.
    pub(crate) fn least_over(
        alloc: Global,
        segments: &[Segment],
        routers: u32,
    ) -> Result<ZoneWalks, OutOfMemory>
        requires { AreSegments routers segments.now }
        ensures { IfOk result (AreLeastOver routers segments.now) }
    {
        let all = segment_walks(alloc, segments, routers)?;
        Ok(ZoneWalks { all })
    }

    /// The least walks over segments, by these from so many routers, which are those over the same segments and some more, in the
    /// same order; none where they aren't. Routers keep the walks that take none of those that went.
    pub(crate) fn without(
        &self,
        alloc: Global,
        routers: u32,
        more: &[Segment],
        segments: &[Segment],
    ) -> Result<Option<ZoneWalks>, OutOfMemory>
        requires segments { AreSegments routers segments.now }
        requires more { AreLeastOver routers more.now self.now }
        ensures { IfOk result (λ found. IfSome found (AreLeastOver routers segments.now)) }
    {
        let known = WalksOver {
            segments: more,
            walks: self.all.as_slice(),
        };
        match segment_walks_without(alloc, segments, routers, known)? {
            Some(all) => Ok(Some(ZoneWalks { all })),
            None => Ok(None),
        }
    }

    /// How many routers there are.
    pub fn len(&self) -> usize
        ensures { result ≡ length self.now }
    {
        self.all.len()
    }

    /// The least walks from router `u`.
    pub fn from_router(&self, u: u32) -> &LeastWalks
        requires { u < length self.now }
        ensures { slice_get self.now u ≡ Some result.now }
    {
        &self.all[u as usize]
    }
}
