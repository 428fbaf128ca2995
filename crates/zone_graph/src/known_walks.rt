ghost use Rattle.std.specs.Prelude.{IfOk};
ghost use Rattle.zone_graph.specs.Segments.{AreZoneSegments};
ghost use Rattle.zone_graph.specs.KnownWalks.{IsKnownZone};

use crate::OutOfMemory;
use crate::same_segments::are_same_segments;
use crate::segments::zone_segments;
use crate::zone_walks::ZoneWalks;
use net_model::{Net, Zone};
use std::alloc::Global;
use std::marker::Model;
use std::rc::Rc;
use walk_core::Segment;

/// The segments of a zone, and the least walks over them.
#[derive(Debug, Drop)]
struct KnownZone {
    segments: Vec<Segment>,
    walks: Rc<ZoneWalks>,
}

/// The least walks of some zones of a network, for others with as many routers: a zone that has the same segments there has
/// the same walks, and shares them. So it is with most zones of a network without one of its links.
#[derive(Debug, Drop)]
pub struct KnownWalks {
    zones: Vec<KnownZone>,
}

impl Model for KnownWalks {
    ghost use Rattle.std.specs.Prelude.{List, All};
    ghost use Rattle.zone_graph.specs.declared.known_walks.KnownZone.{KnownZone};
    ghost use Rattle.zone_graph.specs.KnownWalks.{IsKnownZone};

    ghost Value = { List KnownZone };

    ghost view = { λ x. x.zones.items };

    ghost invariant = { λ x. All IsKnownZone x.zones.items };
}

impl KnownWalks {
    ghost use Rattle.std.specs.Prelude.{◌≡◌, [], Contains, IfOk, IfSome, length};
    ghost use Rattle.walk_core.specs.Segments.{AreSegments};
    ghost use Rattle.zone_graph.specs.Walks.{AreLeastOver, AreWalksOver};
    ghost use Rattle.net_model.specs.declared.zone.Zone.{Zone as ZoneValue};
    ghost use Rattle.zone_graph.specs.KnownWalks.{KnowsZone};

    /// Those of no zone.
    pub fn none(alloc: Global) -> KnownWalks
        ensures { result ≡ [] }
    {
        KnownWalks {
            zones: Vec::new(alloc),
        }
    }

    /// Those of these zones of a network.
    pub fn of_zones(alloc: Global, net: &Net, zones: &[Zone]) -> Result<KnownWalks, OutOfMemory>
        ensures { IfOk result (λ known. (zone : ZoneValue) → Contains zones.now zone → KnowsZone net.now known zone) }
    {
        let mut known = Vec::with_capacity(alloc, zones.len())?;
        for zone in zones {
            known.push(known_zone(alloc, net, *zone)?)?;
        }
        Ok(KnownWalks { zones: known })
    }

    /// The least walks of a zone, over its segments: of this network, and of every other one with as many routers where some
    /// zone has the same segments. Those of a known zone with these segments are shared, where there is one. It takes the time
    /// of all known segments, or of the walks.
    pub fn walks_over(
        &self,
        alloc: Global,
        net: &Net,
        segments: &[Segment],
    ) -> Result<Rc<ZoneWalks>, OutOfMemory>
        requires { AreSegments (length net.now) segments.now }
        ensures { IfOk result (λ walks. AreWalksOver (length net.now) segments.now walks.value) }
    {
        match self.known_over(net.routers() as usize, segments) {
            Some(walks) => Ok(walks.clone()?),
            None => {
                let walks = self.walks_without(alloc, net.routers(), segments)?;
                Ok(Rc::new(alloc, walks)?)
            }
        }
    }

    /// The least walks over segments, from each of so many routers: by those of a known zone that has these segments and some more,
    /// where there is one.
    fn walks_without(
        &self,
        alloc: Global,
        routers: u32,
        segments: &[Segment],
    ) -> Result<ZoneWalks, OutOfMemory>
        requires { AreSegments routers segments.now }
        ensures { IfOk result (AreLeastOver routers segments.now) }
    {
        for zone in self.zones.as_slice() {
            if let Some(walks) = zone.without(alloc, routers, segments)? {
                return Ok(walks);
            }
        }
        ZoneWalks::least_over(alloc, segments, routers)
    }

    /// The walks that are known over these segments, from so many routers.
    fn known_over(&self, routers: usize, segments: &[Segment]) -> Option<&Rc<ZoneWalks>>
        ensures { IfSome result (λ walks. AreLeastOver routers segments.now walks.now.value) }
    {
        for zone in self.zones.as_slice() {
            if zone.is_over(routers, segments) {
                return Some(&zone.walks);
            }
        }
        None
    }
}

impl KnownZone {
    ghost use Rattle.std.specs.Prelude.{◌≡◌, ◌↔◌, IsTrue};
    ghost use Rattle.std.specs.Prelude.{IfOk, IfSome};
    ghost use Rattle.walk_core.specs.Segments.{AreSegments};
    ghost use Rattle.zone_graph.specs.KnownWalks.{IsKnownZone};
    ghost use Rattle.zone_graph.specs.Walks.{AreLeastOver};
    ghost use Rattle.zone_graph.specs.steps.Known.{IsOverThese};

    /// Whether these are its segments, and its walks those from so many routers.
    fn is_over(&self, routers: usize, segments: &[Segment]) -> bool
        ensures { IsTrue result ↔ IsOverThese self.now routers segments.now }
    {
        self.walks.len() == routers && are_same_segments(self.segments.as_slice(), segments)
    }

    /// The least walks over segments, where it has these and some more, and walks from so many routers.
    fn without(
        &self,
        alloc: Global,
        routers: u32,
        segments: &[Segment],
    ) -> Result<Option<ZoneWalks>, OutOfMemory>
        requires known { IsKnownZone self.now }
        requires segments { AreSegments routers segments.now }
        ensures { IfOk result (λ found. IfSome found (AreLeastOver routers segments.now)) }
    {
        if self.walks.len() != routers as usize {
            return Ok(None);
        }
        self.walks
            .without(alloc, routers, self.segments.as_slice(), segments)
    }
}

/// The segments of a zone of a network, with the least walks over them.
fn known_zone(alloc: Global, net: &Net, zone: Zone) -> Result<KnownZone, OutOfMemory>
    ensures known { IfOk result IsKnownZone }
    ensures segments { IfOk result (λ known. AreZoneSegments net.now zone known.segments.items) }
{
    let segments = zone_segments(alloc, net, zone)?;
    let walks = ZoneWalks::least_over(alloc, segments.as_slice(), net.routers())?;
    let walks = Rc::new(alloc, walks)?;
    Ok(KnownZone { segments, walks })
}
