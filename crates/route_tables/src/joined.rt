ghost use Rattle.std.specs.Prelude.{◌≡◌, ◌↔◌, Any, IsTrue};
ghost use Rattle.route_tables.specs.Entries.{AreJoined};
ghost use Rattle.route_tables.specs.steps.Joined.{JoinsRouters};

use walk_core::{Port, Segment};

/// Whether a router sends to another one over one of the segments. It takes time of their ports.
pub(crate) fn are_joined(segments: &[Segment], router: u32, other: u32) -> bool
    ensures { IsTrue result ↔ AreJoined segments.now router other }
{
    if router == other {
        return false;
    }
    share_segment(segments, router, other)
}

/// Whether two routers have ports of one of the segments.
fn share_segment(segments: &[Segment], router: u32, other: u32) -> bool
    ensures { IsTrue result ↔ Any (JoinsRouters router other) segments.now }
{
    segments.iter().any(|segment| joins(segment, router, other))
}

/// Whether two routers have ports of the segment.
fn joins(segment: &Segment, router: u32, other: u32) -> bool
    ensures { IsTrue result ↔ JoinsRouters router other segment.now }
{
    has_port(segment.as_slice(), router) && has_port(segment.as_slice(), other)
}

/// Whether one of the ports is the router's.
fn has_port(ports: &[Port], router: u32) -> bool
    ensures { IsTrue result ↔ Any (λ port. port.vertex ≡ router) ports.now }
{
    ports.iter().any(|port| port.vertex == router)
}
