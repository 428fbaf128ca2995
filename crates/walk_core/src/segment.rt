ghost use Rattle.std.specs.Prelude.{◌≡◌, ◌↔◌, ◌<◌, IsTrue, length};
ghost use Rattle.walk_core.specs.steps.Flooding.{segment_at};

use std::marker::Model;

/// Where a vertex is attached to a segment: which vertex, and what it costs there to send.
#[derive(Clone, Copy, Debug)]
pub struct Port {
    /// The vertex.
    pub vertex: u32,
    /// The cost of sending onto the segment.
    pub cost: u32,
}

/// A segment, by its ports: each vertex that has one sends to every other one, at the cost of its own port.
///
/// So a segment of n ports stands for n(n - 1) arcs. The segment
///
/// ```text
///   0     1     2
///   |5    |7    |7
///   '-----+-----'
/// ```
///
/// has the arcs from 0 to 1 and to 2 at the cost 5, and those from 1 and from 2 to the others at 7.
#[derive(Debug, Drop)]
pub struct Segment {
    ports: Vec<Port>,
}

impl Model for Segment {
    ghost use Rattle.std.specs.Prelude.{List};
    ghost use Rattle.walk_core.specs.declared.segment.Port.{Port};

    ghost Value = { List Port };

    ghost view = { λ x. x.ports.items };
}

impl Segment {
    ghost use Rattle.std.specs.Prelude.{◌≡◌, ◌↔◌, IsTrue};

    /// The segment of these ports.
    pub fn from_vec(ports: Vec<Port>) -> Segment
        ensures { result ≡ ports.items }
    {
        Segment { ports }
    }

    /// Whether another segment has the same ports, in the same order.
    pub fn is_same(&self, other: &Segment) -> bool
        ensures { IsTrue result ↔ (self.now ≡ other.now) }
    {
        are_same(self.as_slice(), other.as_slice())
    }

    /// The ports as a slice.
    pub fn as_slice(&self) -> &[Port]
        ensures { result.now ≡ self.now }
    {
        self.ports.as_slice()
    }
}

/// The ports of the segment of a place.
pub(crate) fn ports_at(segments: &[Segment], place: usize) -> &[Port]
    requires { place < length segments.now }
    ensures { result.now ≡ segment_at segments.now place }
{
    segments[place].as_slice()
}

/// Whether two lists have the same ports, in the same order.
fn are_same(one: &[Port], other: &[Port]) -> bool
    ensures { IsTrue result ↔ (one.now ≡ other.now) }
{
    if one.len() != other.len() {
        return false;
    }
    for place in 0..one.len() {
        if !is_same_port(one[place], other[place]) {
            return false;
        }
    }
    true
}

/// Whether two ports are of one vertex, at the same cost.
fn is_same_port(one: Port, other: Port) -> bool
    ensures { IsTrue result ↔ (one ≡ other) }
{
    one.vertex == other.vertex && one.cost == other.cost
}
