ghost use Rattle.std.specs.Prelude.{◌≡◌, ◌+◌, ◌<◌, ◌≤◌, ◌↔◌, ◌∷◌, [], None, length, replicate, slice_index_or, Any, IfOk, IfSome, OnOk, IsTrue, MatchOption};
ghost use Rattle.walk_core.specs.declared.segment.Port.{Port};
ghost use Rattle.walk_core.specs.steps.SegmentWalks.{AreAllOutlets, AreOutletsBefore, IsFarEnd, IsLan};
ghost use Rattle.walk_core.specs.Segments.{AreSegments};

use crate::OutOfMemory;
use crate::segment::{Port, Segment, ports_at};
use std::alloc::Global;
use std::marker::Model;

/// A port of a vertex: the place of its segment, what it costs, and where a link leads, which is no LAN.
#[derive(Clone, Copy, Debug)]
pub(crate) struct Outlet {
    pub(crate) place: usize,
    pub(crate) cost: u32,
    pub(crate) to: Option<u32>,
}

/// The ports of a vertex.
#[derive(Debug, Drop)]
pub(crate) struct Outlets {
    all: Vec<Outlet>,
}

impl Model for Outlets {
    ghost use Rattle.std.specs.Prelude.{List};
    ghost use Rattle.walk_core.specs.declared.outlets.Outlet.{Outlet};

    ghost Value = { List Outlet };

    ghost view = { λ x. x.all.items };
}

impl Outlets {
    ghost use Rattle.std.specs.Prelude.{◌≡◌, ◌++◌, ◌∷◌, [], OnOk};

    /// No ports.
    fn none(alloc: Global) -> Outlets
        ensures { result ≡ [] }
    {
        Outlets {
            all: Vec::new(alloc),
        }
    }

    /// Adds a port behind the others.
    fn push(&mut self, outlet: Outlet) -> Result<(), OutOfMemory>
        ensures { OnOk result (self.new ≡ self.old ++ outlet ∷ []) }
    {
        self.all.push(outlet)?;
        Ok(())
    }

    /// The ports as a slice.
    pub fn as_slice(&self) -> &[Outlet]
        ensures { result.now ≡ self.now }
    {
        self.all.as_slice()
    }
}

/// The ports of the vertex of this number.
pub(crate) fn outlets_of(all: &[Outlets], vertex: usize) -> &[Outlet]
    requires { vertex < length all.now }
    ensures { result.now ≡ slice_index_or all.now vertex [] }
{
    all[vertex].as_slice()
}

/// Whether a vertex has no port, so that it reaches itself alone.
pub(crate) fn is_lone(outlets: &[Outlet]) -> bool
    ensures { IsTrue result ↔ (length outlets.now ≡ 0) }
{
    outlets.is_empty()
}

/// The port of a vertex that has no other, if it is on a LAN.
pub(crate) fn only_lan(outlets: &[Outlet]) -> Option<Outlet>
    ensures { IfSome result (λ outlet. (outlets.now ≡ outlet ∷ []) × (outlet.to ≡ None)) }
{
    match outlets {
        [outlet] if outlet.to.is_none() => Some(*outlet),
        _ => None,
    }
}

/// The ports of every vertex. Each port of a segment is looked at once.
pub(crate) fn all_outlets(
    alloc: Global,
    segments: &[Segment],
    count: u32,
) -> Result<Vec<Outlets>, OutOfMemory>
    requires { AreSegments count segments.now }
    ensures { IfOk result (λ all. AreAllOutlets segments.now count all.items) }
{
    let mut all = no_outlets(alloc, count)?;
    for place in 0..segments.len() {
        push_outlets(&mut all, segments, place)?;
    }
    Ok(all)
}

/// So many vertices without ports.
fn no_outlets(alloc: Global, count: u32) -> Result<Vec<Outlets>, OutOfMemory>
    ensures { IfOk result (λ all. all.items ≡ replicate count []) }
{
    let mut all = Vec::with_capacity(alloc, count as usize)?;
    for _ in 0..count {
        all.push(Outlets::none(alloc))?;
    }
    Ok(all)
}

/// Adds the ports of one segment to those of their vertices.
fn push_outlets(
    all: &mut Vec<Outlets>,
    segments: &[Segment],
    place: usize,
) -> Result<(), OutOfMemory>
    requires place { place < length segments.now }
    requires segments { AreSegments (length all.old.items) segments.now }
    requires before { AreOutletsBefore segments.now place all.old.items }
    ensures added { OnOk result (AreOutletsBefore segments.now (place + 1) all.new.items) }
    ensures long { OnOk result (length all.new.items ≡ length all.old.items) }
{
    let ports = ports_at(segments, place);
    for port in ports {
        let outlet = Outlet {
            place,
            cost: port.cost,
            to: far_end(ports, port.vertex),
        };
        all[port.vertex as usize].push(outlet)?;
    }
    Ok(())
}

/// Whether a segment joins more than two ports. Of others the distances from the ends say all.
pub(crate) fn is_lan(ports: &[Port]) -> bool
    ensures { IsTrue result ↔ IsLan ports.now }
{
    ports.len() > 2
}

/// The other end of a link of a vertex, and none of a LAN.
fn far_end(ports: &[Port], vertex: u32) -> Option<u32>
    requires { Any (λ port. port.vertex ≡ vertex) ports.now }
    ensures { MatchOption result (IsLan ports.now) (IsFarEnd ports.now vertex) }
{
    if is_lan(ports) {
        return None;
    }
    Some(other_end(ports, vertex))
}

/// The vertex of a port that isn't this one's, or itself.
fn other_end(ports: &[Port], vertex: u32) -> u32
    requires few { length ports.now ≤ 2 }
    requires port { Any (λ port. port.vertex ≡ vertex) ports.now }
    ensures { IsFarEnd ports.now vertex result }
{
    for port in ports {
        if port.vertex != vertex {
            return port.vertex;
        }
    }
    vertex
}
