ghost use Rattle.std.specs.Prelude.{◌≡◌, ◌<◌, Contains, IfOk, length};
ghost use Rattle.walk_core.specs.Segments.{AreSegments};
ghost use Rattle.walk_core.specs.declared.segment.Port.{Port as PortValue};
ghost use Rattle.walk_core.specs.steps.Members.{member_at, placed_ports, AreMarked, Marks};

use crate::OutOfMemory;
use crate::segment::{Port, Segment, ports_at};
use std::alloc::Global;
use std::marker::Model;

/// The vertices that have a port, in ascending order, and where each vertex stands among them.
#[derive(Debug, Drop)]
pub(crate) struct Members {
    /// How many vertices there are.
    count: u32,
    /// For each vertex its place, and no place of a member where it has no port.
    places: Vec<u32>,
    /// For each place the vertex.
    vertices: Vec<u32>,
    /// One past the last of them.
    end: u32,
}

impl Model for Members {
    ghost use Rattle.walk_core.specs.steps.Members.{Numbering};

    ghost Value = { Numbering };

    ghost view = { λ x. record { count = x.count; places = x.places.items; vertices = x.vertices.items; end = x.end } };
}

impl Members {
    ghost use Rattle.std.specs.Prelude.{◌≡◌, ◌↔◌, ◌+◌, ◌/◌, ◌^◌, ◌<◌, ◌≤◌, IfOk, IsTrue, OnOk, length};
    ghost use Rattle.walk_core.specs.Segments.{AreSegments};
    ghost use Rattle.walk_core.specs.steps.Members.{AreMembers, PlacesFit, NumbersVertex, place_in, placed};

    /// The members of so many vertices, which these segments join.
    pub fn of(alloc: Global, segments: &[Segment], count: u32) -> Result<Members, OutOfMemory>
        requires { AreSegments count segments.now }
        ensures members { IfOk result (AreMembers segments.now) }
        ensures count { IfOk result (λ members. members.count ≡ count) }
    {
        let marks = marked(alloc, segments, count)?;
        let places = vec![in alloc; count; count as usize]?;
        let vertices = Vec::with_capacity(alloc, count as usize)?;
        let mut members = Members {
            count,
            places,
            vertices,
            end: 0,
        };
        for vertex in 0..count {
            members.number(vertex, marks[vertex as usize])?;
        }
        Ok(members)
    }

    /// Numbers the next vertex, if it is marked.
    #[inline(always)]
    fn number(&mut self, vertex: u32, marked: bool) -> Result<(), OutOfMemory>
        requires numbered { PlacesFit self.old }
        requires next { self.old.end ≤ vertex }
        requires within { vertex < self.old.count }
        requires fits { vertex + 1 < 2 ^ 32 }
        ensures numbered { OnOk result (PlacesFit self.new) }
        ensures next { OnOk result (NumbersVertex vertex marked self.old self.new) }
    {
        if !marked {
            return Ok(());
        }
        self.places[vertex as usize] = self.vertices.len() as u32;
        self.vertices.push(vertex)?;
        self.end = vertex + 1;
        Ok(())
    }

    /// How many members there are.
    pub fn len(&self) -> u32
        requires { PlacesFit self.now }
        ensures { result ≡ length self.now.vertices }
    {
        // no more than the last of them
        let _end = self.end;
        self.vertices.len() as u32
    }

    /// Whether at most half of the vertices are members.
    pub fn are_few(&self) -> bool
        ensures { IsTrue result ↔ (length self.now.vertices ≤ self.now.count / 2) }
    {
        self.vertices.len() <= self.count as usize / 2
    }

    /// How many vertices there are.
    pub fn count(&self) -> u32
        ensures { result ≡ self.now.count }
    {
        self.count
    }

    /// One past the last member.
    pub fn end(&self) -> u32
        ensures { result ≡ self.now.end }
    {
        self.end
    }

    /// The members.
    pub fn vertices(&self) -> &[u32]
        ensures { result.now ≡ self.now.vertices }
    {
        self.vertices.as_slice()
    }

    /// The place of a vertex, which is no member's where it is none.
    pub fn place(&self, vertex: u32) -> u32
        ensures { result ≡ place_in self.now vertex }
    {
        match self.places.get(vertex as usize) {
            Some(place) => *place,
            None => self.count,
        }
    }

    /// The segments with places in place of vertices.
    pub fn placed_segments(
        &self,
        alloc: Global,
        segments: &[Segment],
    ) -> Result<Vec<Segment>, OutOfMemory>
        ensures { IfOk result (λ all. all.items ≡ placed self.now segments.now) }
    {
        let mut all = Vec::with_capacity(alloc, segments.len())?;
        for segment in segments {
            let ports = placed_ports(alloc, self, segment.as_slice())?;
            all.push(Segment::from_vec(ports))?;
        }
        Ok(all)
    }
}

/// The first of some vertices in ascending order, and 0 where there is none.
pub(crate) fn first_of(vertices: &[u32]) -> u32
    ensures { result ≡ member_at vertices.now 0 }
{
    match vertices.first() {
        Some(first) => *first,
        None => 0,
    }
}

/// The ports of a segment with places in place of vertices.
fn placed_ports(alloc: Global, members: &Members, ports: &[Port]) -> Result<Vec<Port>, OutOfMemory>
    ensures { IfOk result (λ all. all.items ≡ placed_ports members.now ports.now) }
{
    let mut all = Vec::with_capacity(alloc, ports.len())?;
    for port in ports {
        all.push(Port {
            vertex: members.place(port.vertex),
            cost: port.cost,
        })?;
    }
    Ok(all)
}

/// Which of so many vertices have a port.
fn marked(alloc: Global, segments: &[Segment], count: u32) -> Result<Vec<bool>, OutOfMemory>
    requires { AreSegments count segments.now }
    ensures marked { IfOk result (λ marks. AreMarked segments.now (length segments.now) marks.items) }
    ensures long { IfOk result (λ marks. length marks.items ≡ count) }
{
    let mut marks = vec![in alloc; false; count as usize]?;
    for place in 0..segments.len() {
        mark(&mut marks, ports_at(segments, place));
    }
    Ok(marks)
}

/// Marks the vertices of some ports.
fn mark(marks: &mut Vec<bool>, ports: &[Port])
    requires { (port : PortValue) → Contains ports.now port → port.vertex < length marks.old.items }
    ensures { Marks ports.now marks.old.items marks.new.items }
{
    for place in 0..ports.len() {
        marks[ports[place].vertex as usize] = true;
    }
}
