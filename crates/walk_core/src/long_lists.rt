ghost use Rattle.std.specs.Prelude.{◌≡◌, IfOk};
ghost use Rattle.walk_core.specs.steps.Members.{member_at, members_at};

use crate::OutOfMemory;
use std::alloc::Global;
use std::marker::Model;

/// Where a list stands among the numbers of all lists.
#[derive(Clone, Copy, Debug)]
pub(crate) struct Span {
    start: usize,
    end: usize,
}

/// Lists of numbers, one after another in one vector, each of which has a place.
#[derive(Debug, Drop)]
pub(crate) struct LongLists {
    numbers: Vec<u32>,
    spans: Vec<Span>,
}

impl Model for LongLists {
    ghost use Rattle.std.specs.Prelude.{List, ℕ};
    ghost use Rattle.walk_core.specs.steps.NumberLists.{lists_of, AreSpansWithin};

    ghost Value = { List (List ℕ) };

    ghost view = { λ x. lists_of x.numbers.items x.spans.items };

    ghost invariant = { λ x. AreSpansWithin x.numbers.items x.spans.items };
}

impl LongLists {
    ghost use Rattle.std.specs.Prelude.{◌≡◌, ◌++◌, ◌∷◌, [], IfOk, OnOk, OnErr, length, map, slice_index_or};
    ghost use Rattle.walk_core.specs.steps.Members.{members_at};

    /// No lists.
    pub fn none(alloc: Global) -> LongLists
        ensures { result ≡ [] }
    {
        LongLists {
            numbers: Vec::new(alloc),
            spans: Vec::new(alloc),
        }
    }

    /// Adds a list behind the others, and gives its place.
    #[inline(never)]
    pub fn keep(&mut self, list: &[u32]) -> Result<u32, OutOfMemory>
        ensures kept { OnOk result (self.new ≡ self.old ++ list.now ∷ []) }
        ensures place { IfOk result (λ place. place ≡ length self.old) }
        ensures refused { OnErr result (self.new ≡ self.old) }
    {
        let Ok(place) = u32::try_from(self.spans.len()) else {
            return Err(OutOfMemory);
        };
        self.spans.reserve(1)?;
        let start = self.numbers.len();
        self.numbers.extend_from_slice(list)?;
        let end = self.numbers.len();
        self.spans.push_reserved(Span { start, end });
        Ok(place)
    }

    /// A copy of these lists.
    pub fn copy(&self, alloc: Global) -> Result<LongLists, OutOfMemory>
        ensures { IfOk result (λ lists. lists ≡ self.now) }
    {
        let mut numbers = Vec::with_capacity(alloc, self.numbers.len())?;
        numbers.extend_from_slice(self.numbers.as_slice())?;
        let mut spans = Vec::with_capacity(alloc, self.spans.len())?;
        spans.extend_from_slice(self.spans.as_slice())?;
        Ok(LongLists { numbers, spans })
    }

    /// The lists of the vertices that stand at the numbers of these.
    pub fn renumbered(&self, alloc: Global, vertices: &[u32]) -> Result<LongLists, OutOfMemory>
        ensures { IfOk result (λ lists. lists ≡ map (members_at vertices.now) self.now) }
    {
        let numbers = renumbered(alloc, self.numbers.as_slice(), vertices)?;
        let spans = Vec::from_slice(alloc, self.spans.as_slice())?;
        Ok(LongLists { numbers, spans })
    }

    /// The list of this place, and an empty one past the last.
    pub fn at(&self, place: usize) -> &[u32]
        ensures { result.now ≡ slice_index_or self.now place [] }
    {
        match self.spans.get(place) {
            Some(span) => &self.numbers[span.start..span.end],
            None => &self.numbers[..0],
        }
    }
}

/// The vertices that stand at some numbers.
fn renumbered(alloc: Global, numbers: &[u32], vertices: &[u32]) -> Result<Vec<u32>, OutOfMemory>
    ensures { IfOk result (λ all. all.items ≡ members_at vertices.now numbers.now) }
{
    let mut all = Vec::with_capacity(alloc, numbers.len())?;
    for number in numbers {
        all.push(vertex_at(vertices, *number))?;
    }
    Ok(all)
}

/// The vertex that stands at a place, and 0 past the last.
#[inline(always)]
pub(crate) fn vertex_at(vertices: &[u32], place: u32) -> u32
    ensures { result ≡ member_at vertices.now place }
{
    match vertices.get(place as usize) {
        Some(vertex) => *vertex,
        None => 0,
    }
}
