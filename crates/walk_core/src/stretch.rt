use crate::distance::Distance;
use crate::number_lists::NumberLists;
use std::marker::Model;

/// What is known of the walks from a root, from the first vertex on that any of them may lead to. In front of it none leads, nor
/// behind the last one.
#[derive(Debug, Drop)]
pub struct WalkStretch<'a> {
    first: u32,
    distances: &'a [Distance],
    hops: &'a NumberLists,
}

/// How far the walks from a root lead.
#[derive(Debug, Drop)]
pub enum Extent<'a> {
    /// Nowhere: this is the root, which reaches itself alone.
    Alone(u32),
    /// Along these vertices.
    Along(WalkStretch<'a>),
}

/// The first hops towards a vertex, where they are one at most.
#[derive(Clone, Copy, Debug)]
pub enum OnlyHop {
    /// There is none.
    Nothing,
    /// This one alone.
    One(u32),
    /// They are several.
    Several,
}

impl<'a> Model for WalkStretch<'a> {
    ghost use Rattle.walk_core.specs.Stretches.{ReachFrom};

    ghost Value = { ReachFrom };

    ghost view = { λ x. record { first = x.first; distances = x.distances.now; hops = x.hops.now } };
}

impl<'a> WalkStretch<'a> {
    ghost use Rattle.std.specs.Prelude.{◌≡◌, [], length, slice_index_or};
    ghost use Rattle.walk_core.specs.Distances.{distance_at};
    ghost use Rattle.walk_core.specs.Stretches.{IsOnlyHop};

    /// These, from this vertex on.
    pub(crate) fn from(
        first: u32,
        distances: &'a [Distance],
        hops: &'a NumberLists,
    ) -> WalkStretch<'a>
        ensures { result ≡ (record { first = first; distances = distances.now; hops = hops.now }) }
    {
        WalkStretch {
            first,
            distances,
            hops,
        }
    }

    /// The first vertex.
    pub fn first(&self) -> u32
        ensures { result ≡ self.now.first }
    {
        self.first
    }

    /// How many vertices there are.
    pub fn len(&self) -> usize
        ensures { result ≡ length self.now.distances }
    {
        self.distances.len()
    }

    /// How far the vertex is that stands so many behind the first, and None where no walk leads there.
    #[inline(always)]
    pub fn distance(&self, step: usize) -> Option<u64>
        ensures { result ≡ distance_at self.now.distances step }
    {
        self.distances.get(step)?.get()
    }

    /// The first hop towards it, where there is one at most.
    #[inline(always)]
    pub fn only_hop(&self, step: usize) -> OnlyHop
        ensures { IsOnlyHop (slice_index_or self.now.hops step []) result }
    {
        self.hops.only_at(step)
    }
}
