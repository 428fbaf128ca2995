ghost use Rattle.std.specs.Prelude.{◌≡◌, ◌<◌, length, IfOk};
ghost use Rattle.walk_core.specs.Distances.{distance_at};
ghost use Rattle.walk_core.specs.steps.Rows.{distance_between, KnowsEnds};
ghost use Rattle.walk_core.specs.KeptWalks.{lone_row};

use crate::distance::Distance;
use crate::members::first_of;
use crate::relax::{distance_in, distances_from};
use crate::{CostGraph, OutOfMemory};
use std::alloc::Global;
use std::marker::Model;

/// The distances from one vertex, by the number of the other: the least cost of a walk there, and None where no walk
/// leads. Those over segments from a vertex without a port take no memory.
#[derive(Debug, Drop)]
pub(crate) struct Distances {
    kept: Kept,
}

/// How distances are kept.
#[derive(Debug, Drop)]
pub(crate) enum Kept {
    /// Those of this vertex, which reaches itself alone.
    Lone(u32),
    /// Those of each vertex from the first on.
    Row(Vec<Distance>),
}

impl Model for Distances {
    ghost use Rattle.std.specs.Prelude.{List, Option, ℕ};
    ghost use Rattle.walk_core.specs.steps.Rows.{kept_row};

    ghost Value = { List (Option ℕ) };

    ghost view = { λ x. kept_row x.kept };
}

impl Distances {
    ghost use Rattle.std.specs.Prelude.{◌≡◌, ◌+◌, ◌++◌, [], None, length, replicate, IfOk, IfSome};
    ghost use Rattle.walk_core.specs.Distances.{distance_at};
    ghost use Rattle.walk_core.specs.KeptWalks.{lone_row};
    ghost use Rattle.walk_core.specs.steps.Members.{AreVertices, IsSpread, member_at};

    /// No distances.
    pub fn none(alloc: Global) -> Distances
        ensures { result ≡ [] }
    {
        Distances::from_vec(Vec::new(alloc))
    }

    /// The distances of a vector.
    pub fn from_vec(all: Vec<Distance>) -> Distances
        ensures { result ≡ all.items }
    {
        Distances {
            kept: Kept::Row(all),
        }
    }

    /// The distances from a vertex that reaches itself alone.
    pub fn of_lone(root: u32) -> Distances
        ensures { result ≡ lone_row root }
    {
        Distances {
            kept: Kept::Lone(root),
        }
    }

    /// The vertex that reaches itself alone, if these are its distances.
    pub fn lone(&self) -> Option<u32>
        ensures { IfSome result (λ root. self.now ≡ lone_row root) }
    {
        match &self.kept {
            Kept::Lone(root) => Some(*root),
            Kept::Row(_) => None,
        }
    }

    /// The distances as a slice, unless they are those of a vertex that reaches itself alone.
    pub fn whole(&self) -> Option<&[Distance]>
        ensures { IfSome result (λ row. row.now ≡ self.now) }
    {
        match &self.kept {
            Kept::Lone(_) => None,
            Kept::Row(all) => Some(all.as_slice()),
        }
    }

    /// The distances as a vector.
    pub fn into_vec(self, alloc: Global) -> Result<Vec<Distance>, OutOfMemory>
        ensures { IfOk result (λ all. all.items ≡ self) }
    {
        match self.kept {
            Kept::Lone(root) => {
                let mut all = vec![in alloc; Distance::none(); root as usize]?;
                all.push(Distance::of(0))?;
                Ok(all)
            }
            Kept::Row(all) => Ok(all),
        }
    }

    /// The distances of the vertices of places, which are all below `end`, from the first of them on, by those of the places.
    pub fn spread(
        &self,
        alloc: Global,
        vertices: &[u32],
        end: u32,
    ) -> Result<Vec<Distance>, OutOfMemory>
        requires { AreVertices vertices.now end }
        ensures spread { IfOk result (λ all. IsSpread None vertices.now (length vertices.now) self.now
            (replicate (member_at vertices.now 0) None ++ all.items)) }
        ensures long { IfOk result (λ all. member_at vertices.now 0 + length all.items ≡ end) }
    {
        let first = first_of(vertices);
        let mut all = vec![in alloc; Distance::none(); (end - first) as usize]?;
        for place in 0..vertices.len() {
            all[(vertices[place] - first) as usize] = self.of(place as u32);
        }
        Ok(all)
    }

    /// The distance of v.
    #[inline(always)]
    pub fn of(&self, v: u32) -> Distance
        ensures { result ≡ distance_at self.now v }
    {
        match &self.kept {
            Kept::Lone(root) => distance_to_lone(*root, v),
            Kept::Row(all) => distance_in(all.as_slice(), v),
        }
    }

    /// How far v is, and None where there is no distance.
    #[inline(always)]
    pub fn at(&self, v: u32) -> Option<u64>
        ensures { result ≡ distance_at self.now v }
    {
        self.of(v).get()
    }
}

/// The distance of v from a vertex that reaches itself alone.
#[inline(always)]
pub(crate) fn distance_to_lone(root: u32, v: u32) -> Distance
    ensures { result ≡ distance_at (lone_row root) v }
{
    if v == root {
        Distance::of(0)
    } else {
        Distance::none()
    }
}

/// The distance from u to v by these rows.
#[inline(always)]
pub(crate) fn row_distance(rows: &[Distances], u: u32, v: u32) -> Distance
    ensures { result ≡ distance_between rows.now u v }
{
    match rows.get(u as usize) {
        Some(row) => row.of(v),
        None => Distance::none(),
    }
}

/// How far v is from u by these rows, and None where there is no distance.
#[inline(always)]
pub(crate) fn distance_between(rows: &[Distances], u: u32, v: u32) -> Option<u64>
    ensures { result ≡ distance_between rows.now u v }
{
    row_distance(rows, u, v).get()
}

/// The distances from each vertex that an arc from the root leads to.
pub(crate) fn rows_beyond<G: CostGraph>(
    alloc: Global,
    graph: &G,
    root: u32,
) -> Result<Vec<Distances>, OutOfMemory>
    requires { root < G.vertex_count graph.now }
    ensures { IfOk result (λ rows. KnowsEnds (G.has_arc graph.now) root rows.items) }
{
    let mut rows = no_rows(alloc, graph.vertices())?;
    for i in 0..graph.arcs(root) {
        let to = graph.arc(root, i).0;
        rows[to as usize] = distances_from(alloc, graph, to)?;
    }
    Ok(rows)
}

/// So many rows without distances.
fn no_rows(alloc: Global, count: u32) -> Result<Vec<Distances>, OutOfMemory>
    ensures { IfOk result (λ rows. length rows.items ≡ count) }
{
    let mut rows = Vec::new(alloc);
    for _ in 0..count {
        rows.push(Distances::none(alloc))?;
    }
    Ok(rows)
}
