ghost use Rattle.std.specs.Prelude.{◌≡◌, ◌<◌, ◌≤◌, ℕ, [], length, slice_index_or, IfOk, IfSome};
ghost use Rattle.std.specs.Bool.{OnTrue};
ghost use Rattle.walk_core.specs.declared.outlets.Outlet.{Outlet as OutletValue};
ghost use Rattle.walk_core.specs.Segments.{SendsAcross};
ghost use Rattle.walk_core.specs.steps.Begun.{IsBack, IsBegun, IsFarRow, IsLinkBack, IsRowBack, IsRowOver};
ghost use Rattle.walk_core.specs.steps.Rows.{AreDistanceRows};

use crate::OutOfMemory;
use crate::distance::{Distance, near_over};
use crate::exits::whole_row;
use crate::outlets::Outlet;
use crate::rows::Distances;
use crate::segment_graph::SegmentGraph;
use std::alloc::Global;

/// The distances that a flood from a root begins with, by the rows of the vertices of lower numbers: those of a neighbor
/// over the link there, which nothing undercuts but what leaves the root, or else the root's own alone.
pub(crate) fn begun_row(
    alloc: Global,
    graph: &SegmentGraph<'_>,
    rows: &[Distances],
    root: u32,
) -> Result<Vec<Distance>, OutOfMemory>
    requires root { root < graph.now.count }
    requires rows { AreDistanceRows (SendsAcross graph.now.segments) graph.now.count root rows.now }
    ensures { IfOk result (λ row. IsBegun graph.now root row.items) }
{
    match row_back(alloc, graph, rows, root)? {
        Some(row) => Ok(row),
        None => far_row(alloc, graph.count(), root),
    }
}

/// The distances of a neighbor of a lower number over the link there, if there is one that is nowhere too far.
fn row_back(
    alloc: Global,
    graph: &SegmentGraph<'_>,
    rows: &[Distances],
    root: u32,
) -> Result<Option<Vec<Distance>>, OutOfMemory>
    requires root { root < graph.now.count }
    requires rows { AreDistanceRows (SendsAcross graph.now.segments) graph.now.count root rows.now }
    ensures { IfOk result (λ found. IfSome found (λ row. IsBegun graph.now root row.items)) }
{
    let Some(back) = link_back(graph.ports(root as usize), root) else {
        return Ok(None);
    };
    let Some(far) = row_at(rows, back) else {
        return Ok(None);
    };
    let row = row_over(alloc, far, back.cost, graph.count(), root)?;
    Ok(row)
}

/// The cheapest of the links to a vertex of a lower number.
fn link_back(outlets: &[Outlet], root: u32) -> Option<Outlet>
    ensures { IfSome result (IsLinkBack outlets.now root) }
{
    let mut best = None;
    for outlet in outlets {
        if is_back(*outlet, root) && is_cheaper(*outlet, best) {
            best = Some(*outlet);
        }
    }
    best
}

/// Whether a port is on a link to a vertex of a lower number.
fn is_back(outlet: Outlet, root: u32) -> bool
    ensures { OnTrue result (IsBack root outlet) }
{
    match outlet.to {
        Some(to) => to < root,
        None => false,
    }
}

/// Whether a port costs less than another one, if there is one.
fn is_cheaper(outlet: Outlet, other: Option<Outlet>) -> bool {
    match other {
        Some(other) => outlet.cost < other.cost,
        None => true,
    }
}

/// The distances from where a link leads, if they are known of all vertices.
fn row_at(rows: &[Distances], outlet: Outlet) -> Option<&[Distance]>
    ensures { IfSome result (λ row. IsRowBack rows.now outlet row.now) }
{
    whole_row(rows, outlet.to?)
}

/// Distances over a link of this cost, and the root's own, if none is too far.
fn row_over(
    alloc: Global,
    far: &[Distance],
    cost: u32,
    count: u32,
    root: u32,
) -> Result<Option<Vec<Distance>>, OutOfMemory>
    requires within { length far.now ≤ count }
    requires root { root < count }
    ensures { IfOk result (λ found. IfSome found (λ row. IsRowOver far.now cost count root row.items)) }
{
    let mut row = vec![in alloc; Distance::none(); count as usize]?;
    for v in 0..far.len() {
        let Some(over) = near_over(far[v], cost) else {
            return Ok(None);
        };
        row[v] = over;
    }
    row[root as usize] = Distance::of(0);
    Ok(Some(row))
}

/// The root's own distance alone.
fn far_row(alloc: Global, count: u32, root: u32) -> Result<Vec<Distance>, OutOfMemory>
    requires { root < count }
    ensures { IfOk result (λ row. IsFarRow count root row.items) }
{
    let mut row = vec![in alloc; Distance::none(); count as usize]?;
    row[root as usize] = Distance::of(0);
    Ok(row)
}
