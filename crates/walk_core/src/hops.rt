ghost use Rattle.std.specs.Prelude.{◌↔◌, ◌<◌, ℕ, IfOk, OnOk, IsTrue, Contains};
ghost use Rattle.std.specs.List.Sorted.{IsStrictlyIncreasing};
ghost use Rattle.walk_core.specs.steps.Departures.{AreDepartures, Begins, BeginsAt};

use crate::rows::{Distances, distance_between};
use crate::union::put_in_order;
use crate::{CostGraph, OutOfMemory};
use std::alloc::Global;

/// An arc from the root: where it leads, and what it costs.
#[derive(Clone, Copy, Debug)]
pub(crate) struct Departure {
    to: u32,
    cost: u32,
}

/// The arcs from the root.
pub(crate) fn departures_from<G: CostGraph>(
    alloc: Global,
    graph: &G,
    root: u32,
) -> Result<Vec<Departure>, OutOfMemory>
    requires { root < G.vertex_count graph.now }
    ensures { IfOk result (λ ds. AreDepartures (G.has_arc graph.now) root ds.items) }
{
    let mut departures = Vec::new(alloc);
    for i in 0..graph.arcs(root) {
        let (to, cost) = graph.arc(root, i);
        departures.push(Departure { to, cost })?;
    }
    Ok(departures)
}

/// Finds the first hops towards v, which is at this distance from the root, in ascending order.
pub(crate) fn find_first_hops(
    found: &mut Vec<u32>,
    departures: &[Departure],
    rows: &[Distances],
    v: u32,
    distance: Option<u64>,
) -> Result<(), OutOfMemory>
    ensures exact { OnOk result ((h : ℕ) →
        Contains found.new.items h ↔ BeginsAt departures.now rows.now v distance h) }
    ensures ascending { OnOk result (IsStrictlyIncreasing found.new.items) }
{
    found.clear();
    for departure in departures {
        if begins(*departure, rows, v, distance) {
            found.push(departure.to)?;
        }
    }
    put_in_order(found);
    Ok(())
}

/// Whether a least walk to v, which is at this distance from the root, begins with the departure.
fn begins(departure: Departure, rows: &[Distances], v: u32, distance: Option<u64>) -> bool
    ensures { IsTrue result ↔ Begins rows.now departure v distance }
{
    let cost = u64::from(departure.cost);
    match (distance, distance_between(rows, departure.to, v)) {
        (Some(whole), Some(beyond)) => cost <= whole && beyond == whole - cost,
        _ => false,
    }
}
