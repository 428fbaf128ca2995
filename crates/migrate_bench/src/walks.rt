use crate::mesh::Mesh;
use crate::seconds::print_seconds;
use crate::shape::Shape;
use anyhow::{Result, ensure};
use std::rt::Clock;
use std::time::Instant;
use walk_core::{CostGraph, LeastWalks, least_walks};

/// Measures the least walks of a ring and of a grid of so many routers.
pub fn measure(rt: &(impl AllocGlobal + Clock + Eprint + Print), size: u32) -> Result<()> {
    ensure!(1 <= size, "{size} isn't from 1 to {}", u32::MAX);
    let alloc = rt.alloc();
    report(rt, "ring", &Mesh::new(alloc, Shape::Ring, size)?)?;
    let width = size.isqrt().max(1);
    report(rt, "grid", &Mesh::new(alloc, Shape::Grid(width), size)?)
}

/// Finds the least walks from every root, and prints what they come to and the time that took.
fn report(rt: &(impl AllocGlobal + Clock + Eprint + Print), name: &str, mesh: &Mesh) -> Result<()> {
    let start = Instant::now(rt)?;
    let mut distances = 0u64;
    for root in 0..mesh.vertices() {
        let walks = least_walks(rt.alloc(), mesh, root)?;
        distances = distances.saturating_add(sum_of_distances(&walks, mesh.vertices()));
    }
    println!(rt; "{name} of {}: distances {distances}", mesh.vertices())?;
    print_seconds(rt, name, u64::from(mesh.vertices()), start)
}

/// The sum of the distances of all vertices from the root.
fn sum_of_distances(walks: &LeastWalks, vertices: u32) -> u64 {
    let mut sum = 0u64;
    for v in 0..vertices {
        sum = sum.saturating_add(walks.distance(v).unwrap_or(0));
    }
    sum
}
