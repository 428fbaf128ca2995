use crate::ascending::Ascending;
use crate::seconds::print_seconds;
use anyhow::{Result, ensure};
use order_search::{Found, Node, search};
use std::rt::Clock;
use std::time::Instant;

/// Measures the search for the ranking of so many numbers in which each stands in a wave of its own, ascending.
pub fn measure(
    rt: &(impl AllocGlobal + Clock + Eprint + Print),
    size: u32,
    budget: u32,
) -> Result<()> {
    ensure!(1 <= size && size <= 1000, "{size} isn't from 1 to 1000");
    ensure!(1 <= budget, "{budget} isn't from 1 to {}", u32::MAX);
    let mut oracle = Ascending::new(size);
    let start = Instant::now(rt)?;
    let found = search(rt.alloc(), &mut oracle, budget)?;
    print_seconds(rt, "search", u64::from(size), start)?;
    report_found(rt, &found)
}

/// Prints what was found, and with how many branches.
pub(crate) fn report_found(rt: &impl Print, found: &Found) -> Result<()> {
    match found {
        Found::Waves { waves, trail, .. } => {
            println!(rt;
                "{} waves with {} branches",
                waves.count(),
                count_branches(trail.as_slice())
            )?;
        }
        Found::Refuted { tree } => {
            println!(rt; "refuted with {} branches", count_branches(tree.as_slice()))?;
        }
        Found::Spent { tree } => {
            println!(rt; "spent {} branches", count_branches(tree.as_slice()))?;
        }
    }
    Ok(())
}

/// How many of the nodes are branches.
fn count_branches(nodes: &[Node]) -> usize {
    nodes
        .iter()
        .filter(|node| matches!(node, Node::Branch { .. }))
        .count()
}
