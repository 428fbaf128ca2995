//! Measures the parts of the planner, by hand. What a task comes to is printed on standard output, and
//! how long it took on standard error.
//!
//! - `migrate_bench walks SIZE`: the least walks from every root of a ring and of a grid of SIZE routers.
//! - `migrate_bench search SIZE BUDGET`: the search for a ranking of SIZE numbers of which only the one is good that
//!   gives each number itself as its rank, with at most BUDGET branches.
//! - `migrate_bench read FILE...`: the reading of the configurations of these files.
//! - `migrate_bench tables FILE...`: the route tables of both protocols of the network of these files, and
//!   the least walks that they take.
//! - `migrate_bench check ORDER FILE...`: mixed forwarding over the network of these files, the finder of its
//!   faults, what that finds of the order of the file ORDER, and of 1,000 orders that are this one with two routers
//!   exchanged.
//! - `migrate_bench waves ORDER FILE...`: the same of the wave list of the file ORDER, and of 1,000 wave lists that are
//!   this one with the ranks of two routers exchanged.
//! - `migrate_bench refute TREE FILE...`: mixed forwarding over the network of these files, and what is found of the
//!   tree of the file TREE.
//! - `migrate_bench prepare DESIGN FILE...`: the reading of the configurations of these files, and the writing of their
//!   prepared texts by the design of the file DESIGN.
//! - `migrate_bench plan FILE...`: mixed forwarding over the network of these files, and its plan.
#![tactic(auto)]

// The tasks.
mod faults;
mod plans;
mod preparations;
mod reading;
mod refutations;
mod searches;
mod tables;
mod walks;

// What is measured: the arguments, files, made networks and oracles.
mod areas;
mod ascending;
mod configurations;
mod entries;
mod exchanges;
mod mesh;
mod shape;
mod task;
mod texts;

// Seconds.
mod seconds;

use anyhow::Result;
use faults::Asked;
use std::env;
use std::rt::{Clock, Env, Files};
use task::Task;

fn main(rt: HostRuntime) -> Result<()> {
    run(&rt)
}

/// Does the task that the arguments name.
fn run(rt: &(impl AllocGlobal + Clock + Env + Eprint + Files + Print)) -> Result<()> {
    let mut words = env::args(rt)?;
    let _program = words.next();
    match Task::read(rt.alloc(), words)? {
        Task::Walks { size } => walks::measure(rt, size),
        Task::Search { size, budget } => searches::measure(rt, size, budget),
        Task::Read { files } => reading::measure(rt, files),
        Task::Tables { files } => tables::measure(rt, files),
        Task::Check { files } => faults::measure(rt, files, Asked::Orders),
        Task::Waves { files } => faults::measure(rt, files, Asked::WaveLists),
        Task::Refute { files } => refutations::measure(rt, files),
        Task::Prepare { files } => preparations::measure(rt, files),
        Task::Plan { files } => plans::measure(rt, files),
    }
}
