//! Assumed precedences between routers: the cycle that a new one closes, the layers that keep
//! them all, and the chain that shows how many there have to be.
//!
//! | File | What it holds | Time of its calls |
//! |---|---|---|
//! | `precedences` | `Precedences`, what callers see | `add`: the routers that v reaches and their pairs; `layers`, `chain`: all pairs and routers |
//! | `graph` | the pairs with the successors of each router | |
//! | `tracing` | the cycle that a pair closes, in the way that `LeastCycle` says | the routers reached and their pairs |
//! | `reaching`, `following` | what a router reaches; the lowest marked router after one | the same |
//! | `layering` | the layers (`Layers`), made anew or moved by one pair | pairs and routers; one pair constant |
//! | `sorting` | all routers, each after its predecessors | pairs and routers |
//! | `chaining` | the chain of the layers | pairs and routers |
//! | `laws` | layers are fewest, chains are pairs | |
#![tactic(auto)]

// What callers see.
mod laws;
mod precedences;

// The pairs.
mod graph;

// The cycle that a pair closes.
mod following;
mod reaching;
mod tracing;

// Layers and their chain.
mod chaining;
mod layering;
mod sorting;

pub use laws::{chains_are_pairs, layers_are_fewest};
pub use precedences::{Added, Precedences};
pub use std::alloc::AllocError as OutOfMemory;
