//! Words without a network: orders, rankings and their waves, and the turns of a ring.
#![tactic(auto)]

// The turns of a ring.
mod turn;

// Rankings and their waves.
mod wave_laws;
mod waves;

pub use std::alloc::AllocError as OutOfMemory;
pub use turn::{Tag, Turn, Turns};
pub use wave_laws::{flat_runs_are_orders, waves_are_ranks};
pub use waves::Waves;
