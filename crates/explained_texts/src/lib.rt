//! What explains a verdict on a list of waves: of a safe one why its routers aren't in an earlier wave, of an unsafe one the way
//! of a packet.
//!
//! Of each router behind the first wave a line says what keeps it from the wave before its own, a loop that would arise there
//! (`R2 wave 2 after R1 10.0.0.3 R1:O R2:N`), or that it may stand there (`R7 wave 3 may be earlier`). A fault is told by the
//! target of its address and by what its routers use in one state: `at R1 old 10.0.0.3/32 ospf 110 to R2 R4`.
//!
//! | File | What it holds |
//! |---|---|
//! | `reasons`, `earlier` | the text of reasons; what is asked of the finder for a router, and the line |
//! | `ring` | what is told of the ring of a loop |
//! | `way`, `place` | the way of a packet; where its fault was found, and the phases that are told |
//! | `target` | the line of a target |
//! | `uses` | what a router uses, in words |
//! | `laws` | that there is one text of each, and that a way is told in one state |
//!
//! `reasons_text` asks the finder once for each router; `way_text` looks up what each router of the ring uses. What else is public
//! here serves the reasons of single changes (`explained_changes`).
#![tactic(auto)]

// Safe lists.
mod earlier;
mod reasons;
mod ring;

// Unsafe ones.
mod place;
mod target;
mod uses;
mod way;

// Laws.
mod laws;

pub use earlier::{earlier_wave, fault_alone};
pub use laws::{texts_are_one, ways_are_in_one_state};
pub use place::FaultPlace;
pub use reasons::reasons_text;
pub use ring::{lowest_before, with_turns};
pub use std::alloc::AllocError as OutOfMemory;
pub use way::way_text;
