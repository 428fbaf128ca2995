//! Wave lists whose waves hold at most so many routers: each wave of a list is cut in number order, which in a network that was
//! read is the order of the names.
//!
//! | Notion | Definition | Call |
//! |---|---|---|
//! | the cuts of a wave | `specs/Cuts.antt` | `split_waves` (`split.rt`) |
//! | one list refines another | `specs/Refinements.antt` | |
//!
//! A list that is cut refines the one that it was cut from (`cuts_refine`), and each refinement of a seamless list is seamless
//! (`refinements_are_seamless`): its states are among those of the list. `split_waves` takes the time that `Waves` needs to hold
//! a ranking. A caller:
//!
//! ```text
//! let split = split_waves(alloc, &waves, 2)?;
//! let text = wave_list_text(alloc, &net, &split)?;
//! ```
//!
//! makes of `wave R1 R2 R3` the lines `wave R1 R2` and `wave R3`.
#![tactic(auto)]

// Waves, cut.
mod split;

// That this is safe.
mod laws;

pub use laws::{cuts_refine, refinements_are_seamless};
pub use split::split_waves;
