//! A migration that was stopped: the lines that undo what was done, and how it goes on from the state that was reached.
//!
//! A router goes on from `Old`, `Middle` or `New`, and makes in its wave the changes that it hasn't made; one that is `New` makes
//! none. Both ends are that state and the one in which every router is `New`.
//!
//! | Notion | Definition | Call |
//! |---|---|---|
//! | the lines that undo the changes of a journal | `specs/BackTexts.antt` | `back_text` (`back.rt`, with the changes that are read in `told.rt`) |
//! | the waves of the rest | `specs/RestTexts.antt` | `rest_text` (`rest.rt`) |
//! | what is printed of a rest are waves of the routers that aren't New | `specs/RestLaws.antt` | `rest_laws` |
//! | what contracts see of a night that goes on from a start | `specs/RestNights.antt` | |
//! | the fault of a ranking of the routers | `IsTimesFault` of `rest_times` (`igp_theory`) | `RestFinder` (`finder.rt`) |
//! | whom the search asks | `waves_meaning` of `rest_move` (`plan_theory`) | `RestOracle` (`oracle.rt`) |
//! | what is planned | `IsPlanned` from the start (`plan_theory`) | `plan_rest` (`plan.rt`) |
//! | trees from a start, what a closed one means | `TreeTexts`, `RestVerdicts` (`refutation_check`) | `rest_tree_text`, `verify_rest` |
//!
//! `back_text` takes time of the journal's bytes and of those that it prints, `rest_text` of those that it prints. The
//! finder and the oracle are those of any night (`wave_oracle`), with routers ranked from a start; a question takes the time of one
//! to `NightFinder`.
#![tactic(auto)]

// The way back.
mod back;
mod told;

// What is left, as a text.
mod laws;
mod rest;

// What is left, planned.
mod finder;
mod oracle;
mod plan;

pub use back::back_text;
pub use finder::RestFinder;
pub use laws::rest_laws;
pub use oracle::RestOracle;
pub use plan::plan_rest;
pub use refutation_check::{Verdict, rest_tree_text, verify_rest};
pub use rest::rest_text;
pub use std::alloc::AllocError as OutOfMemory;
