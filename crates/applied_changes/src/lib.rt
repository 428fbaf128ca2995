//! Changes applied to configurations: the lines of a migration's changes, put into the texts of configurations, and the
//! laws of what they make.
//!
//! | Notion | Definition | Code |
//! |---|---|---|
//! | the lines that take a router to a phase, and the configuration that they make | `specs/AppliedTexts.antt` | `change_lines.rt` |
//! | which router is how far | `specs/NamedPhases.antt` | `phases.rt` |
//! | a text with these lines put before its `end` lines | `specs/AppliedTexts.antt` | `apply` (`applied.rt`) |
//! | the changes that were made up to a state of an order | `specs/MadeChanges.antt` | none: `applied_laws` says that their lines are those put in |
//!
//! `apply` reads the text once and writes each byte of it once; besides it goes over the routers of the network and over the order
//! once for each configuration.
#![tactic(auto)]

// How far each router is, and its lines.
mod change_lines;
mod phases;

// The text with the lines of all routers, and what it reads as.
mod applied;
mod laws;

pub use applied::apply;
pub use laws::applied_laws;
pub use std::alloc::AllocError as OutOfMemory;
