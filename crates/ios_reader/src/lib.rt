//! Router configurations as their routers print them, read into the configurations that a plan is computed from.
//!
//! | File | What it holds |
//! |---|---|
//! | `reader`, `refusal` | `read_configs`: a text, read into its configurations or refused for its first faulty line; `read_or_faults` tells all of them |
//! | `faulty_lines` | faults in order, and the first on each line |
//! | `kind`, `fault` | why a line is faulty, and a faulty line: those of `ios_lines` |
//! | `configuration` | the lines before an `end` line, read into a configuration or their faults |
//! | `facts`, `router` | what the lines of an interface, and of the two processes, say in the end: of each form the last line |
//! | `settings` | what the lines of the two processes say of a configuration |
//! | `networks` | which `network` line is the first that takes an address |
//! | `areas` | the ranges and stub areas of an OSPF process |
//! | `passive` | which interfaces the two processes make passive |
//! | `interfaces` | the interfaces of a router: what the lines of each say is found once, for both of the next |
//! | `interface_read`, `interface_fault` | an interface as read, and what is wrong with it |
//! | `places` | where a line of a text begins, and what stands between two places |
//! | `laws`, `inserted` | that each text is read in one way; what texts are read as that are put together |
//!
//! A text is gone through once, and lines that tell nothing are left out at their first word. It is read in time of
//! its bytes, and for each interface one look-up for each wildcard without holes that some `network` line has, at most
//! 33; `network` lines whose wildcards have holes are tried one by one.
#![tactic(auto)]

// Why a line of a text is faulty.
pub mod fault;
pub mod kind;

// What lines say in the end.
mod areas;
mod facts;
mod networks;
mod passive;
mod router;
mod settings;

// Interfaces as read, and their faults.
mod interface_fault;
mod interface_read;
mod interfaces;

// Configurations, and the whole text.
mod configuration;
mod faulty_lines;
mod inserted;
mod laws;
mod places;
mod reader;
mod refusal;

pub use inserted::inserted_laws;
pub use kind::ReadKind;
pub use laws::{area_laws, faulty_lines_law, read_laws};
pub use places::{between, start_of};
pub use reader::{read_configs, read_or_faults};
pub use refusal::ReadRefusal;
pub use std::alloc::AllocError as OutOfMemory;
