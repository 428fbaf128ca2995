//! What a call of the planner may come to, as data, with the status and the text that tell it.
//!
//! | File | What it has |
//! |---|---|
//! | `outcome` | `Outcome`: the input is refused, a command has decided of a network, or texts are surveyed; its status and text |
//! | `refusal`, `decision` | why input is refused, and what a command may decide |
//! | `status` | how a call may end, with the exit codes |
//! | `report`, `ends` | the lines `safe ..`, `unsafe ..`, `unsound ..`: an order, a wave list, an end of the migration |
//! | `journal` | the lines `at ..`, `next ..`, `done`, `departs ..`: where a journal stands |
//! | `rest` | the text of what is planned of the rest of a migration that was stopped |
//! | `tree` | the lines `closed ..`, `open ..`, `wrong ..`: what is found of a tree file |
//! | `summary` | the lines that sum up a plan |
//! | `design`, `kinds` | the line `refused ..` of a design, and the names of kinds |
//!
//! `Outcome::text` prints what a call comes to, and the calls of `report` print a line alone, where more is put behind it. What
//! each line says is defined once, over plain data, in the file of `specs/` that bears its subject's name; `specs/Outcomes.antt`
//! says which line tells which outcome. A text takes time of its length.
#![tactic(auto)]

// what a call comes to
mod decision;
mod outcome;
mod refusal;
mod status;

// what was found
mod ends;
mod journal;
mod report;
mod rest;
mod summary;
mod tree;

// why input is refused
mod design;
mod kinds;

pub use decision::Decision;
pub use ends::{End, start_text, unsound_text};
pub use journal::Nexts;
pub use outcome::Outcome;
pub use refusal::Refusal;
pub use report::{safe_text, unsafe_text, waves_safe_text, waves_unsafe_text};
pub use rest::RestStart;
pub use status::Status;
pub use std::alloc::AllocError as OutOfMemory;
pub use summary::PlanCounts;
