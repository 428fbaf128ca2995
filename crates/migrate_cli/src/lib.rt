//! The program `migrate` as one call: what it answers to its words and its files.
//!
//! `run` is the claim. What every command shares comes first; `commands` is the list of the commands that there are, and each
//! has a file of its own.
//!
//! | File | What it does |
//! |---|---|
//! | `run_call` | `run`: words, files, the outcome, the delivery of its text |
//! | `files`, `reading` | which files a command names, with their limits, and reading one after another |
//! | `first_lines` | the line by which a file of single changes is told from one of routers |
//! | `configurations`, `judging` | configurations and the network, the start, and then the command's own decision |
//! | `commands` | the commands, and whether one asks for the start of a migration |
//! | `tables` | the tables of both protocols of a network, and mixed forwarding over them |
//! | `settling` | what a design settles for a network |
//! | `surveying` | what `survey` tells of texts that need not make a network |
//! | `observing` | what `observe` comes to, which reads two networks one after the other |
//! | `failures`, `progress` | what `failures` comes to, link by link; saying meanwhile how far it is |
//! | `design`, `prepare`, `delta`, `shown`, `plan`, `check`, `why`, `picture`, `refute` | what each command decides, `tables` in `shown` |
//! | `twopass`, `changes`, `why_changes` | of single changes: what `twopass` decides, and `check`, `refute` and `why` of their files |
//! | `rest`, `replan`, `rollback` | of a night that was stopped: what `refute` decides of its trees, and what these decide |
//! | `split`, `scripts`, `replay`, `pair`, `sample` | the same of those for the night, and of the others |
//! | `sending` | writing in pieces of 4,096 bytes |
//! | `originated` | how many prefixes a network originates |
//! | `laws` | that a call has one answer |
//!
//! `specs/Claim.antt` is the claim, a field for each promise; `specs/Headline.antt` says what plans mean, in packets;
//! `specs/Calls.antt` what a call and its outside are, `specs/Answers.antt` what it comes to. A call takes the time of its parts:
//! bytes to read, both protocols' tables (routers times prefixes), classes times routers, and the states asked about.
#![tactic(auto)]

// the call
mod run_call;
mod sending;

// what every command shares
mod commands;
mod configurations;
mod files;
mod first_lines;
mod judging;
mod moves;
mod progress;
mod reading;
mod settling;
mod tables;

// what each command decides
mod changes;
mod check;
mod delta;
mod design;
mod failures;
mod observing;
mod pair;
mod picture;
mod plan;
mod prepare;
mod refute;
mod replan;
mod replay;
mod rest;
mod rollback;
mod sample;
mod scripts;
mod shown;
mod split;
mod surveying;
mod twopass;
mod why;
mod why_changes;

// what is counted, and laws
mod laws;
mod originated;

pub use laws::one_answer;
pub use migration_report::Status;
pub use run_call::run;
pub use std::alloc::AllocError as OutOfMemory;
