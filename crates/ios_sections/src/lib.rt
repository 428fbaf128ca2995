//! The sections of configurations as routers print them, and what they say of interfaces and of the two processes.
//!
//! | File | What it holds |
//! |---|---|
//! | `text_line`, `text` | a line of a text; the lines that count, outside banners and no comments |
//! | `told_lines` | the lines of a text that count and tell something, one after the other |
//! | `read_section`, `section` | the sections of some lines, and what each says |
//! | `gather`, `name_index` | sections by what they are of, all those of one interface as one |
//! | `process` | the OSPF process of a router, its lines, and their faults |
//! | `isis_process` | the same of the IS-IS process |
//! | `statements` | what the sections of a configuration say, all together |
//! | `laws` | what the definitions mean, in other words |
//!
//! `text::counted_lines` and `told_lines::ToldLines` go through a text once, and look at how the first word of each
//! line begins. The second gives no line that says nothing: nothing at indent 0 but `hostname`, `interface`, `router`,
//! `ip` and `end` lines, and no other lines than those of interfaces and processes. `read_section::sections_from_first` and
//! `statements::statements_of` take time of the lines that they are given, and one look-up of a name for each section
//! of an interface.
#![tactic(auto)]

// The lines of a text, and its sections.
pub mod read_section;
pub mod section;
pub mod text;
pub mod text_line;
pub mod told_lines;

// What the sections of a configuration say, gathered.
mod gather;
pub mod isis_process;
mod name_index;
pub mod process;
pub mod statements;

// What the definitions mean, in other words.
mod laws;

pub use laws::section_laws;
pub use std::alloc::AllocError as OutOfMemory;
