//! The lines of configurations as routers print them: what each says, why it is faulty, and the order of faults.
//!
//! | File | What it holds |
//! |---|---|
//! | `words` | the words of a line, and what a word stands for: a number, an area, a level |
//! | `octets` | the address for which a word stands, octet by octet, and the length of a mask |
//! | `bounds` | the greatest values of some numbers, and the values that hold where no line says one |
//! | `address` | the address of an interface, with the length of its mask |
//! | `head` | what a line at indent 0 says: the router's name, an interface, a process |
//! | `interface_line` | what a line of an interface says |
//! | `ospf_line` | what a line of `router ospf` says |
//! | `isis_line`, `title` | what a line of `router isis` says; the title of its `net` line (ISO 10589, section 7.1) |
//! | `laws` | which lines at indent 0 say something, as a table; which words are titles, numbers, addresses and masks |
//! | `kind`, `fault` | why a line is faulty, and which of two faults is told: the earlier line, then the lesser kind |
//!
//! What a line says is defined in `specs/Heads.antt`, `InterfaceLines`, `OspfLines` and `IsisLines`. A line of no form there is
//! skipped; `docs/profile.md` tells which of these a router acts on. The first five words of a line are cut off in one pass over
//! its bytes (`Words::of`), and a further one is looked for behind them each time it is asked for. So each reading of
//! a line takes time of its bytes, and memory for names alone.
#![tactic(auto)]

// The bounds of numbers, words, and why a line is faulty.
mod bounds;
pub mod fault;
pub mod kind;
mod octets;
pub mod words;

// What a line says, by where it stands.
pub mod address;
pub mod head;
pub mod interface_line;
pub mod isis_line;
pub mod ospf_line;
pub mod title;

// What the definitions mean, in other words.
mod laws;

pub use bounds::{DEFAULT_METRIC, DEFAULT_REFERENCE};
pub use kind::ReadKind;
pub use laws::{head_law, number_laws, title_law};
pub use std::alloc::AllocError as OutOfMemory;
