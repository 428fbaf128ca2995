//! The entries of both tables of every router as a text, to be compared with what the routers say of theirs.
//!
//! A line says an entry: the router, the protocol, the prefix, and the hops or that packets are dropped. Routers stand in the
//! order of their names, OSPF before IS-IS, prefixes in the order of their addresses and the shorter one first, and hops in the
//! order of their names: `R1 ospf 10.0.0.3/32 via R2 R4`, `R1 isis 10.0.0.3/32 via R3`, `R2 ospf 10.1.0.0/16 discard`.
//!
//! | File | What it holds |
//! |---|---|
//! | `text` | the text of the tables of two sources, router by router |
//! | `entries` | the lines of one table |
//! | `places` | the prefixes of a source's tables in their order, each once with the words of its lines |
//! | `igp` | the two protocols |
//! | `laws` | that there is one such text, which the entries alone decide |
//!
//! `tables_text` takes time of sorting the prefixes of both sources, of these times routers, and of the bytes of the text. What is
//! the same in the lines of all routers, protocol and prefix, is printed once.
#![tactic(auto)]

// The text.
mod text;

// One table.
mod entries;
mod igp;
mod places;

// Laws.
mod laws;

pub use igp::Igp;
pub use laws::tables_have_one_text;
pub use std::alloc::AllocError as OutOfMemory;
pub use text::tables_text;
