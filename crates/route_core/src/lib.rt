//! Route tables: entries, their hops, the longest match, and what a source of tables promises.
//!
//! - `entry.rt`: what a table says of a prefix: hops, or a discard.
//! - `table.rt`: the table of one router, in parts that many tables share; `number.rt`: the number of an entry, or none;
//!   `entries.rt`: pairs of prefix and entry, of which a table is made that shares nothing. Prefixes of one kind have the same
//!   entry, so a table has 4 bytes for each kind.
//! - `matches.rt`: the longest match (RFC 1812, section 5.2.4.3), in time of the prefixes.
//! - `source.rt`: what every source of tables promises.
#![tactic(auto)]

// entries
mod entries;
mod entry;
mod number;

// tables
mod matches;
mod table;

// what has tables
mod source;

pub use entries::Entries;
pub use entry::{Entry, Hops};
pub use number::Number;
pub use source::RouteSource;
pub use std::alloc::AllocError as OutOfMemory;
pub use table::{Table, TableParts};
