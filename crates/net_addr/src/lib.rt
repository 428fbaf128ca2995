//! IPv4 addresses, prefixes and their longest match, and the lines, words and numbers of configuration texts.
//!
//! | File | What it holds | By |
//! |---|---|---|
//! | `prefix` | prefixes, and which addresses and prefixes lie in them (`Addresses`) | RFC 4632, section 3.1 |
//! | `matches` | the longest match in a list (`LongestMatches`) | RFC 1812, section 5.2.4.3 |
//! | `boundary` | the law of the classes between the boundaries of prefixes (`Boundaries`) | |
//! | `name` | bytes that stand for a name, and bytes of a text | |
//! | `line`, `cursor` | the lines of a text, as a list or one after the other (`Lines`) | |
//! | `span`, `word`, `blank` | parts of a text, and the words between blanks (`Spans`, `Blanks`) | |
//! | `number`, `address`, `mask` | what a word stands for (`Numerals`, `AddressWords`) | RFC 4632, section 3.1 |
//!
//! What is asked of a prefix takes constant time, what is asked of a text or a word the time of its bytes. Only `lines`
//! and `words`, which give lists, take memory.
#![tactic(auto)]

// Prefixes.
mod boundary;
mod matches;
mod prefix;

// Texts, their lines and words.
mod blank;
mod cursor;
mod line;
mod name;
mod span;
mod word;

// What words stand for.
mod address;
mod mask;
mod number;

pub use address::read_addr;
pub use boundary::boundary_law;
pub use cursor::LineCursor;
pub use line::{Line, LineList, lines};
pub use mask::read_mask;
pub use matches::Match;
pub use name::{Bytes, Name};
pub use number::read_number;
pub use prefix::Prefix;
pub use span::{Span, SpanList};
pub use std::alloc::AllocError as OutOfMemory;
pub use word::words;
