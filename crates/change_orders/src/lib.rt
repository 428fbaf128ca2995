//! Two passes as texts: order files whose waves are of single changes, with the least faulty line of a text that is none.
//!
//! Change c of router u is the item 2u + c - 1; a wave list of changes is a ranking of the items. An order file of changes is the line
//! `order 3`, a line for each wave and maybe a last line with a chain. The format is this project's own.
//!
//! | Notion | Definition | Call |
//! |---|---|---|
//! | the word of a change, and its item | `specs/ChangeWords.antt` | `item_of` (`items.rt`) |
//! | the wave list that a text names | `specs/TwoFiles.antt` | `read_two` (`reading.rt`, with what was read in `seating.rt`) |
//! | the faulty lines of a text, the least of which is told | `specs/TwoFaults.antt` | `read_two`, with the kinds of `kind.rt` |
//! | the text of a wave list and a chain, the line of a refusal | `specs/TwoTexts.antt` | `two_text`, `two_refusal_text` (`writing.rt`) |
//! | there is one answer, and what is written reads back | `specs/TwoLaws.antt` | `two_laws` |
//!
//! `read_two` takes time of the text, and for each word of the logarithm of the routers; `two_text` of the bytes that it prints.
#![tactic(auto)]

// Reading.
mod items;
mod kind;
mod reading;
mod seating;
mod words;

// Writing.
mod writing;

// Laws.
mod laws;

pub use items::{is_change_word, item_of};
pub use kind::{TwoKind, TwoRefusal};
pub use laws::two_laws;
pub use reading::read_two;
pub use std::alloc::AllocError as OutOfMemory;
pub use writing::{two_refusal_text, two_text, with_item};
