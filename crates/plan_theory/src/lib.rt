//! What a wave list ranks, what may be planned of a network, and what a plan means: what the search asks of it, its ends, the laws.
//!
//! A wave list ranks routers, or single changes (`Items`; `specs/Ranked`). What the search asks (`WavesMeaning`), what is planned
//! (`Plans`) and the laws (`Laws`) are said and proved once for both. All that tells the two kinds apart in code stands here too;
//! the judge of trees and the oracles ask these calls.
//!
//! | File | What it holds |
//! |---|---|
//! | `items`, `planned` | what is ranked; what is planned |
//! | `numbers` | the number that a turn has to name for an address, and the pairs that every ranking keeps |
//! | `words` | the number that a word names |
//! | `laws` | which rankings loops leave, that there is one plan, what a plan means |
//!
//! A number that a turn has to name takes the time of the hops of one class twice, squared.
#![tactic(auto)]

// What is ranked, what is planned, and the laws.
mod items;
mod laws;
mod planned;

// The numbers of a ranking.
mod numbers;
mod words;

pub use items::Items;
pub use laws::{plans_are_one, plans_mean, rankings_are_decided};
pub use numbers::{base_pairs, number_count, number_turns};
pub use planned::{EndFault, Planned};
pub use rib_mix::OutOfMemory;
pub use words::{is_number_word, number_named};
