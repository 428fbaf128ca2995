//! What links that go down do to a list of routers, as a text.
//!
//! | File | What it holds |
//! |---|---|
//! | `verdict` | what a list comes to with a link down |
//! | `kinds` | whether it withstands it, is broken by it, or has ends that no list helps (`LinkVerdicts`) |
//! | `lines` | the lines `breaks ..` and `ends ..`, and that of the counts (`FailureTexts`) |
//! | `laws` | that the counts add up (`FailureLaws`) |
//!
//! A text takes time of its length.
#![tactic(auto)]

// Verdicts.
mod kinds;
mod verdict;

// Texts.
mod lines;

// Laws.
mod laws;

pub use kinds::has_break;
pub use laws::failure_laws;
pub use lines::failures_text;
pub use std::alloc::AllocError as OutOfMemory;
pub use verdict::{FailedLink, LinkVerdict};
