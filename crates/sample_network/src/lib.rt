//! The sample network: a ring of routers with both protocols, as a text of their configurations.
//!
//! ```text
//!   S01 -- 1 -- S02 -- 2 -- S03 -- .. -- SN -- N -- S01
//! ```
//!
//! The last link is dear for OSPF, the one in the middle for IS-IS. `specs/SampleTexts.antt` is the text, `sample_text` the call.
#![tactic(auto)]

mod links;
mod text;

pub use std::alloc::AllocError as OutOfMemory;
pub use text::sample_text;
