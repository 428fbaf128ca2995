//! How what is refused of configurations is told: the names of kinds of faulty lines, and the lines of what makes no network.
//!
//! | File | What it holds |
//! |---|---|
//! | `kinds` | the names of kinds (`Kinds`) |
//! | `network` | the lines `refused network ..` and `limit ..` (`Texts`) |
#![tactic(auto)]

// Names.
mod kinds;

// Lines.
mod network;

pub use kinds::read_kind_name;
pub use network::{limit_text, network_text, refused};
