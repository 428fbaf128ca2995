//! How lines are printed, and the laws that what is printed reads back.
//!
//! A line is words with one blank between them (`specs/Words.antt`, `LineBuilder`), a text is lines, each ended by a line feed
//! (`specs/Texts.antt`, `TextBuilder`). `specs/ReadBack.antt` and `printed_laws` say what they read as.
#![tactic(auto)]

// Lines and texts.
mod line;
mod text;

// That they read back.
mod laws;

pub use laws::printed_laws;
pub use line::LineBuilder;
pub use std::alloc::AllocError as OutOfMemory;
pub use text::TextBuilder;
