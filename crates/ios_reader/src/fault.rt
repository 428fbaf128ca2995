//! A faulty line of a text.

pub use ios_lines::fault::Fault;
