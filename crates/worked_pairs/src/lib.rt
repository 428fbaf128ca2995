//! Order files of single changes and pairs of networks, each once by hand: what no clause says. They stand in a crate of their
//! own, since a crate with tests is proved twice.
//!
//! | File | What is read or built |
//! |---|---|
//! | `changes` | order files of single changes |
//! | `pairs` | pairs of networks of two routers, and why others make none |
#![tactic(auto)]

#[cfg(test)]
mod changes;
#[cfg(test)]
mod pairs;
