//! The public calls of the crates that read and print texts, each once, with texts that were written by hand: what no
//! clause says. They stand in a crate of their own, since a crate with tests is proved twice.
//!
//! | File | What is read or printed |
//! |---|---|
//! | `files`, `environment` | files, and the words of an environment, by `store_edge` |
//! | `words`, `journals` | the words of a call, a journal of changes |
//! | `printed`, `reports` | lines of words, and each answer of the program |
#![tactic(auto)]

// What is read.
#[cfg(test)]
mod environment;
#[cfg(test)]
mod files;
#[cfg(test)]
mod journals;
#[cfg(test)]
mod words;

// What is printed.
#[cfg(test)]
mod printed;
#[cfg(test)]
mod reports;
