//! Calls of the whole program, and what each router of small networks does with a packet, read from their configurations:
//! what no clause says. They stand in a crate of their own, since a crate with tests is proved twice.
//!
//! | File | What is called |
//! |---|---|
//! | `calls`, `hostile` | the whole program, on good files and on those that were made to break it |
//! | `hops` | mixed forwarding |
#![tactic(auto)]

// The whole program.
#[cfg(test)]
mod calls;
#[cfg(test)]
mod hostile;

// Mixed forwarding.
#[cfg(test)]
mod hops;
