//! The public calls of the crates that know no network, each once, with values that were worked out by hand: what no
//! clause says. They stand in a crate of their own, since a crate with tests is proved twice.
//!
//! | File | Whose calls |
//! |---|---|
//! | `addresses` | `net_addr` |
//! | `tables`, `walks` | `route_core`, `walk_core` |
//! | `links`, `precedences` | `link_trail`, `precedence_set` |
//! | `searches`, with the oracle of `wanting` | `order_search` |
#![tactic(auto)]

// Addresses, tables and walks.
#[cfg(test)]
mod addresses;
#[cfg(test)]
mod tables;
#[cfg(test)]
mod walks;

// The search for a ranking.
#[cfg(test)]
mod links;
#[cfg(test)]
mod precedences;
#[cfg(test)]
mod searches;
#[cfg(test)]
mod wanting;
