//! The search for a good ranking, or for a proof that there is none, over any oracle that says what breaks a ranking.
//!
//! | File | What it holds |
//! |---|---|
//! | `oracle` | what is asked: whether a ranking is good, and if not, which turns break it (`specs/Meanings`) |
//! | `found` | what the search answers (`Answers`): waves, a refutation, or a tree that was stopped |
//! | `tree` | trees of places as lists of nodes (`Trees`) |
//! | `laws` | what a closed tree means, and that there is one answer (`Laws`) |
//! | `depth_first` | the search: one place after another, until the budget of branches is spent |
//! | `stand` | where the search stands: its place, the nodes before it, what waits |
//! | `ending` | what ends it, and what was found there |
//! | `places` | from one place to the next, past children whose pair closes a cycle (`Places`) |
//! | `assumptions` | the pairs that are assumed now, over `precedence_set` |
//! | `waiting`, `siblings`, `child`, `sides` | the children that wait to be visited, and the routers that come first and second in them |
//!
//! A place takes the time of the oracle's answer, of the pairs and routers for the layered list, and of the turns that it is
//! told; what waits is told by two places in a list of turns for each branch. The search takes memory of the routers, of the
//! tree's nodes and of the turns above the place.
#![tactic(auto)]

// What is asked and answered.
mod found;
mod laws;
mod oracle;
mod tree;

// The search.
mod depth_first;
mod ending;
mod places;
mod stand;

// What is assumed, and what waits.
mod assumptions;
mod child;
mod siblings;
mod sides;
mod waiting;

pub use depth_first::search;
pub use found::{Found, Pairs};
pub use laws::{answers_are_one, closed_trees_refute};
pub use oracle::{Answer, Oracle};
pub use order_core::{Tag, Turn, Turns, Waves};
pub use sides::{new_routers_of, old_routers_of};
pub use std::alloc::AllocError as OutOfMemory;
pub use tree::{Cycle, Node, Tree};
