//! Classes of addresses: which addresses no prefix of a network and of its tables tells apart.
//!
//! | File | What it holds |
//! |---|---|
//! | `atoms` | the classes, each with its least address, its longest prefix and its target |
//! | `collect`, `distinct` | the prefixes that occur, each once, and where one stands among them |
//! | `cuts`, `number` | where prefixes begin and end, and the intervals between, numbered by their longest prefix |
//! | `longest`, `near` | the longest of some prefixes for each of some ascending addresses |
//! | `parents` | the longest shorter prefix that contains a prefix: so the prefixes of an address are a way up |
//! | `law` | that the addresses of a class act alike |
//!
//! Takes time of the interfaces, the ranges and the prefixes of both sources, which are sorted, of how many prefixes contain each
//! of them and of the classes in each, and for each router of the prefixes that no table before had an entry for.
#![tactic(auto)]

// classes
mod atoms;
mod cuts;
mod number;
mod parents;

// prefixes, and the longest of them
mod collect;
mod distinct;
mod longest;
mod near;

// laws
mod law;

pub use atoms::Atoms;
pub use collect::add_connected;
pub use distinct::place_of_prefix;
pub use law::one_class_acts_alike;
pub use route_core::OutOfMemory;
