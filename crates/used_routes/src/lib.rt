//! What a router uses for an address in a phase, by the definition of forwarding itself: the longest entry that counts and
//! contains the address, and of these the one of lowest distance (RFC 1812, section 5.2.4.3).
//!
//! It asks the network and both tables anew for each address, and knows nothing of the classes of addresses by which `rib_mix`
//! answers: so it is a second opinion on that, and it tells the prefix and the distance besides.
//!
//! | File | What it holds |
//! |---|---|
//! | `used` | what a router uses, of what it has of each kind |
//! | `better` | the better of two routes |
//!
//! `used_route` takes time of the router's interfaces and of the prefixes of both tables.
#![tactic(auto)]

mod better;
mod used;

pub use igp_theory::Phase;
pub use used::{Origin, Sources, UsedRoute};
