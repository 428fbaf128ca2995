//! The links of a network, and the network with a link down.
//!
//! | File | What it holds |
//! |---|---|
//! | `shared` | the subnets that routers share, ascending (`SharedLinks`) |
//! | `down` | the configurations with the interfaces of a link shut down, and their network (`ShutDown`) |
//! | `copies` | configurations, copied |
//! | `laws` | that routers keep their numbers, names and starts (`DownLaws`) |
//!
//! `links` takes the time of pairs of up interfaces, `without` that of `Net::build` of as many configurations.
#![tactic(auto)]

// Links.
mod shared;

// One of them down.
mod copies;
mod down;

// Laws.
mod laws;

pub use down::without;
pub use laws::down_laws;
pub use shared::links;
pub use std::alloc::AllocError as OutOfMemory;
