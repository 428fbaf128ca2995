//! What stands out in a network that was read, as an operator would want to know it before a plan.
//!
//! | File | What it holds |
//! |---|---|
//! | `port` | the up interfaces of a network, in their order (`Ports`) |
//! | `scan`, `interfaces` | those of them that stand out: where OSPF or IS-IS sends and nobody is there (`Interfaces`) |
//! | `partners`, `pairs` | two of them that don't fit each other, by their masks or their costs (`Pairs`) |
//! | `counts` | how many subnets there are, and how many of them routers share (`Counts`) |
//! | `joined` | the first router that no walk over shared subnets joins with the first one (`Joined`) |
//! | `routers` | what is told of a router, and routers that stand out (`Routers`) |
//! | `refusals` | the network that configurations make, or all that refuses it (`AllRefusals`) |
//! | `laws` | what it means that nothing is told (`Neighbors`) |
//!
//! Each call gives exactly the ascending list of what meets a definition (`Listings`). It takes the time of the network's
//! interfaces, and of pairs of those that are up.
#![tactic(auto)]

// The up interfaces of a network, and those that stand out.
mod counts;
mod interfaces;
mod joined;
mod pairs;
mod partners;
mod port;
mod scan;

// Routers.
mod routers;

// What refuses a network.
mod refusals;

// Laws.
mod laws;

pub use counts::{count_links, count_subnets};
pub use interfaces::{half_ports, one_sided_in, one_sided_in_area};
pub use joined::first_cut_off;
pub use laws::neighbor_law;
pub use pairs::{PortPair, mask_pairs, uneven_in, uneven_in_area};
pub use port::{Port, up_ports};
pub use refusals::{Surveyed, network_or_refusals};
pub use routers::{areas_of, isis_interfaces, off_start_routers, ospf_interfaces, silent_routers};
pub use std::alloc::AllocError as OutOfMemory;
