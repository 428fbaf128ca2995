//! The adjacencies of one zone of a network, an OSPF area or a level of IS-IS, and the least walks over them from every
//! router (RFC 2328, section 16.1; RFC 1195).
//!
//! Routers are adjacent where both have an interface on one subnet that forms adjacencies in the zone. So a subnet is a
//! segment, with a port for each such interface, and a LAN of n routers takes n ports in place of n(n - 1) arcs:
//!
//! ```text
//!   R1    R2    R3
//!   |5    |7    |7      R1 reaches R2 and R3 at 5, R2 and R3 reach the others at 7
//!   '-----+-----'
//! ```
//!
//! | File | What it holds |
//! |---|---|
//! | `links` | the interfaces of a router that may take part in an adjacency |
//! | `attachments` | those of all routers, in the order of their subnets; level 1 joins the routers of one IS-IS area |
//! | `segments` | the segments that they make, which stand for the adjacencies (`AreZoneSegments`) |
//! | `zone_walks` | the least walks over them |
//! | `known_walks`, `same_segments` | walks that are kept with their segments, for networks in which a zone has the same ones |
//!
//! The segments of a zone take the time of sorting the network's interfaces that are in it, and the walks that of
//! `segment_walks`: routers times ports. Where one network differs from another in some zones alone, as without one of its
//! links, `KnownWalks` of the other spare the walks of all zones that are as there: those take the time of their segments.
#![tactic(auto)]

// adjacencies
mod attachments;
mod links;
mod segments;

// walks over them
mod known_walks;
mod same_segments;
mod zone_walks;

pub use known_walks::KnownWalks;
pub use segments::zone_segments;
pub use std::alloc::AllocError as OutOfMemory;
pub use zone_walks::ZoneWalks;
