//! Least-cost walks over any graph: the route calculation that OSPF and IS-IS share.
//!
//! There are two kinds of graphs. A `CostGraph` has arcs, and `least_walks` finds the walks from one root. `Segment`s
//! join vertices as LANs and links join routers, each standing for the arcs between all its ports, and `segment_walks`
//! finds the walks from every vertex. What is found are `LeastWalks`: how far each vertex is and with which first hops
//! one goes there (RFC 2328, section 16.1, its stages (1) and (2); RFC 1195, annex C). A route is the best of some
//! `Offer`s over them.
//!
//! | File | What it holds |
//! |---|---|
//! | `graph`, `segment` | the two kinds of graphs |
//! | `walks`, `offers`, `found_walks`, `number_lists`, `long_lists` | what is known of the walks from a root, and the best of offers |
//! | `stretch`, `far_walks` | the walks from a root along the vertices that they may lead to, and these walks as they are kept |
//! | `distance`, `rows` | a distance in 8 bytes, and a row of those from one vertex |
//! | `relax`, `hops` | over arcs: distances by relaxing, and first hops by the distances from where arcs lead |
//! | `over_segments`, `segment_graph`, `outlets` | over segments: the walks from all vertices, and a graph of segments with its ports |
//! | `members` | the vertices that have a port, numbered anew where they are few, so that rows are as long as they are many |
//! | `begun`, `flood` | distances over segments: what a flood begins with, and how it goes on from stale vertices, and onto a LAN at once |
//! | `beyond`, `ways` | the walks that begin on a LAN, once for all roots, and first hops by these and by the distances from the ends of links |
//! | `exits` | first hops from a root of links, by the rows of their ends: of two, as most have, and of any number |
//! | `kept`, `lost` | the walks that stay what they are without segments that went, and which went |
//! | `union` | numbers below a bound, and in order |
//!
//! Over arcs all are relaxed until no distance falls. Over segments a vertex relaxes again only once it is stale, when its
//! distance fell. A LAN of n ports is entered in time n, and again only at a lower cost, so that its n(n - 1) arcs aren't
//! relaxed one by one. So all roots of n vertices with p ports take time n p where distances spread along the vertices in
//! order, and n p once for the vertices of each LAN that are nearest to each vertex; the first hops of a root are then
//! read, not searched. A flood begins with the distances of a neighbor before the root over the link there, one pass over a
//! row, so that it goes only where the other ways are nearer. A root without a port takes no
//! time of its own and no row, and the rows of the others end with the last vertex that has a port. Where at most half of the
//! vertices have one, as the routers of an area in a network of many, the walks are found over these alone, so that n is their
//! number, and the rows are spread at the end, from the first of them on to the last: no walk leads elsewhere.
//! Where the walks over more segments are known, roots keep those that take none of the segments that went
//! (`segment_walks_without`). A caller that is proved: `KnownWalks::walks_over` of `zone_graph`.
#![tactic(auto)]

// graphs
mod graph;
mod segment;

// what is known of the walks from a root
mod distance;
mod far_walks;
mod found_walks;
mod long_lists;
mod number_lists;
mod offers;
mod stretch;
mod walks;

// walks over arcs
mod hops;
mod relax;
mod rows;

// walks over segments
mod begun;
mod beyond;
mod exits;
mod flood;
mod kept;
mod lost;
mod members;
mod outlets;
mod over_segments;
mod segment_graph;
mod ways;

// numbers
mod union;

pub use graph::CostGraph;
pub use kept::{WalksOver, segment_walks_without};
pub use offers::Offer;
pub use over_segments::segment_walks;
pub use segment::{Port, Segment};
pub use std::alloc::AllocError as OutOfMemory;
pub use stretch::{Extent, OnlyHop, WalkStretch};
pub use union::{push_below, put_in_order};
pub use walks::{LeastWalks, least_walks};
