//! Route tables of all routers: the prefixes and routes that they are made of, and the tables that a protocol gives.
//!
//! - `protocol.rt`: what a protocol says of a network: candidates, zones with their least walks, the route of each router
//!   for each candidate, lanes of routers, which candidates have the same routes in a lane, and what decides them there,
//!   neighbors.
//! - `route.rt`, `best.rt`: a route before it is an entry, and the route to the best of some offers. One pass finds the best;
//!   where several are as good, another tells whether all offers have the first hops towards one router: then the route says
//!   that router and takes no memory.
//! - `lane.rt`, `leads.rt`: what decides the routes of all routers that know the same offers for a prefix, and what does
//!   behind that, where these offers aren't reached; how far a router is from each vertex and the number of its entry
//!   towards it, which are looked up once along the stretch of its walks, and what they tell of its entries.
//! - `alike.rt`: whether offers differ by a constant alone, by which prefixes have the same routes.
//! - `pool.rt`: the entries that the tables of all routers share: those over one hop alone, which are made once and need no
//!   search, and those that each table adds, among which it looks for a list of several hops, in time of these.
//! - `kinds.rt`: the prefixes of a lane by kinds, which its routers have the same entries for, and what decides for each kind.
//! - `sharing.rt`, `table.rt`: of each router the number of its entry for each kind of its lane, and the tables; no route is
//!   asked for where the lane tells the entry.
//! - `candidates.rt`, `distinct.rt`, `lists.rt`: prefixes, in order and each once, and lists that grow.
//! - `homes.rt`, `kept_offers.rt`: lists of a prefix that are short mostly.
//! - `source.rt`, `joined.rt`: tables as a source of tables, with the segments that join neighbors.
//!
//! `RouteTables::build` takes time of lanes times prefixes, and of routers times the kinds in their lanes, besides the routes
//! that it asks for. A table has 4 bytes for each kind, a lane 4 for each prefix.
#![tactic(auto)]

// What a protocol says.
mod lane;
mod protocol;
mod route;

// Prefixes and offers.
mod alike;
mod best;
mod candidates;
mod distinct;
mod homes;
mod kept_offers;
mod lists;

// Tables.
mod joined;
mod kinds;
mod leads;
mod pool;
mod sharing;
mod source;
mod table;

pub use alike::are_alike;
pub use best::{best_hops, best_route};
pub use candidates::{Candidates, DistinctPrefixes, is_all_addresses};
pub use homes::Homes;
pub use kept_offers::KeptOffers;
pub use lane::{Behind, Decision};
pub use lists::push_option;
pub use protocol::Protocol;
pub use route::{Route, Target};
pub use source::RouteTables;
pub use std::alloc::AllocError as OutOfMemory;
