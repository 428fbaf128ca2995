//! The route tables of IS-IS: level 1, level 2 (RFC 1195), what is leaked into level 1 (RFC 5302), and the default
//! towards attached routers (RFC 1195).
//!
//! `IsisRoutes::build` (`source.rt`) makes the segments of both levels (`segments.rt`), and then the tables of `Isis`
//! (`protocol.rt`). Steps 1 to 6 are `Isis::build`, of which 2 to 5 are `destinations.rt`; step 7 is `Isis::decision` where this
//! tells the route, else step 8 is `Isis::route`:
//!
//! 1. `domain.rt`: what is known before any prefix: the least walks of both levels (`level_walks.rt`, by the number of the
//!    level, `level.rt`) over their segments, by which the tables know who is adjacent to whom, the routers that run both levels and those that
//!    leak (`runs.rt`), and the attached routers (`attached.rt`; RFC 1195, section 3.2).
//! 2. `candidates.rt`, `homes.rt`: the prefixes, and the routers at which each is connected.
//! 3. `level_one.rt`, `offers.rt`: what level 1 offers of each prefix (`offer_room.rt`: where offers are put together).
//! 4. `announcements.rt`: what is announced into level 2 (RFC 1195, section 3.2); `near.rt`: by whom.
//! 5. `leaked.rt`: what is announced into level 1, marked down (RFC 5302).
//! 6. `alike.rt`: prefixes with the same routes.
//! 7. `lanes.rt`: the lanes of routers, by the levels that they run, and what decides the routes of all routers of a lane, also
//!    where those of level 1 reach none of its offers.
//! 8. For a router and a prefix (`asked.rt`): `entry.rt`: the level 1 route, else the level 2 route, else the down route, else
//!    the default; `leading.rt`: the offers that lead the first two.
//!
//! Steps 2 to 7 take time of the connected prefixes of all routers, and of prefixes times the routers that run both
//! levels; step 8 of routers times prefixes that aren't alike, and that no lane decides, times the offers of a prefix.
#![tactic(auto)]

// What is known before any prefix.
mod attached;
mod domain;
mod level;
mod level_walks;
mod runs;
mod segments;

// What is known of each prefix.
mod alike;
mod announcements;
mod candidates;
mod destinations;
mod homes;
mod leaked;
mod level_one;
mod near;
mod offer_room;
mod offers;

// The routes of each router.
mod asked;
mod entry;
mod lanes;
mod leading;
mod protocol;
mod source;

pub use route_tables::OutOfMemory;
pub use source::IsisRoutes;
