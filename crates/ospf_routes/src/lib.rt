//! The route tables of OSPF: intra-area routes, ranges and summaries, inter-area routes (RFC 2328).
//!
//! `OspfRoutes::build` (`source.rt`) makes the areas with their segments and walks (`all_areas`), and then the tables of `Ospf`
//! (`protocol.rt`). `build_over` does so where walks are known of another network, of its areas (`area_zones`): an area with the
//! same segments shares them (`KnownWalks` of `zone_graph`), and all else is made anew. The rest of step 1, and steps 2 and 3, are
//! `Ospf::build`, which also finds twins; step 4 is `Ospf::decision` where this tells the route, else `Ospf::route`:
//!
//! 1. `domain.rt`: a network and its areas (`areas.rt`, `members.rt`) with their least walks (section 16.1), whose segments the
//!    tables keep, and routers, border routers (3.3), whom a router listens to (16.2). Its facts are known wherever one has it.
//!    `destinations.rt`: what the routers know of each prefix before anything is summarized. `candidates.rt`, `subnets.rt`,
//!    `intra_area.rt`, over lists in the order of their prefixes (`ordered.rt`): the prefixes, where each is connected
//!    (`subnets.rt`), what the interfaces of each area offer of it, and what it costs within an area.
//! 2. `ranges.rt`: the active ranges of border routers (12.4.3, 11.1), what they cost, and the prefixes of all of them.
//! 3. `all_summaries` (`originating.rt`, 12.4.3): what the border routers of each area announce of a prefix into it, for all
//!    prefixes and areas in one vector (`summaries.rt`). `area_boundary.rt` has what they summarize out of whichever area,
//!    each as a route of its own area (`area_route.rt`). Those of other areas than the backbone are the summaries into the
//!    backbone: `offers_outside` makes them for what border routers reach over the backbone (`backbone_routes.rt`, costs alone,
//!    16.2), `push_announced` for the backbone's own list. Into every other area there go the routes of other areas, what its
//!    border routers reach over the backbone, and the defaults of stub areas (`stub_areas.rt`, 3.6). Without active ranges what
//!    is announced of a prefix of one area, other than the backbone, is that of an earlier sibling but for constants, and isn't
//!    made again: one of the same area that is announced into the backbone alike (`siblings.rt`). Constants decide nothing.
//! 4. `entry.rt`: the intra-area route, else a discard, else the inter-area route (16, 11.1), by what is announced into the area
//!    that the router listens to, which `Ospf::asked` reads; `united.rt`: several areas' hops together. `lanes.rt`: for
//!    routers in one area alone the deciding offers are the same, so one or two are found once for each area and kind of
//!    prefixes, of what `Ospf::decision_in` reads. `listeners.rt`: border routers are in a last lane, where what the backbone
//!    offers or hears decides of most prefixes, but for the border routers of the area that a prefix is of. Routers that
//!    listen to no area are in a lane before it, without decisions.
//!
//! `twins.rt` finds prefixes that have the same routes at every router, by what is offered and announced of them, and
//! `lane_twins.rt` those of which this is so at every router in one area alone, each by the latest prefix that the same router
//! announces first (`latest.rt`). Step 1 takes the time of the areas' least walks, steps 2 and 3 of prefixes times border
//! routers, their ranges and areas; step 4 of routers times the kinds of prefixes in their lanes times the offers of a prefix in
//! one area. Lane twins keep one value for each area and prefix.
#![tactic(auto)]

// Within areas
mod area_route;
mod areas;
mod candidates;
mod destinations;
mod domain;
mod intra_area;
mod members;
mod ordered;
mod subnets;

// Between areas
mod area_boundary;
mod backbone_routes;
mod originating;
mod ranges;
mod siblings;
mod stub_areas;
mod summaries;

// The routes of each router
mod entry;
mod lane_twins;
mod lanes;
mod latest;
mod listeners;
mod protocol;
mod source;
mod twins;
mod united;

pub use areas::area_zones;
pub use route_tables::OutOfMemory;
pub use source::OspfRoutes;
