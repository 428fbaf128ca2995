//! Router configurations and the network that they make: what a plan is computed from.
//!
//! | File | What it holds | By |
//! |---|---|---|
//! | `config`, `interface`, `area` | what a configuration says (`Configuration`) | RFC 2328, appendix C; RFC 5305 |
//! | `bounds` | the greatest numbers, and the limits | the same |
//! | `net` | `Net`, and what is asked of it (`Network`, `Lookups`) | |
//! | `zone`, `links` | areas and levels; who is adjacent there (`Links`) | RFC 2328, section 16.1; RFC 1195 |
//! | `subnets` | the longest prefix that is connected at a router | RFC 1812, section 5.2.4.3 |
//! | `starts` | routers that aren't where a migration starts (`OffStarts`) | |
//! | `refusal` | why configurations make no network, in order (`Refusals`) | |
//! | `limits`, `naming` | too many routers, interfaces or prefixes (`Limits`); a name twice | |
//! | `addresses`, `areas`, `borders` | conditions on a network (`Conditions`) | RFC 2328, section 3.3 |
//! | `sums`, `systems`, `stubs` | more of them | RFC 2328, section 3.6, appendix B; RFC 5305; RFC 1195 |
//! | `pairs`, `claims` | the first two routers that clash; whether none can | |
//! | `laws` | there is one network, or one refusal (`BuildLaws`) | |
//!
//! `Net::build` takes the time of sorting names, addresses, subnets' areas and system ids, of comparing the interfaces of
//! each router with each other, and of sorting prefixes where they are many even with repeats, and areas where there are stub
//! lines; where one of these is refused, of comparing all pairs of interfaces or routers. `Net::number_of` halves over the
//! names, `Net::arc` compares the interfaces of two routers, `Net::off_start` goes over the routers; other questions go over
//! one router's interfaces.
#![tactic(auto)]

// What configurations say.
mod area;
mod bounds;
mod config;
mod interface;

// The network, and what is asked of it.
mod links;
mod net;
mod starts;
mod subnets;
mod zone;

// What refuses it.
mod addresses;
mod areas;
mod borders;
mod claims;
mod limits;
mod naming;
mod pairs;
mod refusal;
mod stubs;
mod sums;
mod systems;

// Laws.
mod laws;

pub use addresses::check_addresses;
pub use area::{Range, Ranges, Stub, Stubs};
pub use areas::check_areas;
pub use borders::check_borders;
pub use bounds::{
    ISIS_DISTANCE, MOST_COST, MOST_DESTS, MOST_DISTANCE, MOST_INTERFACE_COST, MOST_METRIC,
    MOST_PATH_METRIC, MOST_PROCESS, MOST_ROUTERS, MOST_UP_INTERFACES, OSPF_DISTANCE,
};
pub use config::{Config, Configs, Distances, Levels};
pub use interface::{Interface, Interfaces};
pub use laws::build_laws;
pub use limits::{count_dests, count_interfaces};
pub use links::{cost_in, is_link, may_join};
pub use naming::{check_names, sort_by_name};
pub use net::Net;
pub use refusal::{LimitWhat, NetRefusal};
pub use starts::is_off_start;
pub use stubs::check_stubs;
pub use sums::{check_isis_metrics, check_ospf_costs};
pub use systems::check_systems;
pub use zone::Zone;
