//! The definitions that every promise of the planner stands on, and the laws that they obey. No program calls anything
//! here: what the crates above compute is said in these words.
//!
//! | Specification | What it defines | By |
//! |---|---|---|
//! | `Routes` | a table: which entry a router has for a prefix | |
//! | `Phases` | the phases in their order, states | Vanbever et al., SIGCOMM 2011 |
//! | `Migrations` | a migration: a network, its old and its new tables, and the phases from which its routers start | |
//! | `Ospf` | routes within an area, ranges and summaries, routes between areas, the table | RFC 2328, sections 16.1, 12.4.3, 16.2 |
//! | `Isis` | the levels 1 and 2, what is leaked, attached routers, the table | RFC 1195; RFC 5305; RFC 5302 |
//! | `Forwarding` | the used entry of an address: the longest match, then the distance; the steps | RFC 1812, section 5.2.4.3 |
//! | `States` | sound states, the states of an order, seamless orders | the same |
//! | `Loops` | loops of the network with their tags, the fault of an unsound state | the same |
//! | `Changes` | the two changes of a router | the same |
//! | `Timetables` | when the changes are made, wave by wave; their runs and states; sound throughout | the same |
//! | `Waves` | wave lists, seamless wave lists | the same |
//! | `WaveFaults` | the fault of a set of states, and of a timetable | |
//!
//! What the laws say stands in `Laws`, `MiddleLaws`, `LoopLaws`, `WaveLaws`, `WaveFaultLaws` and `TimetableLaws`. A law is a function without
//! a body, whose contract says it; its proof is found under its name in `proofs`.
#![tactic(auto)]

// A router's phase, and any migration.
mod migration;
mod phase;

// Costs, entries, used entries and steps.
mod cost_laws;
mod forwarding_laws;
mod middle_laws;
mod table_laws;

// States and orders.
mod fault_laws;
mod loop_laws;
mod sound_laws;

// Timetables.
mod timetable_laws;

// Wave lists.
mod wave_fault_laws;
mod wave_laws;

// The same tables.
mod same_table_laws;

pub use cost_laws::{ArcRelation, OfferRelation, best_cost_is_unique, least_cost_is_unique};
pub use fault_laws::{faults_are_unique, faults_are_unsound};
pub use forwarding_laws::{every_mixture_forwards, middle_is_old_or_new};
pub use loop_laws::{
    faults_between_sound_ends_are_loops, loops_arise, loops_arise_in_waves,
    loops_say_which_waves_are_seamless, returns_in_waves_are_unsound,
};
pub use middle_laws::{middle_acts_as_old_or_new, middle_uses_none};
pub use migration::AnyMigration;
pub use phase::Phase;
pub use same_table_laws::same_tables_act_alike;
pub use sound_laws::{hops_are_routers, sound_states_deliver};
pub use table_laws::{costs_are_unique, entries_are_unique, entries_forward, hops_are_neighbors};
pub use timetable_laws::{
    changes_switch, loops_decide, one_run, routers_switch, sound_wave_by_wave,
    states_are_those_of_waves,
};
pub use wave_fault_laws::{
    StateSet, faults_over_states_are_unique, same_tables_have_same_waves, times_faults_are_unique,
};
pub use wave_laws::{flat_runs_are_runs, orders_are_waves_of_ones, seamless_waves_are_orders};
