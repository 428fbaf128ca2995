//! The oracles of a network's rankings, over the finder of their faults, the plan of the network, and the text of a plan.
//!
//! | File | What it holds |
//! |---|---|
//! | `plan` | the plan: whether both ends are sound (`ends`), and a search between them |
//! | `night_oracle` | whom the search asks: of wave lists of routers from any start, and of those of single changes |
//! | `night`, `fill` | the faults of rankings, by the timetables that they make |
//! | `oracle` | whom the search asks of wave lists of routers that all start in `Old` |
//! | `text` | the text of waves with their chain, of a refutation, of a tree where the budget was spent |
//! | `laws` | that the text reads back by the definitions of order files and tree files, and what the chain shows |
//!
//! A plan takes the time of `Finder::new` and of one question to the finder for each ranking that is tried.
#![tactic(auto)]

// the plan
mod ends;
mod plan;

// whom the search asks
mod night_oracle;
mod oracle;

// the faults of rankings
mod fill;
mod night;

// the text of a plan
mod laws;
mod text;

pub use ends::whole_fault;
pub use laws::{chains_are_tagged, planned_texts_read_back, plans_are_printable};
pub use night::NightFinder;
pub use night_oracle::NightOracle;
pub use oracle::WaveOracle;
pub use plan::{plan_night, plan_waves};
pub use plan_theory::Items;
pub use rib_mix::OutOfMemory;
pub use text::planned_text;
