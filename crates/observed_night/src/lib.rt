//! What was done of a migration, by the configurations of before and those of now: routers know their distances, and journals are
//! typed by hand.
//!
//! | Notion | Definition | Call |
//! |---|---|---|
//! | what two configurations may differ in | `specs/Parts.antt` | `first_part` (`alike.rt`, with `part.rt` and `items.rt`) |
//! | the least router that differs, and in what first | `specs/Differences.antt` | `first_difference` (`difference.rt`) |
//! | which phases the distances of a router show | `specs/ShownPhases.antt` | `may_be_in`, `least_phase` (`shown.rt`) |
//! | a router whose changes can't be | `IsAstray` in `specs/ShownPhases.antt` | `first_astray` (`astray.rt`) |
//! | the state that is told | `specs/ToldStates.antt` | `told_phases` (`told.rt`) |
//! | the journal of a state, and all that is printed | `specs/ObservedTexts.antt` | `observe` (`night.rt`, with `texts.rt`) |
//! | a journal that is printed replays to what is shown | `specs/ObservedLaws.antt` | `observed_laws` (`laws.rt`) |
//!
//! `observe` compares the interfaces of each router with each other, and the distances of each router with those of each other;
//! besides it takes time of the bytes that it prints.
#![tactic(auto)]

// Differences.
mod alike;
mod difference;
mod items;
mod part;

// What is shown, and what is told of it.
mod astray;
mod shown;
mod told;

// Texts.
mod night;
mod texts;

// Laws.
mod laws;

pub use difference::{Difference, first_difference};
pub use laws::observed_laws;
pub use night::{Observed, observe};
pub use part::Part;
pub use std::alloc::AllocError as OutOfMemory;
