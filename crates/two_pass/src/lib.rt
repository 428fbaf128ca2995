//! The two changes of a router, ordered apart: the faults of rankings of single changes, and the oracle of the search over them.
//!
//! Some networks have no seamless wave list and yet can be migrated when IS-IS comes in first, everywhere where it is safe, and
//! OSPF goes later. An address switches at the first change of a router where the answer for `Middle` is that for `New`, else at
//! the second. Every router starts in `Old`. Change c of router r is the item 2r + c - 1.
//!
//! | Notion | Definition | Call |
//! |---|---|---|
//! | what contracts see of both types | `specs/ChangeNights.antt` | |
//! | the fault of a ranking of the items | `IsTimesFault` of `change_times` (`igp_theory`) | `TwoFinder` (`finder.rt`) |
//! | whom the search asks | `changes_meaning` (`plan_theory`) | `TwoOracle` (`oracle.rt`) |
//! | what is planned | `IsNightPlanned` of `Changes` (`plan_theory`) | `plan_two` (`plan.rt`) |
//! | order files of single changes, and their faults | `TwoFiles`, `TwoFaults`, `TwoTexts` (`change_orders`) | `read_two`, `two_text`, `two_refusal_text` |
//! | trees of single changes, and what a closed one means | `TreeTexts`, `Verdicts` (`refutation_check`) | `two_tree_text`, `verify_two` |
//!
//! Both types are those of any night (`wave_oracle`), with single changes ranked; a question takes the time of one to
//! `NightFinder`.
#![tactic(auto)]

mod finder;
mod oracle;
mod plan;

pub use change_orders::{TwoKind, TwoRefusal, read_two, two_refusal_text, two_text};
pub use finder::TwoFinder;
pub use oracle::TwoOracle;
pub use plan::plan_two;
pub use refutation_check::{Verdict, two_tree_text, verify_two};
pub use rib_mix::OutOfMemory;
