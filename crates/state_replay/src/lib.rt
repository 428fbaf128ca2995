//! Journals of a migration: what was done of a wave list, the first line that fits no run, and what may come next.
//!
//! A journal is the line `journal 1`, then a line for each change that was made; the format is this project's own.
//!
//! | Notion | Definition | Code |
//! |---|---|---|
//! | the two changes of a router, and how a line writes them | `specs/Halves.antt` | `half.rt` |
//! | the change that a line tells | `TellsChange` in `specs/Journals.antt` | `told.rt` |
//! | how line 1 is judged: it is `journal 1` | `BeginsWithHeader` in `specs/steps/Making.antt` | `begins_journal` in `journal.rt` |
//! | how a further line is judged: its change is made, or it fits no run | `MakesChange` in `specs/steps/Making.antt` | `judge_line` in `journal.rt` |
//! | a line that fits no run | `IsMisfit` in `specs/Journals.antt` | `judge_line` in `journal.rt` |
//! | where a whole journal stands | `IsPlace` in `specs/Journals.antt` | `replay` in `journal.rt`, `place.rt` |
//! | which change of a router may come next | `IsNextOn` in `specs/Journals.antt` | `next_change` in `next.rt` |
//! | that a journal stands at one place | `specs/ReplayLaws.antt` | `laws.rt` |
//!
//! `replay` takes time of the lines times the routers, `next_change` of the routers. How the code sees a journal, by the counts of the
//! changes made, is in `specs/steps/Fitting.antt` (which change fits next) and `specs/steps/Making.antt` (how a line is taken).
#![tactic(auto)]

// Changes, and the lines that tell them.
mod half;
mod told;

// What may come next, and whole journals.
mod journal;
mod laws;
mod next;
mod place;

pub use half::Half;
pub use journal::replay;
pub use laws::replay_laws;
pub use next::next_change;
pub use place::Place;
