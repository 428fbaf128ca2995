//! What stands out in the texts of configurations, and how their lines are told.
//!
//! | File | What it holds |
//! |---|---|
//! | `survey_line`, `counted` | a line of a text with its bytes; the lines that count |
//! | `oddities` | lines with bytes that no router prints, and texts that lost their indentation (`Oddities`) |
//! | `told_line`, `told_sections` | the lines of configurations, each with the first line of its section (`ToldLines`) |
//! | `shown_sections` | the same lines without what they stand below |
//! | `vrf_names` | the interfaces of a configuration that are in a VRF |
//! | `acting_forms`, `acting` | lines that the planner skips though a router acts on them: the forms (`ActingForms`), and which lines are of one |
//! | `seen_words` | the words of a line as they are printed (`SeenWords`) |
//!
//! Each call takes the time of the bytes of its lines.
#![tactic(auto)]

// The lines of a text, and what is odd about them.
mod counted;
mod oddities;
mod survey_line;

// How lines of configurations are told.
mod inside;
mod shown_sections;
mod told_line;
mod told_sections;
mod vrf_names;

// Lines that act.
mod acting;
mod acting_forms;
mod seen_words;

pub use acting::acts;
pub use counted::{counted_lines, put_counted};
pub use oddities::{is_flat, odd_numbers};
pub use seen_words::add_told;
pub use shown_sections::put_shown;
pub use std::alloc::AllocError as OutOfMemory;
pub use survey_line::SurveyLine;
pub use told_line::{LinePlace, ToldLine, from_line};
pub use told_sections::told_lines;
