//! What `survey` tells of files of configurations: one text, and whether something stands out in them.
//!
//! Files that have faulty lines are told by these, all of them. Else they are configurations: where these make no network, all that
//! refuses it is told; where they make one, it is told with what stands out in it and in its texts, kind by kind.
//!
//! | File | What it holds |
//! |---|---|
//! | `survey` | the whole text (`SurveyTexts`) |
//! | `survey_file`, `reading` | files, and what is read of them: their configurations, or all their faulty lines (`SurveyFiles`) |
//! | `fault_lines` | the lines of faulty lines, and their count (`FaultTexts`) |
//! | `network_read` | a network that was read of files |
//! | `kinds`, `kind_texts` | the kinds of lines of a network, and the text of each (`KindTexts`) |
//! | `network_lines` | the lines of routers, of interfaces and of two of them (`NetworkLines`) |
//! | `counted_texts` | how much was read, and each router with its areas |
//! | `text_lines` | the lines of what is odd about texts (`TextLines`) |
//! | `added_words` | words that are added to a text |
//! | `laws` | that files have one survey |
//!
//! It takes the time of the bytes of the files, and of pairs of up interfaces.
#![tactic(auto)]

// Files.
mod network_read;
mod reading;
mod survey_file;

// How each kind is told.
mod added_words;
mod counted_texts;
mod fault_lines;
mod kind_texts;
mod kinds;
mod network_lines;
mod text_lines;

// The whole.
mod laws;
mod survey;

pub use kinds::{LineKind, Protocol};
pub use laws::one_survey_law;
pub use std::alloc::AllocError as OutOfMemory;
pub use survey::{SurveyText, survey_text};
