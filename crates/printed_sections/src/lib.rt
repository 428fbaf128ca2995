//! The law of printed sections: a line of words at indent 0 and lines of words with a blank before each read as one section with
//! just these lines, wherever they are put into a configuration.
//!
//! `printed_lines` says it of lines and words; here `ios_sections` reads them. What writes sections stands above.
#![tactic(auto)]

mod laws;

pub use laws::sections_read_back;
