//! Wave lists as texts: order files, with the least faulty line of a text that is none, and the script of a migration.
//!
//! An order file is the line `order 1` and a router on each further line, or the line `order 2`, a line for each wave and maybe
//! a last line with a chain. These formats are this project's own: no standard speaks of them.
//!
//! | Notion | Definition | Call |
//! |---|---|---|
//! | the lines of an order file | `specs/WaveLines.antt` | `wave_on`, `chain_on` (`names.rt`), `version_of` (`waves_reading.rt`) |
//! | the wave list that a text names | `specs/WaveFiles.antt` | `read_waves` (`waves_reading.rt`, with the waves read so far in `seats.rt`) |
//! | the faulty lines of a text, the least of which is told | `specs/FaultyLines.antt` | `read_waves`, with the kinds of `kind.rt` |
//! | the text of a wave list, with a chain or alone | `specs/WavesTexts.antt` | `waves_text`, `wave_list_text` |
//! | the lines that make a change: IS-IS gets the distance 115, OSPF gets 255 | `specs/Scripts.antt` | `with_isis_lines`, `with_ospf_lines` |
//! | the script of a migration | `specs/Scripts.antt` | `script_text` |
//!
//! That a text names one wave list at most, or is refused in one way, is `waves_laws`; that a script's lines make its changes is
//! `script_laws`. `read_waves` finds each name by halves among those of the routers, and compares a router with those
//! before it on its line, so it takes time of the text, and for each name of those before it on its line; the texts
//! take time of the bytes that they print.
#![tactic(auto)]

// Order files: their versions and faults, the text that is read, the text that is written.
mod kind;
mod names;
mod seats;
mod version;
mod wave_file;
mod waves_reading;
mod waves_writing;

// Scripts.
mod change_lines;
mod script;

// That there is one answer, and that scripts make the changes.
mod laws;
mod script_front;

pub use change_lines::{with_isis_lines, with_ospf_lines};
pub use kind::{OrderKind, OrderRefusal};
pub use laws::waves_laws;
pub use script::{script_text, with_comment, with_wave};
pub use script_front::script_laws;
pub use version::Version;
pub use wave_file::WaveFile;
pub use waves_reading::read_waves;
pub use waves_writing::{wave_list_text, waves_text};
