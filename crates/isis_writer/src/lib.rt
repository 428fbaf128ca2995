//! Prepared configurations: the IS-IS lines of a settled design, written into the texts of the configurations.
//!
//! | Notion | Definition | Code |
//! |---|---|---|
//! | the lines of one router: its process, with a title (ISO 10589), and its interfaces | `specs/RouterLines.antt` | `router_lines.rt` |
//! | where they stand in a text | `specs/Prepared.antt` | `prepared_text` (`prepared.rt`) |
//! | these lines alone | `specs/Deltas.antt` | `delta_text` (`delta.rt`) |
//! | what a settled design makes of a configuration | `specs/PreparedConfigurations.antt` | none: `prepared_laws` says that the prepared text is read so |
//! | what several texts are read as | `specs/ReadTexts.antt` | none: the laws of several texts cite it |
//!
//! The process of a router has wide metrics (RFC 5305) and leaking (RFC 5302), and is idle at distance 255.
//!
//! The proof of `prepared_laws` goes from the lines to the text: what the printed words say (`proofs/TitleWords.antt`,
//! `RouterWords`, `RouterBlocks`, over the law of `printed_sections`), what the sections say together with those of the old configuration
//! (`MoreSections`, `ProcessFacts`, `InterfaceFacts`, `GrownInterfaces`, `SettledFacts`, `RouterGrows`), and the blocks of all
//! routers put into the text (`PreparedGrows`, `PreparedLines`, `PreparedPlaces`, `PreparedReads`) by `ios_reader`'s law of blocks
//! that are put before `end` lines.
//!
//! `prepared_text` reads the text once and writes each byte of it once; besides it looks for each router by its name among those
//! of the network, and for each settled interface among the sections of its old configuration.
#![tactic(auto)]

// The lines of a router, the text with those of all routers, and these lines alone.
mod delta;
mod prepared;
mod router_lines;

// That what is written reads back.
mod laws;

pub use delta::delta_text;
pub use laws::{delta_law, prepared_laws};
pub use prepared::prepared_text;
pub use std::alloc::AllocError as OutOfMemory;
