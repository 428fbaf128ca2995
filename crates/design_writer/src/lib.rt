//! Designs made from what runs: the text of a design in which each interface has its OSPF cost as its IS-IS metric.
//!
//! | Notion | Definition | Code |
//! |---|---|---|
//! | what such a design settles, and which text is one | `specs/CostDesigns.antt` | `design_text` (`writing.rt`) |
//! | its document | `specs/CostTables.antt` | `tables.rt` |
//! | that there is one text, and names that are text | `specs/Laws.antt` | `cost_design_laws` |
//! | that in one OSPF area every wave list is seamless with it | `specs/OneAreaDesigns.antt` | `one_area_laws` |
//!
//! The text is printed by the kit's `toml`, whose contract says that it is read as the tables that were printed; what `design_file`
//! then says of these tables is proved here (`proofs/CostTables.antt`: nothing is wrong in them; `CostLookups`, `CostSettling`: what
//! they settle). It takes time of the interfaces, and for each of the logarithm of those of its router.
//!
//! For a router R1 with a loopback of cost 1 the text is
//!
//! ```text
//! area = "49.0001"
//! level = "2"
//!
//! [routers.R1.interfaces.Loopback0]
//! metric = 1
//! ```
#![tactic(auto)]

// The tables of a design.
mod tables;

// Their text.
mod writing;

// That there is one, and what it means for a migration.
mod laws;

pub use laws::{cost_design_laws, one_area_laws};
pub use std::alloc::AllocError as OutOfMemory;
pub use writing::design_text;
