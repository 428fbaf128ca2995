//! The design of a migration: a file of a few lines in TOML, read and settled for a network.
//!
//! The keys are this project's own. An area is an area address of ISO 10589 as routers print it, two hexadecimal digits and
//! then groups of four; levels are those of RFC 1195, metrics those of RFC 5305, and to leak is RFC 5302's.
//!
//! | Notion | Definition | Code |
//! |---|---|---|
//! | the keys that each kind of table has | `specs/Keys.antt` | `key.rt` |
//! | what a value says, and what is wrong with it | `specs/Values.antt` | `value.rt` |
//! | the document that a text is, and its entries | `specs/Documents.antt` | `reading.rt` |
//! | what a document says | `specs/Designs.antt` | `document.rt`, into the types of `design.rt` |
//! | what is wrong in a document, and which fault is told | `specs/Faults.antt` | `table_faults.rt`, `fault.rt` |
//! | what is wrong in a design for a network | `specs/NetworkFaults.antt` | `network_faults.rt` |
//! | what a design settles for a network | `specs/Settling.antt` | `settling.rt`, `interface_settling.rt`, into the types of `settled.rt` |
//! | the answers | `specs/Answers.antt` | `read_design`, `settle`, refused by the kinds of `refusal.rt` |
//! | that there is one answer | `specs/Laws.antt` | `design_laws` |
//!
//! `specs/steps/FaultLists.antt` and `specs/steps/NetworkFaultLists.antt` are the order in which the code gathers faults; the
//! laws above say that what is told doesn't depend on it. `read_design` takes time of the text and of the lengths of its paths. `settle` looks
//! for each router among those of the design, for each of its interfaces among those that the design names of it, and the other
//! way round, so it takes time of the products of their counts.
#![tactic(auto)]

// What a design and a settled design are, and why there is none.
mod design;
mod refusal;
mod settled;

// The text: its keys and values, what is wrong in it, what it says.
mod document;
mod fault;
mod key;
mod reading;
mod table_faults;
mod value;

// The network: what is wrong in a design for it, what is settled for it.
mod interface_settling;
mod network_faults;
mod settling;

// That there is one answer.
mod laws;

pub use design::{Design, DesignInterface, DesignInterfaces, DesignRouter, DesignRouters};
pub use laws::design_laws;
pub use reading::read_design;
pub use refusal::{DesignKind, DesignRefusal};
pub use settled::{Settled, SettledInterface, SettledInterfaces, SettledRouter};
pub use settling::settle;
pub use value::{is_area, levels_named};
