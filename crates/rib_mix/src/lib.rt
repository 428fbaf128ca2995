//! Mixed forwarding: what each router does with the packets of each class of addresses, in each phase.
//!
//! A router uses of its connected prefixes and of the tables that count in its phase the longest entry, and of equally long
//! ones the one of lowest administrative distance.
//!
//! | File | What it holds |
//! |---|---|
//! | `mixed`, `next` | mixed forwarding over a network and two sources of tables, and what a router does |
//! | `both_tables`, `subnets` | of each router: its tables in their parts, and its connected prefixes |
//! | `spots` | where the prefixes that occur stand among those that the old tables share, and among those of the new ones |
//! | `sorts` | the sorts of prefixes: every router treats those of one sort alike |
//! | `features`, `lanes`, `homes` | what tells prefixes apart: the kinds that tables have of them, and where they are connected |
//! | `proposals` | with which earlier prefix each is compared |
//! | `kinds` | the kinds that a router's tables have of a prefix |
//! | `own` | what each router uses for a sort: what it has for its prefixes, and otherwise what it uses for their parents |
//! | `cell`, `used` | what a router uses in each phase (in Middle what it does in Old or in New), and in one of them |
//! | `columns` | what each router uses for each sort, and by that for a class |
//! | `unlike` | the routers of which it isn't known that they treat two classes alike |
//! | `earlier` | for each class an earlier one that every router treats alike |
//! | `law` | that what a router does is what the definitions call its steps |
//!
//! `Mixed::build` takes time of routers times sorts, for each of which it reads a number of each table and no entry; of lanes
//! times prefixes that occur, to find the sorts; and of routers times connected prefixes. `hops` looks one cell up, `originates`
//! takes time of the router's subnets, and `add_unlike` compares two cells of each router. A cell has 8 bytes; those of a sort
//! stand side by side.
#![tactic(auto)]

// mixed forwarding
mod mixed;
mod next;

// what a router has and uses
mod both_tables;
mod cell;
mod columns;
mod kinds;
mod own;
mod spots;
mod subnets;
mod used;

// sorts of prefixes
mod earlier;
mod features;
mod homes;
mod lanes;
mod proposals;
mod sorts;
mod unlike;

// laws
mod law;

pub use igp_theory::{Phase, middle_is_old_or_new};
pub use law::steps_are_hops;
pub use mixed::Mixed;
pub use next::Next;
pub use prefix_atoms::OutOfMemory;
