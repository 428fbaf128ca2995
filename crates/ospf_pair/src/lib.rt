//! A network and its redesign by a second OSPF process: which two networks make a pair, and the script of the move.
//!
//! | File | What it holds | Definitions |
//! |---|---|---|
//! | `pair_net` | `PairNet`, the two networks of a pair | `specs/NetworkPairs.antt` |
//! | `refusal` | why two networks make none, in order | `specs/PairRefusals.antt` |
//! | `conditions` | what no router of a pair may be | `specs/RouterConditions.antt` |
//! | `least` | the least router that is missing, or that meets a condition | |
//! | `texts` | the line of a refusal | `specs/PairTexts.antt` |
//! | `scripts` | the script of a wave list of the pair | `specs/PairScripts.antt` |
//! | `laws` | there is one answer; both networks have the same routers and connected prefixes | `specs/PairLaws.antt` |
//!
//! The move itself is `ospf_to_ospf` (`specs/PairMigrations.antt`): the old tables are those of the old network, the new ones
//! those of the new network. `PairNet::build` takes the time of comparing the up interfaces of each router with each other,
//! `pair_scripts` that of the bytes that it prints.
#![tactic(auto)]

// Pairs.
mod conditions;
mod least;
mod pair_net;
mod refusal;

// Texts.
mod scripts;
mod texts;

// Laws.
mod laws;

pub use laws::pair_laws;
pub use pair_net::{PairNet, pair_or_refusal};
pub use refusal::PairRefusal;
pub use scripts::pair_scripts;
pub use std::alloc::AllocError as OutOfMemory;
pub use texts::pair_refusal_text;
