//! Networks of one OSPF area in which IS-IS runs where OSPF does, at the same costs: both protocols give the same tables, so that
//! every state between them is sound where the first one is.
//!
//! `specs/EqualCosts.antt` says what is asked of such a network, and `equal_costs_keep_tables` and `equal_costs_are_sound` what
//! follows. A design by costs (`design_writer`) at level 2 makes such networks: its interfaces are those with an OSPF area, their
//! metrics are the costs of all of them, loopbacks too, and it is passive for IS-IS where it is a loopback or passive for OSPF.
#![tactic(auto)]

// That both protocols give the same tables, and what that means for a migration.
mod laws;

pub use laws::{equal_costs_are_sound, equal_costs_keep_tables};
