//! Why a router of a wave list isn't in an earlier wave: the laws of reasons. No code.
//!
//! A reason (`IsReason`, `specs/Reasons.antt`) is a loop of the network: it would arise in the wave before the router's own, the
//! router is tagged `New` in it, some router of that wave is tagged `Old`, and none tagged `Old` stands earlier. Of a list that a
//! migration is sound throughout, a router may stand one wave earlier or has a reason, and one that has may stand in no earlier
//! wave at all. So it is enough to try the wave before, and the reasons of a list lead from each router back to the first wave.
#![tactic(auto)]

mod laws;

pub use laws::{earlier_waves_are_no_safer, reasons_are_reasons};
