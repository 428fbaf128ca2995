//! The way back, as it is typed: configurations with the lines of changes, and behind them those that undo the last of these, read as
//! the network of the state in which only the others are made. No code.
//!
//! `live_replan/specs/BackTexts.antt` has the lines that undo a change, `specs/UndoneTexts.antt` what is typed on each router and what
//! it reads as. A router takes the last distance that a process is given; how lines that set distances grow a configuration, whatever
//! these are, is in `applied_changes/proofs/GrownConfigurations.antt`.
#![tactic(auto)]

// That the texts read as the states on the way back.
mod laws;

pub use laws::undone_texts_forward;
