//! Doubly linked lists of numbered nodes, with a trail of moves that can be taken back.
//!
//! | File | What it holds | Time of its calls |
//! |---|---|---|
//! | `links` | `Links`, seen as its lists: what callers see | that of one move; `undo_to` of the moves taken back, `new` and `widen` of the nodes made |
//! | `chain` | nodes with their neighbors and lists with their ends: one node is put in or taken out | constant |
//! | `moves` | a move with what takes it back | constant |
//!
//! `specs/Lists` says what each call does to the lists, `Moves` what moves make of them, `Chains` how the fields show them.
#![tactic(auto)]

// lists as callers see them
mod links;

// nodes and moves
mod chain;
mod moves;

pub use links::Links;
pub use std::alloc::AllocError as OutOfMemory;
