//! What is typed is what was proved: that a router whose configuration has the lines of the changes made by then forwards as the
//! definition of forwarding says of its phase. No code.
//!
//! The plans are proved over phases (`igp_theory/specs/Forwarding.antt`); routers know no phases, they have distances
//! (administrative distance, by which IOS chooses among protocols). `specs/TypedDistances.antt` says what counts at a router by
//! its distances alone.
#![tactic(auto)]

// That tables read no distances, and that the distances of a state tell the phases.
mod laws;

pub use laws::{
    distances_tell_phases, read_areas_have_processes, tables_read_no_distances, typed_texts_forward,
};
