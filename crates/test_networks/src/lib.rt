//! The networks that tests share, as configurations from which `Net::build` makes them, and as texts.
//!
//! Routers are named R and a digit, and stand in the order of their digits. OSPF has distance 110, and IS-IS is at 255.
//!
//! | File | What it holds |
//! |---|---|
//! | `small` | routers without interfaces, two routers on one link, a network with one target |
//! | `areas`, `levels` | a ring of routers in areas of OSPF, and one in levels of IS-IS |
//! | `router`, `interface` | the configurations that they are made of |
//! | `texts` | texts of configurations: a triangle, a square, two border routers with a range, routers with given links |
//!
//! Each call takes the time of the routers that it makes, `linked_text` of routers times links.
#![tactic(auto)]

// networks
mod areas;
mod levels;
mod small;

// what they are made of
mod interface;
mod router;

// texts
mod texts;

pub use areas::{Rules, ring_of_areas};
pub use levels::ring_of_levels;
pub use small::{bare, one_target, pair};
pub use std::alloc::AllocError as OutOfMemory;
pub use texts::{Link, RANGE, SQUARE, TRIANGLE, linked_text, triangle_text};
