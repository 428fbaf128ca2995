//! A picture of a network and of a list of waves, in the DOT of Graphviz.
//!
//! Routers stand wave by wave, a colour a wave, and say the number of theirs; a line is a link, with what its ends cost, in the
//! style of its area. Of a fault the ring's arcs are red and have the tags of their routers, or the router that lacks a step says
//! so, and who has the target of the address has a double line. `dot` reads in it that `neato` is to place the routers.
//!
//! | File | What it holds |
//! |---|---|
//! | `picture` | the picture: what stands in each, the legend, and the parts below one after the other |
//! | `mark` | what is marked: nothing, the ring of a loop, or the router that lacks a step |
//! | `legend` | the table of what is decided, of the waves' colours and of the areas' styles |
//! | `wave_part` | the routers, wave by wave |
//! | `link_part`, `ring_part` | the lines between them |
//! | `ends`, `links`, `areas` | the ends of links, the links, and the areas of these |
//! | `target` | the target of an address |
//! | `look` | colours and styles |
//! | `drawing` | the text as it grows, with names in quotes |
//! | `laws` | that there is one such picture, and that no name gets out of its quotes |
//!
//! `picture_text` takes time of the square of the interfaces of the network, and of the bytes of the text.
#![tactic(auto)]

// The picture.
mod mark;
mod picture;

// Its parts.
mod legend;
mod link_part;
mod ring_part;
mod wave_part;

// What is drawn.
mod areas;
mod ends;
mod links;
mod target;

// How it is drawn.
mod drawing;
mod look;

// Laws.
mod laws;

pub use laws::{names_keep_their_quotes, networks_have_one_picture};
pub use mark::Mark;
pub use picture::picture_text;
pub use std::alloc::AllocError as OutOfMemory;
