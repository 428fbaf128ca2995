//! Why a single change of a wave list isn't in an earlier wave: the text that tells it, and the laws of reasons where single changes
//! are ranked.
//!
//! Where a migration is sound throughout a list of single changes, and with a change one wave earlier it isn't, then the fault of
//! that list is a loop of the network (`IsChangeReason`, `specs/ChangeReasons.antt`): it would arise in the wave before the
//! change's own, the change is the one at which its router switches for the address, that router is tagged `New`, some router
//! tagged `Old` switches in that wave, and none tagged `Old` switches earlier. With such a reason the change may stand in no
//! earlier wave at all. The laws speak of timetables, in which a router may make both changes in one wave; an order file has them
//! in two, so that a second change in the wave behind its router's first can't be moved there.
//!
//! | What is told of a change behind the first wave | |
//! |---|---|
//! | it is right behind its router's first change | `R2:2 wave 2 after R2:1` |
//! | a loop keeps it there | `R1:2 wave 3 after R2:2 10.0.0.5 R1:N R2:O` |
//! | nothing does | `R1:2 wave 3 may be earlier` |
//!
//! | File | What it holds |
//! |---|---|
//! | `reasons`, `earlier` | the text of reasons; what is asked of the finder for a change, and which line it has |
//! | `behind`, `lines`, `words` | changes right behind their router's first; the lines of a fault; their words |
//! | `laws` | why a reason is one, and that there is one text |
//!
//! `change_reasons_text` asks the finder once for each change that isn't right behind its router's first.
#![tactic(auto)]

// The text.
mod behind;
mod earlier;
mod lines;
mod reasons;
mod words;

// Laws.
mod laws;

pub use laws::{change_texts_are_one, earlier_changes_are_no_safer};
pub use reasons::change_reasons_text;
pub use std::alloc::AllocError as OutOfMemory;
