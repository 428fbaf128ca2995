//! The faults of states, of orders, of wave lists and of timetables: routers without a step, and loops with their rings.
//!
//! `Finder::new` looks once at each class of addresses that isn't known to be treated like an earlier one. A class is kept as
//! a *part* where some state may be unsound for it: its routers to which a walk over the steps of both networks may return,
//! with their hops in each phase. All other classes are sound in every state, and a class whose hops between such routers an
//! earlier part has needs none, where each of its routers that has to pass packets on has a step in both networks. A question
//! then looks at parts alone, and at the class of a part where a router may lack a step or a walk returns, for the fault that
//! the definitions name.
//!
//! | File | What it holds |
//! |---|---|
//! | `finder`, `subject`, `fault` | the finder, what it searches, and what it finds |
//! | `span`, `room`, `work` | two states, and room to work in |
//! | `ends`, `end_lists`, `class_hops` | the hops of a class in both networks, and where they changed |
//! | `layers`, `chains`, `level_marks` | where a walk may return, by one search for strongly connected components, chains at once |
//! | `making` | what is known of the two latest classes, from the nearer of which a class is read |
//! | `still` | the routers without a hop in one of the networks |
//! | `parts`, `part`, `rows`, `row`, `shared_row` | the parts, with a row for each router, which parts share |
//! | `pieces`, `cutting`, `cut_check` | their pieces: a walk that returns stays in one of them, and parts share them |
//! | `watch`, `known` | which parts a change of a router concerns, and what is known of the latest order |
//! | `order_fault`, `change`, `follow`, `returns` | orders: after a change only walks through the router changed |
//! | `times`, `waves_fault`, `calm` | timetables: before which wave each piece is calm |
//! | `class_fault`, `classes_fault`, `class_steps` | the exact fault: a router without a step, or a ring |
//! | `graph`, `live`, `ring`, `tags` | steps of any kind and walks over them, and a ring with its tags |
//! | `retag` | the tags by another start |
//!
//! `new` takes time of classes times routers, of classes times parts, and of the steps to which steps lead from routers that
//! don't do the same as for the nearer of the two classes before; an order that of its changes and of the walks behind the first place at which it
//! differs from the latest one; a timetable that of the waves from the first changed one on. No call takes memory after `new`.
#![tactic(auto)]

// the finder
mod fault;
mod finder;
mod room;
mod span;
mod subject;
mod work;

// the hops of a class in both networks
mod class_hops;
mod end_lists;
mod ends;
mod graph;

// classes for which some state may be unsound
mod chains;
mod layers;
mod level_marks;
mod making;
mod part;
mod parts;
mod row;
mod rows;
mod shared_row;
mod still;
mod watch;

// the pieces of parts
mod cut_check;
mod cutting;
mod pieces;

// orders and wave lists
mod calm;
mod change;
mod follow;
mod known;
mod order_fault;
mod returns;
mod times;
mod waves_fault;

// the exact fault of a class
mod class_fault;
mod class_steps;
mod classes_fault;
mod live;
mod retag;
mod ring;
mod tags;

pub use fault::Fault;
pub use finder::Finder;
pub use rib_mix::OutOfMemory;
pub use times::ChangeWaves;
