//! Refutations as texts: a tree is printed, and a tree file is judged over a network and two sources of tables, without
//! anything of the search that made it.
//!
//! | File | What it holds | Time |
//! |---|---|---|
//! | `verdict` | what is found of a tree file | |
//! | `judge` | the judge of a text | its lines, one after another |
//! | `text` | how a tree is printed | the tree's names |
//! | `laws` | what verdicts mean, that a text has one, and that printed trees read back | |
//! | `spans`, `shape`, `names`, `node_line` | which node a line is: its words, their form, its names | the line's bytes, and of n names n squared |
//! | `start` | which start the second line of a tree from one is | the line's bytes |
//! | `asked` | what a tree is judged over: mixed forwarding, a start, what is ranked | |
//! | `branch`, `numbered` | why a branch is wrong, and the numbers that its turns name | the turns, each with the hops of its address |
//! | `assumed`, `cursor`, `walk` | the open places of a tree: what is assumed there, and the children left | a pair constant; the start, routers squared |
//! | `tally`, `reading` | what is counted; one line after another | constant besides the line |
//!
//! `specs/TreeLines` and `WrongLines` say what a line says and which kind is wrong with it, `StartLines` so of that of a start,
//! `Verdicts` and `RestVerdicts` what a text is, `TreeTexts` how trees are printed.
#![tactic(auto)]

// What is said of a text, and how trees are printed.
mod laws;
mod text;
mod verdict;

// Line after line.
mod judge;
mod reading;
mod tally;

// What a line says.
mod names;
mod node_line;
mod shape;
mod spans;
mod start;

// Whether it is right at its place.
mod asked;
mod assumed;
mod branch;
mod cursor;
mod numbered;
mod walk;

pub use judge::{verify, verify_rest, verify_two};
pub use laws::{
    closed_trees_refute, rest_trees_read_back, texts_have_one_verdict, trees_read_back,
};
pub use net_addr::OutOfMemory;
pub use text::{rest_tree_text, tree_text, two_tree_text};
pub use verdict::{Verdict, WrongKind};
