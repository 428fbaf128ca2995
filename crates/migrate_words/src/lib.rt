//! The words of a call of `migrate`, read by `clap` as one of its commands.
//!
//! `specs/Usages.antt` is the table of the commands, with what each takes; `specs/CommandLine.antt` is the command line in
//! `clap`'s terms, `specs/Asked.antt` says which words ask for what, and `specs/PlainWords.antt` has the words of the program's
//! page. `read_command` is the one call. A command more is a variant of `CommandKind` with a line in that table and an entry in
//! `subcommands`: no other definition and no proof names a command.
//!
//! | File | What it holds |
//! |---|---|
//! | `command` | the commands as data, and the ranges of their numbers |
//! | `subcommands` | the table: the word, the help and the arguments of each subcommand |
//! | `lines` | the command line that `clap` is given: a subcommand an entry |
//! | `reading`, `arguments` | the call, and what stands for each argument |
//! | `file_names` | names of files in their order |
//! | `scheme` | what a design is asked to say of every router |
//! | `refusal`, `version` | why words are refused, with what `clap` says; the version that it tells |
//! | `laws` | that words ask for one command |
#![tactic(auto)]

// commands as data
mod command;
mod file_names;
mod refusal;
mod scheme;
mod subcommands;
mod version;

// words by `clap`
mod arguments;
mod lines;
mod reading;

// laws
mod laws;

pub use command::{
    Command, CommandKind, LEAST_BUDGET, LEAST_SAMPLE, LEAST_WAVE, MOST_BUDGET, MOST_SAMPLE,
    MOST_WAVE, USUAL_BUDGET,
};
pub use file_names::FileNames;
pub use laws::words_laws;
pub use reading::read_command;
pub use refusal::WordsRefused;
pub use scheme::{Scheme, USUAL_AREA, USUAL_LEVELS};
pub use version::VERSION;
