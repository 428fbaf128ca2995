//! The outside: files to read and a sink to write to, as traits, in memory and real; and the words of a call.
//!
//! | Notion | Definition | Code |
//! |---|---|---|
//! | what a read answers, tells and counts | `specs/Files.antt` | the trait `Files` (`files.rt`) |
//! | what a write answers, tells and counts | `specs/Sink.antt` | the trait `Sink` (`sink.rt`) |
//! | the reads so far: names, faults, the last one that failed | `specs/Files.antt` | `reads.rt` |
//! | a count of a sink's faults that rose | `specs/Faults.antt` | the trait `Sink` |
//! | bytes moved between a reader or a writer and memory | `specs/Transfer.antt` | `transfer.rt` |
//!
//! The program runs on `RealFiles` and `RealSink`, whose bytes the operating system holds; over a writer in memory a `RealSink`
//! can tell them. What it says meanwhile goes to a `TerminalSink`, which writes only to a terminal. `MemoryFiles` and
//! `MemorySink` fail at the calls that they are told to; `SureFiles` and `SureSink` never fail, and show that what a caller owes
//! can be met. All four are for the tests of this crate and of its callers, which need no disk.
//!
//! A read takes time of the bytes that it gives, a write of those that it takes; in memory a read looks besides for its name
//! among those of the files.
#![tactic(auto)]

// What a caller sees: the two traits.
mod files;
mod sink;

// Real files, a real sink, and the words of the environment.
mod real_files;
mod real_sink;
mod terminal_sink;
mod transfer;
mod words;

// In memory: files and a sink that fail at some calls, and such as never fail.
mod calls;
mod file_list;
mod kept;
mod memory_files;
mod memory_sink;
mod names;
mod reads;
mod sure_files;
mod sure_sink;

pub use calls::Calls;
pub use file_list::FileList;
pub use files::{FileAnswer, Files};
pub use memory_files::MemoryFiles;
pub use memory_sink::MemorySink;
pub use real_files::RealFiles;
pub use real_sink::RealSink;
pub use sink::{Failed, Sink};
pub use std::alloc::AllocError as OutOfMemory;
pub use sure_files::SureFiles;
pub use sure_sink::SureSink;
pub use terminal_sink::TerminalSink;
pub use transfer::read_front;
pub use words::call_words;
