//! `migrate`: plans the move of a network from OSPF to Integrated IS-IS.
#![tactic(auto)]

ghost use Rattle.std.specs.Prelude.{◌≡◌};
ghost use Rattle.std.specs.Process.{exit_status};
ghost use Rattle.migration_report.specs.Codes.{code_of};

use migrate_cli::{Status, run};
use std::alloc::Global;
use std::io;
use std::process::ExitCode;
use store_edge::{RealFiles, RealSink, TerminalSink, call_words};

/// How many bytes are asked for once, 4 MiB, so that the allocator keeps what is freed.
const ASKED_ONCE: usize = 4_194_304;

fn main(rt: HostRuntime) -> ExitCode {
    keep_freed(rt.alloc());
    exit_code(answer(&rt))
}

/// Asks for a large block and gives it back untouched. From then on glibc's allocator keeps memory that is freed, up to twice as
/// much, in place of giving it back to the system, which would hand it out again page by page. Where there is no such block, or
/// with another allocator, nothing changes.
fn keep_freed(alloc: Global) {
    let _block: Result<Vec<u8>, _> = Vec::with_capacity(alloc, ASKED_ONCE);
}

/// Answers the words of the environment, by the files of the system and on standard output. Where standard error is a terminal, a
/// long call says there how far it is.
fn answer(rt: &HostRuntime) -> Status {
    let Ok(words) = call_words(rt) else {
        return Status::Memory;
    };
    let mut files = RealFiles::new(rt, rt.alloc());
    let mut out = RealSink::new(io::writer(rt));
    let mut progress = TerminalSink::new(rt.stderr());
    run(
        rt.alloc(),
        words.as_slice(),
        &mut files,
        &mut out,
        &mut progress,
    )
}

/// The exit code that tells a status.
fn exit_code(status: Status) -> ExitCode
    ensures { exit_status result ≡ code_of status }
{
    ExitCode::from(status.code())
}
