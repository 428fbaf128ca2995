ghost use Rattle.std.specs.Prelude.{◌≡◌, IfOk};
ghost use Rattle.refutation_check.specs.WrongLines.{kind_number};
ghost use Rattle.migration_report.specs.Kinds.{wrong_kind_name};
ghost use Rattle.migration_report.specs.TreeVerdictTexts.{closed_text, open_text, verdict_text, wrong_text};

use crate::kinds::wrong_kind_name;
use net_addr::Bytes;
use printed_lines::LineBuilder;
use refutation_check::{Verdict, WrongKind};
use std::alloc::{AllocError, Global};

/// The line that tells what is found of a tree file. The only error is want of memory.
pub(crate) fn verdict_text(alloc: Global, verdict: Verdict) -> Result<Bytes, AllocError>
    ensures { IfOk result (λ text. text ≡ verdict_text verdict) }
{
    match verdict {
        Verdict::Closed { branches, leaves } => closed_text(alloc, branches, leaves),
        Verdict::Unfinished { unvisited } => open_text(alloc, unvisited),
        Verdict::Wrong { line, kind } => wrong_text(alloc, line, kind),
    }
}

/// The line that a tree is closed.
fn closed_text(alloc: Global, branches: u32, leaves: u32) -> Result<Bytes, AllocError>
    ensures { IfOk result (λ text. text ≡ closed_text branches leaves) }
{
    LineBuilder::start(alloc, b"closed")?
        .number(u64::from(branches))?
        .number(u64::from(leaves))?
        .finish()
}

/// The line that a tree has unvisited places.
fn open_text(alloc: Global, unvisited: u32) -> Result<Bytes, AllocError>
    ensures { IfOk result (λ text. text ≡ open_text unvisited) }
{
    LineBuilder::start(alloc, b"open")?
        .number(u64::from(unvisited))?
        .finish()
}

/// The line that a line of a tree file is wrong.
fn wrong_text(alloc: Global, line: u32, kind: WrongKind) -> Result<Bytes, AllocError>
    ensures { IfOk result (λ text. text ≡ wrong_text line kind) }
{
    LineBuilder::start(alloc, b"wrong")?
        .number(u64::from(line))?
        .number(u64::from(kind_number(kind)))?
        .word(wrong_kind_name(kind))?
        .finish()
}

/// The number of a kind of wrong line.
fn kind_number(kind: WrongKind) -> u32
    ensures { result ≡ kind_number kind }
{
    match kind {
        WrongKind::Form => 1,
        WrongKind::Router => 2,
        WrongKind::Address => 3,
        WrongKind::Originator => 4,
        WrongKind::Step => 5,
        WrongKind::OneSided => 6,
        WrongKind::NotAssumed => 7,
    }
}
