ghost use Rattle.std.specs.Prelude.{ℕ, List, IfOk, map, string_bytes};
ghost use Rattle.migrate_words.specs.Asked.{Asks, IsInRange};
ghost use Rattle.migrate_cli.specs.Calls.{call_of, outside, reads_so_far};
ghost use Rattle.migrate_cli.specs.Claim.{Claim};
ghost use Rattle.migrate_cli.specs.steps.Answering.{HasAnswer, ReadsEnd, RefusesSo, StopsSo};

use crate::OutOfMemory;
use crate::files::{files_of, name_bytes};
use crate::judging::judge;
use crate::reading::{Stop, read_texts};
use crate::sending::send;
use migrate_words::{Command, WordsRefused, read_command};
use migration_report::{Outcome, Refusal, Status};
use net_addr::Bytes;
use std::alloc::{AllocError, Global};
use store_edge::{Files, Sink};

/// How many configuration files a call takes at most.
const FILES_MOST: usize = 200;

/// Answers the words of a call, by its files, and writes the answer.
///
/// The words are those after the program's name, of one of the commands. What they come to is decided first, then its
/// text is built whole, and then its first byte is written. A long command says meanwhile on a sink of its own how far it is:
/// whatever that sink does, the answer is the same.
pub fn run<F: Files, S: Sink, P: Sink>(
    alloc: Global,
    words: &[String],
    files: &mut F,
    out: &mut S,
    progress: &mut P,
) -> Status
    ensures { Claim (call_of (map string_bytes words.now) (F.content files.old))
        (outside (reads_so_far (F.asked files.old) (F.faults files.old) (F.failed_at files.old))
        (S.written out.old) (S.faults out.old))
        (outside (reads_so_far (F.asked files.new) (F.faults files.new) (F.failed_at files.new))
        (S.written out.new) (S.faults out.new)) result }
{
    let Ok(outcome) = decide(alloc, words, files, progress) else {
        return Status::Memory;
    };
    let status = outcome.status();
    let Ok(text) = outcome.text(alloc) else {
        return Status::Memory;
    };
    match send(out, text.as_slice()) {
        Ok(()) => status,
        Err(_) => Status::WriteFault,
    }
}

/// What the words of a call come to.
fn decide<F: Files, P: Sink>(
    alloc: Global,
    words: &[String],
    files: &mut F,
    progress: &mut P,
) -> Result<Outcome, OutOfMemory>
    ensures answer { HasAnswer (call_of (map string_bytes words.now) (F.content files.old))
        (F.asked files.old) (F.asked files.new) result }
    ensures reads { ReadsEnd result (reads_so_far (F.asked files.old) (F.faults files.old) (F.failed_at files.old))
        (reads_so_far (F.asked files.new) (F.faults files.new) (F.failed_at files.new)) }
{
    match read_command(alloc, words) {
        Ok(command) => decide_command(alloc, &command, files, progress),
        Err(refused) => refuse_words(alloc, refused),
    }
}

/// What words come to that are refused.
fn refuse_words(alloc: Global, refused: WordsRefused) -> Result<Outcome, OutOfMemory>
    ensures { IfOk result (RefusesSo refused) }
{
    match refused {
        WordsRefused::Words(detail) => {
            let detail = Bytes::from_vec(detail.into_bytes());
            let refusal = Refusal::Words { detail };
            Ok(Outcome::Refused { refusal })
        }
        WordsRefused::Number => {
            let detail = Bytes::from_vec(Vec::new(alloc));
            let refusal = Refusal::Words { detail };
            Ok(Outcome::Refused { refusal })
        }
        WordsRefused::OutOfMemory => Err(AllocError),
    }
}

/// What a command comes to.
fn decide_command<F: Files, P: Sink>(
    alloc: Global,
    command: &Command<'_>,
    files: &mut F,
    progress: &mut P,
) -> Result<Outcome, OutOfMemory>
    requires { IsInRange command.now }
    ensures answer { (words : List (List ℕ)) → Asks words command.now → HasAnswer (call_of words (F.content files.old))
        (F.asked files.old) (F.asked files.new) result }
    ensures reads { ReadsEnd result (reads_so_far (F.asked files.old) (F.faults files.old) (F.failed_at files.old))
        (reads_so_far (F.asked files.new) (F.faults files.new) (F.failed_at files.new)) }
{
    let number = command.configs.as_slice().len();
    if number > FILES_MOST {
        let number = number as u64;
        let refusal = Refusal::Files { number };
        return Ok(Outcome::Refused { refusal });
    }
    let Ok(wanted) = files_of(alloc, command) else {
        return Err(AllocError);
    };
    match read_texts(alloc, wanted.as_slice(), files) {
        Ok(texts) => judge(alloc, command, texts.into_vec(), progress),
        Err(stop) => refuse_stop(alloc, stop),
    }
}

/// What a call comes to where reading stopped.
fn refuse_stop(alloc: Global, stop: Stop<'_>) -> Result<Outcome, OutOfMemory>
    ensures { IfOk result (StopsSo stop.entry) }
{
    let refusal = match stop {
        Stop::Fault(name) => Refusal::Read {
            file: name_bytes(alloc, name)?,
        },
        Stop::Long(name) => Refusal::Length {
            file: name_bytes(alloc, name)?,
        },
        Stop::Total(number) => Refusal::Total { number },
        Stop::OutOfMemory => return Err(AllocError),
    };
    Ok(Outcome::Refused { refusal })
}
