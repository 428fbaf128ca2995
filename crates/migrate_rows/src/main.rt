//! Answers the calls of the file `calls.txt`, one a line, on the files that lie beside it or that are made, held in memory. What
//! is printed reads as a session at a terminal: each call, what it writes, and its code. A line that begins with `#` is a remark,
//! and is printed as it stands.
//!
//! A call whose files all lie beside it is answered a second time, on the files of the system, and has to be answered alike.
#![tactic(auto)]

mod made;

ghost use Rattle.std.specs.Prelude.{◌≡◌, [], IfOk};

use crate::made::made;
use anyhow::{Result, bail};
use migrate_cli::{Status, run};
use net_addr::{Bytes, Name};
use std::alloc::Global;
use std::io::Write;
use std::{fs, io, rt};
use store_edge::{Calls, FileList, Files, MemoryFiles, RealFiles, RealSink, SureSink};

fn main(rt: HostRuntime) -> Result<()> {
    let calls = fs::read_to_string(&rt, "calls.txt")?;
    for line in calls.as_str().lines() {
        if line.starts_with('#') {
            println!(rt; "{line}")?;
        } else {
            println!(rt; "$ migrate {line}")?;
            let code = answer_call(&rt, line)?;
            println!(rt; "ends with {code}")?;
        }
    }
    Ok(())
}

/// Answers one call, whose words have one blank between them, prints what it writes, and says its code.
fn answer_call(rt: &(impl AllocGlobal + rt::Files + Print), call: &str) -> Result<u8> {
    let alloc = rt.alloc();
    let mut words = Vec::new(alloc);
    for word in call.split(' ') {
        words.push(String::from_str(alloc, word)?)?;
    }
    let mut files = files_of(rt, words.as_slice())?;
    let held = answered(alloc, words.as_slice(), &mut files);
    io::writer(rt).write_all(held.text.as_slice())?;
    if !call.contains(" made/") {
        let mut real = RealFiles::new(rt, alloc);
        if !held.is_same(&answered(alloc, words.as_slice(), &mut real)) {
            bail!("another answer on the files of the system");
        }
    }
    Ok(held.status.code())
}

/// How a call ended, and what it wrote.
#[derive(Drop)]
struct Answer {
    status: Status,
    text: Vec<u8>,
}

impl Answer {
    /// Whether the call ended alike with the same text.
    fn is_same(&self, other: &Answer) -> bool {
        self.status == other.status && self.text.as_slice() == other.text.as_slice()
    }
}

/// Answers words on these files, into memory.
fn answered<F: Files>(alloc: Global, words: &[String], files: &mut F) -> Answer {
    let mut out = RealSink::telling(Vec::new(alloc));
    let mut progress = SureSink::new(alloc);
    let status = run(alloc, words, files, &mut out, &mut progress);
    Answer {
        status,
        text: out.into_writer(),
    }
}

/// The files that words name, in memory, where no read of them fails. A word that names none is left out.
fn files_of(rt: &(impl AllocGlobal + rt::Files), words: &[String]) -> Result<MemoryFiles>
    ensures { IfOk result (λ files. files.failing ≡ []) }
{
    let alloc = rt.alloc();
    let mut all = Vec::new(alloc);
    for word in words {
        let bytes = match made(alloc, word.as_str())? {
            Some(bytes) => Some(bytes),
            None => fs::read(rt, word.as_str()).ok(),
        };
        if let Some(bytes) = bytes {
            let name = Vec::from_slice(alloc, word.as_bytes())?;
            all.push((Name::from_vec(name), Bytes::from_vec(bytes)))?;
        }
    }
    let failing = Calls::from_vec(Vec::new(alloc));
    Ok(MemoryFiles::new(alloc, FileList::from_vec(all), failing))
}
