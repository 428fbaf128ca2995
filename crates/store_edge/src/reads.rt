ghost use Rattle.std.specs.Prelude.{◌≡◌, ◌+◌, length, IfOk, Ok, Err};
ghost use Rattle.store_edge.specs.Files.{no_reads, reads_after};

use crate::files::FileAnswer;
use net_addr::{Bytes, Name};
use std::alloc::Global;
use std::marker::Model;

/// The reads so far of some files.
#[derive(Debug, Drop)]
pub(crate) struct Reads {
    asked: Vec<Name>,
    faults: u64,
    failed_at: Option<u64>,
}

impl Model for Reads {
    ghost use Rattle.std.specs.Prelude.{◌≤◌};
    ghost use Rattle.std.specs.Vec.{vec_len};
    ghost use Rattle.store_edge.specs.Files.{ReadsSoFar};

    ghost Value = { ReadsSoFar };

    ghost view = { λ x. record { asked = x.asked.items; faults = x.faults; failed_at = x.failed_at } };

    ghost invariant = { λ x. x.faults ≤ vec_len x.asked };
}

impl Reads {
    /// No reads.
    pub fn new(alloc: Global) -> Reads
        ensures { result ≡ no_reads }
    {
        Reads {
            asked: Vec::new(alloc),
            faults: 0,
            failed_at: None,
        }
    }

    /// The number of the next read, counted from 1.
    pub fn next_number(&self) -> u64
        ensures { result ≡ length self.now.asked + 1 }
    {
        self.asked.len() as u64 + 1
    }

    /// Keeps one more read, of this name, and gives its answer on. Where there is no memory for that, this is the answer.
    pub fn keep(
        &mut self,
        name: Name,
        answer: Result<Bytes, FileAnswer>,
    ) -> Result<Bytes, FileAnswer>
        ensures kept { self.new ≡ reads_after result self.old name }
        ensures gives { IfOk result (λ bytes. answer ≡ Ok bytes) }
        ensures fails { result ≡ Err FileAnswer.Failed → answer ≡ Err FileAnswer.Failed }
    {
        if let Err(FileAnswer::OutOfMemory) = answer {
            return Err(FileAnswer::OutOfMemory);
        }
        self.asked.push(name)?;
        if answer.is_err() {
            self.faults += 1;
            self.failed_at = Some(self.asked.len() as u64);
        }
        answer
    }
}
