ghost use Rattle.std.specs.Prelude.{◌≡◌, List, ℕ, Option, None, length, ◌≤◌, IfOk};
ghost use Rattle.store_edge.specs.Files.{no_reads};

use crate::files::{FileAnswer, Files};
use crate::names::own_name;
use crate::reads::Reads;
use crate::transfer::read_front;
use net_addr::Bytes;
use std::alloc::Global;
use std::fs::File;
use std::marker::Model;
use std::rt;

/// The files of the system. What they hold isn't told: this is where the proofs trust the outside.
#[derive(Drop)]
pub struct RealFiles<R> {
    rt: R,
    reads: Reads,
}

impl<R> Model for RealFiles<R> {
    ghost use Rattle.store_edge.specs.Files.{ReadsSoFar};

    ghost Value = { ReadsSoFar };

    ghost view = { λ x. x.reads };
}

impl<R: rt::Files + Drop> RealFiles<R> {
    /// The files that this runtime opens.
    pub fn new(rt: R, alloc: Global) -> RealFiles<R>
        ensures { result ≡ no_reads }
    {
        RealFiles {
            rt,
            reads: Reads::new(alloc),
        }
    }
}

impl<R: rt::Files + Drop> Files for RealFiles<R> {
    ghost content = { λ _ _. None };

    ghost asked = { λ reads. reads.asked };

    ghost faults = { λ reads. reads.faults };

    ghost failed_at = { λ reads. reads.failed_at };

    fn read(&mut self, alloc: Global, name: &str, most: u64) -> Result<Bytes, FileAnswer> {
        let asked = own_name(alloc, name)?;
        let answer = read_file(&self.rt, alloc, name, most);
        self.reads.keep(asked, answer)
    }
}

/// The first `most` bytes of a file of the system.
fn read_file<R: rt::Files>(
    rt: &R,
    alloc: Global,
    name: &str,
    most: u64,
) -> Result<Bytes, FileAnswer>
    ensures { IfOk result (λ bytes. length bytes ≤ most) }
{
    let Ok(mut file) = File::open(rt, name) else {
        return Err(FileAnswer::Failed);
    };
    read_front(alloc, &mut file, most)
}
