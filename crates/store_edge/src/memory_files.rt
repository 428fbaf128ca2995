ghost use Rattle.std.specs.Prelude.{◌≡◌, ◌≤◌, ℕ, List, length, take, IfOk, IfSome, IfNone, Err, IsOk, Some};
ghost use Rattle.store_edge.specs.Files.{asked_after, failed_at_after, faults_after, no_reads, reads_after};
ghost use Rattle.store_edge.specs.Files.{file_bytes, ReadFails, MemoryFilesState};

use crate::calls::Calls;
use crate::file_list::FileList;
use crate::files::{FileAnswer, Files};
use crate::names::{front, own_name};
use crate::reads::Reads;
use net_addr::Bytes;
use std::alloc::Global;
use std::marker::Model;

/// Files in memory, for tests: the reads of the given numbers fail, and so does each read of a name that isn't there.
#[derive(Debug, Drop)]
pub struct MemoryFiles {
    files: FileList,
    failing: Calls,
    reads: Reads,
}

impl Model for MemoryFiles {
    ghost use Rattle.store_edge.specs.Files.{MemoryFilesState};

    ghost Value = { MemoryFilesState };

    ghost view = { λ x. record { files = x.files; failing = x.failing; reads = x.reads } };
}

impl MemoryFiles {
    /// These files. The numbers are those of the reads that fail, counted from 1.
    pub fn new(alloc: Global, files: FileList, failing: Calls) -> MemoryFiles
        ensures { result ≡ record { files = files; failing = failing; reads = no_reads } }
    {
        MemoryFiles {
            files,
            failing,
            reads: Reads::new(alloc),
        }
    }

    /// The bytes that the next read gives, None where it fails.
    fn next(&self, name: &str) -> Option<&Bytes>
        ensures none { IfNone result (ReadFails self.now name.now) }
        ensures some { IfSome result (λ bytes. (ReadFails self.now name.now → ⊥) × (file_bytes self.now.files name.now ≡ Some bytes.now)) }
    {
        if self.failing.has(self.reads.next_number()) {
            return None;
        }
        self.files.find(name.as_bytes())
    }
}

impl Files for MemoryFiles {
    ghost content = { λ files name. file_bytes files.files name };

    ghost asked = { λ files. files.reads.asked };

    ghost faults = { λ files. files.reads.faults };

    ghost failed_at = { λ files. files.reads.failed_at };

    /// Unless memory runs out it fails exactly where the number of the call is one that fails, or no file has the name.
    fn read(&mut self, alloc: Global, name: &str, most: u64) -> Result<Bytes, FileAnswer>
        ensures told { IfOk result (λ bytes. IfSome (file_bytes self.old.files name.now) (λ text. bytes ≡ take most text)) }
        ensures at_most { IfOk result (λ bytes. length bytes ≤ most) }
        ensures contents_stay { (other : List ℕ) → file_bytes self.new.files other ≡ file_bytes self.old.files other }

        ensures asked { self.new.reads.asked ≡ asked_after result self.old.reads.asked name.now }
        ensures faults { self.new.reads.faults ≡ faults_after result self.old.reads.faults }
        ensures failed_at { self.new.reads.failed_at ≡ failed_at_after result self.new.reads.asked self.old.reads.failed_at }

        ensures fails { result ≡ Err FileAnswer.Failed → ReadFails self.old name.now }
        ensures succeeds { IsOk result → ReadFails self.old name.now → ⊥ }
        ensures after { self.new ≡ record self.old { reads = reads_after result self.old.reads name.now } }
    {
        let asked = own_name(alloc, name)?;
        let answer = match self.next(name) {
            Some(all) => Ok(front(alloc, all.as_slice(), most)?),
            None => Err(FileAnswer::Failed),
        };
        self.reads.keep(asked, answer)
    }
}
