ghost use Rattle.std.specs.Prelude.{◌≡◌, ◌≤◌, ℕ, List, Option, length, take, IfOk, IfSome};
ghost use Rattle.store_edge.specs.declared.files.FileAnswer.TheVariants.{OutOfMemory};
ghost use Rattle.store_edge.specs.Files.{asked_after, failed_at_after, faults_after};

use net_addr::Bytes;
use std::alloc::{AllocError, AllocFailed, Global};

/// Why a read gave no bytes.
#[derive(Clone, Copy, Debug, PartialEq, Eq)]
pub enum FileAnswer {
    /// The file could not be read. Its name counts as asked for, and the count of faults is one more.
    Failed,
    /// There was no memory. Nothing has changed, and the name doesn't count as asked for.
    OutOfMemory,
}

impl From<AllocError> for FileAnswer {
    ghost from_gives = { λ _ e. e ≡ OutOfMemory };

    fn from(_e: AllocError) -> FileAnswer {
        FileAnswer::OutOfMemory
    }
}

impl<T: Drop> From<AllocFailed<T>> for FileAnswer {
    ghost from_gives = { λ _ e. e ≡ OutOfMemory };

    fn from(_e: AllocFailed<T>) -> FileAnswer {
        FileAnswer::OutOfMemory
    }
}

/// Files that can be read by name.
pub trait Files {
    /// What the file of a name holds, where the files tell it.
    ghost content: { Self → List ℕ → Option (List ℕ) };

    /// The names of the reads so far, in order.
    ghost asked: { Self → List (List ℕ) };

    /// How many reads failed.
    ghost faults: { Self → ℕ };

    /// How many names were asked for when a read last failed, its own among them. None where none failed.
    ghost failed_at: { Self → Option ℕ };

    /// The first `most` bytes of the file of this name, and all of it where it is shorter.
    fn read(&mut self, alloc: Global, name: &str, most: u64) -> Result<Bytes, FileAnswer>
        ensures told { IfOk result (λ bytes. IfSome (content self.old name.now) (λ text. bytes ≡ take most text)) }
        ensures at_most { IfOk result (λ bytes. length bytes ≤ most) }
        ensures contents_stay { (other : List ℕ) → content self.new other ≡ content self.old other }

        ensures asked { asked self.new ≡ asked_after result (asked self.old) name.now }
        ensures faults { faults self.new ≡ faults_after result (faults self.old) }
        ensures failed_at { failed_at self.new ≡ failed_at_after result (asked self.new) (failed_at self.old) };
}
