use ios_lines::kind::ReadKind;
use std::alloc::AllocError;
use thiserror::Error;

/// Why a text isn't read. Want of memory may be the answer in place of any other.
#[derive(Debug, Drop, Error)]
pub enum ReadRefusal {
    /// A line is faulty: the first such line of the text, with the least kind on it.
    #[error("line {line}: {kind}")]
    Bad {
        /// The number of the line, from 1.
        line: u32,
        /// Why it is faulty.
        kind: ReadKind,
    },
    /// Memory ran out.
    #[error("out of memory")]
    OutOfMemory,
}

impl From<AllocError> for ReadRefusal {
    ghost use Rattle.ios_reader.specs.declared.refusal.ReadRefusal.{ReadRefusal};
    ghost use Rattle.ios_reader.specs.declared.refusal.ReadRefusal.TheVariants.{OutOfMemory};
    ghost use Rattle.std.specs.Prelude.{◌≡◌};

    ghost from_gives = { λ _ r. r ≡ OutOfMemory };

    fn from(_: AllocError) -> ReadRefusal {
        ReadRefusal::OutOfMemory
    }
}
