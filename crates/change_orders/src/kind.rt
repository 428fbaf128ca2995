use std::alloc::AllocError;
use thiserror::Error;

/// Why a line of an order file of single changes is faulty; where several kinds stand on a line the first of this order counts.
#[derive(Clone, Copy, Debug, PartialEq, Eq)]
pub enum TwoKind {
    /// The line is off the form of the file: the header, a wave in the order of items, a last chain of one change of each wave.
    Form = 1,
    /// A wave has a change of no router.
    NotInNetwork = 2,
    /// A wave has a change that stood before.
    Twice = 3,
    /// The file ends, and some change stands in no wave.
    Missing = 4,
    /// A wave has the second change of a router whose first one stood on no line before.
    Early = 5,
}

/// Why a text is no order file of single changes.
#[derive(Debug, Drop, Error)]
pub enum TwoRefusal {
    /// A line is faulty.
    #[error("line {line}: {kind:?}")]
    Bad {
        /// The number of the least faulty line, from 1; where the file ends too early, that of the line after its last.
        line: u32,
        /// The first kind that stands on it.
        kind: TwoKind,
    },
    /// Memory ran out.
    #[error("out of memory")]
    OutOfMemory,
}

impl From<AllocError> for TwoRefusal {
    ghost use Rattle.std.specs.Prelude.{◌≡◌};
    ghost use Rattle.change_orders.specs.declared.kind.TwoRefusal.{TwoRefusal};
    ghost use Rattle.change_orders.specs.declared.kind.TwoRefusal.TheVariants.{OutOfMemory};

    ghost from_gives = { λ _ r. r ≡ OutOfMemory };

    fn from(_: AllocError) -> TwoRefusal {
        TwoRefusal::OutOfMemory
    }
}
