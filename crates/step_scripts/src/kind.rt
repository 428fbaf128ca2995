use std::alloc::AllocError;
use thiserror::Error;

/// Why a line of an order file is faulty; where several kinds stand on a line the first of this order counts.
#[derive(Clone, Copy, Debug, PartialEq, Eq)]
pub enum OrderKind {
    /// The first line is neither `order 1` nor `order 2`, or there is none.
    Header = 1,
    /// A wave has a name of no router.
    NotInNetwork = 2,
    /// A wave has a name that stood before.
    Twice = 3,
    /// The file ends, and some router stands in no wave.
    Missing = 4,
    /// A line of version 2 is neither a wave nor a chain, or it stands after the chain.
    Wave = 5,
    /// The names of the chain aren't one of each wave, in the order of the waves.
    Chain = 6,
}

/// Why a text is no order file.
#[derive(Debug, Drop, Error)]
pub enum OrderRefusal {
    /// A line is faulty.
    #[error("line {line}: {kind:?}")]
    Bad {
        /// The number of the least faulty line, from 1; where the file ends too early, that of the line after its last.
        line: u32,
        /// The first kind that stands on it.
        kind: OrderKind,
    },
    /// Memory ran out.
    #[error("out of memory")]
    OutOfMemory,
}

impl From<AllocError> for OrderRefusal {
    ghost use Rattle.std.specs.Prelude.{◌≡◌};
    ghost use Rattle.step_scripts.specs.declared.kind.OrderRefusal.{OrderRefusal};
    ghost use Rattle.step_scripts.specs.declared.kind.OrderRefusal.TheVariants.{OutOfMemory};

    ghost from_gives = { λ _ r. r ≡ OutOfMemory };

    fn from(_: AllocError) -> OrderRefusal {
        OrderRefusal::OutOfMemory
    }
}
