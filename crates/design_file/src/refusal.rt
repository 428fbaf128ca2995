use net_addr::Name;
use std::alloc::AllocError;
use thiserror::Error;

/// What is wrong with a design; of several faults one of the lowest kind counts.
#[derive(Clone, Copy, Debug, PartialEq, Eq)]
pub enum DesignKind {
    /// The text isn't TOML, or not UTF-8.
    NotToml = 1,
    /// A table has a key that there isn't at its place.
    UnknownKey = 2,
    /// The value of a key is of another kind.
    WrongKind = 3,
    /// An area isn't two hexadecimal digits and up to six groups of four, or there is none for all routers.
    BadArea = 4,
    /// A level is neither `1` nor `1-2` nor `2`.
    BadLevel = 5,
    /// A metric isn't from 1 to `MOST_METRIC`.
    BadMetric = 6,
    /// The network has no router of the name.
    UnknownRouter = 7,
    /// The router has no interface of the name, or one without an address.
    UnknownInterface = 8,
    /// The router has an IS-IS process already.
    AlreadyIsis = 9,
}

/// Why a text is no design, or a design can't be settled for a network.
#[derive(Debug, Drop, Error)]
pub enum DesignRefusal {
    /// Something is wrong with the design.
    #[error("{kind:?}")]
    Bad {
        /// The lowest kind of a fault of it.
        kind: DesignKind,
        /// The least path, in byte order, of a fault of this kind: keys joined by dots, and `-` for a text that isn't TOML.
        path: Name,
    },
    /// Memory ran out.
    #[error("out of memory")]
    OutOfMemory,
}

impl From<AllocError> for DesignRefusal {
    ghost use Rattle.std.specs.Prelude.{◌≡◌};
    ghost use Rattle.design_file.specs.declared.refusal.DesignRefusal.{DesignRefusal};
    ghost use Rattle.design_file.specs.declared.refusal.DesignRefusal.TheVariants.{OutOfMemory};

    ghost from_gives = { λ _ r. r ≡ OutOfMemory };

    fn from(_: AllocError) -> DesignRefusal {
        DesignRefusal::OutOfMemory
    }
}
