use order_core::Turns;
use order_search::Found;

/// What is wrong in an unsound end, at its least address.
#[derive(Debug, Drop)]
pub enum EndFault {
    /// Packets for an address circle.
    Loop {
        /// The address.
        address: u32,
        /// The ring, with its tags.
        turns: Turns,
    },
    /// A router has to pass on packets for an address, and has no step.
    Missing {
        /// The address.
        address: u32,
        /// The router, the lowest-numbered of those.
        router: u32,
    },
}

/// What is planned of a network.
#[derive(Debug, Drop)]
pub enum Planned {
    /// The network isn't sound while every router is in its old phase.
    UnsoundOld {
        /// What is wrong there.
        fault: EndFault,
    },
    /// It is sound there, and not while every router is in its new phase.
    UnsoundNew {
        /// What is wrong there.
        fault: EndFault,
    },
    /// Both ends are sound: what the search found between them.
    Searched {
        /// A seamless wave list, a refutation of all of them, or a tree where the budget of branches was spent.
        found: Found,
    },
}
