/// What is wrong in a state, at its least address.
#[derive(Clone, Copy, Debug, PartialEq, Eq)]
pub enum Fault {
    /// Packets for an address circle; the ring stands beside the fault.
    Loop {
        /// The address.
        address: u32,
    },
    /// A router has to pass on packets for an address, and has no step.
    Missing {
        /// The address.
        address: u32,
        /// The router, the lowest-numbered of those.
        router: u32,
    },
}
