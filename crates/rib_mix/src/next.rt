use route_core::Hops;

/// What a router does with the packets of an address.
#[derive(Clone, Copy, Debug)]
pub enum Next<'a> {
    /// It sends them to each of these hops.
    Via(&'a Hops),
    /// It drops them: the entry of an active range (RFC 2328, section 11.1).
    Discard,
    /// It delivers them on a connected network.
    Connected,
    /// It has no entry for them.
    Absent,
}
