use route_core::Hops;

/// A router whose first hops a route takes: those over the least walks of a zone, by the zone's number with the protocol.
#[derive(Clone, Copy, Debug)]
pub struct Target {
    /// The zone.
    pub zone: usize,
    /// The router.
    pub at: u32,
}

/// What an entry of a router says, before it is made.
#[derive(Debug, Drop)]
pub enum Route {
    /// Packets are dropped.
    Drops,
    /// Packets go to the first hops towards a router, which entries towards it share.
    Towards(Target),
    /// Packets go to these hops.
    Through(Hops),
}
