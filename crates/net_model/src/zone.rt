/// A part of the network in which routers are adjacent: an OSPF area or a level of IS-IS.
#[derive(Clone, Copy, Debug, PartialEq, Eq)]
pub enum Zone {
    /// The OSPF area of this number; area 0 is the backbone (RFC 2328, section 3).
    Area(u32),
    /// Level 1 of IS-IS (RFC 1195).
    One,
    /// Level 2 of IS-IS (RFC 1195).
    Two,
}
