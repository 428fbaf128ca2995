/// How far a router is switched from OSPF to IS-IS.
///
/// Each router goes from `Old` to `Middle` to `New` by two changes of an administrative distance.
#[derive(Clone, Copy, Debug, PartialEq, Eq)]
pub enum Phase {
    /// OSPF at its configured distance, IS-IS at 255.
    Old,
    /// OSPF at its configured distance, IS-IS at 115.
    Middle,
    /// OSPF at 255, IS-IS at 115.
    New,
}
