use thiserror::Error;

/// Why a line of a text is faulty; where several kinds stand on a line the first of this order counts.
#[derive(Clone, Copy, Debug, PartialEq, Eq, Error)]
pub enum ReadKind {
    /// A configuration without a router name, or a bad one.
    #[error("no router name, or a bad one")]
    NoHostname = 1,
    /// A text that doesn't end with `end`.
    #[error("the text doesn't end with `end`")]
    NoEnd = 2,
    /// A word that is no address.
    #[error("a bad address")]
    BadAddress = 3,
    /// A word that is no mask.
    #[error("a bad mask")]
    BadMask = 4,
    /// An OSPF cost, or a reference bandwidth, out of its range.
    #[error("a cost out of its range")]
    BadCost = 5,
    /// A bad OSPF area number.
    #[error("a bad area number")]
    BadArea = 6,
    /// A second process of one protocol, or a bad process number.
    #[error("a second process, or a bad process number")]
    SecondProcess = 7,
    /// What the planner doesn't support, and can't skip.
    #[error("not supported")]
    Unsupported = 8,
    /// A loopback whose mask isn't of 32 bits.
    #[error("a loopback whose mask isn't of 32 bits")]
    LoopbackMask = 9,
    /// A bad IS-IS network entity title, or none.
    #[error("a bad network entity title, or none")]
    BadNet = 10,
    /// A bad IS-IS level.
    #[error("a bad level")]
    BadLevel = 11,
    /// An IS-IS metric out of its range.
    #[error("a metric out of its range")]
    BadMetric = 12,
    /// An administrative distance out of its range.
    #[error("a distance out of its range")]
    BadDistance = 13,
    /// The OSPF distance that IS-IS has during a migration.
    #[error("the distance of IS-IS during a migration")]
    DistanceClash = 14,
    /// An interface without a bandwidth that a cost could be taken from.
    #[error("no bandwidth to take a cost from")]
    NoBandwidth = 15,
}
