use net_addr::{Name, Prefix};
use std::alloc::AllocError;
use thiserror::Error;

/// What a network may have too many of.
#[derive(Clone, Copy, Debug, PartialEq, Eq)]
pub enum LimitWhat {
    /// Routers: at most `MOST_ROUTERS`.
    Routers,
    /// Up interfaces, of all routers together: at most `MOST_UP_INTERFACES`.
    Interfaces,
    /// Distinct prefixes, subnets of up interfaces and ranges together: at most `MOST_DESTS`.
    Dests,
}

/// Why configurations make no network.
///
/// The reasons are looked at in this order, and the first that stands is the answer. Routers come in byte
/// order of their names. Of several pairs of routers the names of the least are carried, by the first and then by
/// the second, with the least address, prefix or area that there is of it. Want of memory may be the answer in
/// place of any other.
#[derive(Debug, Drop, Error)]
pub enum NetRefusal {
    /// There are more than a limit allows.
    #[error("there are {number} of {what:?}, above the limit")]
    Limit {
        /// What there are too many of.
        what: LimitWhat,
        /// How many there are, or 2^64 - 1 where there are more.
        number: u64,
    },
    /// Two configurations have one name.
    #[error("two routers have one name")]
    TwoNames {
        /// The least such name in byte order.
        name: Name,
    },
    /// Two up interfaces have one address, and they belong to one router or one of them is no loopback.
    #[error("two interfaces have the address {address}")]
    AddressTwice {
        /// The name of the first router.
        one: Name,
        /// The name of the second router, which may be the first one.
        two: Name,
        /// The address.
        address: u32,
    },
    /// Two up interfaces of one subnet run OSPF in different areas.
    #[error("a subnet is run in two areas")]
    PrefixInTwoAreas {
        /// The name of the first router.
        one: Name,
        /// The name of the second router, which may be the first one.
        two: Name,
        /// The subnet.
        dest: Prefix,
    },
    /// A border router has no up interface in area 0 (RFC 2328, section 3.3).
    #[error("a border router has no interface in area 0")]
    BorderWithoutBackbone {
        /// The name of the lowest such router.
        router: Name,
    },
    /// The costs of all up OSPF interfaces, the costs of ranges and the default costs of stub areas sum to
    /// more than `MOST_COST` (RFC 2328, appendix B).
    #[error("the OSPF costs sum to {sum}")]
    OspfCostSum {
        /// Their sum, or 2^64 - 1 where it is more.
        sum: u64,
    },
    /// The metrics of all up interfaces, once for each level that they run, sum to more than
    /// `MOST_PATH_METRIC` (RFC 5305, section 3).
    #[error("the IS-IS metrics sum to {sum}")]
    IsisMetricSum {
        /// Their sum, or 2^64 - 1 where it is more.
        sum: u64,
    },
    /// Two routers with IS-IS have one system id (RFC 1195).
    #[error("two routers have one system id")]
    SystemIdTwice {
        /// The name of the first router.
        one: Name,
        /// The name of the second router.
        two: Name,
    },
    /// Two routers have up interfaces in one area, and one of them alone has a stub line for it (RFC 2328,
    /// section 3.6).
    #[error("two routers differ on whether area {area} is a stub area")]
    StubMismatch {
        /// The name of the first router.
        one: Name,
        /// The name of the second router.
        two: Name,
        /// The area.
        area: u32,
    },
    /// Memory ran out.
    #[error("memory ran out")]
    OutOfMemory,
}

impl From<AllocError> for NetRefusal {
    ghost use Rattle.net_model.specs.declared.refusal.NetRefusal.{NetRefusal};
    ghost use Rattle.net_model.specs.declared.refusal.NetRefusal.TheVariants.{OutOfMemory};
    ghost use Rattle.std.specs.Prelude.{◌≡◌};

    ghost from_gives = { λ _ r. r ≡ OutOfMemory };

    fn from(_: AllocError) -> NetRefusal {
        NetRefusal::OutOfMemory
    }
}
