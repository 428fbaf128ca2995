use net_addr::Name;
use std::alloc::AllocError;
use thiserror::Error;

/// Why two networks make no pair.
///
/// The kinds are looked at in this order, each for all routers before the next one, and of the routers of a kind the one of
/// the least name in byte order is carried. Want of memory may be the answer in place of any other.
#[derive(Debug, Drop, Error)]
pub enum PairRefusal {
    /// A router stands in one of the networks alone.
    #[error("a router is missing in one of the networks")]
    RouterMissing { name: Name },
    /// Its up interfaces differ in name, address, subnet, or in whether they run OSPF.
    #[error("the interfaces of a router differ")]
    InterfacesDiffer { name: Name },
    /// It has an IS-IS process, in either network.
    #[error("a router runs IS-IS")]
    HasIsis { name: Name },
    /// It has an OSPF process in one of the networks alone, or one of the same number in both.
    #[error("the OSPF processes of a router clash")]
    ProcessClash { name: Name },
    /// Its new OSPF process has another distance than `MOST_DISTANCE`.
    #[error("the new OSPF process of a router is not idle")]
    NotIdle { name: Name },
    /// Memory ran out.
    #[error("memory ran out")]
    OutOfMemory,
}

impl From<AllocError> for PairRefusal {
    ghost use Rattle.ospf_pair.specs.declared.refusal.PairRefusal.{PairRefusal};
    ghost use Rattle.ospf_pair.specs.declared.refusal.PairRefusal.TheVariants.{OutOfMemory};
    ghost use Rattle.std.specs.Prelude.{◌≡◌};

    ghost from_gives = { λ _ r. r ≡ OutOfMemory };

    fn from(_: AllocError) -> PairRefusal {
        PairRefusal::OutOfMemory
    }
}
