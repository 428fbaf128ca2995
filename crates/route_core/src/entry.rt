ghost use Rattle.std.specs.Prelude.{◌≡◌, ◌∷◌, []};

use std::marker::Model;

/// The routers that an entry forwards to, by number: every equal-cost next hop.
#[derive(Debug, Drop)]
pub struct Hops {
    list: HopList,
}

/// One hop, which takes no memory of its own, or a list of any length.
#[derive(Debug, Drop)]
enum HopList {
    One(u32),
    Several(Vec<u32>),
}

impl Model for Hops {
    ghost use Rattle.std.specs.Prelude.{List, ℕ};
    ghost use Rattle.route_core.specs.HopLists.{listed_hops};

    ghost Value = { List ℕ };

    ghost view = { λ x. listed_hops x.list };
}

impl Hops {
    /// One hop alone.
    pub fn from_one(hop: u32) -> Hops
        ensures { result ≡ hop ∷ [] }
    {
        Hops {
            list: HopList::One(hop),
        }
    }

    /// The hops of a vector, in its order.
    pub fn from_vec(all: Vec<u32>) -> Hops
        ensures { result ≡ all.items }
    {
        Hops {
            list: HopList::Several(all),
        }
    }

    /// The hops as a slice.
    pub fn as_slice(&self) -> &[u32]
        ensures { result.now ≡ self.now }
    {
        match &self.list {
            HopList::One(hop) => std::slice::from_ref(hop),
            HopList::Several(all) => all.as_slice(),
        }
    }
}

/// What a route table says of a prefix.
#[derive(Debug, Drop)]
pub enum Entry {
    /// Packets go to each of these next hops.
    Via(Hops),
    /// Packets are dropped: the entry of an active range (RFC 2328, section 11.1).
    Discard,
}
