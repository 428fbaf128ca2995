ghost use Rattle.std.specs.Prelude.{◌≡◌, ◌<◌, ◌↔◌, ◌⊎◌, ℕ, IfOk, OnOk, MatchOption, Contains};
ghost use Rattle.walk_core.specs.steps.BestOver.{least_cost_of};

use crate::union::{push_below, put_in_order};
use crate::{LeastWalks, OutOfMemory};
use std::alloc::Global;

/// An offer of a route: the vertex that it is made at, and the cost that it asks there.
#[derive(Clone, Copy, Debug, PartialEq, Eq)]
pub struct Offer {
    /// The vertex that it is made at.
    pub at: u32,
    /// The cost that it asks.
    pub asks: u64,
}

impl LeastWalks {
    ghost use Rattle.walk_core.specs.BestOffers.{AreInRange, FitsTotal, IsBestTotal, NoneTotals, AreHopsTowards, total_towards};
    ghost use Rattle.walk_core.specs.steps.BestOver.{IsHopOver};

    /// What the best of some offers costs at the root, and `None` where none is reached.
    pub fn best_cost(&self, offers: &[Offer]) -> Option<u64>
        requires { AreInRange self.now offers.now }
        ensures { MatchOption result (NoneTotals self.now offers.now) (IsBestTotal self.now offers.now) }
    {
        let mut best = None;
        for offer in offers {
            best = least_of(best, self.total(offer));
        }
        best
    }

    /// The first hops below `count` towards the offers that cost this at the root, in ascending order.
    pub fn hops_towards(
        &self,
        alloc: Global,
        offers: &[Offer],
        cost: u64,
        count: u32,
    ) -> Result<Vec<u32>, OutOfMemory>
        requires { AreInRange self.now offers.now }
        ensures { IfOk result (λ hops. AreHopsTowards self.now offers.now cost count hops.items) }
    {
        let mut hops = Vec::new(alloc);
        for offer in offers {
            self.push_hops(&mut hops, offer, cost, count)?;
        }
        put_in_order(&mut hops);
        Ok(hops)
    }

    /// Adds the first hops below `count` towards an offer, if it costs this at the root.
    fn push_hops(
        &self,
        hops: &mut Vec<u32>,
        offer: &Offer,
        cost: u64,
        count: u32,
    ) -> Result<(), OutOfMemory>
        requires { FitsTotal self.now offer.now }
        ensures { OnOk result ((h : ℕ) → Contains hops.new.items h ↔ (Contains hops.old.items h ⊎ ((h < count) × IsHopOver self.now offer.now cost h))) }
    {
        let Some(total) = self.total(offer) else {
            return Ok(());
        };
        if total != cost {
            return Ok(());
        }
        push_below(hops, self.hops_to(offer.at), count)
    }

    /// What an offer costs at the root in all, and `None` where it isn't reached.
    fn total(&self, offer: &Offer) -> Option<u64>
        requires { FitsTotal self.now offer.now }
        ensures { result ≡ total_towards self.now offer.now }
    {
        let distance = self.distance(offer.at)?;
        Some(distance + offer.asks)
    }
}

/// The least of two costs, of which either may be missing.
fn least_of(one: Option<u64>, other: Option<u64>) -> Option<u64>
    ensures { result ≡ least_cost_of one other }
{
    match (one, other) {
        (Some(x), Some(y)) => Some(x.min(y)),
        (Some(x), None) => Some(x),
        (None, cost) => cost,
    }
}
