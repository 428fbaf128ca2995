ghost use Rattle.std.specs.Prelude.{◌≡◌, ℕ, ◌+◌, ◌-◌, ◌*◌, ◌<◌, ◌≤◌, ◌↔◌, ◌++◌, ◌∷◌, [], All, Contains, IfOk};
ghost use Rattle.std.specs.Prelude.{IsTrue, OnErr, OnOk, length, take};
ghost use Rattle.refutation_check.specs.WrongLines.{IsAssumedRound};
ghost use Rattle.refutation_check.specs.steps.Rings.{next_at};

use net_addr::OutOfMemory;
use std::alloc::Global;
use std::marker::Model;

/// Pairs of routers "u before v" that are assumed, one after another. A pair may be assumed twice, and pairs may have a
/// cycle. For each pair of routers it is counted how often it is assumed.
#[derive(Drop)]
pub(crate) struct Assumed {
    routers: u32,
    pairs: Vec<(u32, u32)>,
    counts: Vec<u64>,
}

impl Model for Assumed {
    ghost use Rattle.refutation_check.specs.steps.Assumed.{Assumptions};

    ghost Value = { Assumptions };

    ghost use Rattle.refutation_check.specs.steps.Assumed.{AreHeldCounts, assumptions_of};

    ghost view = { assumptions_of };

    ghost invariant = { AreHeldCounts };
}

impl Assumed {
    /// No pair among this many routers.
    pub(crate) fn new(alloc: Global, routers: u32) -> Result<Assumed, OutOfMemory>
        requires { routers ≤ 1000 }
        ensures routers { IfOk result (λ a. a.routers ≡ routers) }
        ensures pairs { IfOk result (λ a. a.pairs ≡ []) }
    {
        let each = routers as usize;
        Ok(Assumed {
            routers,
            pairs: Vec::new(alloc),
            counts: vec![in alloc; 0; each * each]?,
        })
    }

    /// Assumes one more pair.
    pub(crate) fn add(&mut self, before: u32, after: u32) -> Result<(), OutOfMemory>
        requires before_in { before < self.old.routers }
        requires after_in { after < self.old.routers }
        ensures ok { OnOk result (self.new ≡ record self.old { pairs = self.old.pairs ++ (before, after) ∷ [] }) }
        ensures err { OnErr result (self.new ≡ self.old) }
    {
        self.pairs.push((before, after))?;
        let place = place_of(self.routers, before, after);
        self.counts[place] += 1;
        Ok(())
    }

    /// Takes back the pair that was assumed last.
    pub(crate) fn take_back(&mut self)
        requires { 0 < length self.old.pairs }
        ensures routers { self.new.routers ≡ self.old.routers }
        ensures pairs { self.new.pairs ≡ take (length self.old.pairs - 1) self.old.pairs }
    {
        if let Some((before, after)) = self.pairs.pop() {
            let place = place_of(self.routers, before, after);
            self.counts[place] -= 1;
        }
    }

    /// Whether a pair is assumed.
    fn holds(&self, before: u32, after: u32) -> bool
        requires before_in { before < self.now.routers }
        requires after_in { after < self.now.routers }
        ensures { IsTrue result ↔ Contains self.now.pairs (before, after) }
    {
        self.counts[place_of(self.routers, before, after)] > 0
    }

    /// Whether each router of a cycle is assumed before the next one, and the last one before the first.
    pub(crate) fn holds_round(&self, cycle: &[u32]) -> bool
        requires { All (λ (u : ℕ). u < self.now.routers) cycle.now }
        ensures { IsTrue result ↔ IsAssumedRound self.now.pairs cycle.now }
    {
        for place in 0..cycle.len() {
            let next = next_router(cycle, place);
            if !self.holds(cycle[place], next) {
                return false;
            }
        }
        true
    }
}

/// The place of a pair in the table of counts: a row for each router that is before another.
fn place_of(routers: u32, before: u32, after: u32) -> usize
    requires few { routers ≤ 1000 }
    requires before_in { before < routers }
    requires after_in { after < routers }
    ensures value { result ≡ before * routers + after }
    ensures within { result < routers * routers }
{
    before as usize * routers as usize + after as usize
}

/// The router after a place of a ring, the first one after the last.
fn next_router(routers: &[u32], place: usize) -> u32
    requires { place < length routers.now }
    ensures { (d : ℕ) → result ≡ next_at routers.now place d }
{
    if place + 1 < routers.len() {
        routers[place + 1]
    } else {
        routers[0]
    }
}
