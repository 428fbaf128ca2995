ghost use Rattle.std.specs.Prelude.{◌≡◌, ◌≢◌, ◌-◌, ◌<◌, ◌≤◌, ◌∷◌, [], ◌++◌, length, take, vec_len, IfOk, IfSome, IfNone};
ghost use Rattle.order_core.specs.Pairs.{Leads};
ghost use Rattle.precedence_set.specs.Layers.{IsLayeredChain};
ghost use Rattle.precedence_set.specs.LeastCycle.{IsLeastCycle};
ghost use Rattle.order_search.specs.Meanings.{IsBase};
ghost use Rattle.order_search.specs.Places.{IsLayered};
ghost use Rattle.order_search.specs.steps.Waiting.{place_at};

use crate::child::Child;
use crate::found::Pairs;
use crate::tree::Cycle;
use precedence_set::{Added, Precedences};
use std::alloc::{AllocError, Global};
use std::marker::Model;

/// The pairs that are assumed where the search stands: a base, and then one for each branch above.
#[derive(Drop)]
pub(crate) struct Assumptions {
    held: Precedences,
    pairs: Vec<(u32, u32)>,
}

impl Model for Assumptions {
    ghost use Rattle.std.specs.Prelude.{◌≡◌};
    ghost use Rattle.order_search.specs.steps.Waiting.{Standing};

    ghost Value = { Standing };

    ghost view = { λ a. record { routers = a.held.routers; pairs = a.held.pairs } };

    ghost invariant = { λ a. a.pairs.items ≡ a.held.pairs };
}

impl Assumptions {
    /// The pairs of a base of so many routers.
    pub(crate) fn new(
        alloc: Global,
        routers: u32,
        base: &[(u32, u32)],
    ) -> Result<Assumptions, AllocError>
        requires few { routers ≤ 1000 }
        requires base { IsBase routers base.now }
        ensures routers { IfOk result (λ a. a.routers ≡ routers) }
        ensures pairs { IfOk result (λ a. a.pairs ≡ base.now) }
    {
        let mut held = Precedences::new(alloc, routers)?;
        held.reserve(base.len() as u32)?;
        keep_all(&mut held, base);
        Ok(Assumptions {
            held,
            pairs: Vec::from_slice(alloc, base)?,
        })
    }

    /// How many pairs are assumed.
    pub(crate) fn count(&self) -> u32
        ensures { result ≡ length self.now.pairs }
    {
        self.held.mark()
    }

    /// Writes the layered list of the pairs.
    pub(crate) fn layers(&mut self, ranks: &mut [u32])
        requires { length ranks.old ≡ self.old.routers }
        ensures layered { IsLayered self.old.routers self.old.pairs ranks.new }
        ensures same { self.new ≡ self.old }
    {
        self.held.layers(ranks);
    }

    /// Takes back what isn't above the child, and assumes its pair, unless that closes a cycle: then it gives
    /// that cycle.
    pub(crate) fn assume(
        &mut self,
        alloc: Global,
        child: Child,
    ) -> Result<Option<Cycle>, AllocError>
        requires few { child.above < 1000000 }
        requires within { child.above ≤ length self.old.pairs }
        requires before_in { child.before < self.old.routers }
        requires after_in { child.after < self.old.routers }
        requires differ { child.before ≢ child.after }
        ensures routers { self.new.routers ≡ self.old.routers }
        ensures place { IfOk result (λ closed. IfNone closed (self.new.pairs ≡ place_at self.old.pairs child)) }
        ensures apart { IfOk result (λ closed. IfNone closed (¬ Leads (take child.above self.old.pairs) child.after child.before)) }
        ensures back { IfOk result (λ closed. IfSome closed (λ _. self.new.pairs ≡ take child.above self.old.pairs)) }
        ensures cycle { IfOk result (λ closed. IfSome closed (IsLeastCycle (take child.above self.old.pairs) child.before child.after)) }
    {
        self.held.undo_to(child.above);
        self.pairs.truncate(child.above as usize);
        self.held.reserve(1)?;
        self.pairs.push((child.before, child.after))?;
        match self.held.add(child.before, child.after) {
            Added::Kept => Ok(None),
            Added::Closes => {
                self.pairs.truncate(child.above as usize);
                let cycle = Vec::from_slice(alloc, self.held.cycle())?;
                Ok(Some(Cycle::from_vec(cycle)))
            }
        }
    }

    /// The chain of the pairs, in room for all routers.
    pub(crate) fn chain(&mut self, mut room: Vec<u32>) -> Cycle
        requires { vec_len room ≡ self.old.routers }
        ensures chain { IsLayeredChain self.old.routers self.old.pairs result }
        ensures same { self.new ≡ self.old }
    {
        let count = self.held.chain(&mut room);
        room.truncate(count as usize);
        Cycle::from_vec(room)
    }

    /// The pairs themselves.
    pub(crate) fn into_pairs(self) -> Pairs
        ensures { result ≡ self.pairs }
    {
        Pairs::from_vec(self.pairs)
    }
}

/// Assumes the pairs of a base, where none is assumed yet.
fn keep_all(held: &mut Precedences, base: &[(u32, u32)])
    requires bare { held.old.pairs ≡ [] }
    requires base { IsBase held.old.routers base.now }
    requires room { length base.now ≤ held.old.spare }
    ensures routers { held.new.routers ≡ held.old.routers }
    ensures pairs { held.new.pairs ≡ base.now }
{
    for i in 0..base.len() {
        let (before, after) = base[i];
        keep(held, before, after);
    }
}

/// Assumes a pair that closes no cycle.
fn keep(held: &mut Precedences, before: u32, after: u32)
    requires before_in { before < held.old.routers }
    requires after_in { after < held.old.routers }
    requires differ { before ≢ after }
    requires apart { ¬ Leads held.old.pairs after before }
    requires room { 1 ≤ held.old.spare }
    ensures { held.new ≡ record held.old { pairs = held.old.pairs ++ (before, after) ∷ []; spare = held.old.spare - 1 } }
{
    match held.add(before, after) {
        Added::Kept => {}
        Added::Closes => unreachable!(),
    }
}
