ghost use Rattle.std.specs.Prelude.{◌≡◌, ◌≢◌, ◌+◌, ◌-◌, ◌<◌, ◌≤◌, ◌↔◌, [], ◌∷◌, ◌++◌, length, take, IfOk, OnOk};
ghost use Rattle.std.specs.Prelude.{vec_len};
ghost use Rattle.order_core.specs.Pairs.{AreBelow, HasNoCycle, Leads};
ghost use Rattle.precedence_set.specs.LeastCycle.{IsLeastCycle};
ghost use Rattle.precedence_set.specs.Layers.{AreLayers, IsLayeredChain};
ghost use Rattle.order_core.specs.Rankings.{wave_count};

use crate::chaining::trace_chain;
use crate::graph::SuccessorGraph;
use crate::layering::{add_to_layers, count_layers, refresh_layers};
use crate::tracing::closed_cycle;
use link_trail::Links;
use std::alloc::{AllocError, Global};
use std::marker::Model;
use std::mem;

/// What came of a pair that was to be assumed.
#[derive(Clone, Copy, Debug, PartialEq, Eq)]
pub enum Added {
    /// It is assumed now.
    Kept,
    /// It would close a cycle, and isn't assumed.
    Closes,
}

/// Pairs of routers "u before v", assumed one after another and taken back in the reverse order. They
/// never have a cycle.
#[derive(Drop)]
pub struct Precedences {
    routers: u32,
    /// How many pairs are assumed: the first ones of `room`.
    count: usize,
    room: Vec<(u32, u32)>,
    /// The cycle of the latest pair that closed one: the first `cycle_count` routers of `cycle_room`.
    cycle_count: usize,
    cycle_room: Vec<u32>,
    /// For each router the numbers of the pairs from it, in order: a move for each pair.
    successors: Links,
    /// The layers of the pairs, where they aren't stale.
    layers: Vec<u32>,
    stale: bool,
    /// Room to work in: two numbers and a mark for each router.
    counts: Vec<u32>,
    order: Vec<u32>,
    marks: Vec<bool>,
}

impl Model for Precedences {
    ghost use Rattle.precedence_set.specs.Assumed.{Assumed};

    ghost Value = { Assumed };

    ghost use Rattle.precedence_set.specs.Held.{assumed_of, IsSettled};

    ghost view = { assumed_of };

    ghost invariant = { IsSettled };
}

impl Precedences {
    /// No pair among this many routers.
    pub fn new(alloc: Global, routers: u32) -> Result<Precedences, AllocError>
        requires { routers ≤ 1000 }
        ensures routers { IfOk result (λ p. p.routers ≡ routers) }
        ensures pairs { IfOk result (λ p. p.pairs ≡ []) }
        ensures cycle { IfOk result (λ p. p.cycle ≡ []) }
    {
        let each = routers as usize;
        Ok(Precedences {
            routers,
            count: 0,
            room: Vec::new(alloc),
            cycle_count: 0,
            cycle_room: vec![in alloc; 0; each]?,
            successors: Links::new(alloc, routers, 0)?,
            layers: vec![in alloc; 0; each]?,
            stale: true,
            counts: vec![in alloc; 0; each]?,
            order: vec![in alloc; 0; each]?,
            marks: vec![in alloc; false; each]?,
        })
    }

    /// Makes room for so many more pairs.
    pub fn reserve(&mut self, pairs: u32) -> Result<(), AllocError>
        requires { length self.old.pairs + pairs ≤ 1000000 }
        ensures room { OnOk result (pairs ≤ self.new.spare) }
        ensures no_less { self.old.spare ≤ self.new.spare }
        ensures same { self.new ≡ record self.old { spare = self.new.spare } }
    {
        let wanted = self.count + pairs as usize;
        widen(&mut self.successors, &mut self.room, wanted)
    }

    /// Assumes "u before v", unless that would close a cycle: then only `cycle` changes. Takes time of the routers
    /// that v reaches and of the pairs from them, where no cycle is closed.
    pub fn add(&mut self, u: u32, v: u32) -> Added
        requires u_in { u < self.old.routers }
        requires v_in { v < self.old.routers }
        requires differ { u ≢ v }
        requires room { 1 ≤ self.old.spare }
        ensures closes { (result ≡ Added.Closes) ↔ Leads self.old.pairs v u }
        ensures kept { result ≡ Added.Kept
            → self.new ≡ record self.old { pairs = self.old.pairs ++ (u, v) ∷ []; spare = self.old.spare - 1 } }
        ensures same { result ≡ Added.Closes → self.new ≡ record self.old { cycle = self.new.cycle } }
        ensures cycle { result ≡ Added.Closes → IsLeastCycle self.old.pairs u v self.new.cycle }
    {
        let graph = SuccessorGraph {
            successors: &self.successors,
            pairs: &self.room[..self.count],
        };
        match closed_cycle(
            &graph,
            (u, v),
            &mut self.marks,
            &mut self.counts,
            &mut self.order,
        ) {
            Some(count) => {
                mem::swap(&mut self.cycle_room, &mut self.order);
                self.cycle_count = count;
                Added::Closes
            }
            None => {
                self.stale = add_to_layers(&self.successors, &mut self.layers, self.stale, u, v);
                self.successors.link(u, self.count as u32);
                self.room[self.count] = (u, v);
                self.count += 1;
                Added::Kept
            }
        }
    }

    /// The cycle of the latest pair that closed one; empty before the first.
    pub fn cycle(&self) -> &[u32]
        ensures { result.now ≡ self.now.cycle }
    {
        &self.cycle_room[..self.cycle_count]
    }

    /// How many pairs are assumed.
    pub fn mark(&self) -> u32
        ensures { result ≡ length self.now.pairs }
    {
        self.count as u32
    }

    /// Takes back all pairs but the first `mark`; there is room for them again.
    pub fn undo_to(&mut self, mark: u32)
        requires { mark ≤ length self.old.pairs }
        ensures { self.new ≡ record self.old {
          pairs = take mark self.old.pairs;
          spare = self.old.spare + (length self.old.pairs - mark);
        } }
    {
        if mark as usize == self.count {
            return;
        }
        self.successors.undo_to(mark);
        self.count = mark as usize;
        self.stale = true;
    }

    /// Writes the layer of each router: 0 without a predecessor, else one more than the greatest layer of its
    /// predecessors. How many layers there are. Takes time of the pairs and routers; of the routers alone, where
    /// each pair since the latest call moved at most its second router, and none was taken back.
    pub fn layers(&mut self, out: &mut [u32]) -> u32
        requires { length out.old ≡ self.old.routers }
        ensures layers { AreLayers self.old.routers self.old.pairs out.new }
        ensures count { result ≡ wave_count out.new }
        ensures same { self.new ≡ self.old }
        ensures acyclic { HasNoCycle self.old.pairs }
        ensures below { AreBelow self.old.routers self.old.pairs }
    {
        let graph = SuccessorGraph {
            successors: &self.successors,
            pairs: &self.room[..self.count],
        };
        refresh_layers(
            &graph,
            &mut self.counts,
            &mut self.order,
            &mut self.layers,
            &mut self.stale,
        );
        out.copy_from_slice(&self.layers);
        count_layers(out)
    }

    /// Writes the chain of the layers into the first places: the lowest-numbered router of the last layer, and
    /// before each router its lowest-numbered predecessor in the layer before. How long the chain is.
    pub fn chain(&mut self, out: &mut [u32]) -> u32
        requires { length out.old ≡ self.old.routers }
        ensures chain { IsLayeredChain self.old.routers self.old.pairs (take result out.new) }
        ensures within { result ≤ length out.new }
        ensures same { self.new ≡ self.old }
    {
        let graph = SuccessorGraph {
            successors: &self.successors,
            pairs: &self.room[..self.count],
        };
        refresh_layers(
            &graph,
            &mut self.counts,
            &mut self.order,
            &mut self.layers,
            &mut self.stale,
        );
        let count = count_layers(&self.layers);
        trace_chain(graph.pairs, &self.layers, count, &mut self.counts, out);
        count
    }
}

/// Makes room for so many pairs at least, in the vector of pairs last.
fn widen(
    successors: &mut Links,
    room: &mut Vec<(u32, u32)>,
    wanted: usize,
) -> Result<(), AllocError>
    requires nodes { vec_len room.old ≤ successors.old.nodes }
    requires spare { vec_len room.old ≤ length successors.old.trail + successors.old.spare }
    requires standing { length successors.old.trail ≤ wanted }
    requires bound { vec_len room.old ≤ 1000000 }
    requires small { wanted ≤ 1000000 }
    ensures lists { successors.new.lists ≡ successors.old.lists }
    ensures trail { successors.new.trail ≡ successors.old.trail }
    ensures nodes { vec_len room.new ≤ successors.new.nodes }
    ensures spare { vec_len room.new ≤ length successors.new.trail + successors.new.spare }
    ensures bound { vec_len room.new ≤ 1000000 }
    ensures enough { OnOk result (wanted ≤ vec_len room.new) }
    ensures no_less { vec_len room.old ≤ vec_len room.new }
    ensures kept { take (vec_len room.old) room.new.items ≡ room.old.items }
{
    successors.widen(wanted as u32)?;
    successors.reserve(wanted as u32 - successors.mark())?;
    while room.len() < wanted {
        room.push((0, 0))?;
    }
    Ok(())
}
