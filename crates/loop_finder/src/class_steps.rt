ghost use Rattle.std.specs.Prelude.{◌≡◌, ◌<◌, ◌↔◌, ℕ, Contains, IsTrue, length};
ghost use Rattle.std.specs.Bool.{OnFalse, OnTrue};
ghost use Rattle.igp_theory.specs.Forwarding.{MustForward};
ghost use Rattle.igp_theory.specs.Phases.{state_in};
ghost use Rattle.loop_finder.specs.Mixes.{mix_of, sample_of};
ghost use Rattle.loop_finder.specs.Parts.{IsPart};
ghost use Rattle.loop_finder.specs.steps.ClassSteps.{AreForwarders, FirstStuck, IsStuck, IsStuckIn, Moves, MovesIn, StepsBy, state_over};

use crate::class_hops::class_hops;
use crate::graph::StepGraph;
use crate::part::Part;
use crate::span::Span;
use rib_mix::{Mixed, Phase};
use route_core::RouteSource;
use std::marker::Model;

/// The steps of two states, for the addresses of one class: each router has the hops of both.
#[derive(Drop)]
pub(crate) struct ClassSteps<'s, 'm, O: RouteSource, N: RouteSource> {
    mixed: &'s Mixed<'m, O, N>,
    first: &'s [Phase],
    last: &'s [Phase],
    forwards: &'s [bool],
    atom: u32,
    /// Whether every router that has to pass packets on is known to have a step in both networks.
    moves: bool,
}

impl<'s, 'm, O: RouteSource, N: RouteSource> Model for ClassSteps<'s, 'm, O, N> {
    ghost use Rattle.loop_finder.specs.Mixes.{mix_of};
    ghost use Rattle.loop_finder.specs.steps.ClassSteps.{IsClassState, SourceState};

    ghost Value = { SourceState O N };

    ghost view = { λ x. record { mixture = x.mixed.now; first = x.first.now; last = x.last.now; forwards = x.forwards.now; atom = x.atom } };

    ghost invariant = { λ x. IsClassState (record {
      mixture = mix_of O.table N.table x.mixed.now;
      first = x.first.now;
      last = x.last.now;
      forwards = x.forwards.now;
      atom = x.atom;
    }) x.moves };
}

impl<'s, 'm, O: RouteSource, N: RouteSource> ClassSteps<'s, 'm, O, N> {
    /// The steps of two states for the class of a part, where it's known which routers have to pass its packets on.
    pub fn new(
        mixed: &'s Mixed<'m, O, N>,
        span: &'s Span<'s>,
        forwards: &'s [bool],
        part: &Part<'_>,
    ) -> ClassSteps<'s, 'm, O, N>
        requires part { IsPart (mix_of O.table N.table mixed.now) part.now }
        requires span { length span.now.first.now ≡ length mixed.now.net }
        requires many { length forwards.now ≡ length mixed.now.net }
        requires forwards { AreForwarders mixed.now.net (sample_of mixed.now.classes part.now.atom) forwards.now }
        ensures { result ≡ record { mixture = mixed.now; first = span.now.first.now; last = span.now.last.now; forwards = forwards.now; atom = part.now.atom } }
    {
        ClassSteps {
            mixed,
            first: span.first,
            last: span.last,
            forwards,
            atom: part.atom(),
            moves: part.moves(),
        }
    }

    /// The class.
    pub fn atom(&self) -> u32
        ensures { result ≡ self.now.atom }
    {
        self.atom
    }

    /// The routers that a router steps to in a phase.
    pub fn hops_in(&self, router: u32, phase: Phase) -> &[u32]
        requires { router < length self.now.mixture.net }
        ensures { (h : ℕ) → Contains result.now h ↔ StepsBy (state_over O.table N.table self.now) router phase h }
    {
        class_hops(self.mixed, self.atom, phase, self.forwards, router)
    }

    /// Whether a router steps to another in a phase.
    pub fn leads(&self, router: u32, phase: Phase, hop: u32) -> bool
        requires { router < length self.now.mixture.net }
        ensures { IsTrue result ↔ StepsBy (state_over O.table N.table self.now) router phase hop }
    {
        is_among(self.hops_in(router, phase), hop)
    }

    /// The lowest-numbered router that has to pass packets on and has no step in one of the states.
    pub fn first_stuck(&self) -> Option<u32>
        ensures { FirstStuck (state_over O.table N.table self.now) result }
    {
        if self.moves {
            return None;
        }
        for router in 0..self.mixed.net().routers() {
            if self.is_stuck(router) {
                return Some(router);
            }
        }
        None
    }

    /// Whether a router has to pass packets on and has no step in one of the states.
    fn is_stuck(&self, router: u32) -> bool
        requires { router < length self.now.mixture.net }
        ensures stuck { OnTrue result (IsStuck (state_over O.table N.table self.now) router) }
        ensures moves { OnFalse result (Moves (state_over O.table N.table self.now) router) }
    {
        self.is_stuck_in(router, self.first_phase(router))
            || self.is_stuck_in(router, self.last_phase(router))
    }

    /// Whether a router has to pass packets on and has no step in a phase.
    fn is_stuck_in(&self, router: u32, phase: Phase) -> bool
        requires { router < length self.now.mixture.net }
        ensures stuck { OnTrue result (IsStuckIn (state_over O.table N.table self.now) router phase) }
        ensures moves { OnFalse result (MovesIn (state_over O.table N.table self.now) router phase) }
    {
        if !self.must_forward(router) {
            return false;
        }
        self.hops_in(router, phase).is_empty()
    }

    /// Whether a router has to pass packets on.
    fn must_forward(&self, router: u32) -> bool
        requires { router < length self.now.mixture.net }
        ensures { IsTrue result ↔ MustForward self.now.mixture.net (sample_of self.now.mixture.classes self.now.atom) router }
    {
        self.forwards[router as usize]
    }

    /// The phase of a router in the first state.
    fn first_phase(&self, router: u32) -> Phase
        requires { router < length self.now.mixture.net }
        ensures { result ≡ state_in self.now.first router }
    {
        self.first[router as usize]
    }

    /// The phase of a router in the last state.
    fn last_phase(&self, router: u32) -> Phase
        requires { router < length self.now.mixture.net }
        ensures { result ≡ state_in self.now.last router }
    {
        self.last[router as usize]
    }
}

impl<'s, 'm, O: RouteSource, N: RouteSource> StepGraph for ClassSteps<'s, 'm, O, N> {
    ghost use Rattle.std.specs.Prelude.{length};
    ghost use Rattle.loop_finder.specs.steps.ClassSteps.{ClassStep, state_over};

    ghost size = { λ s. length s.mixture.net };

    ghost step = { λ s. ClassStep (state_over O.table N.table s) };

    fn size(&self) -> u32 {
        self.mixed.net().routers()
    }

    fn hops(&self, router: u32) -> (&[u32], &[u32]) {
        let first = self.first_phase(router);
        let last = self.last_phase(router);
        let hops = self.hops_in(router, first);
        if first == last {
            return (hops, &[]);
        }
        (hops, self.hops_in(router, last))
    }
}

/// Whether a router is among some.
pub(crate) fn is_among(routers: &[u32], router: u32) -> bool
    ensures { IsTrue result ↔ Contains routers.now router }
{
    routers.contains(&router)
}
