ghost use Rattle.std.specs.Prelude.{◌≡◌, ◌≤◌, ◌↔◌, ℕ, [], All, IfOk, IfSome, IsNone, length};
ghost use Rattle.igp_theory.specs.Forwarding.{MustForward};
ghost use Rattle.igp_theory.specs.Loops.{IsFault};
ghost use Rattle.igp_theory.specs.Migrations.{started};
ghost use Rattle.igp_theory.specs.LoopLaws.{IsFromStart};
ghost use Rattle.igp_theory.specs.Phases.{State, state_in};
ghost use Rattle.igp_theory.specs.States.{IsSound};
ghost use Rattle.igp_theory.specs.Timetables.{IsSoundThroughout};
ghost use Rattle.igp_theory.specs.WaveFaults.{IsTimesFault};
ghost use Rattle.order_core.specs.Rankings.{IsRanking, KeepsPairs};
ghost use Rattle.order_core.specs.declared.turn.Turn.{Turn};
ghost use Rattle.rib_mix.specs.Mixture.{migration_of};
ghost use Rattle.loop_finder.specs.Faults.{KeepsRing, told, told_fault};
ghost use Rattle.plan_theory.specs.Ranked.{CanRank, base_of, size_of};
ghost use Rattle.plan_theory.specs.Numbers.{AreNumbered};
ghost use Rattle.wave_oracle.specs.Nights.{night_move, night_times};

use crate::fill::fill_times;
use igp_theory::Phase;
use loop_finder::{ChangeWaves, Fault, Finder};
use order_core::Turn;
use plan_theory::{Items, base_pairs, number_count, number_turns};
use rib_mix::{Mixed, OutOfMemory};
use route_core::RouteSource;
use std::alloc::Global;
use std::marker::Model;

/// Finds the faults of rankings of a night, and of its states: what is ranked are routers, which start in any phases, or single
/// changes, where every router starts in `Old`.
///
/// All room that its calls need is made with it, so that none of them takes memory.
#[derive(Drop)]
pub struct NightFinder<'a, O: RouteSource, N: RouteSource> {
    mixed: &'a Mixed<'a, O, N>,
    finder: Finder<'a, O, N>,
    items: Items,
    /// The phase from which each router starts.
    start: Vec<Phase>,
    /// The pairs that every ranking keeps.
    base: Vec<(u32, u32)>,
    /// Room for the waves of a ranking.
    times: Vec<ChangeWaves>,
    /// The turns of a ring by their numbers.
    numbered: Vec<Turn>,
}

impl<'a, O: RouteSource, N: RouteSource> Model for NightFinder<'a, O, N> {
    ghost use Rattle.std.specs.Prelude.{vec_len};
    ghost use Rattle.std.specs.Vec.{vec_capacity};
    ghost use Rattle.wave_oracle.specs.Nights.{IsNightFinder, Night};

    ghost Value = { Night O N };

    ghost view = { λ x. record {
      mixture = x.mixed.now;
      items = x.items;
      start = x.start.items;
      ring = x.finder.ring;
      numbered = x.numbered.items;
    } };

    ghost invariant = { λ x. IsNightFinder (record {
      finding = x.finder;
      mixture = x.mixed.now;
      items = x.items;
      start = x.start.items;
      base = x.base.items;
      times = vec_len x.times;
      room = vec_capacity x.numbered;
    }) };
}

impl<'a, O: RouteSource, N: RouteSource> NightFinder<'a, O, N> {
    /// A finder over mixed forwarding, from the state that gives each router the phase at its place.
    pub fn new(
        alloc: Global,
        mixed: &'a Mixed<'a, O, N>,
        items: Items,
        start: &[Phase],
    ) -> Result<NightFinder<'a, O, N>, OutOfMemory>
        requires each { length start.now ≡ length mixed.now.net }
        requires few { size_of items (length mixed.now.net) ≤ 1000 }
        requires ranks { CanRank items (started (state_in start.now) (migration_of O.table N.table mixed.now)) }
        ensures mixture { IfOk result (λ night. night.mixture ≡ mixed.now) }
        ensures items { IfOk result (λ night. night.items ≡ items) }
        ensures start { IfOk result (λ night. night.start ≡ start.now) }
        ensures ring { IfOk result (λ night. night.ring ≡ []) }
    {
        let routers = mixed.net().routers();
        let once = ChangeWaves {
            first: 1,
            second: 1,
        };
        Ok(NightFinder {
            mixed,
            finder: Finder::from_start(alloc, mixed, start)?,
            items,
            start: Vec::from_slice(alloc, start)?,
            base: base_pairs(alloc, items, routers)?,
            times: vec![in alloc; once; routers as usize]?,
            numbered: Vec::with_capacity(alloc, routers as usize)?,
        })
    }

    /// How many numbers are ranked.
    pub fn size(&self) -> u32
        ensures { result ≡ size_of self.now.items (length self.now.mixture.net) }
    {
        number_count(self.items, self.mixed.net().routers())
    }

    /// The pairs that every ranking keeps.
    pub fn base(&self) -> &[(u32, u32)]
        ensures { result.now ≡ base_of self.now.items (length self.now.mixture.net) }
    {
        self.base.as_slice()
    }

    /// The number of the first wave, from 1, with an unsound state of the timetable that a ranking makes, with that wave's fault;
    /// none where the migration is sound throughout it.
    pub fn fault(&mut self, ranks: &[u32]) -> Option<(u32, Fault)>
        requires waves { IsRanking (size_of self.old.items (length self.old.mixture.net)) ranks.now }
        requires keeps { KeepsPairs ranks.now (base_of self.old.items (length self.old.mixture.net)) }
        ensures sound { IsNone result
            ↔ IsSoundThroughout (night_move O.table N.table self.old) (night_times O.table N.table self.old ranks.now) }
        ensures fault { IfSome result (λ found.
            IsTimesFault (night_move O.table N.table self.old) (night_times O.table N.table self.old ranks.now) found.0
            (told_fault found.1 self.new.ring)) }
        ensures ring { KeepsRing (told result) self.old.ring self.new.ring }
        ensures mixture { self.new.mixture ≡ self.old.mixture }
        ensures items { self.new.items ≡ self.old.items }
        ensures start { self.new.start ≡ self.old.start }
    {
        fill_times(self.items, self.start.as_slice(), ranks, &mut self.times);
        self.finder.times_fault(self.times.as_slice())
    }

    /// The fault of a state in which no router is in an earlier phase than at the start; none where it's sound.
    pub fn state_fault(&mut self, phases: &[Phase]) -> Option<Fault>
        requires each { length phases.now ≡ length self.old.mixture.net }
        requires from { IsFromStart (night_move O.table N.table self.old) (state_in phases.now) }
        ensures sound { IsNone result ↔ IsSound (night_move O.table N.table self.old) (state_in phases.now) }
        ensures fault { IfSome result (λ fault.
            IsFault (night_move O.table N.table self.old) (state_in phases.now) (told_fault fault self.new.ring)) }
        ensures mixture { self.new.mixture ≡ self.old.mixture }
        ensures items { self.new.items ≡ self.old.items }
        ensures start { self.new.start ≡ self.old.start }
    {
        self.finder.night_fault(phases)
    }

    /// The ring of the latest loop, with its tags by the start; empty before the first.
    pub fn ring(&self) -> &[Turn]
        ensures { result.now ≡ self.now.ring }
    {
        self.finder.ring()
    }

    /// Tells the turns of the latest loop, for this address, by the numbers that they have to name.
    pub(crate) fn number_ring(&mut self, address: u32)
        requires must { All (λ (turn : Turn). MustForward self.old.mixture.net address turn.router) self.old.ring }
        requires few { length self.old.ring ≤ length self.old.mixture.net }
        ensures numbered { AreNumbered self.old.items (night_move O.table N.table self.old) address self.old.ring self.new.numbered }
        ensures mixture { self.new.mixture ≡ self.old.mixture }
        ensures items { self.new.items ≡ self.old.items }
        ensures start { self.new.start ≡ self.old.start }
        ensures ring { self.new.ring ≡ self.old.ring }
    {
        number_turns(
            self.items,
            self.mixed,
            address,
            self.finder.ring(),
            &mut self.numbered,
        );
    }

    /// The turns that were told last by their numbers.
    pub(crate) fn numbered(&self) -> &[Turn]
        ensures { result.now ≡ self.now.numbered }
    {
        self.numbered.as_slice()
    }
}
