ghost use Rattle.std.specs.Prelude.{◌≡◌, ◌↔◌, ◌*◌, ◌≤◌, [], length, IfOk, IfSome, IsNone};
ghost use Rattle.igp_theory.specs.LoopLaws.{IsFromStart};
ghost use Rattle.igp_theory.specs.Loops.{IsFault, IsFirstFault};
ghost use Rattle.order_core.specs.Orders.{IsOrder};
ghost use Rattle.order_core.specs.Rankings.{IsRanking};
ghost use Rattle.igp_theory.specs.States.{IsSeamless, IsSound};
ghost use Rattle.igp_theory.specs.Phases.{all_old, state_in};
ghost use Rattle.igp_theory.specs.Timetables.{IsSoundThroughout, IsTimetable, router_times};
ghost use Rattle.igp_theory.specs.WaveFaults.{IsTimesFault};
ghost use Rattle.igp_theory.specs.Waves.{AreSeamlessWaves};
ghost use Rattle.rib_mix.specs.Mixture.{migration_of};
ghost use Rattle.loop_finder.specs.Faults.{KeepsRing, searched, told, told_fault};
ghost use Rattle.loop_finder.specs.Times.{times_in};

use crate::calm::Calm;
use crate::fault::Fault;
use crate::known::{is_sound_start, shared_states, sound_states};
use crate::order_fault::{order_fault, state_fault};
use crate::parts::parts_of;
use crate::pieces::pieces_of;
use crate::retag::{is_all_old, is_old_begun, tag_found};
use crate::subject::Subject;
use crate::times::{ChangeWaves, rank_waves};
use crate::watch::watch_of;
use crate::waves_fault::{fault_alone, times_fault};
use crate::work::Work;
use order_core::Turn;
use rib_mix::{Mixed, OutOfMemory, Phase};
use route_core::RouteSource;
use std::alloc::Global;
use std::marker::Model;

/// Finds the faults of states, orders and wave lists over mixed forwarding.
///
/// All room that its calls need is made with it, so that a finder that was made once decides every state,
/// every order, every wave list, and every timetable from its start. What is found of the latest order and of the
/// pieces of parts in the latest timetable is kept.
#[derive(Drop)]
pub struct Finder<'a, O: RouteSource, N: RouteSource> {
    /// What it searches.
    subject: Subject<'a, O, N>,
    /// What is known of the latest timetable.
    calm: Calm,
    /// Room for the timetable of a wave list.
    asked: Vec<ChangeWaves>,
    /// The latest order.
    order: Vec<u32>,
    /// How many of its states are sound, from the first on.
    sound: usize,
    /// The phase from which each router starts.
    start: Vec<Phase>,
    /// Whether it's the old one for each.
    from_old: bool,
    /// Whether the start is sound.
    begun: bool,
    work: Work,
}

impl<'a, O: RouteSource, N: RouteSource> Model for Finder<'a, O, N> {
    ghost use Rattle.loop_finder.specs.Mixes.{mix_of};
    ghost use Rattle.loop_finder.specs.Faults.{Finding};
    ghost use Rattle.loop_finder.specs.Findings.{IsFinding};

    ghost Value = { Finding O N };

    ghost view = { λ x. record { mixture = x.subject.mixed.now; start = x.start.items; ring = x.work.room.ring.items } };

    ghost invariant = { λ x. IsFinding (mix_of O.table N.table x.subject.mixed.now) (record {
      parts = x.subject.parts.items;
      pieces = x.subject.pieces;
      watch = x.subject.watch.items;
      calm = x.calm;
      order = x.order.items;
      sound = x.sound;
      start = x.start.items;
      from_old = x.from_old;
      begun = x.begun;
      asked = x.asked.items;
      work = x.work;
    }) };
}

impl<'a, O: RouteSource, N: RouteSource> Finder<'a, O, N> {
    /// A finder over mixed forwarding from the state in which every router is in its old phase, with no ring yet.
    pub fn new(alloc: Global, mixed: &'a Mixed<'a, O, N>) -> Result<Finder<'a, O, N>, OutOfMemory>
        ensures mixture { IfOk result (λ finder. finder.mixture ≡ mixed.now) }
        ensures ring { IfOk result (λ finder. finder.ring ≡ []) }
        ensures start { IfOk result (λ finder. state_in finder.start ≡ all_old) }
    {
        let start = vec![in alloc; Phase::Old; mixed.net().routers() as usize]?;
        Finder::over(alloc, mixed, start)
    }

    /// One from the state that gives each router the phase at its place.
    pub fn from_start(
        alloc: Global,
        mixed: &'a Mixed<'a, O, N>,
        start: &[Phase],
    ) -> Result<Finder<'a, O, N>, OutOfMemory>
        requires { length start.now ≡ length mixed.now.net }
        ensures mixture { IfOk result (λ finder. finder.mixture ≡ mixed.now) }
        ensures ring { IfOk result (λ finder. finder.ring ≡ []) }
        ensures start { IfOk result (λ finder. finder.start ≡ start.now) }
    {
        Finder::over(alloc, mixed, Vec::from_slice(alloc, start)?)
    }

    /// One from the state of some phases.
    fn over(
        alloc: Global,
        mixed: &'a Mixed<'a, O, N>,
        start: Vec<Phase>,
    ) -> Result<Finder<'a, O, N>, OutOfMemory>
        requires { length start.items ≡ length mixed.now.net }
        ensures mixture { IfOk result (λ finder. finder.mixture ≡ mixed.now) }
        ensures ring { IfOk result (λ finder. finder.ring ≡ []) }
        ensures start { IfOk result (λ finder. finder.start ≡ start.items) }
    {
        let routers = mixed.net().routers();
        let parts = parts_of(alloc, mixed)?;
        let pieces = pieces_of(alloc, parts.as_slice(), routers)?;
        let watch = watch_of(alloc, parts.as_slice(), routers)?;
        let calm = Calm::new(alloc, &pieces, routers)?;
        let once = ChangeWaves {
            first: 1,
            second: 1,
        };
        let asked = vec![in alloc; once; routers as usize]?;
        let order = vec![in alloc; 0; routers as usize]?;
        let mut work = Work::new(alloc, routers)?;
        let subject = Subject {
            mixed,
            parts,
            pieces,
            watch,
        };
        let from_old = is_all_old(start.as_slice());
        let begun = state_fault(&subject, start.as_slice(), &mut work.room).is_none();
        work.room.ring.clear();
        Ok(Finder {
            subject,
            calm,
            asked,
            order,
            sound: 0,
            start,
            from_old,
            begun,
            work,
        })
    }

    /// The fault of the state that gives each router the phase at its place; none where it's sound.
    pub fn state_fault(&mut self, phases: &[Phase]) -> Option<Fault>
        requires { length phases.now ≡ length self.old.mixture.net }
        ensures sound { IsNone result
            ↔ IsSound (migration_of O.table N.table self.old.mixture) (state_in phases.now) }
        ensures fault { IfSome result (λ fault.
            IsFault (migration_of O.table N.table self.old.mixture) (state_in phases.now)
            (told_fault fault self.new.ring)) }
        ensures ring { KeepsRing result self.old.ring self.new.ring }
        ensures mixture { self.new.mixture ≡ self.old.mixture }
        ensures start { self.new.start ≡ self.old.start }
    {
        if is_sound_start(self.begun, self.start.as_slice(), phases) {
            return None;
        }
        state_fault(&self.subject, phases, &mut self.work.room)
    }

    /// The fault of a state that no router is in an earlier phase of than at the start, with the tags of the ring by the start;
    /// none where it's sound.
    pub fn night_fault(&mut self, phases: &[Phase]) -> Option<Fault>
        requires many { length phases.now ≡ length self.old.mixture.net }
        requires from { IsFromStart (searched O.table N.table self.old) (state_in phases.now) }
        ensures sound { IsNone result ↔ IsSound (searched O.table N.table self.old) (state_in phases.now) }
        ensures fault { IfSome result (λ fault.
            IsFault (searched O.table N.table self.old) (state_in phases.now) (told_fault fault self.new.ring)) }
        ensures ring { KeepsRing result self.old.ring self.new.ring }
        ensures mixture { self.new.mixture ≡ self.old.mixture }
        ensures start { self.new.start ≡ self.old.start }
    {
        if is_sound_start(self.begun, self.start.as_slice(), phases) {
            return None;
        }
        let found = state_fault(&self.subject, phases, &mut self.work.room);
        let mixed = self.subject.mixed;
        tag_found(
            mixed,
            self.start.as_slice(),
            found,
            &mut self.work.room.ring,
        );
        found
    }

    /// The number of the first unsound state of an order, with that state's fault; none where the order is
    /// seamless.
    pub fn order_fault(&mut self, order: &[u32]) -> Option<(u32, Fault)>
        requires { IsOrder (length self.old.mixture.net) order.now }
        ensures seamless { IsNone result
            ↔ IsSeamless (migration_of O.table N.table self.old.mixture) order.now }
        ensures within { IfSome result (λ found. found.0 ≤ 2 * length order.now) }
        ensures fault { IfSome result (λ found.
            IsFirstFault (migration_of O.table N.table self.old.mixture) order.now found.0
            (told_fault found.1 self.new.ring)) }
        ensures ring { KeepsRing (told result) self.old.ring self.new.ring }
        ensures mixture { self.new.mixture ≡ self.old.mixture }
        ensures start { self.new.start ≡ self.old.start }
    {
        let known = shared_states(self.order.as_slice(), self.sound, order);
        let begun = is_old_begun(self.begun, self.from_old);
        let found = order_fault(&self.subject, begun, known, order, &mut self.work);
        self.sound = sound_states(found, order);
        self.order.copy_from_slice(order);
        found
    }

    /// The number, from 1, of the first wave with an unsound state of the wave list that gives each router the rank at
    /// its place, with that wave's fault; none where the wave list is seamless.
    pub fn waves_fault(&mut self, ranks: &[u32]) -> Option<(u32, Fault)>
        requires { IsRanking (length self.old.mixture.net) ranks.now }
        ensures seamless { IsNone result
            ↔ AreSeamlessWaves (migration_of O.table N.table self.old.mixture) ranks.now }
        ensures fault { IfSome result (λ found.
            IsTimesFault (migration_of O.table N.table self.old.mixture) (router_times all_old ranks.now) found.0
            (told_fault found.1 self.new.ring)) }
        ensures ring { KeepsRing (told result) self.old.ring self.new.ring }
        ensures mixture { self.new.mixture ≡ self.old.mixture }
        ensures start { self.new.start ≡ self.old.start }
    {
        let begun = is_old_begun(self.begun, self.from_old);
        rank_waves(ranks, &mut self.asked);
        let asked = self.asked.as_slice();
        times_fault(&self.subject, begun, asked, &mut self.calm, &mut self.work)
    }

    /// The number of the first wave with an unsound state of the timetable in which each router makes its changes in the
    /// waves at its place, with that wave's fault; none where the migration is sound throughout it. The tags of the ring are
    /// by the start.
    pub fn times_fault(&mut self, times: &[ChangeWaves]) -> Option<(u32, Fault)>
        requires many { length times.now ≡ length self.old.mixture.net }
        requires table { IsTimetable (length self.old.mixture.net) (state_in self.old.start) (times_in times.now) }
        ensures sound { IsNone result ↔ IsSoundThroughout (searched O.table N.table self.old) (times_in times.now) }
        ensures fault { IfSome result (λ found.
            IsTimesFault (searched O.table N.table self.old) (times_in times.now) found.0
            (told_fault found.1 self.new.ring)) }
        ensures ring { KeepsRing (told result) self.old.ring self.new.ring }
        ensures mixture { self.new.mixture ≡ self.old.mixture }
        ensures start { self.new.start ≡ self.old.start }
    {
        let begun = self.begun;
        let found = times_fault(&self.subject, begun, times, &mut self.calm, &mut self.work);
        let mixed = self.subject.mixed;
        let fault = fault_alone(found);
        tag_found(
            mixed,
            self.start.as_slice(),
            fault,
            &mut self.work.room.ring,
        );
        found
    }

    /// The ring of the latest loop, with its tags; empty before the first.
    pub fn ring(&self) -> &[Turn]
        ensures { result.now ≡ self.now.ring }
    {
        self.work.room.ring.as_slice()
    }
}
