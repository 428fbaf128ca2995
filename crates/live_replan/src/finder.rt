ghost use Rattle.std.specs.Prelude.{◌≡◌, ◌≤◌, ◌↔◌, [], IfOk, IfSome, IsNone, length};
ghost use Rattle.igp_theory.specs.Timetables.{IsSoundThroughout};
ghost use Rattle.igp_theory.specs.WaveFaults.{IsTimesFault};
ghost use Rattle.order_core.specs.Rankings.{IsRanking};
ghost use Rattle.loop_finder.specs.Faults.{KeepsRing, told, told_fault};
ghost use Rattle.live_replan.specs.RestNights.{RanksRest, rest_move, rest_times};

use igp_theory::Phase;
use loop_finder::Fault;
use order_core::Turn;
use plan_theory::Items;
use rib_mix::{Mixed, OutOfMemory};
use route_core::RouteSource;
use std::alloc::Global;
use std::marker::Model;
use wave_oracle::NightFinder;

/// Finds the faults of rankings of the routers, each with the changes that it hasn't made at a start.
///
/// All room that its calls need is made with it, so that none of them takes memory.
#[derive(Drop)]
pub struct RestFinder<'a, O: RouteSource, N: RouteSource> {
    mixed: &'a Mixed<'a, O, N>,
    /// The phase from which each router goes on.
    start: Vec<Phase>,
    night: NightFinder<'a, O, N>,
}

impl<'a, O: RouteSource, N: RouteSource> Model for RestFinder<'a, O, N> {
    ghost use Rattle.live_replan.specs.RestNights.{RanksRest, RestNight};

    ghost Value = { RestNight O N };

    ghost view = { λ x. record { mixture = x.mixed.now; start = x.start.items; turns = x.night.ring } };

    ghost invariant = { λ x. RanksRest x.mixed.now x.start.items x.night };
}

impl<'a, O: RouteSource, N: RouteSource> RestFinder<'a, O, N> {
    /// A finder over mixed forwarding from the state that gives each router the phase at its place, with no ring yet. The only
    /// error is want of memory.
    pub fn new(
        alloc: Global,
        mixed: &'a Mixed<'a, O, N>,
        start: &[Phase],
    ) -> Result<RestFinder<'a, O, N>, OutOfMemory>
        requires each { length start.now ≡ length mixed.now.net }
        requires few { length mixed.now.net ≤ 1000 }
        ensures mixture { IfOk result (λ finder. finder.mixture ≡ mixed.now) }
        ensures start { IfOk result (λ finder. finder.start ≡ start.now) }
        ensures ring { IfOk result (λ finder. finder.turns ≡ []) }
    {
        let night = NightFinder::new(alloc, mixed, Items::Routers, start)?;
        let start = Vec::from_slice(alloc, start)?;
        Ok(RestFinder {
            mixed,
            start,
            night,
        })
    }

    /// The number of the first wave, from 1, with an unsound state of the rest, with that wave's fault; none where each state
    /// after each prefix of each run of the rest is sound. A ranking is of all routers; those that are New at the start make no
    /// change in their wave.
    pub fn fault(&mut self, ranks: &[u32]) -> Option<(u32, Fault)>
        requires { IsRanking (length self.old.mixture.net) ranks.now }
        ensures sound { IsNone result ↔ IsSoundThroughout (rest_move O.table N.table self.old) (rest_times self.old ranks.now) }
        ensures fault { IfSome result (λ found.
            IsTimesFault (rest_move O.table N.table self.old) (rest_times self.old ranks.now) found.0
            (told_fault found.1 self.new.turns)) }
        ensures ring { KeepsRing (told result) self.old.turns self.new.turns }
        ensures mixture { self.new.mixture ≡ self.old.mixture }
        ensures start { self.new.start ≡ self.old.start }
    {
        self.night.fault(ranks)
    }

    /// The ring of the latest loop, with its tags by the start; empty before the first.
    pub fn ring(&self) -> &[Turn]
        ensures { result.now ≡ self.now.turns }
    {
        self.night.ring()
    }

    /// What is mixed.
    pub(crate) fn mixed(&self) -> &'a Mixed<'a, O, N>
        ensures { result.now ≡ self.now.mixture }
    {
        self.mixed
    }

    /// The start, and the finder of the night.
    pub(crate) fn into_night(self) -> (Vec<Phase>, NightFinder<'a, O, N>)
        ensures start { result.0.items ≡ self.entry.start }
        ensures night { RanksRest self.entry.mixture self.entry.start result.1 }
    {
        (self.start, self.night)
    }
}
