ghost use Rattle.std.specs.Prelude.{◌≡◌, ◌<◌, ◌≤◌, ◌*◌, ◌↔◌, ℕ, [], IfOk, IfSome, IsNone, length};
ghost use Rattle.igp_theory.specs.Timetables.{IsSoundThroughout, change_times};
ghost use Rattle.igp_theory.specs.WaveFaults.{IsTimesFault};
ghost use Rattle.order_core.specs.Rankings.{IsRanking, KeepsPairs};
ghost use Rattle.rib_mix.specs.Mixture.{migration_of};
ghost use Rattle.loop_finder.specs.Faults.{KeepsRing, told, told_fault};
ghost use Rattle.igp_theory.specs.Phases.{state_in};
ghost use Rattle.plan_theory.specs.Ranked.{change_base};
ghost use Rattle.two_pass.specs.ChangeNights.{RanksChanges};

use igp_theory::Phase;
use loop_finder::Fault;
use order_core::Turn;
use plan_theory::Items;
use rib_mix::{Mixed, OutOfMemory};
use route_core::RouteSource;
use std::alloc::Global;
use std::marker::Model;
use wave_oracle::NightFinder;

/// Finds the faults of rankings of single changes, where every router starts in `Old`.
///
/// All room that its calls need is made with it, so that none of them takes memory.
#[derive(Drop)]
pub struct TwoFinder<'a, O: RouteSource, N: RouteSource> {
    mixed: &'a Mixed<'a, O, N>,
    night: NightFinder<'a, O, N>,
}

impl<'a, O: RouteSource, N: RouteSource> Model for TwoFinder<'a, O, N> {
    ghost use Rattle.two_pass.specs.ChangeNights.{ChangeNight, RanksChanges};

    ghost Value = { ChangeNight O N };

    ghost view = { λ x. record { mixture = x.mixed.now; turns = x.night.ring } };

    ghost invariant = { λ x. RanksChanges x.mixed.now x.night };
}

impl<'a, O: RouteSource, N: RouteSource> TwoFinder<'a, O, N> {
    /// A finder over mixed forwarding, with no ring yet. The only error is want of memory.
    pub fn new(
        alloc: Global,
        mixed: &'a Mixed<'a, O, N>,
    ) -> Result<TwoFinder<'a, O, N>, OutOfMemory>
        requires { 2 * length mixed.now.net ≤ 1000 }
        ensures mixture { IfOk result (λ finder. finder.mixture ≡ mixed.now) }
        ensures ring { IfOk result (λ finder. finder.turns ≡ []) }
    {
        let start = old_phases(alloc, mixed.net().routers())?;
        let night = NightFinder::new(alloc, mixed, Items::Changes, start.as_slice())?;
        Ok(TwoFinder { mixed, night })
    }

    /// The number of the first wave, from 1, with an unsound state of the ranked changes, with that wave's fault; none where each
    /// state after each prefix of each of their runs is sound. A ranking is of all items, each router's first change before its
    /// second.
    pub fn fault(&mut self, ranks: &[u32]) -> Option<(u32, Fault)>
        requires waves { IsRanking (2 * length self.old.mixture.net) ranks.now }
        requires keeps { KeepsPairs ranks.now (change_base (length self.old.mixture.net)) }
        ensures sound { IsNone result
            ↔ IsSoundThroughout (migration_of O.table N.table self.old.mixture) (change_times ranks.now) }
        ensures fault { IfSome result (λ found.
            IsTimesFault (migration_of O.table N.table self.old.mixture) (change_times ranks.now) found.0
            (told_fault found.1 self.new.turns)) }
        ensures ring { KeepsRing (told result) self.old.turns self.new.turns }
        ensures mixture { self.new.mixture ≡ self.old.mixture }
    {
        self.night.fault(ranks)
    }

    /// The ring of the latest loop, by its routers; empty before the first.
    pub fn ring(&self) -> &[Turn]
        ensures { result.now ≡ self.now.turns }
    {
        self.night.ring()
    }

    /// What is mixed.
    pub(crate) fn mixed(&self) -> &'a Mixed<'a, O, N>
        ensures { result.now ≡ self.now.mixture }
    {
        self.mixed
    }

    /// The finder of the night.
    pub(crate) fn into_night(self) -> NightFinder<'a, O, N>
        ensures { RanksChanges self.entry.mixture result }
    {
        self.night
    }
}

/// The phase `Old` of so many routers. The only error is want of memory.
pub(crate) fn old_phases(alloc: Global, routers: u32) -> Result<Vec<Phase>, OutOfMemory>
    ensures count { IfOk result (λ phases. length phases.items ≡ routers) }
    ensures each { IfOk result (λ phases. (u : ℕ) → u < routers → state_in phases.items u ≡ Phase.Old) }
{
    let phases = vec![in alloc; Phase::Old; routers as usize]?;
    Ok(phases)
}
