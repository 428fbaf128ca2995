ghost use Rattle.std.specs.Prelude.{◌≡◌, ◌+◌, ◌*◌, ◌⊎◌, ◌↔◌, ◌≤◌, ◌<◌, ◌^◌, ℕ, All, IsTrue, length};
ghost use Rattle.igp_theory.specs.Changes.{second};
ghost use Rattle.igp_theory.specs.Timetables.{state_before, router_times};
ghost use Rattle.igp_theory.specs.Phases.{all_old};
ghost use Rattle.order_core.specs.Rankings.{rank_of};
ghost use Rattle.loop_finder.specs.Times.{phase_before, times_in};
ghost use Rattle.loop_finder.specs.steps.Times.{AreMovedFrom, IsMovedFrom};
ghost use Rattle.loop_finder.specs.steps.WaveStarts.{BeginWave};

use rib_mix::Phase;

/// The waves in which a router makes its two changes, counted from 1; 0 stands for a change that is made at the start.
#[derive(Clone, Copy, Debug, PartialEq, Eq)]
pub struct ChangeWaves {
    /// The wave of its first change.
    pub first: u32,
    /// The wave of its second change.
    pub second: u32,
}

impl ChangeWaves {
    /// The phase in which the router begins a wave.
    pub(crate) fn begins(self, wave: u32) -> Phase
        ensures { result ≡ phase_before self wave }
    {
        if self.second < wave {
            Phase::New
        } else if self.first < wave {
            Phase::Middle
        } else {
            Phase::Old
        }
    }

    /// The phase in which the router ends a wave.
    pub(crate) fn ends(self, wave: u32) -> Phase
        ensures { result ≡ phase_before self (wave + 1) }
    {
        if self.second <= wave {
            Phase::New
        } else if self.first <= wave {
            Phase::Middle
        } else {
            Phase::Old
        }
    }

    /// Whether the router makes a change in a wave.
    pub(crate) fn changes_in(self, wave: u32) -> bool
        ensures { IsTrue result ↔ ((self.first ≡ wave) ⊎ (self.second ≡ wave)) }
    {
        self.first == wave || self.second == wave
    }
}

/// The least of the waves that a router's changes left or came to.
pub(crate) fn least_moved(was: ChangeWaves, now: ChangeWaves) -> u32
    ensures { AreMovedFrom result was now }
{
    least_apart(was.first, now.first).min(least_apart(was.second, now.second))
}

/// The lesser of two waves, where they aren't one.
fn least_apart(was: u32, now: u32) -> u32
    ensures { IsMovedFrom result was now }
{
    if was == now { u32::MAX } else { was.min(now) }
}

/// The waves of ranked routers: each makes both changes in its wave.
pub(crate) fn rank_waves(ranks: &[u32], times: &mut Vec<ChangeWaves>)
    requires many { length times.old.items ≡ length ranks.now }
    requires few { (u : ℕ) → rank_of ranks.now u + 1 < 2 ^ 32 }
    ensures times { times_in times.new.items ≡ router_times all_old ranks.now }
    ensures many { length times.new.items ≡ length ranks.now }
{
    for router in 0..ranks.len() {
        let wave = ranks[router] + 1;
        times[router] = ChangeWaves {
            first: wave,
            second: wave,
        };
    }
}

/// The phases in which the routers begin a wave.
pub(crate) fn begin_wave(phases: &mut Vec<Phase>, times: &Vec<ChangeWaves>, wave: u32)
    requires { length phases.old.items ≡ length times.now.items }
    ensures phases { BeginWave (length times.now.items) (times_in times.now.items) wave phases.new.items }
    ensures many { length phases.new.items ≡ length times.now.items }
{
    for router in 0..times.len() {
        phases[router] = times[router].begins(wave);
    }
}

/// The phases in which they end it.
pub(crate) fn end_wave(phases: &mut Vec<Phase>, times: &Vec<ChangeWaves>, wave: u32)
    requires { length phases.old.items ≡ length times.now.items }
    ensures phases { BeginWave (length times.now.items) (times_in times.now.items) (wave + 1) phases.new.items }
    ensures many { length phases.new.items ≡ length times.now.items }
{
    for router in 0..times.len() {
        phases[router] = times[router].ends(wave);
    }
}

/// The last wave in which some router makes its second change, and the first of all where there is none.
pub(crate) fn last_wave(times: &Vec<ChangeWaves>) -> u32
    ensures some { 1 ≤ result }
    ensures last { (u : ℕ) → u < length times.now.items → times_in times.now.items (second u) ≤ result }
{
    let mut last = 1;
    for waves in times {
        last = last.max(waves.second);
    }
    last
}
