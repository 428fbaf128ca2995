ghost use Rattle.std.specs.Prelude.{◌≡◌, ◌+◌, ◌<◌, ◌≤◌, ◌^◌, ℕ, length, vec_len};
ghost use Rattle.igp_theory.specs.Phases.{State, state_in};
ghost use Rattle.order_core.specs.Rankings.{rank_of};
ghost use Rattle.loop_finder.specs.Times.{times_in};
ghost use Rattle.plan_theory.specs.Ranked.{size_of};
ghost use Rattle.wave_oracle.specs.steps.RankedTimes.{times_from, waves_by};

use igp_theory::Phase;
use loop_finder::ChangeWaves;
use plan_theory::Items;

/// Fills in the waves of each router's changes by a ranking, where each router starts in the phase at its place.
pub(crate) fn fill_times(items: Items, start: &[Phase], ranks: &[u32], times: &mut Vec<ChangeWaves>)
    requires many { vec_len times.old ≡ length start.now }
    requires each { length ranks.now ≡ size_of items (length start.now) }
    requires few { (k : ℕ) → rank_of ranks.now k + 1 < 2 ^ 32 }
    ensures times { times_in times.new.items ≡ times_from items (state_in start.now) ranks.now }
    ensures many { vec_len times.new ≡ vec_len times.old }
{
    for router in 0..start.len() {
        times[router] = waves_at(items, start[router], ranks, router);
    }
}

/// The waves of the changes of a router that starts in this phase.
fn waves_at(items: Items, start: Phase, ranks: &[u32], router: usize) -> ChangeWaves
    requires within { size_of items (router + 1) ≤ length ranks.now }
    requires few { (k : ℕ) → rank_of ranks.now k + 1 < 2 ^ 32 }
    ensures { (state : State) → state router ≡ start → result ≡ waves_by (times_from items state ranks.now) router }
{
    match items {
        Items::Routers => router_waves(start, ranks, router),
        Items::Changes => change_waves(ranks, router),
    }
}

/// The waves of the changes of a ranked router.
fn router_waves(start: Phase, ranks: &[u32], router: usize) -> ChangeWaves
    requires router { router < length ranks.now }
    requires few { rank_of ranks.now router + 1 < 2 ^ 32 }
    ensures { (state : State) → state router ≡ start → result ≡ waves_by (times_from Items.Routers state ranks.now) router }
{
    let wave = ranks[router] + 1;
    match start {
        Phase::Old => ChangeWaves {
            first: wave,
            second: wave,
        },
        Phase::Middle => ChangeWaves {
            first: 0,
            second: wave,
        },
        Phase::New => ChangeWaves {
            first: 0,
            second: 0,
        },
    }
}

/// The waves of a router's ranked changes.
fn change_waves(ranks: &[u32], router: usize) -> ChangeWaves
    requires router { router + router + 1 < length ranks.now }
    requires few { (k : ℕ) → rank_of ranks.now k + 1 < 2 ^ 32 }
    ensures { (state : State) → result ≡ waves_by (times_from Items.Changes state ranks.now) router }
{
    ChangeWaves {
        first: ranks[router + router] + 1,
        second: ranks[router + router + 1] + 1,
    }
}
