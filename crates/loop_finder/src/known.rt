ghost use Rattle.std.specs.Prelude.{◌≡◌, ◌+◌, ◌*◌, ◌<◌, ◌≤◌, ℕ, MatchOption, length, slice_index, true};
ghost use Rattle.std.specs.Bool.{OnTrue};
ghost use Rattle.igp_theory.specs.Phases.{state_in};
ghost use Rattle.igp_theory.specs.States.{state_of};

use crate::fault::Fault;
use rib_mix::Phase;

/// Whether a state is the start, of which `begun` tells that it's sound.
pub(crate) fn is_sound_start(begun: bool, start: &[Phase], phases: &[Phase]) -> bool
    requires { length start.now ≡ length phases.now }
    ensures begun { OnTrue result (begun ≡ true) }
    ensures same { OnTrue result (state_in start.now ≡ state_in phases.now) }
{
    begun && are_same(start, phases)
}

/// Whether two states of as many routers are the same.
fn are_same(one: &[Phase], other: &[Phase]) -> bool
    requires { length one.now ≡ length other.now }
    ensures { OnTrue result (state_in one.now ≡ state_in other.now) }
{
    for place in 0..one.len() {
        if one[place] != other[place] {
            return false;
        }
    }
    true
}

/// How many states from the first on an order shares with another of as many routers, of whose states so many are asked
/// about.
pub(crate) fn shared_states(kept: &[u32], states: usize, order: &[u32]) -> usize
    requires { length kept.now ≡ length order.now }
    ensures within { result ≤ states }
    ensures same { (k u : ℕ) → k < result → state_of order.now k u ≡ state_of kept.now k u }
{
    let places = shared_places(kept, order);
    states.min(places.saturating_mul(2).saturating_add(1))
}

/// How many places from the first on two orders share.
fn shared_places(one: &[u32], other: &[u32]) -> usize
    requires { length one.now ≡ length other.now }
    ensures within { result ≤ length other.now }
    ensures same { (k : ℕ) → k < result → slice_index other.now k ≡ slice_index one.now k }
{
    for place in 0..one.len() {
        if one[place] != other[place] {
            return place;
        }
    }
    one.len()
}

/// How many states of an order, from the first on, are sound by what was found of it: all of them, or those before the
/// first unsound one.
pub(crate) fn sound_states(found: Option<(u32, Fault)>, order: &[u32]) -> usize
    ensures { MatchOption found (result ≡ 2 * length order.now + 1) (λ first. result ≡ first.0) }
{
    match found {
        None => 2 * order.len() + 1,
        Some((state, _)) => state as usize,
    }
}
