ghost use Rattle.std.specs.Prelude.{◌≡◌, ◌↔◌, ◌+◌, ◌^◌, ◌<◌, ℕ, Some, IfSome, IsTrue};
ghost use Rattle.walk_core.specs.steps.Begun.{IsNearOver};
ghost use Rattle.walk_core.specs.steps.BestOver.{least_cost_of, IsTotal};

use std::marker::Model;

/// How far a vertex is, or that no walk leads there, in 8 bytes: one more than the cost, or 0.
#[derive(Clone, Copy, Debug, PartialEq)]
pub(crate) struct Distance {
    code: u64,
}

impl Model for Distance {
    ghost use Rattle.std.specs.Prelude.{Option, ℕ};
    ghost use Rattle.std.proofs.Common.{ap};
    ghost use Rattle.walk_core.specs.steps.Codes.{code_back, code_of_distance, distance_of_code};

    ghost Value = { Option ℕ };

    ghost view = { λ x. distance_of_code x.code };

    ghost inverse = { λ d. record { code = code_of_distance d } };

    ghost inverse_ok = { λ x h. let P : ℕ → Inside = λ n. record { code = n } in ap P (code_back x.code) };
}

impl Distance {
    ghost use Rattle.std.specs.Prelude.{◌≡◌, ◌<◌, ◌^◌, ◌+◌, None, Some, IfSome};

    /// No walk leads there.
    #[inline(always)]
    pub fn none() -> Distance
        ensures { result ≡ None }
    {
        Distance { code: 0 }
    }

    /// This far.
    #[inline(always)]
    pub fn of(cost: u64) -> Distance
        requires { cost + 1 < 2 ^ 64 }
        ensures { result ≡ Some cost }
    {
        Distance { code: cost + 1 }
    }

    /// How far it is, if a walk leads there.
    #[inline(always)]
    pub fn get(self) -> Option<u64>
        ensures value { result ≡ self }
        ensures fits { IfSome result (λ cost. cost + 1 < 2 ^ 64) }
    {
        self.code.checked_sub(1)
    }
}

/// A distance of which the cost of one arc is far from 64 bits.
const NEAR: u64 = 1 << 32;

/// The distance over an arc of this cost, from whose end it is `far`, if that is at most 2^32.
#[inline(always)]
pub(crate) fn near_over(far: Distance, cost: u32) -> Option<Distance>
    ensures { IfSome result (IsNearOver far cost) }
{
    let Some(rest) = far.get() else {
        return Some(far);
    };
    if rest > NEAR - u64::from(cost) {
        return None;
    }
    Some(Distance::of(rest + u64::from(cost)))
}

/// Whether a distance is that over an arc of this cost, from whose end it is `far`.
#[inline(always)]
pub(crate) fn is_over(distance: Distance, far: Distance, cost: u32) -> bool
    requires { (d : ℕ) → far ≡ Some d → d + 2 ^ 32 < 2 ^ 64 }
    ensures { IsTrue result ↔ IsTotal far cost distance }
{
    match far.get() {
        Some(rest) => distance == Distance::of(rest + u64::from(cost)),
        None => false,
    }
}

/// The nearer of two distances, of which either may be none.
#[inline(always)]
pub(crate) fn nearer_of(one: Distance, other: Distance) -> Distance
    ensures { result ≡ least_cost_of one other }
{
    match (one.get(), other.get()) {
        (Some(x), Some(y)) if y < x => other,
        (None, _) => other,
        _ => one,
    }
}
