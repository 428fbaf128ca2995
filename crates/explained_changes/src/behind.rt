ghost use Rattle.std.specs.Prelude.{◌≡◌, ◌+◌, ◌*◌, ◌^◌, ◌<◌, ◌++◌, ◌∷◌, [], ℕ, IfOk, MatchBool, length};
ghost use Rattle.order_core.specs.Rankings.{rank_of};
ghost use Rattle.rib_mix.specs.Mixture.{migration_of};
ghost use Rattle.explained_changes.specs.ChangeReasonTexts.{IsChangeLine, IsRightBehind};

use crate::OutOfMemory;
use crate::words::comes_line;
use printed_lines::LineBuilder;
use rib_mix::Mixed;
use route_core::RouteSource;
use std::alloc::Global;

/// Whether a change is the second one of a router whose first stands in the wave right before.
pub(crate) fn is_right_behind(ranks: &[u32], item: u32) -> bool
    requires item { item < length ranks.now }
    requires waves { (k : ℕ) → rank_of ranks.now k + 1 < 2 ^ 32 }
    ensures { MatchBool result (IsRightBehind ranks.now item) (¬ IsRightBehind ranks.now item) }
{
    item % 2 == 1 && ranks[item as usize - 1] + 1 == ranks[item as usize]
}

/// The line of such a change: it comes after its router's first.
pub(crate) fn behind_line<O: RouteSource, N: RouteSource>(
    alloc: Global,
    mixed: &Mixed<'_, O, N>,
    ranks: &[u32],
    item: u32,
) -> Result<LineBuilder, OutOfMemory>
    requires item { item < length ranks.now }
    requires each { length ranks.now ≡ 2 * length mixed.now.net }
    requires behind { IsRightBehind ranks.now item }
    ensures { IfOk result (λ line. IsChangeLine (migration_of O.table N.table mixed.now) ranks.now item (line ++ 10 ∷ [])) }
{
    comes_line(alloc, mixed.net(), ranks, item, item - 1)
}
