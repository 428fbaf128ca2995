ghost use Rattle.std.specs.Prelude.{◌≡◌, ◌<◌, ◌↔◌, ℕ, List, length, AllPairs, Contains};
ghost use Rattle.std.specs.List.Sorted.{IsStrictlyIncreasing};
ghost use Rattle.order_core.specs.Orders.{IsBefore, IsOrder};
ghost use Rattle.order_core.specs.Rankings.{ComesBefore, IsRanking, flat_of, rank_of, wave_count, wave_of};

/// The law of what a wave holds: exactly the routers of its rank, ascending, and in a ranking at least one.
pub fn waves_are_ranks()
    ensures routers { (ranks : List ℕ) (w u : ℕ) → Contains (wave_of ranks w) u ↔ ((u < length ranks) × (rank_of ranks u ≡ w)) }
    ensures ascending { (ranks : List ℕ) (w : ℕ) → IsStrictlyIncreasing (wave_of ranks w) }
    ensures some { (n : ℕ) (ranks : List ℕ) (w : ℕ) → IsRanking n ranks → w < wave_count ranks → 0 < length (wave_of ranks w) }
{}

/// The law that the flat run lists every router once, wave by wave and ascending in each.
pub fn flat_runs_are_orders()
    ensures order { (ranks : List ℕ) → IsOrder (length ranks) (flat_of ranks) }
    ensures by_waves { (ranks : List ℕ) → AllPairs (ComesBefore ranks) (flat_of ranks) }
    ensures before { (ranks : List ℕ) (u v : ℕ) → u < length ranks → v < length ranks → ComesBefore ranks u v → IsBefore (flat_of ranks) u v }
{}
