ghost use Rattle.std.specs.Prelude.{◌≡◌, ℕ, List, suc, ◌<◌, ◌≤◌, length, slice_index, Contains};
ghost use Rattle.order_core.specs.Pairs.{Pair, AreBelow};
ghost use Rattle.order_core.specs.Rankings.{IsRanking, KeepsPairs, rank_of, wave_count};
ghost use Rattle.precedence_set.specs.Layers.{AreLayers, IsChain};

/// The law that layers are a ranking that keeps the pairs, and that no ranking that keeps them has fewer
/// waves; each router stands in it in its layer's wave or later.
pub fn layers_are_fewest()
    ensures ranking { (n : ℕ) (pairs : List Pair) (layers : List ℕ) → AreBelow n pairs → AreLayers n pairs layers → IsRanking n layers }
    ensures keeps { (n : ℕ) (pairs : List Pair) (layers : List ℕ) → AreBelow n pairs → AreLayers n pairs layers → KeepsPairs layers pairs }
    ensures earliest { (n : ℕ) (pairs : List Pair) (layers ranks : List ℕ) → AreBelow n pairs → AreLayers n pairs layers → KeepsPairs ranks pairs →
        (v : ℕ) → v < n → rank_of layers v ≤ rank_of ranks v }
    ensures fewest { (n : ℕ) (pairs : List Pair) (layers ranks : List ℕ) → AreBelow n pairs → AreLayers n pairs layers → length ranks ≡ n →
        KeepsPairs ranks pairs → wave_count layers ≤ wave_count ranks }
    ensures one { (n : ℕ) (pairs : List Pair) (layers others : List ℕ) → AreBelow n pairs → AreLayers n pairs layers →
        AreLayers n pairs others → layers ≡ others }
{}

/// The law that a chain's neighbors are pairs, and that layers have one chain.
pub fn chains_are_pairs()
    ensures neighbors { (pairs : List Pair) (layers chain : List ℕ) → IsChain pairs layers chain
        → (k : ℕ) → suc k < length chain → Contains pairs (slice_index chain k, slice_index chain (suc k)) }
    ensures one { (pairs : List Pair) (layers chain other : List ℕ) → IsChain pairs layers chain → IsChain pairs layers other → chain ≡ other }
{}
