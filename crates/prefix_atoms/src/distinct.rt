ghost use Rattle.std.specs.Prelude.{◌≡◌, ◌↔◌, ◌<◌, ◌^◌, ℕ, All, Contains, IfNone, IfSome, Some, slice_get};
ghost use Rattle.std.specs.List.Sorted.{IsStrictlyIncreasing};
ghost use Rattle.net_addr.specs.Addresses.{Block};
ghost use Rattle.prefix_atoms.specs.Nested.{AreAscendingPrefixes};

use net_addr::Prefix;

/// Leaves each prefix of a list once, in ascending order.
pub(crate) fn keep_distinct_prefixes(prefixes: &mut Vec<Prefix>)
    ensures same { (p : Block) → Contains prefixes.new.items p ↔ Contains prefixes.old.items p }
    ensures ascending { AreAscendingPrefixes prefixes.new.items }
{
    prefixes.sort_unstable();
    prefixes.dedup();
}

/// Where a prefix stands among prefixes. Where they don't ascend some are missed.
pub fn place_of_prefix(prefixes: &[Prefix], prefix: Prefix) -> Option<usize>
    ensures found { IfSome result (λ i. slice_get prefixes.now i ≡ Some prefix) }
    ensures missed { AreAscendingPrefixes prefixes.now → IfNone result (¬ Contains prefixes.now prefix) }
{
    prefixes.binary_search(&prefix).ok()
}

/// Leaves each number of a list once, in ascending order.
pub(crate) fn keep_distinct_numbers(numbers: &mut Vec<u32>)
    ensures same { (n : ℕ) → Contains numbers.new.items n ↔ Contains numbers.old.items n }
    ensures ascending { IsStrictlyIncreasing numbers.new.items }
    ensures below { All (λ n. n < 2 ^ 32) numbers.new.items }
{
    numbers.sort_unstable();
    numbers.dedup();
}
