ghost use Rattle.std.specs.Prelude.{◌≡◌, ◌<◌, ◌≤◌, ◌↔◌, ℕ, length, slice_index_or, Contains};
ghost use Rattle.std.specs.List.Sorted.{IsNonDecreasingBy};
ghost use Rattle.net_addr.specs.Addresses.{Covers};

use net_addr::Prefix;

/// What has a prefix.
pub(crate) trait HasPrefix {
    ghost use Rattle.net_addr.specs.Addresses.{Block};

    /// The prefix.
    ghost prefix: { Self → Block };

    /// The prefix.
    fn prefix(&self) -> Prefix
        ensures { result ≡ prefix self.now };
}

impl HasPrefix for Prefix {
    ghost prefix = { λ x. x };

    fn prefix(&self) -> Prefix
        ensures { result ≡ self.now }
    {
        *self
    }
}

/// Puts them in the order of the addresses that their prefixes begin with.
pub(crate) fn sort_by_base<T: HasPrefix>(all: &mut Vec<T>)
    ensures kept { (x : T) → Contains all.new.items x ↔ Contains all.old.items x }
    ensures sorted { IsNonDecreasingBy (λ (x : T). (T.prefix x).base) all.new.items }
{
    all.sort_unstable_by_key(|x| x.prefix().base());
}

/// Of a list in the order of the addresses that its prefixes begin with those where this is at least `low` and at most `high`.
/// It takes time of the logarithm of the list, and of what it finds.
pub(crate) fn between<T: HasPrefix>(all: &[T], low: u32, high: u32) -> &[T]
    requires { IsNonDecreasingBy (λ (x : T). (T.prefix x).base) all.now }
    ensures among { (x : T) → Contains result.now x → Contains all.now x }
    ensures every { (x : T) → Contains all.now x → low ≤ (T.prefix x).base → (T.prefix x).base ≤ high → Contains result.now x }
{
    let (_, from) = all.split_at(count_below(all, low));
    let (here, _) = from.split_at(count_up_to(from, high));
    here
}

/// Of such a list those that a prefix covers, and others that begin with one of its addresses. It takes time of the logarithm
/// of the list, and of what it finds.
pub(crate) fn under<T: HasPrefix>(all: &[T], over: Prefix) -> &[T]
    requires { IsNonDecreasingBy (λ (x : T). (T.prefix x).base) all.now }
    ensures among { (x : T) → Contains result.now x → Contains all.now x }
    ensures every { (x : T) → Contains all.now x → Covers over (T.prefix x) → Contains result.now x }
{
    between(all, over.base(), over.last())
}

/// How many of these, which are in order, begin below this address.
fn count_below<T: HasPrefix>(all: &[T], base: u32) -> usize
    requires { IsNonDecreasingBy (λ (x : T). (T.prefix x).base) all.now }
    ensures within { result ≤ length all.now }
    ensures below { (k : ℕ) (d : T) → k < result → (T.prefix (slice_index_or all.now k d)).base < base }
{
    all.partition_point(|x| x.prefix().base() < base)
}

/// How many of these, which are in order, begin at this address or below it. It takes time of their number.
fn count_up_to<T: HasPrefix>(all: &[T], base: u32) -> usize
    requires { IsNonDecreasingBy (λ (x : T). (T.prefix x).base) all.now }
    ensures within { result ≤ length all.now }
    ensures above { (k : ℕ) (d : T) → result ≤ k → k < length all.now → base < (T.prefix (slice_index_or all.now k d)).base }
{
    for count in 0..all.len() {
        if base < all[count].prefix().base() {
            return count;
        }
    }
    all.len()
}
