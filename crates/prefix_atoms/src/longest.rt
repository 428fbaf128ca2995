ghost use Rattle.std.specs.Prelude.{◌≡◌, ◌<◌, ◌≤◌, All, OnOk, length, replicate, slice_index_or, slice_set};
ghost use Rattle.std.specs.List.Sorted.{IsStrictlyIncreasing};
ghost use Rattle.net_addr.specs.Addresses.{IsBlock};
ghost use Rattle.prefix_atoms.specs.steps.Longest.{AreLongestKept, TakesPrefix, nothing};

use crate::near::number_near;
use net_addr::Prefix;
use std::alloc::AllocError as OutOfMemory;

/// The longest prefix that is found for an address. It has 8 bytes, since there is one for each address.
#[derive(Clone, Copy, Debug)]
pub(crate) struct Longest {
    /// The number that the prefix is kept under.
    pub number: u32,
    /// One more than its length, 0 where none is found.
    pub size: u32,
}

/// No prefix is found.
pub(crate) const NOTHING: Longest = Longest { number: 0, size: 0 };

/// Finds for each of some ascending addresses the longest of the prefixes, and keeps it under its place.
///
/// The addresses of one prefix stand side by side. Where the prefixes ascend too, most of them begin where the one
/// before ends, and the whole takes time of the prefixes and of the addresses in each. 2^32 prefixes or more give
/// `OutOfMemory`.
pub(crate) fn longest_in_prefixes(
    prefixes: &[Prefix],
    addresses: &[u32],
    found: &mut Vec<Longest>,
) -> Result<(), OutOfMemory>
    requires ascending { IsStrictlyIncreasing addresses.now }
    requires count { length found.old.items ≡ length addresses.now }
    ensures longest { OnOk result (AreLongestKept prefixes.now (λ place. place) addresses.now found.new.items) }
    ensures blocks { OnOk result (All IsBlock prefixes.now) }
{
    let Ok(count) = u32::try_from(prefixes.len()) else {
        return Err(OutOfMemory);
    };
    forget(found);
    let mut near = 0;
    for place in 0..count {
        near = take_prefix(prefixes[place as usize], place, addresses, near, found);
    }
    Ok(())
}

/// Nothing is found for any address.
fn forget(found: &mut Vec<Longest>)
    ensures { found.new.items ≡ replicate (length found.old.items) nothing }
{
    found.fill(NOTHING);
}

/// Gives the addresses of a prefix that prefix under this number, where it is longer than the one found before, and says
/// where they end. They are first looked for at the places from `near` on.
#[inline(always)]
fn take_prefix(
    prefix: Prefix,
    number: u32,
    addresses: &[u32],
    near: usize,
    found: &mut Vec<Longest>,
) -> usize
    requires ascending { IsStrictlyIncreasing addresses.now }
    requires count { length found.old.items ≡ length addresses.now }
    ensures longest { TakesPrefix prefix number addresses.now found.old.items found.new.items }
    ensures block { IsBlock prefix }
{
    let base = prefix.base();
    let last = prefix.last();
    let next = Longest {
        number,
        size: u32::from(prefix.len()) + 1,
    };
    let start = number_near(addresses, base, near);
    for i in start..addresses.len() {
        if addresses[i] > last {
            return i;
        }
        keep_longer(found, i, next);
    }
    addresses.len()
}

/// Keeps the next one at a place where it is longer than the one there.
#[inline(always)]
fn keep_longer(found: &mut Vec<Longest>, place: usize, next: Longest)
    requires { place < length found.old.items }
    ensures longer { (slice_index_or found.old.items place nothing).size < next.size → found.new.items ≡ slice_set found.old.items place next }
    ensures earlier { next.size ≤ (slice_index_or found.old.items place nothing).size → found.new.items ≡ found.old.items }
    ensures count { length found.new.items ≡ length found.old.items }
{
    if found[place].size < next.size {
        let kept = &mut found[place];
        kept.number = next.number;
        kept.size = next.size;
    }
}
