ghost use Rattle.std.specs.Prelude.{◌≡◌, ◌<◌, ◌↔◌, All, IfOk, IsTrue, length, Some, slice_get};
ghost use Rattle.net_addr.specs.Addresses.{Block, ContainsAddress, IsBlock};
ghost use Rattle.prefix_atoms.specs.Nested.{AreAscendingPrefixes, AreNested, AreParents, IsParent};

use net_addr::Prefix;
use std::alloc::{AllocError as OutOfMemory, Global};

/// The parent of each of some ascending prefixes, by its place: the longest shorter one that contains it.
///
/// With 10.0.0.0/8, 10.1.0.0/16, 10.1.2.0/24 and 10.2.0.0/16 the parents are none, 0, 1 and 0. Each is found from the
/// prefix before upwards, so that the whole takes time of the prefixes and of how deep they stand in each other. 2^32
/// prefixes or more give `OutOfMemory`.
pub(crate) fn parents_of(
    alloc: Global,
    prefixes: &[Prefix],
) -> Result<Vec<Option<u32>>, OutOfMemory>
    requires blocks { All IsBlock prefixes.now }
    requires ascending { AreAscendingPrefixes prefixes.now }
    ensures { IfOk result (λ v. AreNested prefixes.now v.items) }
{
    let Ok(count) = u32::try_from(prefixes.len()) else {
        return Err(OutOfMemory);
    };
    let mut parents = Vec::with_capacity(alloc, prefixes.len())?;
    for place in 0..count {
        let parent = parent_at(prefixes, parents.as_slice(), place);
        parents.push(parent)?;
    }
    Ok(parents)
}

/// The parent of the prefix at a place, where those of the prefixes before are known.
fn parent_at(prefixes: &[Prefix], parents: &[Option<u32>], place: u32) -> Option<u32>
    requires blocks { All IsBlock prefixes.now }
    requires ascending { AreAscendingPrefixes prefixes.now }
    requires within { place < length prefixes.now }
    requires before { length parents.now ≡ place }
    requires known { AreParents prefixes.now parents.now }
    ensures { (p : Block) → slice_get prefixes.now place ≡ Some p → IsParent prefixes.now place p result }
{
    let prefix = prefixes[place as usize];
    let mut next = place.checked_sub(1);
    while let Some(other) = next {
        if is_around(prefixes[other as usize], prefix) {
            return Some(other);
        }
        next = parents[other as usize];
    }
    None
}

/// Whether a prefix is shorter than another one and contains it.
fn is_around(shorter: Prefix, prefix: Prefix) -> bool
    ensures { IsTrue result ↔ ((shorter.len < prefix.len) × ContainsAddress shorter prefix.base) }
{
    shorter.len() < prefix.len() && shorter.contains(prefix.base())
}
