use crate::features::Features;
use route_core::OutOfMemory;
use std::alloc::Global;

/// How many slots there are for the number of each prefix.
const SLOTS_EACH: usize = 2;

/// How many slots a number may stand in.
const MOST_STEPS: usize = 16;

/// For each prefix the first one whose features and whose parents' features make the same number, if it is found. A comparison
/// has to confirm it.
pub(crate) fn proposals_of(
    alloc: Global,
    features: &Features<'_, '_>,
    parents: &[Option<u32>],
) -> Result<Vec<Option<u32>>, OutOfMemory> {
    let Ok(count) = u32::try_from(parents.len()) else {
        return Err(OutOfMemory);
    };
    let digests = digests_of(alloc, features, parents)?;
    let slots = (count as usize).saturating_mul(SLOTS_EACH);
    let mut firsts = vec![in alloc; None; slots.saturating_add(MOST_STEPS)]?;
    let mut proposals = Vec::with_capacity(alloc, parents.len())?;
    for place in 0..count {
        let digest = digests.get(place as usize).copied().unwrap_or(NO_PARENT);
        let start = digest.checked_rem(slots as u64).unwrap_or(0) as usize;
        let first = first_from(&mut firsts, digests.as_slice(), start, place);
        proposals.push(first)?;
    }
    Ok(proposals)
}

/// The first place with the number of a place, of those in the slots from this one on. It takes the first free slot where there
/// is none.
fn first_from(
    firsts: &mut Vec<Option<u32>>,
    digests: &[u64],
    start: usize,
    place: u32,
) -> Option<u32> {
    for step in 0..MOST_STEPS {
        let slot = start.wrapping_add(step);
        match firsts.get(slot).copied()? {
            Some(first) => {
                if digests.get(first as usize) == digests.get(place as usize) {
                    return Some(first);
                }
            }
            None => {
                put_first(firsts, slot, place);
                return None;
            }
        }
    }
    None
}

/// Puts a place in a slot.
fn put_first(firsts: &mut Vec<Option<u32>>, slot: usize, place: u32) {
    if let Some(own) = firsts.get_mut(slot) {
        *own = Some(place);
    }
}

/// For each prefix a number made of its features and of those of its parent.
fn digests_of(
    alloc: Global,
    features: &Features<'_, '_>,
    parents: &[Option<u32>],
) -> Result<Vec<u64>, OutOfMemory> {
    let mut digests: Vec<u64> = Vec::with_capacity(alloc, parents.len())?;
    for place in 0..parents.len() {
        let parent = digest_at(digests.as_slice(), parents[place]);
        digests.push(features.digest(place, parent))?;
    }
    Ok(digests)
}

/// What stands for the parent's number where there is no parent. 0 would stay 0 for prefixes that no router has anything for.
const NO_PARENT: u64 = 1;

/// The number of the prefix at a place, and `NO_PARENT` where there is none.
fn digest_at(digests: &[u64], place: Option<u32>) -> u64 {
    match place {
        Some(place) => digests.get(place as usize).copied().unwrap_or(NO_PARENT),
        None => NO_PARENT,
    }
}
