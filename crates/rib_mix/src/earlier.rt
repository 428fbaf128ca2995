ghost use Rattle.std.specs.Prelude.{◌≡◌, ◌<◌, ◌+◌, IfOk, IfSome, length};
ghost use Rattle.std.specs.Bool.{OnTrue};
ghost use Rattle.rib_mix.specs.steps.Earlier.{AreEarlier, AreFirstClasses, IsEarlierPlain, IsPlain};

use crate::sorts::Sorts;
use net_addr::Prefix;
use prefix_atoms::Atoms;
use route_core::OutOfMemory;
use std::alloc::Global;

/// For each class an earlier one, where the targets of both are their longest prefixes and these are of one sort.
pub(crate) fn earlier_classes(
    alloc: Global,
    atoms: &Atoms,
    sorts: &Sorts,
) -> Result<Vec<Option<u32>>, OutOfMemory>
    ensures { IfOk result (λ earlier. AreEarlier atoms.now sorts.now.of_places.items earlier.items) }
{
    let Ok(count) = u32::try_from(atoms.count()) else {
        return Err(OutOfMemory);
    };
    let mut firsts = vec![in alloc; None; sorts.firsts.len()]?;
    let mut earlier = Vec::with_capacity(alloc, count as usize)?;
    for atom in 0..count {
        let first = take_first(&mut firsts, atoms, sorts, atom);
        earlier.push(first)?;
    }
    Ok(earlier)
}

/// The first class of the sort of a class, if both are plain. From now on it is this one, where none was.
fn take_first(firsts: &mut Vec<Option<u32>>, atoms: &Atoms, sorts: &Sorts, atom: u32) -> Option<u32>
    requires atom { atom < length atoms.now.samples }
    requires firsts { AreFirstClasses atoms.now sorts.now.of_places.items atom firsts.old.items }
    ensures earlier { IfSome result (IsEarlierPlain atoms.now sorts.now.of_places.items atom) }
    ensures firsts { AreFirstClasses atoms.now sorts.now.of_places.items (atom + 1) firsts.new.items }
{
    let sort = plain_sort(atoms, sorts, atom)?;
    let own = firsts.get_mut(sort as usize)?;
    let first = *own;
    if first.is_none() {
        *own = Some(atom);
    }
    first
}

/// The sort of the longest prefix of a class, where that is its target.
fn plain_sort(atoms: &Atoms, sorts: &Sorts, atom: u32) -> Option<u32>
    requires { atom < length atoms.now.samples }
    ensures { IfSome result (λ sort. IsPlain atoms.now sorts.now.of_places.items sort atom) }
{
    let top = (*atoms.tops().get(atom as usize)?)? as usize;
    let prefix = *atoms.prefixes().get(top)?;
    let target = atoms.target(atom)?;
    if is_same(prefix, target) {
        sorts.of_places.as_slice().get(top).copied()
    } else {
        None
    }
}

/// Whether two prefixes are the same.
fn is_same(one: Prefix, other: Prefix) -> bool
    ensures { OnTrue result (one ≡ other) }
{
    one == other
}
