ghost use Rattle.std.specs.Prelude.{IfOk, OnOk, All};
ghost use Rattle.net_addr.specs.Addresses.{IsBlock};
ghost use Rattle.prefix_atoms.specs.steps.Lists.{AreCuts, GainsBoundaries};

use crate::distinct::keep_distinct_numbers;
use net_addr::Prefix;
use std::alloc::{AllocError as OutOfMemory, Global};

/// The cuts of prefixes: 0, each base, and each address after a last one, in ascending order.
///
/// Between two neighboring cuts no prefix begins or ends.
pub(crate) fn cuts_of(alloc: Global, prefixes: &[Prefix]) -> Result<Vec<u32>, OutOfMemory>
    ensures cuts { IfOk result (λ v. AreCuts prefixes.now v.items) }
    ensures blocks { OnOk result (All IsBlock prefixes.now) }
{
    let mut cuts = vec![in alloc; 0u32]?;
    for prefix in prefixes {
        add_boundaries(&mut cuts, *prefix)?;
    }
    keep_distinct_numbers(&mut cuts);
    Ok(cuts)
}

/// Adds the base of a prefix, and the address after its last one where there is one.
fn add_boundaries(cuts: &mut Vec<u32>, prefix: Prefix) -> Result<(), OutOfMemory>
    ensures gains { OnOk result (GainsBoundaries cuts.old.items cuts.new.items prefix) }
    ensures block { IsBlock prefix }
{
    let base = prefix.base();
    let last = prefix.last();
    cuts.push(base)?;
    if last < u32::MAX {
        cuts.push(last + 1)?;
    }
    Ok(())
}
