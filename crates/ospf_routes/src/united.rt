ghost use Rattle.std.specs.Prelude.{◌≡◌, length, IfOk, MatchOption};
ghost use Rattle.ospf_routes.specs.steps.Routing.{AreSomeUnited, AreUnited};

use crate::OutOfMemory;
use route_core::Hops;
use std::alloc::Global;
use walk_core::{push_below, put_in_order};

/// The hops below `count` that are in one of the lists, and `None` where there are no lists.
pub(crate) fn united_some(
    alloc: Global,
    lists: &[Hops],
    count: u32,
) -> Result<Option<Hops>, OutOfMemory>
    ensures { IfOk result (λ found. MatchOption found (length lists.now ≡ 0) (AreSomeUnited lists.now count)) }
{
    if lists.is_empty() {
        return Ok(None);
    }
    let hops = united(alloc, lists, count)?;
    Ok(Some(hops))
}

/// The hops below `count` that are in one of the lists.
fn united(alloc: Global, lists: &[Hops], count: u32) -> Result<Hops, OutOfMemory>
    ensures { IfOk result (AreUnited lists.now count) }
{
    let mut hops = Vec::new(alloc);
    for list in lists {
        push_below(&mut hops, list.as_slice(), count)?;
    }
    put_in_order(&mut hops);
    Ok(Hops::from_vec(hops))
}
