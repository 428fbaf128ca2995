ghost use Rattle.std.specs.Prelude.{◌≡◌, IfOk};
ghost use Rattle.order_core.specs.Turns.{old_routers, new_routers};

use order_core::Turn;
use std::alloc::{AllocError, Global};

/// The routers of the Old turns, each of which comes first in children of their branch. For the search, and for those who
/// read a tree of it.
pub fn old_routers_of(alloc: Global, turns: &[Turn]) -> Result<Vec<u32>, AllocError>
    ensures { IfOk result (λ routers. routers.items ≡ old_routers turns.now) }
{
    turns
        .iter()
        .filter(|turn| turn.tag.is_old())
        .map(|turn| turn.router)
        .collect(alloc)
}

/// The routers of the New turns, each of which comes second in children of their branch. For whom those of the Old turns
/// are.
pub fn new_routers_of(alloc: Global, turns: &[Turn]) -> Result<Vec<u32>, AllocError>
    ensures { IfOk result (λ routers. routers.items ≡ new_routers turns.now) }
{
    turns
        .iter()
        .filter(|turn| turn.tag.is_new())
        .map(|turn| turn.router)
        .collect(alloc)
}
