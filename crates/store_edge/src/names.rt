ghost use Rattle.std.specs.Prelude.{◌≡◌, ◌≤◌, length, take, IfOk};

use net_addr::{Bytes, Name};
use std::alloc::{AllocError as OutOfMemory, Global};

/// A name of one's own.
pub(crate) fn own_name(alloc: Global, name: &str) -> Result<Name, OutOfMemory>
    ensures { IfOk result (λ own. own ≡ name.now) }
{
    Ok(Name::from_vec(Vec::from_slice(alloc, name.as_bytes())?))
}

/// The first `most` of these bytes, all of them where there are fewer.
pub(crate) fn front(alloc: Global, bytes: &[u8], most: u64) -> Result<Bytes, OutOfMemory>
    ensures value { IfOk result (λ front. front ≡ take most bytes.now) }
    ensures at_most { IfOk result (λ front. length front ≤ most) }
{
    let end = bytes.len().min(most as usize);
    Ok(Bytes::from_vec(Vec::from_slice(alloc, &bytes[..end])?))
}
