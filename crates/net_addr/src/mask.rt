ghost use Rattle.std.specs.Prelude.{◌≤◌, ◌↔◌, IsTrue};
ghost use Rattle.net_addr.specs.AddressWords.{IsMask, IsMaskWord};
ghost use Rattle.net_addr.specs.Readers.{Reads};

use crate::address::read_addr;
use crate::prefix::block_size;

/// The length of the mask for which the word stands (RFC 4632, section 3.1): the count of its ones, from 1 to 32.
///
/// A mask is written as an address, and its bits are ones followed by zeros, with at least one one.
pub fn read_mask(word: &[u8]) -> Option<u8>
    ensures { Reads result (IsMaskWord word.now) }
{
    mask_len(read_addr(word)?)
}

/// The count of ones of a mask.
fn mask_len(address: u32) -> Option<u8>
    ensures { Reads result (IsMask address) }
{
    for len in 1..33 {
        if is_mask(address, len) {
            return Some(len);
        }
    }
    None
}

/// Whether the first `len` bits of the address are ones, and the others zeros.
fn is_mask(address: u32, len: u8) -> bool
    requires some { 1 ≤ len }
    requires most { len ≤ 32 }
    ensures { IsTrue result ↔ IsMask address len }
{
    u64::from(address) + block_size(len) == 0x1_0000_0000
}
