ghost use Rattle.std.specs.Prelude.{◌≡◌, ◌≢◌, IfOk};
ghost use Rattle.ospf_pair.specs.PairTexts.{pair_line, pair_refusal_text};

use crate::PairRefusal;
use net_addr::{Bytes, Name};
use printed_lines::LineBuilder;
use std::alloc::{AllocError, Global};

/// The line that tells why two networks make no pair. The only error is want of memory.
pub fn pair_refusal_text(alloc: Global, refusal: &PairRefusal) -> Result<Bytes, AllocError>
    requires { refusal.now ≢ PairRefusal.OutOfMemory }
    ensures { IfOk result (λ text. text ≡ pair_refusal_text refusal.now) }
{
    match refusal {
        PairRefusal::RouterMissing { name } => pair_line(alloc, b"RouterMissing", name),
        PairRefusal::InterfacesDiffer { name } => pair_line(alloc, b"InterfacesDiffer", name),
        PairRefusal::HasIsis { name } => pair_line(alloc, b"HasIsis", name),
        PairRefusal::ProcessClash { name } => pair_line(alloc, b"ProcessClash", name),
        PairRefusal::NotIdle { name } => pair_line(alloc, b"NotIdle", name),
        PairRefusal::OutOfMemory => unreachable!(),
    }
}

/// The line of a refusal of this kind, for the router of this name.
fn pair_line(alloc: Global, kind: &[u8], name: &Name) -> Result<Bytes, AllocError>
    ensures { IfOk result (λ text. text ≡ pair_line kind.now name.now) }
{
    LineBuilder::start(alloc, b"refused")?
        .word(b"pair")?
        .word(kind)?
        .word(name.as_slice())?
        .finish()
}
