ghost use Rattle.std.specs.Prelude.{◌≡◌, ◌+◌, min, OnOk, OnErr};
ghost use Rattle.store_edge.specs.Faults.{Rose};
ghost use Rattle.store_edge.specs.Sink.{AddsBytes, AddsFront};

use store_edge::{Failed, Sink};

/// How many bytes are written at a time.
const PIECE: usize = 4096;

/// Writes a text in pieces of 4,096 bytes, of which the last one may be shorter and none is empty.
pub(crate) fn send<S: Sink>(out: &mut S, text: &[u8]) -> Result<(), Failed>
    ensures ok { OnOk result (AddsBytes (S.written out.old) (S.written out.new) text.now) }
    ensures cut { OnErr result (AddsFront (S.written out.old) (S.written out.new) text.now) }
    ensures failed { OnErr result (Rose (S.faults out.old) (S.faults out.new)) }
    ensures unless_failed { OnOk result (S.faults out.new ≡ S.faults out.old) }
{
    let mut done = 0;
    while done < text.len() {
        let stop = piece_end(done, text.len());
        out.write(&text[done..stop])?;
        done = stop;
    }
    Ok(())
}

/// Where the piece ends that begins after so many bytes of a text of this length.
fn piece_end(done: usize, len: usize) -> usize
    ensures { result ≡ min (done + PIECE) len }
{
    done.saturating_add(PIECE).min(len)
}
