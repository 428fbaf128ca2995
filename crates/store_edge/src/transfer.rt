ghost use Rattle.std.specs.Prelude.{◌≡◌, ◌<◌, ◌≤◌, length, take, IfOk, IfSome, OnOk, OnErr};
ghost use Rattle.std.specs.Io.KnownBytes.{Appends, Keeps};
ghost use Rattle.store_edge.specs.Transfer.{AppendsFront};

use crate::files::FileAnswer;
use crate::sink::Failed;
use net_addr::Bytes;
use std::alloc::Global;
use std::io::{ErrorKind, Read, Write};

/// How many bytes there is room for at first. Most files are shorter; what isn't needed is given back.
const ROOM: usize = 65_536;

/// The next `most` bytes of a reader, all of them where there are fewer.
pub fn read_front<F: Read>(alloc: Global, file: &mut F, most: u64) -> Result<Bytes, FileAnswer>
    ensures at_most { IfOk result (λ bytes. length bytes ≤ most) }
    ensures bytes { IfOk result (λ bytes. IfSome (F.remaining file.old) (λ text. bytes ≡ take most text)) }
{
    let mut bytes = Vec::with_capacity(alloc, ROOM)?;
    let mut front = file.take(most);
    match front.read_to_end(&mut bytes) {
        Ok(_) => {}
        Err(error) if error.kind() == ErrorKind::OutOfMemory => return Err(FileAnswer::OutOfMemory),
        Err(_) => return Err(FileAnswer::Failed),
    }
    bytes.truncate(most as usize);
    bytes.shrink_to_fit();
    Ok(Bytes::from_vec(bytes))
}

/// Writes the whole piece, or fails after a front of it. A write that takes no byte is a fault.
pub(crate) fn write_whole<W: Write>(writer: &mut W, piece: &[u8]) -> Result<(), Failed>
    ensures ok { OnOk result (Appends (W.contents writer.old) (W.contents writer.new) piece.now) }
    ensures cut { OnErr result (AppendsFront (W.contents writer.old) (W.contents writer.new) piece.now) }
{
    let mut done = 0;
    while done < piece.len() {
        done += write_some(writer, &piece[done..])?;
    }
    Ok(())
}

/// Writes once. It says how many bytes were taken, at least one.
fn write_some<W: Write>(writer: &mut W, piece: &[u8]) -> Result<usize, Failed>
    ensures some { IfOk result (λ count. 0 < count) }
    ensures within { IfOk result (λ count. count ≤ length piece.now) }
    ensures taken { IfOk result (λ count. Appends (W.contents writer.old) (W.contents writer.new) (take count piece.now)) }
    ensures failed { OnErr result (Keeps (W.contents writer.old) (W.contents writer.new)) }
{
    let Ok(count) = writer.write(piece) else {
        return Err(Failed);
    };
    if count == 0 {
        return Err(Failed);
    }
    Ok(count)
}
