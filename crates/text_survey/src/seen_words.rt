ghost use Rattle.std.specs.Prelude.{◌≡◌, ◌++◌, ◌&&◌, IfOk, OnOk, map, not, true};
ghost use Rattle.std.specs.List.{slice_split};
ghost use Rattle.net_addr.specs.Blanks.{is_blank};
ghost use Rattle.printed_lines.specs.Words.{spaced};
ghost use Rattle.text_survey.specs.Oddities.{behind_blanks};
ghost use Rattle.text_survey.specs.SeenWords.{seen_byte, seen_words, told_words};
ghost use Rattle.text_survey.specs.steps.SeenBytes.{are_as_seen, fits, seen_at};

use crate::OutOfMemory;
use crate::oddities::{behind_blanks, is_blank, is_control};
use crate::told_line::{LinePlace, ToldLine};
use std::alloc::Global;

/// Adds a line of a configuration to a text: the words of its section's first line, a colon, and its own.
pub fn add_told(text: &mut Vec<u8>, told: &ToldLine<'_>) -> Result<(), OutOfMemory>
    ensures { OnOk result (text.new.items ≡ text.old.items ++ told_words told.now) }
{
    match told.place() {
        LinePlace::Top => add_seen_words(text, told.own()),
        LinePlace::Interface | LinePlace::Ospf | LinePlace::Isis | LinePlace::Elsewhere => {
            add_seen_words(text, told.head())?;
            text.push(b':')?;
            add_seen_words(text, told.own())
        }
    }
}

/// Adds the words among some bytes, each after a blank. Those that stand as they are printed are copied at once.
fn add_seen_words(text: &mut Vec<u8>, bytes: &[u8]) -> Result<(), OutOfMemory>
    ensures { OnOk result (text.new.items ≡ text.old.items ++ spaced (seen_words bytes.now)) }
{
    if stand_as_seen(bytes) {
        add_as_seen(text, bytes)
    } else {
        add_seen_bytes(text, bytes)
    }
}

/// Adds the words among some bytes, which stand as they are printed behind blanks.
fn add_as_seen(text: &mut Vec<u8>, bytes: &[u8]) -> Result<(), OutOfMemory>
    requires { are_as_seen true (behind_blanks bytes.now) ≡ true }
    ensures { OnOk result (text.new.items ≡ text.old.items ++ spaced (seen_words bytes.now)) }
{
    let words = behind_blanks(bytes);
    text.push(b' ')?;
    text.extend_from_slice(words)?;
    Ok(())
}

/// Whether words stand among some bytes as they are printed, behind blanks.
fn stand_as_seen(bytes: &[u8]) -> bool
    ensures { result ≡ are_as_seen true (behind_blanks bytes.now) }
{
    are_as_seen(behind_blanks(bytes))
}

/// Whether some bytes are words that stand as they are printed: one space between each and the next, and no control byte.
/// All bytes are looked at, since that needs no branch for each.
fn are_as_seen(bytes: &[u8]) -> bool
    ensures { result ≡ are_as_seen true bytes.now }
{
    let mut begins = true;
    let mut so_far = true;
    for byte in bytes {
        so_far = fits_too(so_far, begins, *byte);
        begins = *byte == b' ';
    }
    so_far && !begins
}

/// Whether the bytes so far are printed as they stand, and this one too.
fn fits_too(so_far: bool, begins: bool, byte: u8) -> bool
    ensures { result ≡ (so_far && fits begins byte) }
{
    so_far && fits(begins, byte)
}

/// Whether a byte is printed as it stands, where a word has to begin or not.
fn fits(begins: bool, byte: u8) -> bool
    ensures { result ≡ fits begins byte }
{
    if byte == b' ' {
        !begins
    } else {
        !is_control(byte)
    }
}

/// Adds the words among some bytes, byte by byte.
fn add_seen_bytes(text: &mut Vec<u8>, bytes: &[u8]) -> Result<(), OutOfMemory>
    ensures { OnOk result (text.new.items ≡ text.old.items ++ spaced (seen_words bytes.now)) }
{
    let mut inside = false;
    for byte in bytes {
        inside = add_seen_byte(text, inside, *byte)?;
    }
    Ok(())
}

/// Adds a byte, inside a word or not, and says whether the next one is inside a word.
fn add_seen_byte(text: &mut Vec<u8>, inside: bool, byte: u8) -> Result<bool, OutOfMemory>
    ensures after { IfOk result (λ after. after ≡ not (is_blank byte)) }
    ensures bytes { OnOk result (text.new.items ≡ text.old.items ++ seen_at inside byte) }
{
    if is_blank(byte) {
        return Ok(false);
    }
    if !inside {
        text.push(b' ')?;
    }
    text.push(seen_byte(byte))?;
    Ok(true)
}

/// A byte as it is printed: a control byte as `?`.
fn seen_byte(byte: u8) -> u8
    ensures { result ≡ seen_byte byte }
{
    if is_control(byte) { b'?' } else { byte }
}

/// Some bytes, cut at their blanks.
pub(crate) fn pieces_of(alloc: Global, bytes: &[u8]) -> Result<Vec<&[u8]>, OutOfMemory>
    ensures { IfOk result (λ pieces. map (λ piece. piece.now) pieces.items ≡ slice_split is_blank bytes.now) }
{
    bytes.split(|byte| is_blank(*byte)).collect(alloc)
}
