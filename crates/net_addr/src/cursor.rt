ghost use Rattle.std.specs.Prelude.{◌≡◌, ◌+◌, ◌≤◌, [], ◌∷◌, drop, length, IfNone, IfSome};
ghost use Rattle.net_addr.specs.Lines.{line_texts};

use crate::line::{piece_len, without_return};
use std::marker::Model;

/// The lines of a text one after the other, without memory.
///
/// Seen as the bytes of the lines that are left. Of a whole text these are the lines that `lines` gives.
#[derive(Debug, Drop)]
pub struct LineCursor<'a> {
    rest: &'a [u8],
}

impl<'a> Model for LineCursor<'a> {
    ghost use Rattle.std.specs.Prelude.{List, ℕ};
    ghost use Rattle.net_addr.specs.Lines.{line_texts};

    ghost Value = { List (List ℕ) };

    ghost view = { λ c. line_texts c.rest.now };
}

impl<'a> LineCursor<'a> {
    /// The lines of this text, from the first one on.
    pub fn new(text: &'a [u8]) -> LineCursor<'a>
        ensures { result ≡ line_texts text.now }
    {
        LineCursor { rest: text }
    }

    /// The next line, without its line feed and the one carriage return at its end; `None` where none is left.
    pub fn next_line(&mut self) -> Option<&'a [u8]>
        ensures some { IfSome result (λ line. self.old ≡ line.now ∷ self.new) }
        ensures none { IfNone result (self.old ≡ []) }
        ensures stays { IfNone result (self.new ≡ []) }
    {
        if self.rest.is_empty() {
            return None;
        }
        let stop = piece_len(self.rest);
        let line = without_return(&self.rest[..stop]);
        self.rest = behind(self.rest, stop);
        Some(line)
    }
}

/// What stands behind the byte at a place; nothing where the text ends there.
fn behind(bytes: &[u8], place: usize) -> &[u8]
    requires { place ≤ length bytes.now }
    ensures { result.now ≡ drop (place + 1) bytes.now }
{
    if place < bytes.len() {
        &bytes[place + 1..]
    } else {
        &bytes[place..]
    }
}
