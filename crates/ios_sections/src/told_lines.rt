ghost use Rattle.std.specs.Prelude.{◌≡◌, [], ◌∷◌, ◌+◌, ◌<◌, ◌^◌, false, length, IfOk, IfSome, IfNone, if◌then◌else◌};
ghost use Rattle.ios_sections.specs.TextLines.{lines_in, counted_lines};
ghost use Rattle.ios_sections.specs.TellingLines.{telling_lines};
ghost use Rattle.ios_sections.specs.steps.ToldLines.{told_at, place_after};

use crate::OutOfMemory;
use crate::text_line::TextLine;
use net_addr::LineCursor;
use std::marker::Model;

/// Where a text is read: behind some of its lines.
#[derive(Clone, Copy, Debug)]
pub(crate) struct TextPlace {
    /// Whether a banner is open there.
    pub in_banner: bool,
    /// Whether the indented lines there are of a section whose lines say something.
    pub below: bool,
}

/// Goes behind a line, and says whether it counts and tells something.
fn go_behind(place: &mut TextPlace, line: &TextLine) -> bool
    ensures place { place.new ≡ place_after place.old line.now }
    ensures told { told_at place.old line.now ≡ (if result then line.now ∷ [] else []) }
{
    if place.in_banner {
        place.in_banner = !line.closes_banner();
        return false;
    }
    place.in_banner = line.opens_banner();
    if !line.counts() {
        return false;
    }
    if !line.opens_section() {
        return place.below;
    }
    place.below = line.has_lines();
    place.below || line.tells_alone()
}

/// The lines of a text that count and tell something, one after the other, without memory. Most lines are told by their
/// first word.
///
/// Seen as those that are left, and how many lines of the text were read and weren't.
#[derive(Drop)]
pub struct ToldLines<'a> {
    rest: LineCursor<'a>,
    place: TextPlace,
    number: u32,
}

impl<'a> Model for ToldLines<'a> {
    ghost use Rattle.std.specs.Prelude.{◌+◌, ◌<◌, ◌^◌, length};
    ghost use Rattle.ios_sections.specs.TellingLines.{LinesLeft, lines_from_number, told_from};

    ghost Value = { LinesLeft };

    ghost view = { λ t. record { lines = told_from t.place (lines_from_number (t.number + 1) t.rest); read = t.number; unread = length t.rest } };

    ghost invariant = { λ t. t.number + length t.rest < 2 ^ 27 };
}

impl<'a> ToldLines<'a> {
    /// The lines of this text, from the first one on.
    pub fn new(text: &'a [u8]) -> ToldLines<'a>
        requires { length text.now < 2 ^ 26 }
        ensures lines { result.lines ≡ telling_lines false (counted_lines (lines_in text.now)) }
        ensures count { result.read + result.unread ≡ length (lines_in text.now) }
        ensures few { result.read + result.unread < length text.now + 2 }
    {
        ToldLines {
            rest: LineCursor::new(text),
            place: TextPlace {
                in_banner: false,
                below: false,
            },
            number: 0,
        }
    }

    /// The next line that counts and tells something; `None` where none is left, behind the last line of the text.
    pub fn next_line(&mut self) -> Result<Option<TextLine<'a>>, OutOfMemory>
        ensures some { IfOk result (λ r. IfSome r (λ line. self.old.lines ≡ line ∷ self.new.lines)) }
        ensures none { IfOk result (λ r. IfNone r (self.old.lines ≡ [])) }
        ensures left { IfOk result (λ r. IfNone r (self.new.lines ≡ [])) }
        ensures behind { IfOk result (λ r. IfNone r (self.new.unread ≡ 0)) }
        ensures count { self.new.read + self.new.unread ≡ self.old.read + self.old.unread }
    {
        while let Some(bytes) = self.rest.next_line() {
            self.number += 1;
            let line = TextLine::numbered(self.number, bytes)?;
            if go_behind(&mut self.place, &line) {
                return Ok(Some(line));
            }
        }
        Ok(None)
    }

    /// How many lines of the text were read.
    pub fn number(&self) -> u32
        ensures { result ≡ self.now.read }
    {
        self.number
    }
}
