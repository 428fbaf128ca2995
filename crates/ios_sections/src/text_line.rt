ghost use Rattle.std.specs.Prelude.{◌≡◌, false, IfOk};
ghost use Rattle.std.specs.List.{list_any};
ghost use Rattle.net_addr.specs.Blanks.{is_blank, words_in};
ghost use Rattle.ios_lines.specs.Words.{says};
ghost use Rattle.ios_sections.specs.TextLines.{carets, is_caret, opens_banner, closes_banner, counts, is_end, begins_configuration, opens_section};
ghost use Rattle.ios_sections.specs.TellingLines.{may_tell, has_lines, numbered_line};
ghost use Rattle.ios_sections.specs.Sections.{counted_from, may_begin};
ghost use Rattle.ios_sections.specs.steps.ToldLines.{may_concern_interface, tells_alone};

use crate::OutOfMemory;
use ios_lines::words::{Words, begins_with, behind_blanks};
use std::marker::Model;

/// A line of a text. It is at hand from its first word on, since most lines are told by how that begins; words are cut off
/// where they are asked for.
#[derive(Drop)]
pub struct TextLine<'a> {
    number: u32,
    indent: u32,
    bytes: &'a [u8],
    from_word: &'a [u8],
}

impl<'a> Model for TextLine<'a> {
    ghost use Rattle.std.specs.Prelude.{◌≡◌};
    ghost use Rattle.net_addr.specs.Blanks.{words_in};
    ghost use Rattle.ios_lines.specs.Blanks.{without_blanks};
    ghost use Rattle.ios_sections.specs.TextLines.{TextLine};

    ghost Value = { TextLine };

    ghost view = { λ l. record { number = l.number; indent = l.indent; bytes = l.bytes.now; words = words_in l.bytes.now } };

    ghost invariant = { λ l. l.from_word.now ≡ without_blanks l.bytes.now };
}

impl<'a> TextLine<'a> {
    /// A line with this number, from 1, so many leading blanks, and these bytes.
    pub fn new(number: u32, indent: u32, bytes: &'a [u8]) -> TextLine<'a>
        ensures { result ≡ record { number = number; indent = indent; bytes = bytes.entry.now; words = words_in bytes.entry.now } }
    {
        TextLine {
            number,
            indent,
            bytes,
            from_word: behind_blanks(bytes),
        }
    }

    /// The line with this number and these bytes. Blanks of a number of more than 32 bits give `OutOfMemory`, since no line has so many.
    #[tactic(auto, using(ios_lines::proofs::WordCuts::blanks_counted))]
    pub(crate) fn numbered(number: u32, bytes: &'a [u8]) -> Result<TextLine<'a>, OutOfMemory>
        ensures { IfOk result (λ line. line ≡ numbered_line number bytes.entry.now) }
    {
        let from_word = behind_blanks(bytes);
        let Ok(indent) = u32::try_from(bytes.len() - from_word.len()) else {
            return Err(OutOfMemory);
        };
        Ok(TextLine {
            number,
            indent,
            bytes,
            from_word,
        })
    }

    /// The number of the line, from 1.
    pub fn number(&self) -> u32
        ensures { result ≡ self.now.number }
    {
        self.number
    }

    /// The number of the line, counted from the line of this number.
    pub(crate) fn number_from(&self, first: u32) -> u32
        ensures { result ≡ (counted_from first self.now).number }
    {
        self.number.saturating_sub(first)
    }

    /// How many blanks the line begins with.
    pub fn indent(&self) -> u32
        ensures { result ≡ self.now.indent }
    {
        self.indent
    }

    /// The words of the line.
    #[tactic(auto, using(ios_lines::proofs::WordCuts::words_behind))]
    pub fn words(&self) -> Words<'a>
        ensures { result ≡ self.now.words }
    {
        Words::of(self.from_word)
    }

    /// Whether the first word of the line is this text, which holds no blank.
    #[tactic(auto, using(ios_lines::proofs::WordCuts::none_behind, ios_lines::proofs::WordCuts::words_behind))]
    fn begins_with(&self, text: &[u8]) -> bool
        requires { list_any is_blank text.now ≡ false }
        ensures { result ≡ says self.now.words 0 text.now }
    {
        begins_with(self.from_word, text)
    }

    /// Whether the line opens a banner that doesn't end on it.
    pub fn opens_banner(&self) -> bool
        ensures { result ≡ opens_banner self.now }
    {
        self.begins_with(b"banner") && carets(self.bytes) == 1
    }

    /// Whether the line holds `^C`, which ends a banner.
    pub fn closes_banner(&self) -> bool
        ensures { result ≡ closes_banner self.now }
    {
        carets(self.bytes) > 0
    }

    /// Whether the line has a word, and the first one doesn't begin with `!`.
    #[tactic(auto, using(ios_lines::proofs::WordCuts::word_begins, ios_lines::proofs::WordCuts::no_word))]
    pub fn counts(&self) -> bool
        ensures { result ≡ counts self.now }
    {
        match self.from_word.first() {
            Some(byte) => *byte != b'!',
            None => false,
        }
    }

    /// Whether the line is the word `end` at indent 0.
    pub fn is_end(&self) -> bool
        ensures { result ≡ is_end self.now }
    {
        self.indent == 0 && self.begins_with(b"end") && self.words().lacks(1)
    }

    /// Whether the line begins something that an `end` line has to end.
    pub fn begins_configuration(&self) -> bool
        ensures { result ≡ begins_configuration self.now }
    {
        self.indent == 0
            && (self.begins_with(b"hostname")
                || self.begins_with(b"interface")
                || self.begins_with(b"router"))
    }

    /// Whether the line opens a section whose lines say something: of an interface, or of a process.
    pub fn has_lines(&self) -> bool
        ensures { result ≡ has_lines self.now }
    {
        self.begins_with(b"interface") || self.begins_with(b"router")
    }

    /// Whether the line may say something at indent 0, or end a configuration.
    pub fn may_tell(&self) -> bool
        ensures { result ≡ may_tell self.now }
    {
        self.has_lines() || self.tells_alone()
    }

    /// Whether the line may say something at indent 0 without lines below it, or ends a configuration.
    pub(crate) fn tells_alone(&self) -> bool
        ensures { result ≡ tells_alone self.now }
    {
        self.begins_with(b"hostname") || self.begins_with(b"ip") || self.begins_with(b"end")
    }

    /// Whether the line opens a section and may tell something.
    pub(crate) fn may_begin(&self) -> bool
        ensures { result ≡ may_begin self.now }
    {
        self.opens_section() && self.may_tell()
    }

    /// Whether the line, of an interface, may say something of it.
    pub(crate) fn may_concern_interface(&self) -> bool
        ensures { result ≡ may_concern_interface self.now }
    {
        self.begins_with(b"ip")
            || self.begins_with(b"isis")
            || self.begins_with(b"bandwidth")
            || self.begins_with(b"shutdown")
            || self.begins_with(b"no")
            || self.begins_with(b"vrf")
    }

    /// Whether the line is at indent 0, and so opens a section.
    pub fn opens_section(&self) -> bool
        ensures { result ≡ opens_section self.now }
    {
        self.indent == 0
    }
}

/// How often bytes hold `^C`.
fn carets(bytes: &[u8]) -> usize
    ensures { result ≡ carets bytes.now }
{
    let mut count = 0;
    for (i, byte) in bytes.iter().enumerate() {
        if is_caret(*byte, &bytes[i + 1..]) {
            count += 1;
        }
    }
    count
}

/// Whether `^C` begins with this byte, before these.
fn is_caret(byte: u8, after: &[u8]) -> bool
    ensures { result ≡ is_caret byte after.now }
{
    match after.first() {
        Some(next) => byte == b'^' && *next == b'C',
        None => false,
    }
}
