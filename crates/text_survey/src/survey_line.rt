ghost use Rattle.std.specs.Prelude.{◌≡◌};

use ios_lines::words::Words;
use ios_sections::text_line::TextLine;
use std::marker::Model;

/// A line of a text, with its bytes at hand.
#[derive(Drop)]
pub struct SurveyLine<'a> {
    line: TextLine<'a>,
    bytes: &'a [u8],
}

impl<'a> Model for SurveyLine<'a> {
    ghost use Rattle.std.specs.Prelude.{◌≡◌};
    ghost use Rattle.ios_sections.specs.TextLines.{TextLine};

    ghost Value = { TextLine };

    ghost view = { λ l. l.line };

    ghost invariant = { λ l. l.bytes.now ≡ l.line.bytes };
}

impl<'a> SurveyLine<'a> {
    ghost use Rattle.net_addr.specs.Blanks.{words_in};
    ghost use Rattle.ios_sections.specs.TextLines.{closes_banner, counts, is_end, opens_banner, opens_section};
    ghost use Rattle.ios_sections.specs.TellingLines.{has_lines};

    /// A line with this number, from 1, so many leading blanks, and these bytes.
    pub(crate) fn new(number: u32, indent: u32, bytes: &'a [u8]) -> SurveyLine<'a>
        ensures { result ≡ record { number = number; indent = indent; bytes = bytes.entry.now; words = words_in bytes.entry.now } }
    {
        SurveyLine {
            line: TextLine::new(number, indent, bytes),
            bytes,
        }
    }

    /// The number of the line, from 1.
    pub fn number(&self) -> u32
        ensures { result ≡ self.now.number }
    {
        self.line.number()
    }

    /// How many blanks the line begins with.
    pub(crate) fn indent(&self) -> u32
        ensures { result ≡ self.now.indent }
    {
        self.line.indent()
    }

    /// The bytes of the line.
    pub(crate) fn bytes(&self) -> &'a [u8]
        ensures { result.now ≡ self.now.bytes }
    {
        self.bytes
    }

    /// The words of the line.
    pub(crate) fn words(&self) -> Words<'a>
        ensures { result ≡ self.now.words }
    {
        self.line.words()
    }

    /// Whether the line opens a banner that doesn't end on it.
    pub(crate) fn opens_banner(&self) -> bool
        ensures { result ≡ opens_banner self.now }
    {
        self.line.opens_banner()
    }

    /// Whether the line ends a banner.
    pub(crate) fn closes_banner(&self) -> bool
        ensures { result ≡ closes_banner self.now }
    {
        self.line.closes_banner()
    }

    /// Whether the line has a word, and is no comment.
    pub(crate) fn counts(&self) -> bool
        ensures { result ≡ counts self.now }
    {
        self.line.counts()
    }

    /// Whether the line ends a configuration.
    pub(crate) fn is_end(&self) -> bool
        ensures { result ≡ is_end self.now }
    {
        self.line.is_end()
    }

    /// Whether the line is at indent 0, and so opens a section.
    pub(crate) fn opens_section(&self) -> bool
        ensures { result ≡ opens_section self.now }
    {
        self.line.opens_section()
    }

    /// Whether the first word of the line is `interface` or `router`.
    pub(crate) fn has_lines(&self) -> bool
        ensures { result ≡ has_lines self.now }
    {
        self.line.has_lines()
    }
}
