ghost use Rattle.std.specs.Prelude.{◌≡◌, ◌≤◌, length, nat_lt};
ghost use Rattle.std.specs.List.{prefix_len};
ghost use Rattle.text_survey.specs.ToldLines.{from_line};

use std::marker::Model;

/// Where a line of a configuration stands.
#[derive(Clone, Copy, Debug, PartialEq, Eq)]
pub enum LinePlace {
    /// At indent 0.
    Top,
    /// Below an interface that is in no VRF.
    Interface,
    /// Below the OSPF process, which is in no VRF.
    Ospf,
    /// Below the IS-IS process.
    Isis,
    /// Below anything else.
    Elsewhere,
}

/// A line of a configuration as it is told: with the first line of its section.
#[derive(Drop)]
pub struct ToldLine<'a> {
    number: u32,
    place: LinePlace,
    head: &'a [u8],
    own: &'a [u8],
}

impl<'a> Model for ToldLine<'a> {
    ghost use Rattle.text_survey.specs.ToldLines.{ToldLine};

    ghost Value = { ToldLine };

    ghost view = { λ l. record { number = l.number; place = l.place; head = l.head.now; own = l.own.now } };
}

impl<'a> ToldLine<'a> {
    ghost use Rattle.text_survey.specs.ToldLines.{line_below, top_line};

    /// A line at indent 0.
    pub(crate) fn top(number: u32, bytes: &'a [u8]) -> ToldLine<'a>
        ensures { result ≡ top_line number bytes.entry.now }
    {
        ToldLine {
            number,
            place: LinePlace::Top,
            head: bytes,
            own: bytes,
        }
    }

    /// A line below one that opens a section.
    pub(crate) fn below(
        place: LinePlace,
        head: &'a [u8],
        number: u32,
        own: &'a [u8],
    ) -> ToldLine<'a>
        ensures { result ≡ line_below place head.entry.now number own.entry.now }
    {
        ToldLine {
            number,
            place,
            head,
            own,
        }
    }

    /// The number of the line, from 1.
    pub fn number(&self) -> u32
        ensures { result ≡ self.now.number }
    {
        self.number
    }

    /// Where it stands.
    pub fn place(&self) -> LinePlace
        ensures { result ≡ self.now.place }
    {
        self.place
    }

    /// The bytes of the first line of its section.
    pub(crate) fn head(&self) -> &'a [u8]
        ensures { result.now ≡ self.now.head }
    {
        self.head
    }

    /// Its own bytes.
    pub(crate) fn own(&self) -> &'a [u8]
        ensures { result.now ≡ self.now.own }
    {
        self.own
    }
}

/// Of some lines those from the first one on whose number isn't below this one.
pub fn from_line<'b, 'a>(lines: &'b [ToldLine<'a>], number: u32) -> &'b [ToldLine<'a>]
    ensures { result.now ≡ from_line number lines.entry.now }
{
    &lines[lower_count(lines, number)..]
}

/// How many lines come before that one.
fn lower_count(lines: &[ToldLine<'_>], number: u32) -> usize
    ensures value { result ≡ prefix_len (λ line. nat_lt line.number number) lines.now }
    ensures bound { result ≤ length lines.now }
{
    lines
        .iter()
        .take_while(|line| line.number() < number)
        .count()
}
