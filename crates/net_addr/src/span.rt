ghost use Rattle.std.specs.Prelude.{◌≡◌};

use std::marker::Model;

/// A part of a text, from the byte at `start` up to and without the byte at `stop`.
#[derive(Clone, Copy, Debug, PartialEq, Eq)]
pub struct Span {
    /// The first byte's place, counted from 0.
    pub start: u32,
    /// The place after the last byte.
    pub stop: u32,
}

/// Spans of a text, in its order.
#[derive(Debug, Drop)]
pub struct SpanList {
    all: Vec<Span>,
}

impl Model for SpanList {
    ghost use Rattle.std.specs.Prelude.{List};
    ghost use Rattle.net_addr.specs.declared.span.Span.{Span};

    ghost Value = { List Span };

    ghost view = { λ x. x.all.items };
}

impl SpanList {
    /// The list with these spans.
    pub fn from_vec(all: Vec<Span>) -> SpanList
        ensures { result ≡ all.items }
    {
        SpanList { all }
    }

    /// The spans of the list.
    pub fn as_slice(&self) -> &[Span]
        ensures { result.now ≡ self.now }
    {
        self.all.as_slice()
    }

    /// The vector of the spans.
    pub fn into_vec(self) -> Vec<Span>
        ensures { result.items ≡ self }
    {
        self.all
    }
}
