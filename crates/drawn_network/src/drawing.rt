ghost use Rattle.std.specs.Prelude.{◌≡◌, ◌∷◌, ◌++◌, [], IfOk, OnOk, decimal};
ghost use Rattle.printed_lines.specs.Words.{dotted, prefix_word};
ghost use Rattle.drawn_network.specs.Quotes.{escaped, escaped_byte, html, html_byte, quoted};

use crate::OutOfMemory;
use itoa::Buffer;
use net_addr::{Bytes, Prefix};
use std::alloc::Global;
use std::marker::Model;

/// The text of a picture that is being drawn.
#[derive(Drop)]
pub(crate) struct Drawing {
    bytes: Vec<u8>,
}

impl Model for Drawing {
    ghost use Rattle.std.specs.Prelude.{List, ℕ};

    ghost Value = { List ℕ };

    ghost view = { λ x. x.bytes.items };
}

impl Drawing {
    /// A text without a byte.
    pub(crate) fn new(alloc: Global) -> Drawing
        ensures { result ≡ [] }
    {
        Drawing {
            bytes: Vec::new(alloc),
        }
    }

    /// The drawing with some bytes more.
    pub(crate) fn text(self, more: &[u8]) -> Result<Drawing, OutOfMemory>
        ensures { IfOk result (λ drawn. drawn ≡ self ++ more.now) }
    {
        let Drawing { mut bytes } = self;
        bytes.extend_from_slice(more)?;
        Ok(Drawing { bytes })
    }

    /// The drawing with one byte more.
    pub(crate) fn byte(self, more: u8) -> Result<Drawing, OutOfMemory>
        ensures { IfOk result (λ drawn. drawn ≡ self ++ more ∷ []) }
    {
        let Drawing { mut bytes } = self;
        bytes.push(more)?;
        Ok(Drawing { bytes })
    }

    /// The drawing with a number more.
    pub(crate) fn number(self, number: u32) -> Result<Drawing, OutOfMemory>
        ensures { IfOk result (λ drawn. drawn ≡ self ++ decimal number) }
    {
        let mut buffer = Buffer::new();
        self.text(buffer.format(number).as_bytes())
    }

    /// The drawing with a prefix more.
    pub(crate) fn prefix(self, prefix: Prefix) -> Result<Drawing, OutOfMemory>
        ensures { IfOk result (λ drawn. drawn ≡ self ++ prefix_word prefix) }
    {
        self.address(prefix.base())?
            .behind(b'/', u32::from(prefix.len()))
    }

    /// The drawing with an address more, in dotted decimal.
    fn address(self, address: u32) -> Result<Drawing, OutOfMemory>
        ensures { IfOk result (λ drawn. drawn ≡ self ++ dotted address) }
    {
        self.number(address / 16777216)?
            .behind(b'.', address / 65536 % 256)?
            .behind(b'.', address / 256 % 256)?
            .behind(b'.', address % 256)
    }

    /// The drawing with a number behind a mark more.
    fn behind(self, mark: u8, number: u32) -> Result<Drawing, OutOfMemory>
        ensures { IfOk result (λ drawn. drawn ≡ self ++ mark ∷ decimal number) }
    {
        self.byte(mark)?.number(number)
    }

    /// The drawing with a name in its quotes more.
    pub(crate) fn quoted(self, name: &[u8]) -> Result<Drawing, OutOfMemory>
        ensures { IfOk result (λ drawn. drawn ≡ self ++ quoted name.now) }
    {
        self.byte(b'"')?.escaped(name)?.byte(b'"')
    }

    /// The drawing with a text inside quotes more.
    pub(crate) fn escaped(self, text: &[u8]) -> Result<Drawing, OutOfMemory>
        ensures { IfOk result (λ drawn. drawn ≡ self ++ escaped text.now) }
    {
        let mut drawing = self;
        for byte in text {
            drawing = drawing.escaped_byte(*byte)?;
        }
        Ok(drawing)
    }

    /// The drawing with one byte of it more.
    fn escaped_byte(self, byte: u8) -> Result<Drawing, OutOfMemory>
        ensures { IfOk result (λ drawn. drawn ≡ self ++ escaped_byte byte) }
    {
        if byte == b'"' || byte == b'\\' {
            self.byte(b'\\')?.byte(byte)
        } else {
            self.byte(byte)
        }
    }

    /// The drawing with a text in a label of HTML more.
    pub(crate) fn html(self, text: &[u8]) -> Result<Drawing, OutOfMemory>
        ensures { IfOk result (λ drawn. drawn ≡ self ++ html text.now) }
    {
        let mut drawing = self;
        for byte in text {
            drawing = drawing.html_byte(*byte)?;
        }
        Ok(drawing)
    }

    /// The drawing with one byte of it more.
    fn html_byte(self, byte: u8) -> Result<Drawing, OutOfMemory>
        ensures { IfOk result (λ drawn. drawn ≡ self ++ html_byte byte) }
    {
        match byte {
            b'&' => self.text(b"&amp;"),
            b'<' => self.text(b"&lt;"),
            b'>' => self.text(b"&gt;"),
            b'\n' => Ok(self),
            _ => self.byte(byte),
        }
    }

    /// The bytes of the drawing.
    pub(crate) fn finish(self) -> Bytes
        ensures { result ≡ self }
    {
        Bytes::from_vec(self.bytes)
    }
}
