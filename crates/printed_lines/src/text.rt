ghost use Rattle.std.specs.Prelude.{◌≡◌, ◌∷◌, ◌++◌, [], IfOk};

use crate::line::LineBuilder;
use net_addr::Bytes;
use std::alloc::{AllocError, Global};
use std::marker::Model;

/// A text that is being printed: lines, each ended by a line feed.
#[derive(Drop)]
pub struct TextBuilder {
    bytes: Vec<u8>,
}

impl Model for TextBuilder {
    ghost use Rattle.std.specs.Prelude.{List, ℕ};

    ghost Value = { List ℕ };

    ghost view = { λ x. x.bytes.items };
}

impl TextBuilder {
    /// The text without a line.
    pub fn new(alloc: Global) -> TextBuilder
        ensures { result ≡ [] }
    {
        TextBuilder {
            bytes: Vec::new(alloc),
        }
    }

    /// The text with one more line.
    pub fn line(self, line: LineBuilder) -> Result<TextBuilder, AllocError>
        ensures { IfOk result (λ text. text ≡ self ++ line ++ 10 ∷ []) }
    {
        let TextBuilder { mut bytes } = self;
        let line = line.finish()?;
        bytes.extend_from_slice(line.as_slice())?;
        Ok(TextBuilder { bytes })
    }

    /// The bytes of the text.
    pub fn finish(self) -> Bytes
        ensures { result ≡ self }
    {
        Bytes::from_vec(self.bytes)
    }
}
