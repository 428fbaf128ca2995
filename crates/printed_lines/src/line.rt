ghost use Rattle.std.specs.Prelude.{◌≡◌, ◌∷◌, ◌++◌, [], IfOk, decimal};
ghost use Rattle.printed_lines.specs.Words.{dotted, prefix_word};

use itoa::Buffer;
use net_addr::{Bytes, Prefix};
use std::alloc::{AllocError, Global};
use std::marker::Model;

/// A line that is being printed: words with one blank between each and the next, and maybe a blank before the first.
#[derive(Drop)]
pub struct LineBuilder {
    bytes: Vec<u8>,
}

impl Model for LineBuilder {
    ghost use Rattle.std.specs.Prelude.{List, ℕ};

    ghost Value = { List ℕ };

    ghost view = { λ x. x.bytes.items };
}

impl LineBuilder {
    /// The line that begins with this word.
    pub fn start(alloc: Global, word: &[u8]) -> Result<LineBuilder, AllocError>
        ensures { IfOk result (λ line. line ≡ word.now) }
    {
        let bytes = Vec::from_slice(alloc, word)?;
        Ok(LineBuilder { bytes })
    }

    /// The line of a section, which begins with a blank and this word.
    pub fn indented(alloc: Global, word: &[u8]) -> Result<LineBuilder, AllocError>
        ensures { IfOk result (λ line. line ≡ 32 ∷ word.now) }
    {
        let bytes = Vec::new(alloc);
        LineBuilder { bytes }.word(word)
    }

    /// The line with one more word.
    pub fn word(self, word: &[u8]) -> Result<LineBuilder, AllocError>
        ensures { IfOk result (λ line. line ≡ self ++ 32 ∷ word.now) }
    {
        self.attach(b' ', word)
    }

    /// The line with one more word, a number.
    pub fn number(self, number: u64) -> Result<LineBuilder, AllocError>
        ensures { IfOk result (λ line. line ≡ self ++ 32 ∷ decimal number) }
    {
        self.attach_number(b' ', number)
    }

    /// The line with one more word, an address in dotted decimal.
    pub fn address(self, address: u32) -> Result<LineBuilder, AllocError>
        ensures { IfOk result (λ line. line ≡ self ++ 32 ∷ dotted address) }
    {
        let address = u64::from(address);
        self.attach_number(b' ', address / 16777216)?
            .attach_number(b'.', address / 65536 % 256)?
            .attach_number(b'.', address / 256 % 256)?
            .attach_number(b'.', address % 256)
    }

    /// The line with one more word, a prefix.
    pub fn prefix(self, prefix: Prefix) -> Result<LineBuilder, AllocError>
        ensures { IfOk result (λ line. line ≡ self ++ 32 ∷ prefix_word prefix) }
    {
        self.address(prefix.base())?
            .attach_number(b'/', u64::from(prefix.len()))
    }

    /// The line with a mark and some bytes more at the end of its last word, as `:O` behind the name of a router.
    pub fn attach(self, mark: u8, more: &[u8]) -> Result<LineBuilder, AllocError>
        ensures { IfOk result (λ line. line ≡ self ++ mark ∷ more.now) }
    {
        let LineBuilder { mut bytes } = self;
        bytes.push(mark)?;
        bytes.extend_from_slice(more)?;
        Ok(LineBuilder { bytes })
    }

    /// The text of this one line: its bytes with a line feed at their end.
    pub fn finish(self) -> Result<Bytes, AllocError>
        ensures { IfOk result (λ text. text ≡ self ++ 10 ∷ []) }
    {
        let LineBuilder { mut bytes } = self;
        bytes.push(b'\n')?;
        Ok(Bytes::from_vec(bytes))
    }

    /// The line with a mark and a number more at the end of its last word.
    fn attach_number(self, mark: u8, number: u64) -> Result<LineBuilder, AllocError>
        ensures { IfOk result (λ line. line ≡ self ++ mark ∷ decimal number) }
    {
        let mut buffer = Buffer::new();
        self.attach(mark, buffer.format(number).as_bytes())
    }
}
