ghost use Rattle.std.specs.Prelude.{◌≡◌, ◌<◌, ◌≤◌, ◌^◌, [], ◌∷◌, ◌++◌, filter, length, map, All, IfOk};
ghost use Rattle.std.specs.List.{position_or_len};
ghost use Rattle.net_addr.specs.Blanks.{is_blank, word_spans, words_in};
ghost use Rattle.net_addr.specs.Spans.{bytes_of, has_bytes, LiesIn};

use crate::blank::is_blank;
use crate::span::{Span, SpanList};
use std::alloc::{AllocError as OutOfMemory, Global};

/// The words in a span of a text: the longest pieces without spaces and tabs. The only error is want of memory.
pub fn words(alloc: Global, text: &[u8], span: Span) -> Result<SpanList, OutOfMemory>
    requires short { length text.now < 2 ^ 26 }
    requires inside { LiesIn text.now span }
    ensures exact { IfOk result (λ all. all ≡ word_spans text.now span) }
    ensures inside { IfOk result (All (LiesIn text.now)) }
    ensures texts { IfOk result (λ all. map (bytes_of text.now) all ≡ words_in (bytes_of text.now span)) }
{
    let mut all = Vec::new(alloc);
    let mut start = span.start;
    while start < span.stop {
        let stop = start + word_len(&text[start as usize..span.stop as usize]) as u32;
        push_word(&mut all, Span { start, stop })?;
        start = stop + 1;
    }
    Ok(SpanList::from_vec(all))
}

/// How many bytes stand before the first blank: all of them where there is none.
fn word_len(bytes: &[u8]) -> usize
    ensures value { result ≡ position_or_len is_blank bytes.now }
    ensures bound { result ≤ length bytes.now }
{
    bytes.iter().take_while(|byte| !is_blank(**byte)).count()
}

/// Takes in a piece between blanks, where it isn't empty.
fn push_word(all: &mut Vec<Span>, piece: Span) -> Result<(), OutOfMemory>
    ensures { IfOk result (λ _. all.new.items ≡ all.old.items ++ filter has_bytes (piece ∷ [])) }
{
    if piece.start < piece.stop {
        all.push(piece)?;
    }
    Ok(())
}
