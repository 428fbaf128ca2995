ghost use Rattle.std.specs.Prelude.{◌≡◌, ◌<◌, ◌≤◌, ◌^◌, length, All, IfNone, IfOk, IfSome, count_by};
ghost use Rattle.net_addr.specs.Blanks.{is_blank};
ghost use Rattle.net_addr.specs.Spans.{bytes_of, LiesIn};
ghost use Rattle.refutation_check.specs.TreeLines.{pieces_of};
ghost use Rattle.refutation_check.specs.steps.Spans.{AreFilled, span_texts};

use net_addr::{OutOfMemory, Span, SpanList, words};
use std::alloc::Global;

/// The bytes of a span.
pub(crate) fn bytes_at(text: &[u8], span: Span) -> &[u8]
    requires { LiesIn text.now span }
    ensures { result.now ≡ bytes_of text.now span }
{
    &text[span.start as usize..span.stop as usize]
}

/// The words of a line, none where they aren't joined by one blank each.
pub(crate) fn words_of_line(
    alloc: Global,
    text: &[u8],
    line: Span,
) -> Result<Option<SpanList>, OutOfMemory>
    requires short { length text.now < 2 ^ 26 }
    requires inside { LiesIn text.now line }
    ensures words { IfOk result (λ found. IfSome found (λ words. span_texts text.now words ≡ pieces_of (bytes_of text.now line))) }
    ensures inside { IfOk result (λ found. IfSome found (All (LiesIn text.now))) }
    ensures filled { IfOk result (λ found. IfSome found (λ words. AreFilled (span_texts text.now words))) }
    ensures none { IfOk result (λ found. IfNone found (AreFilled (pieces_of (bytes_of text.now line)) → ⊥)) }
{
    let words = words(alloc, text, line)?;
    if words.as_slice().len() == blanks_in(bytes_at(text, line)) + 1 {
        Ok(Some(words))
    } else {
        Ok(None)
    }
}

/// How many of some bytes are blanks.
fn blanks_in(bytes: &[u8]) -> usize
    ensures value { result ≡ count_by is_blank bytes.now }
    ensures bound { result ≤ length bytes.now }
{
    bytes
        .iter()
        .filter(|byte| **byte == b' ' || **byte == b'\t')
        .count()
}
