ghost use Rattle.std.specs.Prelude.{◌≡◌, ◌↔◌, length, map, nat_lt, All, IfOk, IsTrue, MatchOption, List, ℕ};
ghost use Rattle.std.specs.List.{list_all, slice_split};
ghost use Rattle.net_addr.specs.Blanks.{is_blank};
ghost use Rattle.step_scripts.specs.WaveLines.{are_names, named_pieces, names_behind};
ghost use Rattle.change_orders.specs.ChangeWords.{IsChangeWord};
ghost use Rattle.change_orders.specs.TwoFaults.{SaysChanges};

use crate::items::is_change_word;
use std::alloc::{AllocError, Global};
use std::marker::Model;

/// Words of a line, in its order.
#[derive(Drop)]
pub(crate) struct LineWords<'a> {
    all: Vec<&'a [u8]>,
}

impl<'a> Model for LineWords<'a> {
    ghost use Rattle.std.specs.Prelude.{List, ℕ, map};

    ghost Value = { List (List ℕ) };

    ghost view = { λ words. map (λ word. word.now) words.all.items };
}

impl<'a> LineWords<'a> {
    /// The words of a vector, in its order.
    fn from_vec(all: Vec<&'a [u8]>) -> LineWords<'a>
        ensures { result ≡ map (λ word. word.now) all.entry.items }
    {
        LineWords { all }
    }

    /// The words.
    pub fn as_slice(&self) -> &[&'a [u8]]
        ensures { map (λ word. word.now) result.now ≡ self.now }
    {
        self.all.as_slice()
    }
}

/// What a line says that is this word and one or more words of changes, joined by one blank each.
pub(crate) fn changes_behind<'a>(
    alloc: Global,
    word: &[u8],
    line: &'a [u8],
) -> Result<Option<LineWords<'a>>, AllocError>
    ensures { IfOk result (λ found. MatchOption found
        ((words : List (List ℕ)) → SaysChanges word.now line.now words → ⊥)
        (SaysChanges word.now line.now)) }
{
    let Some(words) = words_behind(alloc, word, line)? else {
        return Ok(None);
    };
    if are_changes(words.as_slice()) {
        Ok(Some(words))
    } else {
        Ok(None)
    }
}

/// Whether each of these is the word of a change.
fn are_changes(words: &[&[u8]]) -> bool
    ensures { IsTrue result ↔ All (λ word. IsChangeWord word.now) words.now }
{
    words.iter().all(|word| is_change_word(word))
}

/// What stands behind this word on a line of words joined by one blank each.
fn words_behind<'a>(
    alloc: Global,
    word: &[u8],
    line: &'a [u8],
) -> Result<Option<LineWords<'a>>, AllocError>
    ensures { IfOk result (λ words. words ≡ names_behind word.now line.now) }
{
    let pieces = pieces_of(alloc, line)?;
    named_pieces(alloc, word, pieces.as_slice())
}

/// The pieces of a line between its blanks.
fn pieces_of(alloc: Global, line: &[u8]) -> Result<LineWords<'_>, AllocError>
    ensures { IfOk result (λ pieces. pieces ≡ slice_split is_blank line.now) }
{
    let all = cut(alloc, line)?;
    Ok(LineWords::from_vec(all))
}

/// A line cut at its blanks.
fn cut(alloc: Global, line: &[u8]) -> Result<Vec<&[u8]>, AllocError>
    ensures { IfOk result (λ pieces. map (λ piece. piece.now) pieces.items ≡ slice_split is_blank line.now) }
{
    line.split(|byte| *byte == b' ' || *byte == b'\t')
        .collect(alloc)
}

/// What stands behind this word among some pieces, where each has a byte or more.
fn named_pieces<'a>(
    alloc: Global,
    word: &[u8],
    pieces: &[&'a [u8]],
) -> Result<Option<LineWords<'a>>, AllocError>
    ensures { IfOk result (λ words. words ≡ named_pieces word.now (map (λ piece. piece.now) pieces.now)) }
{
    match pieces.split_first() {
        Some((first, words)) if *first == word && are_names(words) => {
            Ok(Some(LineWords::from_vec(Vec::from_slice(alloc, words)?)))
        }
        _ => Ok(None),
    }
}

/// Whether there is a piece or more, and each has a byte or more.
fn are_names(pieces: &[&[u8]]) -> bool
    ensures { result ≡ are_names (map (λ piece. piece.now) pieces.now) }
{
    !pieces.is_empty() && each_has_bytes(pieces)
}

/// Whether each piece has a byte or more.
fn each_has_bytes(pieces: &[&[u8]]) -> bool
    ensures { result ≡ list_all (λ piece. nat_lt 0 (length piece.now)) pieces.now }
{
    pieces.iter().all(|piece| !piece.is_empty())
}
