ghost use Rattle.std.specs.Prelude.{◌≡◌, [], ◌∷◌, IfOk, length, map, nat_lt};
ghost use Rattle.std.specs.List.{list_all, slice_split};
ghost use Rattle.net_addr.specs.Blanks.{is_blank};
ghost use Rattle.step_scripts.specs.WaveLines.{are_names, chain_on, named_pieces, names_behind, wave_on};

use crate::Version;
use std::alloc::{AllocError, Global};
use std::marker::Model;

/// Pieces of a line, in its order.
#[derive(Drop)]
pub(crate) struct Names<'a> {
    all: Vec<&'a [u8]>,
}

impl<'a> Model for Names<'a> {
    ghost use Rattle.std.specs.Prelude.{List, ℕ, map};

    ghost Value = { List (List ℕ) };

    ghost view = { λ names. map (λ name. name.now) names.all.items };
}

impl<'a> Names<'a> {
    /// The pieces of a vector, in its order.
    fn from_vec(all: Vec<&'a [u8]>) -> Names<'a>
        ensures { result ≡ map (λ name. name.now) all.entry.items }
    {
        Names { all }
    }

    /// The pieces.
    pub fn as_slice(&self) -> &[&'a [u8]]
        ensures { map (λ name. name.now) result.now ≡ self.now }
    {
        self.all.as_slice()
    }
}

/// The names of the wave on a line, where it is one.
pub(crate) fn wave_on<'a>(
    alloc: Global,
    version: Version,
    line: &'a [u8],
) -> Result<Option<Names<'a>>, AllocError>
    ensures { IfOk result (λ names. names ≡ wave_on version line.now) }
{
    match version {
        Version::One => Ok(Some(only(alloc, line)?)),
        Version::Two => names_behind(alloc, b"wave", line),
    }
}

/// The names of the chain on a line, where it is one.
pub(crate) fn chain_on<'a>(
    alloc: Global,
    version: Version,
    line: &'a [u8],
) -> Result<Option<Names<'a>>, AllocError>
    ensures { IfOk result (λ names. names ≡ chain_on version line.now) }
{
    match version {
        Version::One => Ok(None),
        Version::Two => names_behind(alloc, b"chain", line),
    }
}

/// One name alone.
fn only(alloc: Global, name: &[u8]) -> Result<Names<'_>, AllocError>
    ensures { IfOk result (λ names. names ≡ name.now ∷ []) }
{
    let mut all = Vec::new(alloc);
    all.push(name)?;
    Ok(Names::from_vec(all))
}

/// The names of a line that is this word and one or more names, joined by one blank each.
fn names_behind<'a>(
    alloc: Global,
    word: &[u8],
    line: &'a [u8],
) -> Result<Option<Names<'a>>, AllocError>
    ensures { IfOk result (λ names. names ≡ names_behind word.now line.now) }
{
    let pieces = pieces_of(alloc, line)?;
    named_pieces(alloc, word, pieces.as_slice())
}

/// The pieces of a line between its blanks.
fn pieces_of(alloc: Global, line: &[u8]) -> Result<Names<'_>, AllocError>
    ensures { IfOk result (λ pieces. pieces ≡ slice_split is_blank line.now) }
{
    let all = cut(alloc, line)?;
    Ok(Names::from_vec(all))
}

/// A line cut at its blanks.
fn cut(alloc: Global, line: &[u8]) -> Result<Vec<&[u8]>, AllocError>
    ensures { IfOk result (λ pieces. map (λ piece. piece.now) pieces.items ≡ slice_split is_blank line.now) }
{
    line.split(|byte| *byte == b' ' || *byte == b'\t')
        .collect(alloc)
}

/// What stands behind this word among some pieces, where they are names.
fn named_pieces<'a>(
    alloc: Global,
    word: &[u8],
    pieces: &[&'a [u8]],
) -> Result<Option<Names<'a>>, AllocError>
    ensures { IfOk result (λ names. names ≡ named_pieces word.now (map (λ piece. piece.now) pieces.now)) }
{
    match pieces.split_first() {
        Some((first, names)) if *first == word && are_names(names) => {
            Ok(Some(Names::from_vec(Vec::from_slice(alloc, names)?)))
        }
        _ => Ok(None),
    }
}

/// Whether there is a name or more, and each has a byte or more.
fn are_names(names: &[&[u8]]) -> bool
    ensures { result ≡ are_names (map (λ name. name.now) names.now) }
{
    !names.is_empty() && each_has_bytes(names)
}

/// Whether each piece has a byte or more.
fn each_has_bytes(pieces: &[&[u8]]) -> bool
    ensures { result ≡ list_all (λ piece. nat_lt 0 (length piece.now)) pieces.now }
{
    pieces.iter().all(|piece| !piece.is_empty())
}
