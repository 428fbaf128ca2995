ghost use Rattle.std.specs.Prelude.{◌≡◌, ◌≢◌, ◌<◌, ◌≤◌, ℕ, List, ◌∷◌, [], ◌↔◌, All, codes, length, IfNone, IfSome, IsTrue, MatchOption};
ghost use Rattle.net_addr.specs.Spans.{LiesIn};
ghost use Rattle.order_core.specs.declared.turn.Tag.{Tag};
ghost use Rattle.plan_theory.specs.declared.items.Items.{Items};
ghost use Rattle.plan_theory.specs.Numbers.{IsNumberWord};
ghost use Rattle.refutation_check.specs.TreeLines.{HasForm, IsBranchLine, IsEntry, IsSomeEntry, letter_of};
ghost use Rattle.refutation_check.specs.steps.Shapes.{IsShape};
ghost use Rattle.refutation_check.specs.steps.Spans.{AreFilled, span_texts};

use crate::spans::bytes_at;
use net_addr::{Span, read_addr};
use order_core::Tag;
use plan_theory::{Items, is_number_word};

/// What a line is by its words, before its names are looked up.
#[derive(Clone, Copy, Debug)]
pub(crate) enum Shape<'a> {
    /// A branch.
    Branch {
        /// Its address.
        address: u32,
        /// Its entries, at least two.
        entries: &'a [Span],
    },
    /// A leaf, with its names, at least two.
    Leaf {
        /// Its names, at least two.
        names: &'a [Span],
    },
    /// An unvisited place.
    Open,
}

/// The shape of the words of a line, none where they haven't the form of a node.
pub(crate) fn shape_of<'a>(items: Items, text: &[u8], words: &'a [Span]) -> Option<Shape<'a>>
    requires inside { All (LiesIn text.now) words.now }
    requires filled { AreFilled (span_texts text.now words.now) }
    ensures { MatchOption result
        (HasForm items (span_texts text.now words.now) → ⊥)
        (IsShape items text.now (span_texts text.now words.now)) }
{
    let (first, others) = words.split_first()?;
    let word = bytes_at(text, *first);
    if is_text(word, b"branch") {
        branch_shape(text, others)
    } else if is_text(word, b"leaf") {
        leaf_shape(items, text, others)
    } else if is_text(word, b"open") {
        open_shape(others)
    } else {
        None
    }
}

/// Whether a word is this text.
pub(crate) fn is_text(word: &[u8], text: &[u8]) -> bool
    ensures { IsTrue result ↔ (word.now ≡ text.now) }
{
    word == text
}

/// The unvisited place, where no word stands behind the first one.
fn open_shape<'a>(others: &'a [Span]) -> Option<Shape<'a>>
    ensures none { IfNone result (others.now ≢ []) }
    ensures some { IfSome result (λ shape. (shape ≡ Shape.Open) × (others.now ≡ [])) }
{
    if others.is_empty() {
        Some(Shape::Open)
    } else {
        None
    }
}

/// The branch with these words behind its first one.
fn branch_shape<'a>(text: &[u8], others: &'a [Span]) -> Option<Shape<'a>>
    requires { All (LiesIn text.now) others.now }
    ensures none { IfNone result ((a : ℕ) (entries : List (List ℕ)) → IsBranchLine (codes "branch" ∷ span_texts text.now others.now) a entries →
        All IsSomeEntry entries → ⊥) }
    ensures some { IfSome result (λ shape. (items : Items) → IsShape items text.now (codes "branch" ∷ span_texts text.now others.now) shape) }
{
    let (address, entries) = others.split_first()?;
    let address = read_addr(bytes_at(text, *address))?;
    if entries.len() < 2 || !are_entries(text, entries) {
        return None;
    }
    Some(Shape::Branch { address, entries })
}

/// The leaf with these words behind its first one, where they are two or more words of numbers.
fn leaf_shape<'a>(items: Items, text: &[u8], others: &'a [Span]) -> Option<Shape<'a>>
    requires { All (LiesIn text.now) others.now }
    ensures none { IfNone result ((2 ≤ length others.now) → All (IsNumberWord items) (span_texts text.now others.now) → ⊥) }
    ensures some { IfSome result (λ shape. (shape ≡ Shape.Leaf others.entry) × (2 ≤ length others.now)) }
    ensures filled { IfSome result (λ _. All (IsNumberWord items) (span_texts text.now others.now)) }
{
    if others.len() < 2 || !are_number_words(items, text, others) {
        return None;
    }
    Some(Shape::Leaf { names: others })
}

/// Whether each word has the form of a number's.
pub(crate) fn are_number_words(items: Items, text: &[u8], words: &[Span]) -> bool
    requires { All (LiesIn text.now) words.now }
    ensures { IsTrue result ↔ All (IsNumberWord items) (span_texts text.now words.now) }
{
    for word in words {
        if !is_number_word(items, bytes_at(text, *word)) {
            return false;
        }
    }
    true
}

/// Whether each word is an entry of a branch.
fn are_entries(text: &[u8], words: &[Span]) -> bool
    requires { All (LiesIn text.now) words.now }
    ensures { IsTrue result ↔ All IsSomeEntry (span_texts text.now words.now) }
{
    for word in words {
        if !is_entry(bytes_at(text, *word)) {
            return false;
        }
    }
    true
}

/// Whether a word is an entry of a branch.
fn is_entry(word: &[u8]) -> bool
    ensures { IsTrue result ↔ IsSomeEntry word.now }
{
    match split_entry(word) {
        Some(_) => true,
        None => false,
    }
}

/// The name and the tag of an entry, none where the word is no entry.
pub(crate) fn split_entry(word: &[u8]) -> Option<(&[u8], Tag)>
    ensures { MatchOption result (IsSomeEntry word.now → ⊥) (λ cut. IsEntry word.now cut.0.now cut.1) }
{
    match word {
        [] | [_] | [_, _] => None,
        [name @ .., colon, letter] => {
            if *colon != b':' {
                return None;
            }
            let tag = tag_of(*letter)?;
            Some((name, tag))
        }
    }
}

/// The tag of a letter.
fn tag_of(letter: u8) -> Option<Tag>
    ensures { MatchOption result ((tag : Tag) → letter_of tag ≢ letter) (λ tag. letter_of tag ≡ letter) }
{
    match letter {
        b'O' => Some(Tag::Old),
        b'N' => Some(Tag::New),
        b'B' => Some(Tag::Both),
        _ => None,
    }
}
