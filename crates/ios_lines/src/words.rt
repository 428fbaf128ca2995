ghost use Rattle.std.specs.Prelude.{◌≡◌, ◌+◌, ◌≤◌, false, drop, length, IfSome, IfOk, bytes_eq};
ghost use Rattle.std.specs.List.{list_any, position_or_len, prefix_len};
ghost use Rattle.net_addr.specs.Blanks.{is_blank, words_in};
ghost use Rattle.ios_lines.specs.Words.{word_at, says, begins_with_two, begins_with_three, lacks, number_of, number_from};
ghost use Rattle.ios_lines.specs.Blanks.{without_blanks};
ghost use Rattle.ios_lines.specs.steps.WordEnds.{is_low};
ghost use Rattle.ios_lines.specs.Words.{area_of, levels_of, is_printable, is_letter};

use crate::OutOfMemory;
use crate::kind::ReadKind;
use crate::octets::address_of;
use net_addr::{Name, read_number};
use net_model::Levels;
use std::alloc::Global;
use std::marker::Model;

/// The words of a line, in order, without memory.
///
/// The first five are cut off in one pass over the line. A further one is counted off behind them each time.
#[derive(Debug, Drop)]
pub struct Words<'a> {
    line: &'a [u8],
    first: &'a [u8],
    second: &'a [u8],
    third: &'a [u8],
    fourth: &'a [u8],
    fifth: &'a [u8],
    behind_fifth: &'a [u8],
}

impl<'a> Model for Words<'a> {
    ghost use Rattle.std.specs.Prelude.{◌≡◌, List, ℕ, drop};
    ghost use Rattle.net_addr.specs.Blanks.{words_in};
    ghost use Rattle.ios_lines.specs.Words.{word_at};

    ghost Value = { List (List ℕ) };

    ghost view = { λ w. words_in w.line.now };

    ghost invariant = { λ w. (w.first.now ≡ word_at (words_in w.line.now) 0) × (w.second.now ≡ word_at (words_in w.line.now) 1)
        × (w.third.now ≡ word_at (words_in w.line.now) 2) × (w.fourth.now ≡ word_at (words_in w.line.now) 3)
        × (w.fifth.now ≡ word_at (words_in w.line.now) 4) × (words_in w.behind_fifth.now ≡ drop 5 (words_in w.line.now)) };
}

impl<'a> Words<'a> {
    /// The words of a line: the longest pieces without spaces and tabs.
    pub fn of(line: &'a [u8]) -> Words<'a>
        ensures { result ≡ words_in line.entry.now }
    {
        let (first, behind_first) = cut_word(line);
        let (second, behind_second) = cut_word(behind_first);
        let (third, behind_third) = cut_word(behind_second);
        if behind_third.is_empty() {
            return Words {
                line,
                first,
                second,
                third,
                fourth: behind_third,
                fifth: behind_third,
                behind_fifth: behind_third,
            };
        }
        let (fourth, behind_fourth) = cut_word(behind_third);
        let (fifth, behind_fifth) = cut_word(behind_fourth);
        Words {
            line,
            first,
            second,
            third,
            fourth,
            fifth,
            behind_fifth,
        }
    }

    /// The word at a place, empty where the line has fewer words.
    pub fn at(&self, k: usize) -> &[u8]
        ensures { result.now ≡ word_at self.now k }
    {
        match k {
            0 => self.first,
            1 => self.second,
            2 => self.third,
            3 => self.fourth,
            4 => self.fifth,
            _ => nth_word(self.behind_fifth, k - 5),
        }
    }

    /// Whether the word at a place is this text.
    pub fn says(&self, k: usize, text: &[u8]) -> bool
        ensures { result ≡ says self.now k text.now }
    {
        self.at(k) == text
    }

    /// Whether the line begins with these two words.
    pub fn begins_with_two(&self, one: &[u8], two: &[u8]) -> bool
        ensures { result ≡ begins_with_two self.now one.now two.now }
    {
        self.says(0, one) && self.says(1, two)
    }

    /// Whether the line begins with these three words.
    pub fn begins_with_three(&self, one: &[u8], two: &[u8], three: &[u8]) -> bool
        ensures { result ≡ begins_with_three self.now one.now two.now three.now }
    {
        self.begins_with_two(one, two) && self.says(2, three)
    }

    /// Whether the line has no word at a place.
    pub fn lacks(&self, k: usize) -> bool
        ensures { result ≡ lacks self.now k }
    {
        self.at(k).is_empty()
    }
}

/// Whether the byte is a space or a tab.
fn is_blank(byte: u8) -> bool
    ensures { result ≡ is_blank byte }
{
    byte == b' ' || byte == b'\t'
}

/// How many blanks some bytes begin with.
fn blank_count(bytes: &[u8]) -> usize
    ensures value { result ≡ prefix_len is_blank bytes.now }
    ensures bound { result ≤ length bytes.now }
{
    bytes.iter().take_while(|byte| is_blank(**byte)).count()
}

/// The bytes without the blanks that they begin with. Most begin with none, and are told by their first byte.
#[tactic(auto, using(crate::proofs::WordCuts::blanks_cut))]
pub fn behind_blanks(bytes: &[u8]) -> &[u8]
    ensures { result.now ≡ without_blanks bytes.now }
{
    match bytes {
        [first, ..] if is_low(*first) => &bytes[blank_count(bytes)..],
        _ => bytes,
    }
}

/// Whether the byte is a space or a control character below it.
fn is_low(byte: u8) -> bool
    ensures { result ≡ is_low byte }
{
    byte <= b' '
}

/// How many bytes stand before the first low one, one after the other.
#[inline(always)]
fn len_to_low(bytes: &[u8]) -> usize
    ensures value { result ≡ position_or_len is_low bytes.now }
    ensures bound { result ≤ length bytes.now }
{
    bytes.iter().take_while(|byte| !is_low(**byte)).count()
}

/// How many bytes stand before the first low one: all of them where there is none. Four are looked at for each test of what
/// is left.
#[inline(always)]
fn low_len(bytes: &[u8]) -> usize
    ensures value { result ≡ position_or_len is_low bytes.now }
    ensures bound { result ≤ length bytes.now }
{
    let mut rest = bytes;
    let mut len = 0;
    while let [one, two, three, four, tail @ ..] = rest {
        if is_low(*one) {
            return len;
        }
        if is_low(*two) {
            return len + 1;
        }
        if is_low(*three) {
            return len + 2;
        }
        if is_low(*four) {
            return len + 3;
        }
        len += 4;
        rest = tail;
    }
    len + len_to_low(rest)
}

/// How many bytes stand before the first blank, where other control characters may stand before it.
fn len_to_blank(bytes: &[u8]) -> usize
    ensures value { result ≡ position_or_len is_blank bytes.now }
    ensures bound { result ≤ length bytes.now }
{
    bytes.iter().take_while(|byte| !is_blank(**byte)).count()
}

/// How many bytes stand before the first blank: all of them where there is none.
#[inline(always)]
#[tactic(auto, using(crate::proofs::WordCuts::low_is_blank, crate::proofs::WordCuts::none_is_blank))]
fn word_len(bytes: &[u8]) -> usize
    ensures value { result ≡ position_or_len is_blank bytes.now }
    ensures bound { result ≤ length bytes.now }
{
    let len = low_len(bytes);
    match bytes.get(len) {
        None => len,
        Some(b' ') => len,
        Some(_) => len_to_blank(bytes),
    }
}

/// What stands behind the byte at a place; nothing where the bytes end there.
fn behind(bytes: &[u8], place: usize) -> &[u8]
    requires { place ≤ length bytes.now }
    ensures { result.now ≡ drop (place + 1) bytes.now }
{
    if place < bytes.len() {
        &bytes[place + 1..]
    } else {
        &bytes[place..]
    }
}

/// The first word of some bytes, empty where they have none, and what stands behind it and the blank after it.
#[inline(always)]
fn cut_word(bytes: &[u8]) -> (&[u8], &[u8])
    ensures word { result.0.now ≡ word_at (words_in bytes.now) 0 }
    ensures behind { words_in result.1.now ≡ drop 1 (words_in bytes.now) }
{
    let bytes = behind_blanks(bytes);
    let len = word_len(bytes);
    (&bytes[..len], behind(bytes, len))
}

/// Whether the first word of some bytes, which begin with no blank, is this text, which holds none.
#[inline(always)]
pub fn begins_with(bytes: &[u8], text: &[u8]) -> bool
    requires bare { without_blanks bytes.now ≡ bytes.now }
    requires one_word { list_any is_blank text.now ≡ false }
    ensures { result ≡ says (words_in bytes.now) 0 text.now }
{
    bytes.starts_with(text) && (text.len() == bytes.len() || is_blank(bytes[text.len()]))
}

/// The first word of some bytes, empty where they have none.
fn first_word(bytes: &[u8]) -> &[u8]
    ensures { result.now ≡ word_at (words_in bytes.now) 0 }
{
    cut_word(bytes).0
}

/// The word at a place among those of some bytes, empty where they have fewer.
fn nth_word(bytes: &[u8], k: usize) -> &[u8]
    ensures { result.now ≡ word_at (words_in bytes.now) k }
{
    let mut rest = bytes;
    let mut left = k;
    while left > 0 {
        rest = cut_word(rest).1;
        left -= 1;
    }
    first_word(rest)
}

/// The number for which a word stands, at most `most`.
fn number_of(word: &[u8], most: u32) -> Option<u32>
    ensures value { result ≡ number_of most word.now }
    ensures within { IfSome result (λ n. n ≤ most) }
{
    let number = wide_number_of(word, u64::from(most))?;
    Some(number as u32)
}

/// The number for which a word stands, at most `most`.
#[tactic(auto, using(crate::proofs::NumberFacts::number_read))]
fn wide_number_of(word: &[u8], most: u64) -> Option<u64>
    ensures value { result ≡ number_of most word.now }
    ensures within { IfSome result (λ n. n ≤ most) }
{
    read_number(word, most)
}

/// A number from `least` to `most`, or the fault of a word that is none.
pub(crate) fn number_from(
    word: &[u8],
    least: u32,
    most: u32,
    kind: ReadKind,
) -> Result<u32, ReadKind>
    ensures value { result ≡ number_from least most kind word.now }
    ensures least { IfOk result (λ n. least ≤ n) }
    ensures most { IfOk result (λ n. n ≤ most) }
{
    match number_of(word, most) {
        Some(number) if least <= number => Ok(number),
        _ => Err(kind),
    }
}

/// The number of an area, written as a number or as an address.
pub(crate) fn area_of(word: &[u8]) -> Option<u32>
    ensures { result ≡ area_of word.now }
{
    match number_of(word, u32::MAX) {
        Some(area) => Some(area),
        None => address_of(word),
    }
}

/// A level as `is-type` and `isis circuit-type` write it.
pub(crate) fn levels_of(word: &[u8]) -> Result<Levels, ReadKind>
    ensures { result ≡ levels_of word.now }
{
    if is_text(word, b"level-1") {
        return Ok(Levels::One);
    }
    if is_text(word, b"level-2-only") {
        return Ok(Levels::Two);
    }
    if is_text(word, b"level-1-2") {
        return Ok(Levels::Both);
    }
    Err(ReadKind::BadLevel)
}

/// Whether a byte is neither a blank nor a control character, from `!` to `~`.
pub(crate) fn is_printable(byte: u8) -> bool
    ensures { result ≡ is_printable byte }
{
    byte.is_ascii_graphic()
}

/// Whether a byte is a letter of the alphabet.
pub fn is_letter(byte: u8) -> bool
    ensures { result ≡ is_letter byte }
{
    byte.is_ascii_alphabetic()
}

/// A word as a name.
pub fn name_of(alloc: Global, word: &[u8]) -> Result<Name, OutOfMemory>
    ensures { IfOk result (λ name. name ≡ word.now) }
{
    Ok(Name::from_vec(Vec::from_slice(alloc, word)?))
}

/// Whether a word is this text.
pub fn is_text(word: &[u8], text: &[u8]) -> bool
    ensures { result ≡ bytes_eq word.now text.now }
{
    word == text
}
