ghost use Rattle.std.specs.Prelude.{◌≡◌, ◌<◌, ◌*◌, ◌^◌, IfOk, slice_index};
ghost use Rattle.ios_lines.specs.IsisLines.{is_hex, hex_value, is_grouped, grouped_from, group_value, is_area_address, is_title, system_value, title_of};

use crate::OutOfMemory;
use crate::words::{is_text, name_of};
use net_addr::Name;
use std::alloc::Global;

/// The network entity title of a router, taken apart (RFC 1195, section 3.3; ISO 10589, section 7.1).
#[derive(Debug, Drop)]
pub struct Title {
    /// The area address, as written.
    pub area: Name,
    /// The system id, below 2^48.
    pub system: u64,
}

/// Whether a byte is a hexadecimal digit.
fn is_hex(byte: u8) -> bool
    ensures { result ≡ is_hex byte }
{
    byte.is_ascii_hexdigit()
}

/// What a hexadecimal digit stands for, 0 for any other byte.
fn hex_value(byte: u8) -> u8
    ensures value { result ≡ hex_value byte }
    ensures small { result < 16 }
{
    if byte.is_ascii_digit() {
        return byte - b'0';
    }
    if b'A' <= byte && byte <= b'F' {
        return byte - b'A' + 10;
    }
    if b'a' <= byte && byte <= b'f' {
        return byte - b'a' + 10;
    }
    0
}

/// The hexadecimal digit at a place, 0 past the end.
fn digit_at(word: &[u8], k: usize) -> u64
    ensures value { result ≡ hex_value (slice_index word.now k) }
    ensures small { result < 16 }
{
    match word.get(k) {
        Some(byte) => u64::from(hex_value(*byte)),
        None => 0,
    }
}

/// The four hexadecimal digits from a place on as one number.
fn group_value(word: &[u8], k: usize) -> u64
    requires { k < 100 }
    ensures value { result ≡ group_value word.now k }
    ensures small { result < 65536 }
{
    4096 * digit_at(word, k)
        + 256 * digit_at(word, k + 1)
        + 16 * digit_at(word, k + 2)
        + digit_at(word, k + 3)
}

/// Whether a byte stands at a place of a group: a dot, then four hexadecimal digits.
fn is_grouped(place: usize, byte: u8) -> bool
    ensures { result ≡ is_grouped place byte }
{
    if place == 0 {
        byte == b'.'
    } else {
        is_hex(byte)
    }
}

/// Whether bytes are groups of a dot and four hexadecimal digits.
fn are_groups(bytes: &[u8]) -> bool
    ensures { result ≡ grouped_from 0 bytes.now }
{
    let mut place = 0;
    for byte in bytes {
        if !is_grouped(place, *byte) {
            return false;
        }
        place = (place + 1) % 5;
    }
    place == 0
}

/// Whether bytes are an area address: two hexadecimal digits, then groups.
pub fn is_area_address(bytes: &[u8]) -> bool
    ensures { result ≡ is_area_address bytes.now }
{
    match bytes {
        [first, second, groups @ ..] => is_hex(*first) && is_hex(*second) && are_groups(groups),
        _ => false,
    }
}

/// Whether a word is a title.
fn is_title(word: &[u8]) -> bool
    ensures { result ≡ is_title word.now }
{
    if word.len() < 20 || word.len() > 50 {
        return false;
    }
    let (front, selector) = word.split_at(word.len() - 3);
    let (area, system) = front.split_at(front.len() - 15);
    is_area_address(area) && are_groups(system) && is_text(selector, b".00")
}

/// The system id as a number.
fn system_value(groups: &[u8]) -> u64
    ensures value { result ≡ system_value groups.now }
    ensures small { result < 2 ^ 48 }
{
    4294967296 * group_value(groups, 1) + 65536 * group_value(groups, 6) + group_value(groups, 11)
}

/// The title for which a word stands.
#[tactic(auto, unfolding(crate::specs::IsisLines::title_of))]
pub(crate) fn title_of(alloc: Global, word: &[u8]) -> Result<Option<Title>, OutOfMemory>
    ensures { IfOk result (λ title. title ≡ title_of word.now) }
{
    if !is_title(word) {
        return Ok(None);
    }
    let front = &word[..word.len().saturating_sub(3)];
    let (area, system) = front.split_at(front.len().saturating_sub(15));
    let area = name_of(alloc, area)?;
    Ok(Some(Title {
        area,
        system: system_value(system),
    }))
}
