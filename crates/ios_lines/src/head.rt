ghost use Rattle.std.specs.Prelude.{◌≡◌, IfOk};
ghost use Rattle.std.specs.List.{list_all, list_any};
ghost use Rattle.std.specs.Char.{is_ascii_digit};
ghost use Rattle.ios_lines.specs.Words.{is_printable};
ghost use Rattle.ios_lines.specs.Heads.{is_name_byte, is_router_name, hostname_of, interface_name, is_interface_name, interface_of, router_head, head_of};

use crate::OutOfMemory;
use crate::kind::ReadKind;
use crate::words::{Words, is_letter, is_printable, is_text, name_of, number_from};
use net_addr::Name;
use net_model::MOST_PROCESS;
use std::alloc::Global;

/// What a line at indent 0 says.
#[derive(Debug, Drop)]
pub enum Head {
    /// `hostname NAME`
    Hostname(Result<Name, ReadKind>),
    /// `interface NAME`
    Interface(Result<Name, ReadKind>),
    /// `router ospf P`
    Ospf(Result<u32, ReadKind>),
    /// `router isis`, with its tag, empty where there is none
    Isis(Name),
    /// a line that is faulty and says nothing
    Faulty(ReadKind),
    /// a line without meaning here
    Other,
}

/// Whether a byte may stand in a router's name.
fn is_name_byte(byte: u8) -> bool
    ensures { result ≡ is_name_byte byte }
{
    is_letter(byte) || byte.is_ascii_digit() || byte == b'-' || byte == b'_' || byte == b'.'
}

/// Whether each byte may stand in a router's name.
fn are_name_bytes(word: &[u8]) -> bool
    ensures { result ≡ list_all is_name_byte word.now }
{
    word.iter().all(|byte| is_name_byte(*byte))
}

/// Whether a word is a router's name: 1 to 63 letters, digits, `-`, `_` and `.`.
fn is_router_name(word: &[u8]) -> bool
    ensures { result ≡ is_router_name word.now }
{
    1 <= word.len() && word.len() <= 63 && are_name_bytes(word)
}

/// `hostname NAME`
fn hostname_of(alloc: Global, word: &[u8]) -> Result<Result<Name, ReadKind>, OutOfMemory>
    ensures { IfOk result (λ name. name ≡ hostname_of word.now) }
{
    if !is_router_name(word) {
        return Ok(Err(ReadKind::NoHostname));
    }
    Ok(Ok(name_of(alloc, word)?))
}

/// Whether a word has a digit.
fn has_digit(word: &[u8]) -> bool
    ensures { result ≡ list_any is_ascii_digit word.now }
{
    word.iter().any(|byte| byte.is_ascii_digit())
}

/// The name of an interface, joined where its first word has no digit.
fn interface_name(alloc: Global, words: &Words) -> Result<Name, OutOfMemory>
    ensures { IfOk result (λ name. name ≡ interface_name words.now) }
{
    let first = words.at(1);
    let mut name = Vec::from_slice(alloc, first)?;
    if !has_digit(first) {
        name.extend_from_slice(words.at(2))?;
    }
    Ok(Name::from_vec(name))
}

/// Whether each byte is printable.
pub fn are_printable(word: &[u8]) -> bool
    ensures { result ≡ list_all is_printable word.now }
{
    word.iter().all(|byte| is_printable(*byte))
}

/// Whether a name is there, isn't `default` and has printable bytes alone.
fn is_interface_name(name: &[u8]) -> bool
    ensures { result ≡ is_interface_name name.now }
{
    1 <= name.len() && !is_text(name, b"default") && are_printable(name)
}

/// `interface NAME`
fn interface_of(name: Name) -> Result<Name, ReadKind>
    ensures { result ≡ interface_of name }
{
    if is_interface_name(name.as_slice()) {
        Ok(name)
    } else {
        Err(ReadKind::Unsupported)
    }
}

/// The lines that begin with `router`
fn router_head(alloc: Global, words: &Words) -> Result<Head, OutOfMemory>
    ensures { IfOk result (λ head. head ≡ router_head words.now) }
{
    if words.says(1, b"ospf") {
        if words.says(3, b"vrf") && !words.lacks(4) {
            return Ok(Head::Other);
        }
        return Ok(Head::Ospf(number_from(words.at(2), 1, MOST_PROCESS, ReadKind::SecondProcess)));
    }
    if words.says(1, b"isis") {
        return Ok(Head::Isis(name_of(alloc, words.at(2))?));
    }
    if words.says(1, b"eigrp") || words.says(1, b"rip") {
        return Ok(Head::Faulty(ReadKind::Unsupported));
    }
    Ok(Head::Other)
}

/// What a line at indent 0 says.
pub fn head_of(alloc: Global, words: &Words) -> Result<Head, OutOfMemory>
    ensures { IfOk result (λ head. head ≡ head_of words.now) }
{
    if words.says(0, b"hostname") {
        return Ok(Head::Hostname(hostname_of(alloc, words.at(1))?));
    }
    if words.says(0, b"interface") {
        return Ok(Head::Interface(interface_of(interface_name(alloc, words)?)));
    }
    if words.says(0, b"router") {
        return router_head(alloc, words);
    }
    if words.begins_with_two(b"ip", b"route") && !words.says(2, b"vrf") {
        return Ok(Head::Faulty(ReadKind::Unsupported));
    }
    Ok(Head::Other)
}
