ghost use Rattle.std.specs.Prelude.{◌≡◌, ◌++◌, ◌∷◌, [], All, IfOk, decimal, length};
ghost use Rattle.std.specs.List.{flat_map};
ghost use Rattle.net_model.specs.RouterNames.{names_of};
ghost use Rattle.printed_lines.specs.Words.{spaced};
ghost use Rattle.failure_texts.specs.FailureTexts.{failure_counts, failures_text, link_front, link_line};
ghost use Rattle.failure_texts.specs.LinkVerdicts.{IsToldVerdict};

use crate::OutOfMemory;
use crate::kinds::{break_count, end_count, withstood_count};
use crate::verdict::{FailedLink, LinkVerdict};
use migration_report::{End, unsafe_text, unsound_text, waves_unsafe_text};
use net_addr::{Bytes, Prefix};
use net_model::Net;
use printed_lines::LineBuilder;
use refused_texts::network_text;
use std::alloc::Global;

/// A line for each link that the list doesn't withstand, in their order, and behind them the line of the counts.
///
/// The only error is want of memory.
pub fn failures_text(alloc: Global, net: &Net, failed: &[FailedLink]) -> Result<Bytes, OutOfMemory>
    requires { All (λ x. IsToldVerdict (length net.now) x.verdict) failed.now }
    ensures { IfOk result (λ text. text ≡ failures_text (names_of net.now) failed.now) }
{
    let mut text = link_lines(alloc, net, failed)?;
    let counts = failure_counts(alloc, failed)?;
    text.extend_from_slice(counts.as_slice())?;
    Ok(Bytes::from_vec(text))
}

/// The lines of links.
fn link_lines(alloc: Global, net: &Net, failed: &[FailedLink]) -> Result<Vec<u8>, OutOfMemory>
    requires { All (λ x. IsToldVerdict (length net.now) x.verdict) failed.now }
    ensures { IfOk result (λ text. text.items ≡ flat_map (λ x. link_line (names_of net.now) x.link x.verdict) failed.now) }
{
    let mut text = Vec::new(alloc);
    for one in failed {
        let line = link_line(alloc, net, one)?;
        text.extend_from_slice(line.as_slice())?;
    }
    Ok(text)
}

/// The line of a link.
fn link_line(alloc: Global, net: &Net, one: &FailedLink) -> Result<Bytes, OutOfMemory>
    requires { IsToldVerdict (length net.now) one.now.verdict }
    ensures { IfOk result (λ text. text ≡ link_line (names_of net.now) one.now.link one.now.verdict) }
{
    match &one.verdict {
        LinkVerdict::Withstood => Ok(Bytes::from_vec(Vec::new(alloc))),
        LinkVerdict::Breaks { state, fault } => {
            let said = unsafe_text(alloc, net, *state, fault)?;
            behind_link(alloc, b"breaks", one.link, said.as_slice())
        }
        LinkVerdict::BreaksWave { wave, fault } => {
            let said = waves_unsafe_text(alloc, net, *wave, fault)?;
            behind_link(alloc, b"breaks", one.link, said.as_slice())
        }
        LinkVerdict::UnsoundOld { fault } => {
            let said = unsound_text(alloc, net, End::Old, fault)?;
            behind_link(alloc, b"ends", one.link, said.as_slice())
        }
        LinkVerdict::UnsoundNew { fault } => {
            let said = unsound_text(alloc, net, End::New, fault)?;
            behind_link(alloc, b"ends", one.link, said.as_slice())
        }
        LinkVerdict::Refused { refusal } => {
            let said = network_text(alloc, refusal)?;
            behind_link(alloc, b"ends", one.link, said.as_slice())
        }
    }
}

/// A line behind a word and a link.
fn behind_link(alloc: Global, word: &[u8], link: Prefix, said: &[u8]) -> Result<Bytes, OutOfMemory>
    ensures { IfOk result (λ text. text ≡ link_front word.now link ++ said.now) }
{
    let front = LineBuilder::start(alloc, word)?.prefix(link)?;
    let mut text = front.finish()?.into_vec();
    text.pop();
    text.push(b' ')?;
    text.extend_from_slice(said)?;
    Ok(Bytes::from_vec(text))
}

/// The line of the counts.
fn failure_counts(alloc: Global, failed: &[FailedLink]) -> Result<Bytes, OutOfMemory>
    ensures { IfOk result (λ text. text ≡ failure_counts failed.now) }
{
    let start = LineBuilder::start(alloc, b"failures")?;
    let links = with_count(start, failed.len(), b"links")?;
    let withstood = with_count(links, withstood_count(failed), b"withstood")?;
    let broken = with_count(withstood, break_count(failed), b"break")?;
    let ended = with_count(broken, end_count(failed), b"ends")?;
    ended.finish()
}

/// The line with a number and a word more.
fn with_count(line: LineBuilder, number: usize, word: &[u8]) -> Result<LineBuilder, OutOfMemory>
    ensures { IfOk result (λ longer. longer ≡ line ++ spaced (decimal number ∷ word.now ∷ [])) }
{
    line.number(number as u64)?.word(word)
}
