ghost use Rattle.std.specs.Prelude.{◌≡◌, IfOk};
ghost use Rattle.ios_lines.specs.Words.{word_at, number_from};
ghost use Rattle.ios_lines.specs.IsisLines.{is_wide, isis_distance, isis_passive, is_leak, is_unsupported_isis, plain_of_isis, isis_line, isis_line_fault};

use crate::OutOfMemory;
use crate::kind::ReadKind;
use crate::ospf_line::PassiveLine;
use crate::title::{Title, title_of};
use crate::words::{Words, is_text, levels_of, name_of, number_from};
use net_model::{ISIS_DISTANCE, Levels, MOST_DISTANCE, MOST_METRIC};
use std::alloc::Global;

/// What a line of `router isis` says.
#[derive(Debug, Drop)]
pub enum IsisLine {
    /// `net X`, with its title; without one it is faulty
    Net(Option<Title>),
    /// `is-type L`
    Levels(Result<Levels, ReadKind>),
    /// `metric-style X`: whether it is `wide`, and nothing follows
    MetricStyle(bool),
    /// `metric N`
    Metric(Result<u32, ReadKind>),
    /// `distance N`
    Distance(Result<u8, ReadKind>),
    /// `passive-interface NAME`, or with `no`
    Passive(PassiveLine),
    /// `redistribute isis ip level-2 into level-1`, and nothing else
    Leak,
    /// a line that is faulty and says nothing
    Faulty(ReadKind),
    /// a line without meaning here
    Skipped,
}

/// A line of `router isis` at its place in the text.
#[derive(Debug, Drop)]
pub struct IsisStatement {
    /// The number of the line.
    pub line: u32,
    /// What the line says.
    pub says: IsisLine,
}

/// Whether `metric-style` says `wide` and nothing else.
fn is_wide(words: &Words) -> bool
    ensures { result ≡ is_wide words.now }
{
    words.says(1, b"wide") && words.lacks(2)
}

/// `distance N`
fn isis_distance(words: &Words) -> Result<u8, ReadKind>
    ensures { result ≡ isis_distance (number_from 1 MOST_DISTANCE ReadKind.BadDistance (word_at words.now 1)) }
{
    match number_from(
        words.at(1),
        1,
        u32::from(MOST_DISTANCE),
        ReadKind::BadDistance,
    ) {
        Ok(distance) if distance == u32::from(ISIS_DISTANCE) => Ok(ISIS_DISTANCE),
        Ok(distance) if distance == u32::from(MOST_DISTANCE) => Ok(MOST_DISTANCE),
        _ => Err(ReadKind::BadDistance),
    }
}

/// `passive-interface NAME`, its name at this place
fn isis_passive(
    alloc: Global,
    words: &Words,
    k: usize,
    passive: bool,
) -> Result<IsisLine, OutOfMemory>
    ensures { IfOk result (λ line. line ≡ isis_passive words.now k passive) }
{
    if words.lacks(k) {
        return Ok(IsisLine::Skipped);
    }
    if words.says(k, b"default") {
        return Ok(IsisLine::Faulty(ReadKind::Unsupported));
    }
    let name = name_of(alloc, words.at(k))?;
    Ok(IsisLine::Passive(PassiveLine { name, passive }))
}

/// Whether the line is `redistribute isis ip level-2 into level-1`, and nothing else.
fn is_leak(words: &Words) -> bool
    ensures { result ≡ is_leak words.now }
{
    words.begins_with_three(b"redistribute", b"isis", b"ip")
        && words.says(3, b"level-2")
        && words.says(4, b"into")
        && words.says(5, b"level-1")
        && words.lacks(6)
}

/// Whether a line that begins so isn't supported in `router isis`, where it isn't the line that leaks.
fn is_unsupported_isis(word: &[u8]) -> bool
    ensures { result ≡ is_unsupported_isis word.now }
{
    is_text(word, b"redistribute")
        || is_text(word, b"default-information")
        || is_text(word, b"summary-address")
        || is_text(word, b"set-overload-bit")
        || is_text(word, b"max-metric")
        || is_text(word, b"advertise")
        || is_text(word, b"distribute-list")
}

/// The other lines of `router isis`
fn plain_of_isis(alloc: Global, words: &Words) -> Result<IsisLine, OutOfMemory>
    ensures { IfOk result (λ line. line ≡ plain_of_isis words.now) }
{
    if words.says(0, b"metric") {
        return Ok(IsisLine::Metric(number_from(words.at(1), 1, MOST_METRIC, ReadKind::BadMetric)));
    }
    if words.says(0, b"distance") {
        return Ok(IsisLine::Distance(isis_distance(words)));
    }
    if words.says(0, b"passive-interface") {
        return isis_passive(alloc, words, 1, true);
    }
    if words.begins_with_two(b"no", b"passive-interface") {
        return isis_passive(alloc, words, 2, false);
    }
    if is_leak(words) {
        return Ok(IsisLine::Leak);
    }
    if is_unsupported_isis(words.at(0)) {
        return Ok(IsisLine::Faulty(ReadKind::Unsupported));
    }
    Ok(IsisLine::Skipped)
}

/// What a line of `router isis` says.
pub fn isis_line(alloc: Global, words: &Words) -> Result<IsisLine, OutOfMemory>
    ensures { IfOk result (λ line. line ≡ isis_line words.now) }
{
    if words.says(0, b"net") {
        return Ok(IsisLine::Net(title_of(alloc, words.at(1))?));
    }
    if words.says(0, b"is-type") {
        return Ok(IsisLine::Levels(levels_of(words.at(1))));
    }
    if words.says(0, b"metric-style") {
        return Ok(IsisLine::MetricStyle(is_wide(words)));
    }
    plain_of_isis(alloc, words)
}

/// The fault that a line has by itself.
pub fn isis_line_fault(line: &IsisLine) -> Option<ReadKind>
    ensures { result ≡ isis_line_fault line.now }
{
    match line {
        IsisLine::Net(None) => Some(ReadKind::BadNet),
        IsisLine::MetricStyle(false) => Some(ReadKind::Unsupported),
        IsisLine::Levels(Err(kind)) => Some(*kind),
        IsisLine::Metric(Err(kind)) => Some(*kind),
        IsisLine::Distance(Err(kind)) => Some(*kind),
        IsisLine::Faulty(kind) => Some(*kind),
        _ => None,
    }
}
