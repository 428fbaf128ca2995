ghost use Rattle.std.specs.Prelude.{◌≡◌, ◌++◌, IfOk};
ghost use Rattle.migration_report.specs.Outcomes.{refusal_status, refusal_text};
ghost use Rattle.migration_report.specs.Texts.{IsPrinted, faulty_text, words_refused_text};

use crate::Status;
use ios_lines::ReadKind;
use net_addr::{Bytes, Name};
use net_model::NetRefusal;
use printed_lines::LineBuilder;
use refused_texts::{limit_text, network_text, read_kind_name, refused};
use std::alloc::{AllocError, Global};

/// Why nothing is decided of a network: the words, the files or the configurations are refused.
#[derive(Debug, Drop)]
pub enum Refusal {
    /// The words of the command.
    Words {
        /// What more is said of them, after the line.
        detail: Bytes,
    },
    /// A file that can't be read.
    Read {
        /// Its name.
        file: Bytes,
    },
    /// A faulty line of a configuration.
    Config {
        /// The name of the file.
        file: Bytes,
        /// The line, counted from 1.
        line: u32,
        /// Why it is faulty.
        kind: ReadKind,
    },
    /// Configurations that make no network.
    Network {
        /// Why.
        refusal: NetRefusal,
    },
    /// A router whose protocols don't have the distances of the start.
    OffStart {
        /// Its name.
        name: Name,
    },
    /// Too many configuration files.
    Files {
        /// How many there are.
        number: u64,
    },
    /// A file that is too long.
    Length {
        /// Its name.
        file: Bytes,
    },
    /// Configuration files that are too long together.
    Total {
        /// The bytes read when the limit was passed.
        number: u64,
    },
}

/// How a call ends that refuses its input so.
pub(crate) fn refusal_status(refusal: &Refusal) -> Status
    ensures { result ≡ refusal_status refusal.now }
{
    match refusal {
        Refusal::Words { .. } => Status::Words,
        Refusal::Read { .. } => Status::ReadFault,
        Refusal::Config { .. } => Status::Refused,
        Refusal::Network {
            refusal: NetRefusal::Limit { .. },
        } => Status::Limit,
        Refusal::Network { .. } => Status::Refused,
        Refusal::OffStart { .. } => Status::Refused,
        Refusal::Files { .. } => Status::Limit,
        Refusal::Length { .. } => Status::Limit,
        Refusal::Total { .. } => Status::Limit,
    }
}

/// The line that tells why the input is refused, and after that of words what more is said of them. The only error is
/// want of memory.
pub(crate) fn refusal_text(alloc: Global, refusal: &Refusal) -> Result<Bytes, AllocError>
    requires { IsPrinted refusal.now }
    ensures { IfOk result (λ text. text ≡ refusal_text refusal.now) }
{
    match refusal {
        Refusal::Words { detail } => words_text(alloc, detail.as_slice()),
        Refusal::Read { file } => {
            let line = LineBuilder::start(alloc, b"read")?.word(b"fault")?;
            line.word(file.as_slice())?.finish()
        }
        Refusal::Config { file, line, kind } => faulty_line(
            alloc,
            file.as_slice(),
            *line,
            read_kind_name(*kind),
        ),
        Refusal::Network { refusal } => network_text(alloc, refusal),
        Refusal::OffStart { name } => refused(alloc, b"NotAtStart")?
            .word(name.as_slice())?
            .finish(),
        Refusal::Files { number } => limit_text(alloc, b"files", *number),
        Refusal::Length { file } => {
            let line = LineBuilder::start(alloc, b"limit")?.word(b"bytes")?;
            line.word(file.as_slice())?.finish()
        }
        Refusal::Total { number } => limit_text(alloc, b"total", *number),
    }
}

/// The line for words that are refused, and what more is said of them.
fn words_text(alloc: Global, detail: &[u8]) -> Result<Bytes, AllocError>
    ensures { IfOk result (λ text. text ≡ words_refused_text ++ detail.now) }
{
    let line = LineBuilder::start(alloc, b"words")?.word(b"refused")?;
    let mut text = line.finish()?.into_vec();
    text.extend_from_slice(detail)?;
    Ok(Bytes::from_vec(text))
}

/// The line for a faulty line of a file.
pub(crate) fn faulty_line(
    alloc: Global,
    file: &[u8],
    number: u32,
    kind: &[u8],
) -> Result<Bytes, AllocError>
    ensures { IfOk result (λ text. text ≡ faulty_text file.now number kind.now) }
{
    let line = LineBuilder::start(alloc, b"refused")?.word(file)?;
    line.number(u64::from(number))?.word(kind)?.finish()
}
