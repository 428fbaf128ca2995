use crate::texts::FileText;
use anyhow::{Result, bail, ensure};
use ios_reader::{ReadKind, ReadRefusal, read_configs};
use net_model::Configs;
use std::alloc::Global;

/// How many bytes a file has at most, 16 MiB.
pub const FILE_MOST: usize = 16_777_216;

/// What texts are read as.
#[derive(Drop)]
pub enum Reading {
    /// No text has a faulty line, and these are the configurations of all of them, in their order.
    Configurations(Configs),
    /// This is the first text that has a faulty line.
    Refused {
        /// The name of its file.
        file: String,
        /// Its first faulty line, counted from 1.
        line: u32,
        /// Why the line is faulty.
        kind: ReadKind,
    },
}

/// Reads the configurations of texts. One that is longer than a file may be is an error.
pub fn read_all(alloc: Global, texts: &[FileText]) -> Result<Reading> {
    let mut all = Vec::new(alloc);
    for text in texts {
        match read_one(alloc, text)? {
            Reading::Configurations(configs) => all.append(&mut configs.into_vec())?,
            refused => return Ok(refused),
        }
    }
    Ok(Reading::Configurations(Configs::from_vec(all)))
}

/// Reads the configurations of a text.
fn read_one(alloc: Global, text: &FileText) -> Result<Reading> {
    let bytes = text.bytes.as_slice();
    ensure!(
        bytes.len() <= FILE_MOST,
        "{} is longer than {FILE_MOST} bytes",
        text.name
    );
    match read_configs(alloc, bytes) {
        Ok(configs) => Ok(Reading::Configurations(configs)),
        Err(ReadRefusal::Bad { line, kind }) => Ok(Reading::Refused {
            file: text.name.clone()?,
            line,
            kind,
        }),
        Err(ReadRefusal::OutOfMemory) => bail!("out of memory"),
    }
}
