use anyhow::{Result, bail};
use net_addr::Bytes;
use std::alloc::Global;
use store_edge::{FileAnswer, Files};

/// How many bytes of a file are read at most: one more than a file may have.
const READ_MOST: u64 = 16_777_217;

/// The text of a file.
#[derive(Drop)]
pub struct FileText {
    /// The file's name.
    pub name: String,
    /// What is read of it.
    pub bytes: Bytes,
}

/// Reads files whole, in their order. One that can't be read is an error.
pub fn read_texts<F: Files>(
    alloc: Global,
    files: &mut F,
    names: Vec<String>,
) -> Result<Vec<FileText>> {
    let mut texts = Vec::new(alloc);
    for name in names {
        let bytes = read_text(alloc, files, name.as_str())?;
        texts.push(FileText { name, bytes })?;
    }
    Ok(texts)
}

/// Reads a file, whole where it isn't longer than a file may be.
fn read_text<F: Files>(alloc: Global, files: &mut F, name: &str) -> Result<Bytes> {
    match files.read(alloc, name, READ_MOST) {
        Ok(text) => Ok(text),
        Err(FileAnswer::Failed) => bail!("{name} can't be read"),
        Err(FileAnswer::OutOfMemory) => bail!("out of memory"),
    }
}

/// How many bytes some texts have together, or 2^64 - 1 where they have more.
pub fn count_bytes(texts: &[FileText]) -> u64 {
    let mut count = 0u64;
    for text in texts {
        count = count.saturating_add(text.bytes.as_slice().len() as u64);
    }
    count
}
