use crate::configurations::{Reading, read_all};
use crate::seconds::print_seconds;
use crate::texts::{count_bytes, read_texts};
use anyhow::Result;
use ios_reader::ReadKind;
use std::rt::{Clock, Files};
use std::time::Instant;
use store_edge::RealFiles;

/// Measures the reading of the configurations of files, once the files are in memory.
pub fn measure(
    rt: &(impl AllocGlobal + Clock + Eprint + Files + Print),
    files: Vec<String>,
) -> Result<()> {
    let alloc = rt.alloc();
    let texts = read_texts(alloc, &mut RealFiles::new(rt, alloc), files)?;
    let bytes = count_bytes(texts.as_slice());
    let start = Instant::now(rt)?;
    let reading = read_all(alloc, texts.as_slice())?;
    print_seconds(rt, "reading", bytes, start)?;
    match reading {
        Reading::Configurations(configs) => {
            println!(rt;
                "{} configurations in {bytes} bytes",
                configs.as_slice().len()
            )?;
            Ok(())
        }
        Reading::Refused { file, line, kind } => { print_refused(rt, file.as_str(), line, kind) }
    }
}

/// Prints that a file isn't read, and why.
pub fn print_refused(rt: &impl Print, file: &str, line: u32, kind: ReadKind) -> Result<()> {
    println!(rt; "{file} is refused at line {line}: {kind}")?;
    Ok(())
}
