use crate::configurations::{FILE_MOST, Reading, read_all};
use crate::reading::print_refused;
use crate::seconds::print_seconds;
use crate::texts::{FileText, count_bytes, read_texts};
use anyhow::{Context, Result, bail, ensure};
use design_file::{Settled, read_design, settle};
use isis_writer::prepared_text;
use net_model::Net;
use std::alloc::Global;
use std::rt::{Clock, Files};
use std::time::Instant;
use store_edge::RealFiles;

/// Measures what the command `prepare` does with the design of the first file and the configurations of the others, once
/// they are in memory: the reading of the configurations, and the writing of the prepared texts. The network between the two
/// isn't counted.
pub fn measure(
    rt: &(impl AllocGlobal + Clock + Eprint + Files + Print),
    files: Vec<String>,
) -> Result<()> {
    let alloc = rt.alloc();
    let texts = read_texts(alloc, &mut RealFiles::new(rt, alloc), files)?;
    let (design, configurations) = texts.as_slice().split_first().context("no design")?;
    let start = Instant::now(rt)?;
    let reading = read_all(alloc, configurations)?;
    print_seconds(rt, "reading", count_bytes(configurations), start)?;
    match reading {
        Reading::Refused { file, line, kind } => print_refused(rt, file.as_str(), line, kind),
        Reading::Configurations(configs) => match Net::build(alloc, configs) {
            Ok(net) => measure_net(rt, design, configurations, &net),
            Err(refusal) => bail!("the network is refused: {refusal}"),
        },
    }
}

/// Measures the writing of the prepared texts of a network.
fn measure_net(
    rt: &(impl AllocGlobal + Clock + Eprint + Print),
    design: &FileText,
    configurations: &[FileText],
    net: &Net,
) -> Result<()> {
    let alloc = rt.alloc();
    let start = Instant::now(rt)?;
    let settled = settled(alloc, design, net)?;
    let prepared = prepared_texts(alloc, configurations, net, &settled)?;
    print_seconds(rt, "preparing", count_bytes(configurations), start)?;
    println!(rt; "{} bytes are prepared", prepared.len())?;
    Ok(())
}

/// What a design settles for a network.
fn settled(alloc: Global, design: &FileText, net: &Net) -> Result<Settled> {
    let design = read_design(alloc, design.bytes.as_slice())?;
    Ok(settle(alloc, &design, net)?)
}

/// The prepared texts of the configurations of a network, one after the other.
fn prepared_texts(
    alloc: Global,
    texts: &[FileText],
    net: &Net,
    settled: &Settled,
) -> Result<Vec<u8>> {
    let mut all = Vec::new(alloc);
    for text in texts {
        let bytes = text.bytes.as_slice();
        ensure!(bytes.len() <= FILE_MOST, "{} is too long", text.name);
        let prepared = prepared_text(alloc, bytes, net, settled)?;
        all.extend_from_slice(prepared.as_slice())?;
    }
    Ok(all)
}
