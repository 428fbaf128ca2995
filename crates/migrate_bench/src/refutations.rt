ghost use Rattle.std.specs.Prelude.{◌≡◌, ◌≤◌, length};

use crate::configurations::{FILE_MOST, Reading, read_all};
use crate::reading::print_refused;
use crate::seconds::print_seconds;
use crate::texts::{FileText, read_texts};
use anyhow::{Context, Result, bail, ensure};
use isis_routes::IsisRoutes;
use net_model::Net;
use ospf_routes::OspfRoutes;
use refutation_check::{Verdict, verify};
use rib_mix::Mixed;
use route_core::RouteSource;
use std::rt::{Clock, Files};
use std::time::Instant;
use store_edge::RealFiles;

/// Measures what is found of the tree of the first file, over the network of the others.
pub fn measure(
    rt: &(impl AllocGlobal + Clock + Eprint + Files + Print),
    files: Vec<String>,
) -> Result<()> {
    let alloc = rt.alloc();
    let texts = read_texts(alloc, &mut RealFiles::new(rt, alloc), files)?;
    let (tree, configurations) = texts.as_slice().split_first().context("no tree file")?;
    match read_all(alloc, configurations)? {
        Reading::Refused { file, line, kind } => print_refused(rt, file.as_str(), line, kind),
        Reading::Configurations(configs) => match Net::build(alloc, configs) {
            Ok(net) => measure_net(rt, tree, &net),
            Err(refusal) => bail!("the network is refused: {refusal}"),
        },
    }
}

/// Measures what is found of a tree, by the tables of both protocols.
fn measure_net(
    rt: &(impl AllocGlobal + Clock + Eprint + Print),
    text: &FileText,
    net: &Net,
) -> Result<()> {
    let alloc = rt.alloc();
    let bytes = text.bytes.as_slice();
    ensure!(bytes.len() <= FILE_MOST, "{} is too long", text.name);
    let old = OspfRoutes::build(alloc, net)?;
    let new = IsisRoutes::build(alloc, net)?;
    measure_tree(rt, net, &old, &new, bytes)
}

/// Measures mixed forwarding, and what is found of a tree.
fn measure_tree<O: RouteSource, N: RouteSource>(
    rt: &(impl AllocGlobal + Clock + Eprint + Print),
    net: &Net,
    old: &O,
    new: &N,
    tree: &[u8],
) -> Result<()>
    requires old_routers { O.routers old.now ≡ length net.now }
    requires new_routers { N.routers new.now ≡ length net.now }
    requires short { length tree.now ≤ FILE_MOST }
{
    let alloc = rt.alloc();
    let start = Instant::now(rt)?;
    let mixed = Mixed::build(alloc, net, old, new)?;
    print_seconds(rt, "mixed forwarding", mixed.atoms().count(), start)?;
    let start = Instant::now(rt)?;
    let verdict = verify(alloc, &mixed, tree)?;
    print_seconds(rt, "tree", tree.len() as u64, start)?;
    report(rt, verdict)
}

/// Prints what was found of a tree.
fn report(rt: &impl Print, verdict: Verdict) -> Result<()> {
    match verdict {
        Verdict::Closed { branches, leaves } => {
            println!(rt; "closed, {branches} branches and {leaves} leaves")?;
        }
        Verdict::Unfinished { unvisited } => println!(rt; "{unvisited} unvisited places")?,
        Verdict::Wrong { line, kind } => println!(rt; "line {line} is wrong: {kind:?}")?,
    }
    Ok(())
}
