ghost use Rattle.std.specs.Prelude.{◌≡◌, ◌<◌, All, length};

use crate::configurations::{FILE_MOST, Reading, read_all};
use crate::exchanges::exchanged_lists;
use crate::reading::print_refused;
use crate::seconds::print_seconds;
use crate::texts::{FileText, read_texts};
use anyhow::{Context, Result, bail, ensure};
use isis_routes::IsisRoutes;
use loop_finder::{Fault, Finder};
use net_model::Net;
use order_core::Waves;
use ospf_routes::OspfRoutes;
use rib_mix::Mixed;
use route_core::RouteSource;
use std::rt::{Clock, Files};
use std::time::Instant;
use step_scripts::{OrderRefusal, read_waves};
use store_edge::RealFiles;

/// How often the finder is asked besides the first time.
const TIMES: u32 = 1000;

/// What the finder is asked for.
#[derive(Clone, Copy)]
pub enum Asked {
    /// The fault of an order.
    Orders,
    /// The fault of a wave list.
    WaveLists,
}

/// What is asked: of which wave list, as a list or as an order.
#[derive(Clone, Copy)]
struct Question<'a> {
    waves: &'a Waves,
    asked: Asked,
}

/// Measures what is found of the wave list that the first file names, over the network of the others, and of lists in
/// which two routers are exchanged.
pub fn measure(
    rt: &(impl AllocGlobal + Clock + Eprint + Files + Print),
    files: Vec<String>,
    asked: Asked,
) -> Result<()> {
    let alloc = rt.alloc();
    let texts = read_texts(alloc, &mut RealFiles::new(rt, alloc), files)?;
    let (order, configurations) = texts.as_slice().split_first().context("no order file")?;
    match read_all(alloc, configurations)? {
        Reading::Refused { file, line, kind } => print_refused(rt, file.as_str(), line, kind),
        Reading::Configurations(configs) => match Net::build(alloc, configs) {
            Ok(net) => measure_net(rt, order, &net, asked),
            Err(refusal) => bail!("the network is refused: {refusal}"),
        },
    }
}

/// Measures what is found of the wave list that a text names.
fn measure_net(
    rt: &(impl AllocGlobal + Clock + Eprint + Print),
    text: &FileText,
    net: &Net,
    asked: Asked,
) -> Result<()> {
    let alloc = rt.alloc();
    let bytes = text.bytes.as_slice();
    ensure!(bytes.len() <= FILE_MOST, "{} is too long", text.name);
    ensure!(net.routers() > 0, "the network has no router");
    match read_waves(alloc, net, bytes) {
        Ok(read) => {
            let old = OspfRoutes::build(alloc, net)?;
            let new = IsisRoutes::build(alloc, net)?;
            let question = Question {
                waves: &read.waves,
                asked,
            };
            measure_waves(rt, net, &old, &new, &question)
        }
        Err(OrderRefusal::Bad { line, .. }) => { bail!("{} is refused at line {line}", text.name) }
        Err(OrderRefusal::OutOfMemory) => bail!("out of memory"),
    }
}

/// Measures mixed forwarding, the finder, and what it finds of a wave list and of others.
fn measure_waves<O: RouteSource, N: RouteSource>(
    rt: &(impl AllocGlobal + Clock + Eprint + Print),
    net: &Net,
    old: &O,
    new: &N,
    question: &Question<'_>,
) -> Result<()>
    requires old_routers { O.routers old.now ≡ length net.now }
    requires new_routers { N.routers new.now ≡ length net.now }
    requires waves { length question.now.waves.now ≡ length net.now }
{
    let alloc = rt.alloc();
    let others = exchanged_lists(alloc, question.waves.ranks(), TIMES)?;
    let start = Instant::now(rt)?;
    let mixed = Mixed::build(alloc, net, old, new)?;
    print_seconds(rt, "mixed forwarding", mixed.atoms().count(), start)?;
    measure_mixed(rt, &mixed, question, others.as_slice())
}

/// Measures the finder over mixed forwarding, and what it finds of a wave list and of others.
fn measure_mixed<O: RouteSource, N: RouteSource>(
    rt: &(impl AllocGlobal + Clock + Eprint + Print),
    mixed: &Mixed<'_, O, N>,
    question: &Question<'_>,
    others: &[Waves],
) -> Result<()>
    requires waves { length question.now.waves.now ≡ length mixed.now.net }
    requires others { All (λ waves. length waves ≡ length mixed.now.net) others.now }
{
    let Question { waves, asked } = *question;
    let routers = u64::from(mixed.net().routers());
    let start = Instant::now(rt)?;
    let mut finder = Finder::new(rt.alloc(), mixed)?;
    print_seconds(rt, "finder", routers, start)?;
    let start = Instant::now(rt)?;
    let found = find(&mut finder, waves, asked);
    print_seconds(rt, "first", routers, start)?;
    report(rt, found)?;
    let start = Instant::now(rt)?;
    let safe = count_safe(&mut finder, others, asked);
    print_seconds(rt, "others", u64::from(TIMES), start)?;
    println!(rt; "{safe} of {TIMES} others are safe")?;
    Ok(())
}

/// How many of some wave lists are safe.
fn count_safe<O: RouteSource, N: RouteSource>(
    finder: &mut Finder<'_, O, N>,
    lists: &[Waves],
    asked: Asked,
) -> u64
    requires { All (λ waves. length waves ≡ length finder.old.mixture.net) lists.now }
{
    let mut safe = 0u64;
    for waves in lists {
        if find(finder, waves, asked).is_none() {
            safe = safe.saturating_add(1);
        }
    }
    safe
}

/// What is found of a wave list, or of its flat run as an order.
fn find<O: RouteSource, N: RouteSource>(
    finder: &mut Finder<'_, O, N>,
    waves: &Waves,
    asked: Asked,
) -> Option<(u32, Fault)>
    requires { length waves.now ≡ length finder.old.mixture.net }
    ensures { finder.new.mixture ≡ finder.old.mixture }
{
    match asked {
        Asked::Orders => finder.order_fault(waves.flat()),
        Asked::WaveLists => finder.waves_fault(waves.ranks()),
    }
}

/// Prints what was found.
fn report(rt: &impl Print, found: Option<(u32, Fault)>) -> Result<()> {
    match found {
        None => println!(rt; "safe")?,
        Some((number, Fault::Loop { address })) => {
            println!(rt; "unsafe {number}: a loop for {address}")?;
        }
        Some((number, Fault::Missing { address, router })) => {
            println!(rt; "unsafe {number}: router {router} lacks a step for {address}")?;
        }
    }
    Ok(())
}
