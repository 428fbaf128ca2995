ghost use Rattle.std.specs.Prelude.{◌≡◌, ◌≤◌, length};

use crate::configurations::{Reading, read_all};
use crate::reading::print_refused;
use crate::searches::report_found;
use crate::seconds::print_seconds;
use crate::texts::read_texts;
use anyhow::{Result, bail, ensure};
use isis_routes::IsisRoutes;
use loop_finder::Finder;
use net_model::Net;
use ospf_routes::OspfRoutes;
use plan_theory::Planned;
use rib_mix::Mixed;
use route_core::RouteSource;
use std::rt::{Clock, Files};
use std::time::Instant;
use store_edge::RealFiles;
use wave_oracle::plan_waves;

/// The branches that a plan may take.
const BUDGET: u32 = 10_000;

/// Measures what is planned of the network of these files.
pub fn measure(
    rt: &(impl AllocGlobal + Clock + Eprint + Files + Print),
    files: Vec<String>,
) -> Result<()> {
    let alloc = rt.alloc();
    let texts = read_texts(alloc, &mut RealFiles::new(rt, alloc), files)?;
    match read_all(alloc, texts.as_slice())? {
        Reading::Refused { file, line, kind } => print_refused(rt, file.as_str(), line, kind),
        Reading::Configurations(configs) => match Net::build(alloc, configs) {
            Ok(net) => measure_net(rt, &net),
            Err(refusal) => bail!("the network is refused: {refusal}"),
        },
    }
}

/// Measures what is planned of a network, by the tables of both protocols.
fn measure_net(rt: &(impl AllocGlobal + Clock + Eprint + Print), net: &Net) -> Result<()> {
    let alloc = rt.alloc();
    let routers = net.routers();
    ensure!(1 <= routers && routers <= 1000, "{routers} routers");
    let start = Instant::now(rt)?;
    let old = OspfRoutes::build(alloc, net)?;
    let new = IsisRoutes::build(alloc, net)?;
    print_seconds(rt, "tables", u64::from(routers), start)?;
    measure_plan(rt, net, &old, &new)
}

/// Measures mixed forwarding, a finder, and the plan with a finder of its own.
fn measure_plan<O: RouteSource, N: RouteSource>(
    rt: &(impl AllocGlobal + Clock + Eprint + Print),
    net: &Net,
    old: &O,
    new: &N,
) -> Result<()>
    requires old_routers { O.routers old.now ≡ length net.now }
    requires new_routers { N.routers new.now ≡ length net.now }
    requires some { 1 ≤ length net.now }
    requires few { length net.now ≤ 1000 }
{
    let start = Instant::now(rt)?;
    let mixed = Mixed::build(rt.alloc(), net, old, new)?;
    print_seconds(rt, "mixed forwarding", mixed.atoms().count(), start)?;
    measure_mixed(rt, &mixed)
}

/// Measures a finder over mixed forwarding, and the plan with a finder of its own.
fn measure_mixed<O: RouteSource, N: RouteSource>(
    rt: &(impl AllocGlobal + Clock + Eprint + Print),
    mixed: &Mixed<'_, O, N>,
) -> Result<()>
    requires some { 1 ≤ length mixed.now.net }
    requires few { length mixed.now.net ≤ 1000 }
{
    let alloc = rt.alloc();
    let routers = u64::from(mixed.net().routers());
    let start = Instant::now(rt)?;
    let _finder = Finder::new(alloc, mixed)?;
    print_seconds(rt, "finder alone", routers, start)?;
    let start = Instant::now(rt)?;
    let planned = plan_waves(alloc, mixed, BUDGET)?;
    print_seconds(rt, "finder, ends and search", routers, start)?;
    report(rt, &planned)
}

/// Prints what is planned.
fn report(rt: &impl Print, planned: &Planned) -> Result<()> {
    match planned {
        Planned::UnsoundOld { fault } => println!(rt; "unsound while all are old: {fault:?}")?,
        Planned::UnsoundNew { fault } => println!(rt; "unsound while all are new: {fault:?}")?,
        Planned::Searched { found } => report_found(rt, found)?,
    }
    Ok(())
}
