use crate::areas::areas_of;
use crate::configurations::{Reading, read_all};
use crate::entries::count_entries;
use crate::reading::print_refused;
use crate::seconds::print_seconds;
use crate::texts::read_texts;
use anyhow::Result;
use isis_routes::IsisRoutes;
use net_model::{Configs, Net, Zone};
use ospf_routes::OspfRoutes;
use std::alloc::{AllocError, Global};
use std::rt::{Clock, Files};
use std::time::Instant;
use store_edge::RealFiles;
use zone_graph::ZoneWalks;

/// Measures the route tables of both protocols of the network of files.
pub fn measure(
    rt: &(impl AllocGlobal + Clock + Eprint + Files + Print),
    files: Vec<String>,
) -> Result<()> {
    let alloc = rt.alloc();
    let texts = read_texts(alloc, &mut RealFiles::new(rt, alloc), files)?;
    match read_all(alloc, texts.as_slice())? {
        Reading::Configurations(configs) => measure_configs(rt, configs),
        Reading::Refused { file, line, kind } => { print_refused(rt, file.as_str(), line, kind) }
    }
}

/// Measures the route tables of the network of configurations.
fn measure_configs(
    rt: &(impl AllocGlobal + Clock + Eprint + Print),
    configs: Configs,
) -> Result<()> {
    match Net::build(rt.alloc(), configs) {
        Ok(net) => {
            println!(rt; "{} routers", net.routers())?;
            measure_ospf(rt, &net)?;
            measure_isis(rt, &net)
        }
        Err(refusal) => {
            println!(rt; "the network is refused: {refusal}")?;
            Ok(())
        }
    }
}

/// Measures the tables of OSPF, and then the least walks of all areas by themselves.
fn measure_ospf(rt: &(impl AllocGlobal + Clock + Eprint + Print), net: &Net) -> Result<()> {
    let alloc = rt.alloc();
    let start = Instant::now(rt)?;
    let routes = OspfRoutes::build(alloc, net)?;
    print_seconds(rt, "OSPF tables", u64::from(net.routers()), start)?;
    println!(rt; "{} entries of OSPF", count_entries(&routes))?;
    let areas = areas_of(alloc, net)?;
    let start = Instant::now(rt)?;
    for area in areas.as_slice() {
        find_walks(alloc, net, Zone::Area(*area))?;
    }
    print_seconds(rt, "OSPF walks", u64::from(net.routers()), start)
}

/// Measures the tables of IS-IS, and then the least walks of both levels by themselves.
fn measure_isis(rt: &(impl AllocGlobal + Clock + Eprint + Print), net: &Net) -> Result<()> {
    let alloc = rt.alloc();
    let start = Instant::now(rt)?;
    let routes = IsisRoutes::build(alloc, net)?;
    print_seconds(rt, "IS-IS tables", u64::from(net.routers()), start)?;
    println!(rt; "{} entries of IS-IS", count_entries(&routes))?;
    let start = Instant::now(rt)?;
    find_walks(alloc, net, Zone::One)?;
    find_walks(alloc, net, Zone::Two)?;
    print_seconds(rt, "IS-IS walks", u64::from(net.routers()), start)
}

/// Finds the least walks of a zone, and lets them go.
fn find_walks(alloc: Global, net: &Net, zone: Zone) -> Result<(), AllocError> {
    let _walks = ZoneWalks::build(alloc, net, zone)?;
    Ok(())
}
