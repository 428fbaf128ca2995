ghost use Rattle.std.specs.Prelude.{◌≡◌, length};

use crate::configurations::read;
use isis_routes::IsisRoutes;
use loop_finder::Finder;
use net_model::Net;
use order_core::Waves;
use ospf_routes::OspfRoutes;
use rib_mix::Mixed;
use route_core::RouteSource;
use std::alloc::{AllocError, Global};
use std::process::Abort;
use std::test::Fail;
use step_scripts::{OrderRefusal, read_waves};
use test_networks::{SQUARE, linked_text};

/// The wave list in which four routers have these ranks, as an order file; where it leaves a wave empty, those before it.
fn order_file(alloc: Global, ranks: &[u32]) -> Result<String, AllocError> {
    let mut text = String::from_str(alloc, "order 2\n")?;
    for wave in 0..4 {
        if !ranks.contains(&wave) {
            return Ok(text);
        }
        let line = wave_line(alloc, ranks, wave)?;
        text.push_str(line.as_str())?;
    }
    Ok(text)
}

/// The line of a wave.
fn wave_line(alloc: Global, ranks: &[u32], wave: u32) -> Result<String, AllocError> {
    let mut line = String::from_str(alloc, "wave")?;
    for (name, rank) in [" R1", " R2", " R3", " R4"].iter().zip(ranks) {
        if *rank == wave {
            line.push_str(name)?;
        }
    }
    line.push_str("\n")?;
    Ok(line)
}

/// Whether a wave list has a fault.
fn has_fault<O: RouteSource, N: RouteSource>(finder: &mut Finder<'_, O, N>, waves: &Waves) -> bool
    requires { length waves.now ≡ length finder.old.mixture.net }
    ensures { finder.new.mixture ≡ finder.old.mixture }
{
    finder.waves_fault(waves.ranks()).is_some()
}

/// How many wave lists of four routers there are, and how many of them have a fault.
fn count_faults<O: RouteSource, N: RouteSource>(
    rt: &impl Abort,
    alloc: Global,
    net: &Net,
    finder: &mut Finder<'_, O, N>,
) -> Result<(u32, u32), Fail>
    requires { finder.old.mixture.net ≡ net.now }
{
    let mut lists = 0u32;
    let mut faults = 0u32;
    for code in 0..256u32 {
        let ranks = [code % 4, code / 4 % 4, code / 16 % 4, code / 64];
        let text = order_file(alloc, &ranks)?;
        assert!(rt; net.routers() == 4 && text.len() < 100);
        match read_waves(alloc, net, text.as_bytes()) {
            Ok(file) => {
                lists = lists.saturating_add(1);
                if has_fault(finder, &file.waves) {
                    faults = faults.saturating_add(1);
                }
            }
            Err(OrderRefusal::Bad { .. }) => {}
            Err(OrderRefusal::OutOfMemory) => return Err(Fail::from("out of memory")),
        }
    }
    Ok((lists, faults))
}

/// The same by a finder over mixed forwarding of the network.
fn counts_of<O: RouteSource, N: RouteSource>(
    rt: &impl Abort,
    alloc: Global,
    net: &Net,
    mixed: &Mixed<'_, O, N>,
) -> Result<(u32, u32), Fail>
    requires { mixed.now.net ≡ net.now }
{
    let mut finder = Finder::new(alloc, mixed)?;
    count_faults(rt, alloc, net, &mut finder)
}

/// No wave list of these routers is seamless, whether it has one wave or four.
#[test]
fn a_network_without_a_seamless_wave_list(rt: HostRuntime) -> Result<(), Fail> {
    let text = linked_text(rt.alloc(), 4, &SQUARE)?;
    let net = Net::build(rt.alloc(), read(&rt, rt.alloc(), text.as_bytes())?)?;
    let old = OspfRoutes::build(rt.alloc(), &net)?;
    let new = IsisRoutes::build(rt.alloc(), &net)?;
    let mixed = Mixed::build(rt.alloc(), &net, &old, &new)?;
    let counts = counts_of(&rt, rt.alloc(), &net, &mixed)?;
    assert_eq!(rt; counts, (75, 75));
    Ok(())
}
