ghost use Rattle.std.specs.Prelude.{◌<◌, length};

use ios_reader::read_configs;
use isis_routes::IsisRoutes;
use net_model::Net;
use ospf_routes::OspfRoutes;
use rib_mix::{Mixed, Next, Phase};
use std::alloc::{AllocError, Global};
use std::process::Abort;
use std::test::Fail;
use test_networks::{RANGE, triangle_text};

/// What a router does with a packet.
#[derive(Clone, Copy)]
enum Does {
    /// It sends it to this router.
    Sends(u32),
    /// It drops it.
    Drops,
}

/// A router, an address with the length of its target, and what the router does with its packets in a phase.
#[derive(Clone, Copy)]
struct Row {
    router: u32,
    address: u32,
    target: Option<u8>,
    phase: Phase,
    does: Does,
}

/// The network of a text.
fn network(rt: &impl Abort, alloc: Global, text: &str) -> Result<Net, Fail> {
    assert!(rt; text.len() < 10000);
    let Ok(configs) = read_configs(alloc, text.as_bytes()) else {
        return Err(Fail::from("refused"));
    };
    match Net::build(alloc, configs) {
        Ok(net) => Ok(net),
        Err(_) => Err(Fail::from("no network")),
    }
}

/// Whether this is what a router does.
fn is_done(next: Next<'_>, does: Does) -> bool {
    match (next, does) {
        (Next::Via(hops), Does::Sends(to)) => hops.as_slice() == [to].as_slice(),
        (Next::Discard, Does::Drops) => true,
        _ => false,
    }
}

/// Whether mixed forwarding answers a row.
fn answers(mixed: &Mixed<'_, OspfRoutes, IsisRoutes>, row: Row) -> bool
    requires { row.router < length mixed.now.net }
{
    let atom = mixed.atoms().of(row.address);
    let target = mixed.atoms().target(atom).map(|prefix| prefix.len());
    target == row.target && is_done(mixed.hops(row.router, atom, row.phase), row.does)
}

/// Whether mixed forwarding answers all rows.
fn answers_all(mixed: &Mixed<'_, OspfRoutes, IsisRoutes>, rows: &[Row]) -> bool {
    for row in rows {
        if row.router >= mixed.net().routers() || !answers(mixed, *row) {
            return false;
        }
    }
    true
}

/// Whether the routes of a network answer all rows.
fn network_answers(alloc: Global, net: &Net, rows: &[Row]) -> Result<bool, AllocError> {
    let old = OspfRoutes::build(alloc, net)?;
    let new = IsisRoutes::build(alloc, net)?;
    let mixed = Mixed::build(alloc, net, &old, &new)?;
    Ok(answers_all(&mixed, rows))
}

/// What R1 of the triangle does for 10.0.0.3, where the prefix 10.0.0.3/32 decides in each phase: both protocols have it,
/// and no other one contains the address.
fn triangle_row(phase: Phase, to: u32) -> Row {
    Row {
        router: 0,
        address: 0x0a00_0003,
        target: Some(32),
        phase,
        does: Does::Sends(to),
    }
}

/// OSPF is used at distance 110, below 115, until it installs nothing.
#[test]
fn a_router_sends_by_ospf_until_its_last_change(rt: HostRuntime) -> Result<(), Fail> {
    let text = triangle_text(rt.alloc(), "")?;
    let net = network(&rt, rt.alloc(), text.as_str())?;
    let rows = [
        triangle_row(Phase::Old, 1),
        triangle_row(Phase::Middle, 1),
        triangle_row(Phase::New, 2),
    ];
    assert!(rt; network_answers(rt.alloc(), &net, &rows)?);
    Ok(())
}

/// At OSPF distance 120, above 115, IS-IS is used as soon as it is installed.
#[test]
fn a_router_of_a_higher_distance_sends_by_isis_at_once(rt: HostRuntime) -> Result<(), Fail> {
    let text = triangle_text(rt.alloc(), " distance 120\n")?;
    let net = network(&rt, rt.alloc(), text.as_str())?;
    let rows = [
        triangle_row(Phase::Old, 1),
        triangle_row(Phase::Middle, 2),
        triangle_row(Phase::New, 2),
    ];
    assert!(rt; network_answers(rt.alloc(), &net, &rows)?);
    Ok(())
}

/// What R1 between the two areas does for 10.1.0.3.
fn border_row(phase: Phase, to: u32) -> Row {
    Row {
        router: 0,
        address: 0x0a01_0003,
        target: Some(32),
        phase,
        does: Does::Sends(to),
    }
}

/// R1 sends to R2 by the range 10.1.0.0/16, which is all that OSPF has, and to R4 as soon as IS-IS is installed: its prefix
/// 10.1.0.3/32 is the longer one, and distances aren't asked. R2 drops by its discard for the range 10.1.0.0/16 what goes
/// to 10.1.7.1, which is in no subnet.
#[test]
fn the_longer_prefix_decides_before_the_distance(rt: HostRuntime) -> Result<(), Fail> {
    let net = network(&rt, rt.alloc(), RANGE)?;
    let rows = [
        border_row(Phase::Old, 1),
        border_row(Phase::Middle, 3),
        border_row(Phase::New, 3),
        Row {
            router: 1,
            address: 0x0a01_0701,
            target: None,
            phase: Phase::Old,
            does: Does::Drops,
        },
    ];
    assert!(rt; network_answers(rt.alloc(), &net, &rows)?);
    Ok(())
}
