ghost use Rattle.std.specs.Prelude.{◌≤◌, length};

use crate::configurations::read;
use isis_routes::IsisRoutes;
use net_model::Net;
use order_core::{Tag, Turn};
use order_search::{Found, Node};
use ospf_routes::OspfRoutes;
use plan_theory::Planned;
use rib_mix::Mixed;
use std::alloc::{AllocError as OutOfMemory, Global};
use std::process::Abort;
use std::test::Fail;
use test_networks::{RANGE, SQUARE, TRIANGLE, linked_text};
use wave_oracle::plan_waves;

/// What is planned of the network of a text, with this budget of branches.
fn planned(rt: &impl Abort, alloc: Global, text: &[u8], budget: u32) -> Result<Planned, Fail> {
    let net = Net::build(alloc, read(rt, alloc, text)?)?;
    let routers = net.routers();
    assert!(rt; 1 <= routers && routers <= 1000 && 1 <= budget);
    let old = OspfRoutes::build(alloc, &net)?;
    let new = IsisRoutes::build(alloc, &net)?;
    let mixed = Mixed::build(alloc, &net, &old, &new)?;
    let planned = planned_of(alloc, &mixed, budget)?;
    Ok(planned)
}

/// What is planned of the network of mixed forwarding.
fn planned_of(
    alloc: Global,
    mixed: &Mixed<'_, OspfRoutes, IsisRoutes>,
    budget: u32,
) -> Result<Planned, OutOfMemory>
    requires budget { 1 ≤ budget }
    requires some { 1 ≤ length mixed.now.net }
    requires few { length mixed.now.net ≤ 1000 }
{
    plan_waves(alloc, mixed, budget)
}

/// Whether waves were planned, with these ranks and this chain.
fn are_waves(planned: &Planned, ranks: &[u32], chain: &[u32]) -> bool {
    match planned {
        Planned::Searched {
            found: Found::Waves {
                waves,
                chain: told,
                ..
            },
        } => waves.ranks() == ranks && told.as_slice() == chain,
        _ => false,
    }
}

/// Whether a node is a branch of R1 and R2, with this address and these tags.
fn is_branch(node: &Node, address: u32, first: Tag, second: Tag) -> bool {
    let one = Turn {
        router: 0,
        tag: first,
    };
    let two = Turn {
        router: 1,
        tag: second,
    };
    match node {
        Node::Branch { address: at, turns } => *at == address
            && turns.as_slice() == [one, two].as_slice(),
        _ => false,
    }
}

/// Whether it is refuted by the two branches of R1 and R2, and the leaf of both.
fn is_refuted(planned: &Planned) -> bool {
    let nodes = match planned {
        Planned::Searched {
            found: Found::Refuted { tree },
        } => tree.as_slice(),
        _ => return false,
    };
    match nodes {
        [one, two, Node::Leaf { cycle }] => {
            is_branch(one, 0x0a00_0003, Tag::Old, Tag::New)
                && is_branch(two, 0x0a00_0004, Tag::New, Tag::Old)
                && cycle.as_slice() == [1, 0].as_slice()
        }
        _ => false,
    }
}

#[test]
fn the_triangle_has_two_waves(rt: HostRuntime) -> Result<(), Fail> {
    let text = linked_text(rt.alloc(), 3, &TRIANGLE)?;
    let planned = planned(&rt, rt.alloc(), text.as_bytes(), 1)?;
    assert!(rt; are_waves(&planned, &[0, 1, 0], &[0, 1]));
    Ok(())
}

#[test]
fn the_square_is_refuted(rt: HostRuntime) -> Result<(), Fail> {
    let text = linked_text(rt.alloc(), 4, &SQUARE)?;
    let planned = planned(&rt, rt.alloc(), text.as_bytes(), 2)?;
    assert!(rt; is_refuted(&planned));
    Ok(())
}

#[test]
fn the_range_has_two_waves(rt: HostRuntime) -> Result<(), Fail> {
    let planned = planned(&rt, rt.alloc(), RANGE.as_bytes(), 10000)?;
    assert!(rt; are_waves(&planned, &[0, 1, 1, 0], &[0, 1]));
    Ok(())
}
