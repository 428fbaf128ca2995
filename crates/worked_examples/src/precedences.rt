ghost use Rattle.std.specs.Prelude.{◌≡◌, ◌≢◌, ◌<◌, ◌≤◌, length, IfOk};

use precedence_set::{Added, Precedences};
use std::alloc::{AllocError, Global};
use std::process::Abort;

/// The first pairs, and what came of them. The layers are asked for after each.
fn assumed(
    alloc: Global,
    routers: u32,
    pairs: &[(u32, u32)],
    layers: &mut [u32],
    answers: &mut Vec<Added>,
) -> Result<Precedences, AllocError>
    requires small { routers ≤ 1000 }
    requires layers { length layers.old ≡ routers }
    ensures { IfOk result (λ p. p.routers ≡ routers) }
{
    let mut held = Precedences::new(alloc, routers)?;
    for &(u, v) in pairs {
        if u < routers && v < routers && u != v && held.mark() < 1000 {
            answers.push(assume(&mut held, layers, u, v)?)?;
        }
    }
    Ok(held)
}

/// Takes one pair more, and asks for the layers.
fn assume(held: &mut Precedences, layers: &mut [u32], u: u32, v: u32) -> Result<Added, AllocError>
    requires u_in { u < held.old.routers }
    requires v_in { v < held.old.routers }
    requires differ { u ≢ v }
    requires few { length held.old.pairs < 1000 }
    requires layers { length layers.old ≡ held.old.routers }
    ensures { held.new.routers ≡ held.old.routers }
{
    held.reserve(1)?;
    let added = held.add(u, v);
    held.layers(layers);
    Ok(added)
}

/// Checks which of some pairs of five routers close a cycle, and the cycle of the latest that did.
fn check_cycles(
    rt: &(impl AllocGlobal + Abort),
    pairs: &[(u32, u32)],
    closes: &[bool],
    cycle: &[u32],
) -> Result<(), AllocError> {
    let mut answers = Vec::new(rt.alloc());
    let held = assumed(rt.alloc(), 5, pairs, &mut [9; 5], &mut answers)?;
    let mut closed = Vec::new(rt.alloc());
    for answer in answers.as_slice() {
        closed.push(*answer == Added::Closes)?;
    }
    assert_eq!(rt; closed.as_slice(), closes, "at {pairs:?}");
    assert_eq!(rt; held.cycle(), cycle, "at {pairs:?}");
    Ok(())
}

/// Checks the layers of some pairs of five routers, and the chain that shows their number.
fn check_layers(
    rt: &(impl AllocGlobal + Abort),
    pairs: &[(u32, u32)],
    layers: [u32; 5],
    chain: &[u32],
) -> Result<(), AllocError> {
    let mut answers = Vec::new(rt.alloc());
    let mut out = [9; 5];
    let mut held = assumed(rt.alloc(), 5, pairs, &mut out, &mut answers)?;
    let count = held.layers(&mut out);
    assert_eq!(rt; out, layers, "at {pairs:?}");
    let length = held.chain(&mut out);
    assert_eq!(rt; length, count, "at {pairs:?}");
    assert_eq!(rt; &out[..length as usize], chain, "at {pairs:?}");
    Ok(())
}

#[test]
fn layers_and_chains(rt: HostRuntime) -> Result<(), AllocError> {
    check_layers(&rt, &[], [0, 0, 0, 0, 0], &[0])?;
    check_layers(&rt, &[(4, 0)], [1, 0, 0, 0, 0], &[4, 0])?;
    check_layers(&rt, &[(2, 0), (4, 2)], [2, 0, 1, 0, 0], &[4, 2, 0])?;
    // a short way beside a long one; two routers of a layer before the last
    let ways = [(0, 1), (1, 2), (2, 3), (0, 3)];
    check_layers(&rt, &ways, [0, 1, 2, 3, 0], &[0, 1, 2, 3])?;
    let fork = [(0, 1), (0, 4), (0, 2), (2, 3), (4, 3)];
    check_layers(&rt, &fork, [0, 1, 1, 2, 1], &[0, 2, 3])?;
    // a lower predecessor that isn't of the layer before is passed by; a pair that is assumed twice
    let low = [(4, 3), (3, 2), (1, 2), (4, 3)];
    check_layers(&rt, &low, [0, 0, 2, 1, 0], &[4, 3, 2])
}

#[test]
fn pairs_that_close_cycles(rt: HostRuntime) -> Result<(), AllocError> {
    check_cycles(&rt, &[], &[], &[])?;
    check_cycles(&rt, &[(2, 0), (4, 2)], &[false, false], &[])?;
    check_cycles(
        &rt,
        &[(1, 0), (0, 1), (1, 0)],
        &[false, true, false],
        &[0, 1],
    )?;
    // the lowest way back, which isn't the shortest
    check_cycles(
        &rt,
        &[(0, 1), (1, 2), (2, 3), (0, 3), (3, 0)],
        &[false, false, false, false, true],
        &[3, 0, 1, 2],
    )?;
    // a router that doesn't lead back is passed by, and so are two in a row
    check_cycles(
        &rt,
        &[(0, 1), (0, 4), (0, 2), (2, 3), (4, 3), (3, 0)],
        &[false, false, false, false, false, true],
        &[3, 0, 2],
    )?;
    check_cycles(
        &rt,
        &[(0, 1), (1, 2), (0, 4), (4, 2), (4, 3), (3, 0)],
        &[false, false, false, false, false, true],
        &[3, 0, 4],
    )
}

#[test]
fn pairs_are_taken_back(rt: HostRuntime) -> Result<(), AllocError> {
    let mut answers = Vec::new(rt.alloc());
    let mut out = [9; 5];
    let mut held = assumed(
        rt.alloc(),
        5,
        &[(0, 1), (1, 2), (2, 3), (3, 0)],
        &mut out,
        &mut answers,
    )?;
    assert_eq!(&rt; held.mark(), 3);
    if held.mark() >= 1 {
        held.undo_to(1);
    }
    held.reserve(1)?;
    assert!(&rt; held.add(3, 0) == Added::Kept);
    let expected = [3, 0, 1, 2];
    assert_eq!(&rt; held.cycle(), expected.as_slice());
    assert_eq!(&rt; held.layers(&mut out), 3);
    assert_eq!(&rt; out, [1, 2, 0, 0, 0]);
    // layers that were asked for are those of the first pairs again; a mark that stands takes nothing back
    if held.mark() >= 1 {
        held.undo_to(1);
    }
    assert_eq!(&rt; held.layers(&mut out), 2);
    assert_eq!(&rt; out, [0, 1, 0, 0, 0]);
    held.undo_to(held.mark());
    assert_eq!(&rt; held.layers(&mut out), 2);
    Ok(())
}
