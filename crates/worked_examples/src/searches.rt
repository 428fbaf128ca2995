use crate::wanting::Wanting;
use order_search::{Found, Node, search};
use std::alloc::AllocError;
use std::process::Abort;
use std::test::Fail;

/// The nodes in short: B for a branch, L for a leaf, U for an unvisited place.
fn shape(nodes: &[Node], text: &mut String) -> Result<(), AllocError> {
    for node in nodes {
        let letter = match node {
            Node::Branch { .. } => "B",
            Node::Leaf { .. } => "L",
            Node::Unvisited => "U",
        };
        text.push_str(letter)?;
    }
    Ok(())
}

/// Searches with a budget over the oracle of some numbers, and checks which answer comes, with the shape of its nodes.
fn check_search(
    rt: &(impl AllocGlobal + Abort),
    mut oracle: Wanting<'_>,
    budget: u32,
    expected: &str,
    nodes: &str,
) -> Result<Found, AllocError> {
    let mut text = String::new(rt.alloc());
    let found = search(rt.alloc(), &mut oracle, budget.max(1))?;
    match &found {
        Found::Waves { trail, .. } => {
            assert_eq!(rt; expected, "waves");
            shape(trail.as_slice(), &mut text)?;
        }
        Found::Refuted { tree } => {
            assert_eq!(rt; expected, "refuted");
            shape(tree.as_slice(), &mut text)?;
        }
        Found::Spent { tree } => {
            assert_eq!(rt; expected, "spent");
            shape(tree.as_slice(), &mut text)?;
        }
    }
    assert_eq!(rt; text.as_str(), nodes);
    Ok(found)
}

#[test]
fn base_and_a_branch(rt: HostRuntime) -> Result<(), Fail> {
    // 0 before 1 and 2 before 3 from the start; 3 before 0 is wanted
    let oracle = Wanting::new(4, &[(0, 1), (2, 3)], &[(3, 0)]).ok_or("no oracle")?;
    match check_search(&rt, oracle, 1, "waves", "BU")? {
        Found::Waves {
            waves,
            pairs,
            chain,
            ..
        } => {
            assert_eq!(&rt; waves.ranks(), [2, 3, 0, 1].as_slice());
            assert_eq!(&rt; pairs.as_slice(), [(0, 1), (2, 3), (3, 0)].as_slice());
            assert_eq!(&rt; chain.as_slice(), [2, 3, 0, 1].as_slice());
        }
        _ => panic!(&rt; "no waves"),
    }
    Ok(())
}

#[test]
fn refuted_and_spent(rt: HostRuntime) -> Result<(), Fail> {
    // 0 before 1 is assumed, then 1 before 0, which closes a cycle
    let wants = [(0, 1), (1, 0)];
    let oracle = Wanting::new(2, &[], &wants).ok_or("no oracle")?;
    let _ = check_search(&rt, oracle, 2, "refuted", "BBL")?;
    let oracle = Wanting::new(2, &[], &wants).ok_or("no oracle")?;
    let _ = check_search(&rt, oracle, 1, "spent", "BU")?;
    // a cycle with a pair of the base
    let oracle = Wanting::new(2, &[(0, 1)], &[(1, 0)]).ok_or("no oracle")?;
    match check_search(&rt, oracle, 1, "refuted", "BL")? {
        Found::Refuted { tree } => match tree.as_slice().last() {
            Some(Node::Leaf { cycle }) => assert_eq!(&rt; cycle.as_slice(), [1, 0].as_slice()),
            _ => panic!(&rt; "no leaf"),
        },
        _ => panic!(&rt; "not refuted"),
    }
    Ok(())
}

#[test]
fn two_hundred_waves(rt: HostRuntime) -> Result<(), Fail> {
    // each number after the next higher one
    let mut wants = Vec::new(rt.alloc());
    for lower in 0..199 {
        wants.push((lower + 1, lower))?;
    }
    let mut oracle = Wanting::new(200, &[], wants.as_slice()).ok_or("no oracle")?;
    match search(rt.alloc(), &mut oracle, 19901)? {
        Found::Waves { waves, trail, .. } => {
            assert!(&rt; waves.flat().iter().copied().eq((0..200).rev()));
            assert_eq!(&rt; waves.count(), 200);
            assert_eq!(&rt; trail.as_slice().len(), 200);
        }
        _ => panic!(&rt; "no waves"),
    }
    Ok(())
}
