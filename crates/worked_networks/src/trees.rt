ghost use Rattle.std.specs.Prelude.{All, IfOk};
ghost use Rattle.refutation_check.specs.TreeTexts.{NodeBelow};

use net_model::Net;
use order_core::{Tag, Turn, Turns};
use order_search::{Cycle, Node, Tree};
use refutation_check::{tree_text, trees_read_back};
use std::alloc::{AllocError, Global};
use std::test::Fail;
use test_networks::bare;

/// A branch over R1 and R2, with these tags.
fn branch(alloc: Global, address: u32, first: Tag, second: Tag) -> Result<Node, AllocError>
    ensures { IfOk result (NodeBelow 4) }
{
    let one = Turn {
        router: 0,
        tag: first,
    };
    let two = Turn {
        router: 1,
        tag: second,
    };
    let turns = Turns::from_vec([one, two].to_vec(alloc)?);
    Ok(Node::Branch { address, turns })
}

/// The leaf of R1 and R2.
fn leaf(alloc: Global) -> Result<Node, AllocError>
    ensures { IfOk result (NodeBelow 4) }
{
    let cycle = Cycle::from_vec([0, 1].to_vec(alloc)?);
    Ok(Node::Leaf { cycle })
}

/// The tree with a node more.
fn grown(mut tree: Tree, node: Node) -> Result<Tree, AllocError>
    requires tree { All (NodeBelow 4) tree }
    requires node { NodeBelow 4 node }
    ensures { IfOk result (All (NodeBelow 4)) }
{
    tree.push(node)?;
    Ok(tree)
}

/// The tree of two branches and a leaf.
fn two_branches(alloc: Global) -> Result<Tree, AllocError>
    ensures { IfOk result (All (NodeBelow 4)) }
{
    let first = branch(alloc, 0x0a00_0004, Tag::New, Tag::Old)?;
    let tree = grown(Tree::new(alloc)?, first)?;
    let second = branch(alloc, 0x0a00_0003, Tag::Old, Tag::New)?;
    let tree = grown(tree, second)?;
    grown(tree, leaf(alloc)?)
}

#[test]
fn a_tree_is_printed(rt: HostRuntime) -> Result<(), Fail> {
    let net = Net::build(rt.alloc(), bare(rt.alloc(), 4)?)?;
    assert!(rt; net.routers() == 4);
    let tree = two_branches(rt.alloc())?;
    let text = tree_text(rt.alloc(), &net, &tree)?;
    assert_eq!(rt;
        text.as_slice(),
        b"tree 1\nbranch 10.0.0.4 R1:N R2:O\nbranch 10.0.0.3 R1:O R2:N\nleaf R1 R2\n".as_slice()
    );
    trees_read_back();
    Ok(())
}
