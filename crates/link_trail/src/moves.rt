ghost use Rattle.link_trail.specs.steps.Splices.{kept};
ghost use Rattle.link_trail.specs.steps.Undoing.{IsLatest, TakesBack};

use crate::chain::{Ends, Gap, Node, following, splice_in, splice_out};

/// A move that stands, with what takes it back.
#[derive(Clone, Copy, Debug)]
pub(crate) enum Move {
    /// The node was put at the end of the list.
    Linked {
        list: u32,
        node: u32,
    },
    /// The node was taken out of the list, where it stood after `previous`, or first.
    Unlinked {
        list: u32,
        node: u32,
        previous: Option<u32>,
    },
}

/// Puts nodes and ends back to the lists before the latest move.
pub(crate) fn take_back(nodes: &mut [Node], ends: &mut [Ends], latest: Move)
    requires { IsLatest nodes.old ends.old latest }
    ensures { TakesBack (kept nodes.old ends.old) (kept nodes.new ends.new) latest }
{
    match latest {
        Move::Linked { list, node } => splice_out(nodes, ends, list, node),
        Move::Unlinked {
            list,
            node,
            previous,
        } => {
            let next = following(nodes, ends, list, previous);
            let gap = Gap {
                list,
                previous,
                next,
            };
            splice_in(nodes, ends, gap, node);
        }
    }
}
