ghost use Rattle.std.specs.Prelude.{◌≡◌, ◌<◌, length};
ghost use Rattle.std.specs.Option.{ForSome};
ghost use Rattle.link_trail.specs.Chains.{stretch_between, node_at};
ghost use Rattle.link_trail.specs.steps.Splices.{PutsBetween, TakesOut, kept, next_after, with_first, with_last, with_next, with_previous};

/// Where a node stands: its list, and its neighbors there.
#[derive(Clone, Copy, Debug)]
pub(crate) struct Node {
    pub(crate) list: Option<u32>,
    pub(crate) previous: Option<u32>,
    pub(crate) next: Option<u32>,
}

impl Node {
    /// A node that stands in no list.
    pub const FREE: Node = Node {
        list: None,
        previous: None,
        next: None,
    };
}

/// The first and the last node of a list.
#[derive(Clone, Copy, Debug)]
pub(crate) struct Ends {
    pub(crate) first: Option<u32>,
    pub(crate) last: Option<u32>,
}

impl Ends {
    /// The ends of a list without nodes.
    pub const EMPTY: Ends = Ends {
        first: None,
        last: None,
    };
}

/// The node that follows `previous` in the list, or the list's first.
pub(crate) fn following(
    nodes: &[Node],
    ends: &[Ends],
    list: u32,
    previous: Option<u32>,
) -> Option<u32>
    requires list { list < length ends.now }
    requires previous { ForSome previous (λ p. p < length nodes.now) }
    ensures { result ≡ next_after nodes.now ends.now list previous }
{
    match previous {
        Some(p) => nodes[p as usize].next,
        None => ends[list as usize].first,
    }
}

/// Where a node is put: into a list, between two neighbors or at an end.
#[derive(Clone, Copy)]
pub(crate) struct Gap {
    pub(crate) list: u32,
    pub(crate) previous: Option<u32>,
    pub(crate) next: Option<u32>,
}

/// Puts a free node into a gap.
pub(crate) fn splice_in(nodes: &mut [Node], ends: &mut [Ends], gap: Gap, node: u32)
    requires list { gap.list < length ends.old }
    requires node { node < length nodes.old }
    requires previous { ForSome gap.previous (λ p. p < length nodes.old) }
    requires next { ForSome gap.next (λ n. n < length nodes.old) }
    ensures { PutsBetween (kept nodes.old ends.old) (kept nodes.new ends.new) (stretch_between gap.list gap.previous gap.next) node }
{
    let Gap {
        list,
        previous,
        next,
    } = gap;
    set_next(nodes, ends, list, previous, Some(node));
    set_previous(nodes, ends, list, next, Some(node));
    nodes[node as usize] = Node {
        list: Some(list),
        previous,
        next,
    };
}

/// Takes a node out of the list, and makes its neighbors there neighbors of each other.
pub(crate) fn splice_out(nodes: &mut [Node], ends: &mut [Ends], list: u32, node: u32)
    requires list { list < length ends.old }
    requires node { node < length nodes.old }
    requires previous { ForSome (node_at nodes.old node).previous (λ p. p < length nodes.old) }
    requires next { ForSome (node_at nodes.old node).next (λ n. n < length nodes.old) }
    ensures { TakesOut (kept nodes.old ends.old) (kept nodes.new ends.new) list node }
{
    let Node { previous, next, .. } = nodes[node as usize];
    set_next(nodes, ends, list, previous, next);
    set_previous(nodes, ends, list, next, previous);
    nodes[node as usize] = Node::FREE;
}

// Makes `next` follow `previous`, or begin the list.
fn set_next(
    nodes: &mut [Node],
    ends: &mut [Ends],
    list: u32,
    previous: Option<u32>,
    next: Option<u32>,
)
    requires list { list < length ends.old }
    requires previous { ForSome previous (λ p. p < length nodes.old) }
    ensures nodes { nodes.new ≡ with_next nodes.old previous next }
    ensures ends { ends.new ≡ with_first ends.old list previous next }
{
    match previous {
        Some(p) => nodes[p as usize].next = next,
        None => ends[list as usize].first = next,
    }
}

// Makes `previous` stand before `next`, or end the list.
fn set_previous(
    nodes: &mut [Node],
    ends: &mut [Ends],
    list: u32,
    next: Option<u32>,
    previous: Option<u32>,
)
    requires list { list < length ends.old }
    requires next { ForSome next (λ n. n < length nodes.old) }
    ensures nodes { nodes.new ≡ with_previous nodes.old next previous }
    ensures ends { ends.new ≡ with_last ends.old list next previous }
{
    match next {
        Some(n) => nodes[n as usize].previous = previous,
        None => ends[list as usize].last = previous,
    }
}
