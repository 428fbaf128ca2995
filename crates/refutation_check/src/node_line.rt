ghost use Rattle.std.specs.Prelude.{◌<◌, ◌^◌, List, ℕ, All, IfOk, MatchOption, MatchResult, length};
ghost use Rattle.net_addr.specs.Spans.{bytes_of, LiesIn};
ghost use Rattle.net_model.specs.Refusals.{IsNetwork};
ghost use Rattle.order_search.specs.declared.tree.Node.{Node};
ghost use Rattle.refutation_check.specs.TreeLines.{SaysNode, pieces_of};
ghost use Rattle.refutation_check.specs.steps.Shapes.{IsShape, SaysNoNode, LieInside};
ghost use Rattle.refutation_check.specs.steps.Spans.{AreFilled, span_texts};

use crate::names::{numbers_named, turns_of};
use crate::shape::{Shape, shape_of};
use crate::spans::words_of_line;
use crate::verdict::WrongKind;
use net_addr::{OutOfMemory, Span};
use net_model::Net;
use order_search::Node;
use plan_theory::Items;
use std::alloc::Global;

/// The node that a line of a text says, or why it says none.
pub(crate) fn read_node(
    alloc: Global,
    items: Items,
    net: &Net,
    text: &[u8],
    line: Span,
) -> Result<Result<Node, WrongKind>, OutOfMemory>
    requires network { IsNetwork net.now }
    requires short { length text.now < 2 ^ 26 }
    requires inside { LiesIn text.now line }
    ensures { IfOk result (λ said. MatchResult said
        (SaysNode items net.now (pieces_of (bytes_of text.now line)))
        (SaysNoNode items net.now (pieces_of (bytes_of text.now line)))) }
{
    match words_of_line(alloc, text, line)? {
        Some(words) => node_of_words(alloc, items, net, text, words.as_slice()),
        None => Ok(Err(WrongKind::Form)),
    }
}

/// The node that words of a text say, or why they say none.
fn node_of_words(
    alloc: Global,
    items: Items,
    net: &Net,
    text: &[u8],
    words: &[Span],
) -> Result<Result<Node, WrongKind>, OutOfMemory>
    requires network { IsNetwork net.now }
    requires inside { All (LiesIn text.now) words.now }
    requires filled { AreFilled (span_texts text.now words.now) }
    ensures { IfOk result (λ said. MatchResult said
        (SaysNode items net.now (span_texts text.now words.now))
        (SaysNoNode items net.now (span_texts text.now words.now))) }
{
    match shape_of(items, text, words) {
        Some(shape) => match node_of(alloc, items, net, text, shape)? {
            Some(node) => Ok(Ok(node)),
            None => Ok(Err(WrongKind::Router)),
        },
        None => Ok(Err(WrongKind::Form)),
    }
}

/// The node of a shape, none where its names aren't those of distinct routers or changes.
fn node_of(
    alloc: Global,
    items: Items,
    net: &Net,
    text: &[u8],
    shape: Shape<'_>,
) -> Result<Option<Node>, OutOfMemory>
    requires network { IsNetwork net.now }
    requires inside { LieInside text.now shape }
    ensures { IfOk result (λ found. (words : List (List ℕ)) → IsShape items text.now words shape.entry → MatchOption found
        ((node : Node) → SaysNode items net.now words node → ⊥)
        (SaysNode items net.now words)) }
{
    match shape {
        Shape::Branch { address, entries } => {
            let turns = turns_of(alloc, net, text, entries)?;
            Ok(turns.map(|turns| Node::Branch { address, turns }))
        }
        Shape::Leaf { names } => {
            match numbers_named(alloc, items, net, text, names)? {
                Some(cycle) => Ok(Some(Node::Leaf { cycle })),
                None => Ok(None),
            }
        }
        Shape::Open => Ok(Some(Node::Unvisited)),
    }
}
