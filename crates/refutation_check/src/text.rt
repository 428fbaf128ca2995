ghost use Rattle.std.specs.Prelude.{◌≡◌, ◌<◌, ◌*◌, ◌++◌, ◌∷◌, [], ℕ, All, IfOk, length, map};
ghost use Rattle.order_core.specs.declared.turn.Turn.{Turn};
ghost use Rattle.net_model.specs.RouterNames.{names_of};
ghost use Rattle.plan_theory.specs.Ranked.{size_of};
ghost use Rattle.printed_lines.specs.Texts.{text_of};
ghost use Rattle.printed_lines.specs.Words.{spaced, router_word};
ghost use Rattle.refutation_check.specs.StartLines.{made_words};
ghost use Rattle.refutation_check.specs.TreeLines.{letter_of};
ghost use Rattle.refutation_check.specs.TreeTexts.{NodeBelow, node_line, number_word, ranked_router, rest_tree_text, start_line};
ghost use Rattle.refutation_check.specs.TreeTexts.{tree_text, turn_word, two_tree_text};

use change_orders::with_item;
use net_addr::{Bytes, OutOfMemory};
use net_model::Net;
use order_core::{Tag, Turn};
use order_search::{Node, Tree};
use plan_theory::Items;
use printed_lines::{LineBuilder, TextBuilder};
use rib_mix::Phase;
use std::alloc::Global;

/// The text of a tree of the network's routers: the line `tree 1`, then a line for each node in order. The only error is
/// want of memory.
///
/// `tree_text` is `tree 1`, `branch 10.0.0.4 R1:N R2:O`, `open` for a branch that was entered and a place that wasn't.
pub fn tree_text(alloc: Global, net: &Net, tree: &Tree) -> Result<Bytes, OutOfMemory>
    requires { All (NodeBelow (length net.now)) tree.now }
    ensures { IfOk result (λ text. text ≡ tree_text (names_of net.now) tree.now) }
{
    let text = TextBuilder::new(alloc).line(LineBuilder::start(alloc, b"tree 1")?)?;
    let text = with_nodes(alloc, text, Items::Routers, net, tree.as_slice())?;
    Ok(text.finish())
}

/// The text of a tree of the network's single changes: the line `tree 2`, then a line for each node in order; branches name
/// the routers of their changes. The only error is want of memory.
pub fn two_tree_text(alloc: Global, net: &Net, tree: &Tree) -> Result<Bytes, OutOfMemory>
    requires { All (NodeBelow (2 * length net.now)) tree.now }
    ensures { IfOk result (λ text. text ≡ two_tree_text (names_of net.now) tree.now) }
{
    let text = TextBuilder::new(alloc).line(LineBuilder::start(alloc, b"tree 2")?)?;
    let text = with_nodes(alloc, text, Items::Changes, net, tree.as_slice())?;
    Ok(text.finish())
}

/// The text of a tree of the network's routers from a start: the line `tree 3`, the line of the start, then a line for each node in
/// order. The only error is want of memory.
///
/// Where R3 is New and no other router has begun the second line is `start R3:2`; where none has it is `start`.
pub fn rest_tree_text(
    alloc: Global,
    net: &Net,
    start: &[Phase],
    tree: &Tree,
) -> Result<Bytes, OutOfMemory>
    requires start { length start.now ≡ length net.now }
    requires below { All (NodeBelow (length net.now)) tree.now }
    ensures { IfOk result (λ text. text ≡ rest_tree_text (names_of net.now) start.now tree.now) }
{
    let text = TextBuilder::new(alloc).line(LineBuilder::start(alloc, b"tree 3")?)?;
    let text = text.line(start_line_of(alloc, net, start)?)?;
    let text = with_nodes(alloc, text, Items::Routers, net, tree.as_slice())?;
    Ok(text.finish())
}

/// The line of a start.
fn start_line_of(alloc: Global, net: &Net, start: &[Phase]) -> Result<LineBuilder, OutOfMemory>
    requires { length start.now ≡ length net.now }
    ensures { IfOk result (λ line. line ≡ start_line (names_of net.now) start.now) }
{
    let mut line = LineBuilder::start(alloc, b"start")?;
    for router in 0..net.routers() {
        line = with_made(line, net, router, start[router as usize])?;
    }
    Ok(line)
}

/// The line with the word of the last change that a router has made more, where it has made one.
fn with_made(
    line: LineBuilder,
    net: &Net,
    router: u32,
    phase: Phase,
) -> Result<LineBuilder, OutOfMemory>
    requires { router < length net.now }
    ensures { IfOk result (λ longer. longer ≡ line ++ spaced (made_words (router_word (names_of net.now) router) phase)) }
{
    match phase {
        Phase::Old => Ok(line),
        Phase::Middle => line.word(name_of(net, router))?.attach(b':', b"1"),
        Phase::New => line.word(name_of(net, router))?.attach(b':', b"2"),
    }
}

/// The text with the lines of some nodes more.
fn with_nodes(
    alloc: Global,
    mut text: TextBuilder,
    items: Items,
    net: &Net,
    nodes: &[Node],
) -> Result<TextBuilder, OutOfMemory>
    requires { All (NodeBelow (size_of items (length net.now))) nodes.now }
    ensures { IfOk result (λ longer. longer ≡ text ++ text_of (map (node_line items (names_of net.now)) nodes.now)) }
{
    for node in nodes {
        text = text.line(node_line_of(alloc, items, net, node)?)?;
    }
    Ok(text)
}

/// The line of a node.
fn node_line_of(
    alloc: Global,
    items: Items,
    net: &Net,
    node: &Node,
) -> Result<LineBuilder, OutOfMemory>
    requires { NodeBelow (size_of items (length net.now)) node.now }
    ensures { IfOk result (λ line. line ≡ node_line items (names_of net.now) node.now) }
{
    match node {
        Node::Branch { address, turns } => {
            let line = LineBuilder::start(alloc, b"branch")?.address(*address)?;
            with_turns(line, items, net, turns.as_slice())
        }
        Node::Leaf { cycle } => {
            let line = LineBuilder::start(alloc, b"leaf")?;
            with_numbers(line, items, net, cycle.as_slice())
        }
        Node::Unvisited => LineBuilder::start(alloc, b"open"),
    }
}

/// The line with some turns more, by their routers.
fn with_turns(
    mut line: LineBuilder,
    items: Items,
    net: &Net,
    turns: &[Turn],
) -> Result<LineBuilder, OutOfMemory>
    requires { All (λ (turn : Turn). turn.router < size_of items (length net.now)) turns.now }
    ensures { IfOk result (λ longer. longer ≡ line ++ spaced (map (turn_word items (names_of net.now)) turns.now)) }
{
    for turn in turns {
        line = with_turn(line, items, net, *turn)?;
    }
    Ok(line)
}

/// The line with one turn more, by its router.
fn with_turn(
    line: LineBuilder,
    items: Items,
    net: &Net,
    turn: Turn,
) -> Result<LineBuilder, OutOfMemory>
    requires { turn.router < size_of items (length net.now) }
    ensures { IfOk result (λ longer. longer ≡ line ++ 32 ∷ turn_word items (names_of net.now) turn) }
{
    line.word(name_of(net, router_at(items, turn.router)))?
        .attach(b':', letter(turn.tag))
}

/// The router of a number.
fn router_at(items: Items, number: u32) -> u32
    ensures { result ≡ ranked_router items number }
{
    match items {
        Items::Routers => number,
        Items::Changes => number / 2,
    }
}

/// The line with the words of some numbers more.
fn with_numbers(
    mut line: LineBuilder,
    items: Items,
    net: &Net,
    numbers: &[u32],
) -> Result<LineBuilder, OutOfMemory>
    requires { All (λ (u : ℕ). u < size_of items (length net.now)) numbers.now }
    ensures { IfOk result (λ longer. longer ≡ line ++ spaced (map (number_word items (names_of net.now)) numbers.now)) }
{
    for number in numbers {
        line = with_number(line, items, net, *number)?;
    }
    Ok(line)
}

/// The line with the word of one number more.
fn with_number(
    line: LineBuilder,
    items: Items,
    net: &Net,
    number: u32,
) -> Result<LineBuilder, OutOfMemory>
    requires { number < size_of items (length net.now) }
    ensures { IfOk result (λ longer. longer ≡ line ++ 32 ∷ number_word items (names_of net.now) number) }
{
    match items {
        Items::Routers => line.word(name_of(net, number)),
        Items::Changes => with_item(line, net, number),
    }
}

/// The name of a router.
fn name_of(net: &Net, router: u32) -> &[u8]
    requires { router < length net.now }
    ensures { result.now ≡ router_word (names_of net.now) router }
{
    net.config(router).name.as_slice()
}

/// The letter of a tag.
fn letter(tag: Tag) -> &'static [u8]
    ensures { result.now ≡ letter_of tag ∷ [] }
{
    match tag {
        Tag::Old => b"O",
        Tag::New => b"N",
        Tag::Both => b"B",
    }
}
