ghost use Rattle.std.specs.Prelude.{◌≡◌, ◌<◌, ◌++◌, length, IfOk};
ghost use Rattle.net_model.specs.RouterNames.{names_of};
ghost use Rattle.drawn_network.specs.Marks.{fault_marked};
ghost use Rattle.drawn_network.specs.RingLines.{mark_lines, red_line, red_line_at, red_lines, tag_mark};

use crate::OutOfMemory;
use crate::drawing::Drawing;
use crate::mark::Mark;
use crate::wave_part::router_name;
use net_model::Net;
use order_core::{Tag, Turn};

/// The drawing with the arcs of the ring of a loop more.
pub(crate) fn with_fault(
    drawing: Drawing,
    net: &Net,
    mark: Mark<'_>,
) -> Result<Drawing, OutOfMemory>
    ensures { IfOk result (λ drawn. drawn ≡ drawing ++ mark_lines (names_of net.now) (fault_marked mark.entry)) }
{
    match mark {
        Mark::Nothing | Mark::Lacking { .. } => Ok(drawing),
        Mark::Ring { turns, .. } => with_ring(drawing, net, turns),
    }
}

/// The drawing with the arcs of a ring more.
fn with_ring(drawing: Drawing, net: &Net, turns: &[Turn]) -> Result<Drawing, OutOfMemory>
    ensures { IfOk result (λ drawn. drawn ≡ drawing ++ red_lines (names_of net.now) turns.now) }
{
    let mut drawing = drawing;
    for place in 0..turns.len() {
        drawing = with_arc_at(drawing, net, turns, place)?;
    }
    Ok(drawing)
}

/// The drawing with the arc more that begins at a place of a ring.
fn with_arc_at(
    drawing: Drawing,
    net: &Net,
    turns: &[Turn],
    place: usize,
) -> Result<Drawing, OutOfMemory>
    requires { place < length turns.now }
    ensures { IfOk result (λ drawn. drawn ≡ drawing ++ red_line_at (names_of net.now) turns.now place) }
{
    let turn = turns[place];
    let next = turns[(place + 1) % turns.len()];
    with_red_line(drawing, net, turn, next.router)
}

/// The drawing with an arc more from the router of a turn to another one.
fn with_red_line(drawing: Drawing, net: &Net, turn: Turn, next: u32) -> Result<Drawing, OutOfMemory>
    ensures { IfOk result (λ drawn. drawn ≡ drawing
        ++ red_line (names_of net.now) turn.router next (tag_mark turn.tag)) }
{
    let drawing = drawing.text(b"  ")?.quoted(router_name(net, turn.router))?;
    let drawing = drawing.text(b" -> ")?.quoted(router_name(net, next))?;
    drawing
        .text(b" [dir=forward, color=\"#d62728\", penwidth=2.5, label=\"")?
        .byte(tag_mark(turn.tag))?
        .text(b"\", fontcolor=\"#d62728\", fontsize=14];\n")
}

/// The letter of a tag.
fn tag_mark(tag: Tag) -> u8
    ensures { result ≡ tag_mark tag }
{
    match tag {
        Tag::Old => b'O',
        Tag::New => b'N',
        Tag::Both => b'B',
    }
}
