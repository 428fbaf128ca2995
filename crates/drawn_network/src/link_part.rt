ghost use Rattle.std.specs.Prelude.{◌≡◌, ◌++◌, length, IfOk};
ghost use Rattle.std.specs.List.{flat_map};
ghost use Rattle.net_model.specs.RouterNames.{names_of};
ghost use Rattle.drawn_network.specs.LinkLines.{all_link_lines, arc_line, area_of_either, cost_word, end_label, link_lines_of, metric_word};
ghost use Rattle.drawn_network.specs.LinkLines.{subnet_node, spoke_line, subnet_line};

use crate::OutOfMemory;
use crate::drawing::Drawing;
use crate::ends::LinkEnd;
use crate::links::Link;
use crate::look::with_look;
use crate::wave_part::router_name;
use net_addr::Prefix;
use net_model::{Interface, Net};

/// The drawing with all links more: the nodes of those with more than two ends, and the lines.
pub(crate) fn with_links(
    drawing: Drawing,
    net: &Net,
    areas: &[u32],
    links: &[Link<'_>],
) -> Result<Drawing, OutOfMemory>
    ensures { IfOk result (λ drawn. drawn ≡ drawing ++ all_link_lines (names_of net.now) areas.now links.now) }
{
    let mut drawing = with_nodes(drawing, links)?;
    for link in links {
        drawing = with_link(drawing, net, areas, link.ends())?;
    }
    Ok(drawing)
}

/// The drawing with the nodes of links more.
fn with_nodes(drawing: Drawing, links: &[Link<'_>]) -> Result<Drawing, OutOfMemory>
    ensures { IfOk result (λ drawn. drawn ≡ drawing ++ flat_map subnet_node links.now) }
{
    let mut drawing = drawing;
    for link in links {
        drawing = with_node(drawing, link.ends())?;
    }
    Ok(drawing)
}

/// The drawing with the node of a link more, if it has one.
fn with_node(drawing: Drawing, ends: &[LinkEnd<'_>]) -> Result<Drawing, OutOfMemory>
    ensures { IfOk result (λ drawn. drawn ≡ drawing ++ subnet_node ends.now) }
{
    match ends {
        [first, _, _, ..] => with_subnet(drawing, first.subnet),
        _ => Ok(drawing),
    }
}

/// The drawing with the node of a subnet more.
fn with_subnet(drawing: Drawing, subnet: Prefix) -> Result<Drawing, OutOfMemory>
    ensures { IfOk result (λ drawn. drawn ≡ drawing ++ subnet_line subnet) }
{
    drawing
        .text(b"  \"")?
        .prefix(subnet)?
        .text(b"\" [shape=plaintext, style=\"\", fontsize=10];\n")
}

/// The drawing with the lines of a link more.
fn with_link(
    drawing: Drawing,
    net: &Net,
    areas: &[u32],
    ends: &[LinkEnd<'_>],
) -> Result<Drawing, OutOfMemory>
    ensures { IfOk result (λ drawn. drawn ≡ drawing ++ link_lines_of (names_of net.now) areas.now ends.now) }
{
    match ends {
        [one, other] => with_arc(drawing, net, areas, one, other),
        _ => with_spokes(drawing, net, areas, ends),
    }
}

/// The drawing with a line more from one end of a link to the other.
fn with_arc(
    drawing: Drawing,
    net: &Net,
    areas: &[u32],
    one: &LinkEnd<'_>,
    other: &LinkEnd<'_>,
) -> Result<Drawing, OutOfMemory>
    ensures { IfOk result (λ drawn. drawn ≡ drawing ++ arc_line (names_of net.now) areas.now one.now other.now) }
{
    let drawing = drawing.text(b"  ")?.quoted(router_name(net, one.router))?;
    let drawing = drawing
        .text(b" -> ")?
        .quoted(router_name(net, other.router))?;
    let drawing = with_end(drawing.text(b" [taillabel=\"")?, one.interface)?;
    let drawing = with_end(drawing.text(b"\", headlabel=\"")?, other.interface)?;
    let area = area_of_either(one.interface.area, other.interface.area);
    with_look(drawing.text(b"\", ")?, areas, area)?.text(b"];\n")
}

/// The area of a line: that of one end, or of the other.
fn area_of_either(one: Option<u32>, other: Option<u32>) -> Option<u32>
    ensures { result ≡ area_of_either one other }
{
    match one {
        Some(area) => Some(area),
        None => other,
    }
}

/// The drawing with the lines more from the ends of a link to its node.
fn with_spokes(
    drawing: Drawing,
    net: &Net,
    areas: &[u32],
    ends: &[LinkEnd<'_>],
) -> Result<Drawing, OutOfMemory>
    ensures { IfOk result (λ drawn. drawn ≡ drawing ++ flat_map (spoke_line (names_of net.now) areas.now) ends.now) }
{
    let mut drawing = drawing;
    for end in ends {
        drawing = with_spoke(drawing, net, areas, end)?;
    }
    Ok(drawing)
}

/// The drawing with one of them more.
fn with_spoke(
    drawing: Drawing,
    net: &Net,
    areas: &[u32],
    end: &LinkEnd<'_>,
) -> Result<Drawing, OutOfMemory>
    ensures { IfOk result (λ drawn. drawn ≡ drawing ++ spoke_line (names_of net.now) areas.now end.now) }
{
    let drawing = drawing.text(b"  ")?.quoted(router_name(net, end.router))?;
    let drawing = drawing.text(b" -> \"")?.prefix(end.subnet)?;
    let drawing = with_end(drawing.text(b"\" [taillabel=\"")?, end.interface)?;
    with_look(drawing.text(b"\", ")?, areas, end.interface.area)?.text(b", len=1.4];\n")
}

/// The drawing with what stands at an end more: the OSPF cost and the IS-IS metric, a dash for one that there isn't.
fn with_end(drawing: Drawing, interface: &Interface) -> Result<Drawing, OutOfMemory>
    ensures { IfOk result (λ drawn. drawn ≡ drawing ++ end_label interface.now) }
{
    let drawing = with_cost(drawing, interface.area, interface.cost)?.text(b"/")?;
    with_metric(drawing, interface)
}

/// The drawing with the OSPF cost of an interface more.
fn with_cost(drawing: Drawing, area: Option<u32>, cost: u32) -> Result<Drawing, OutOfMemory>
    ensures { IfOk result (λ drawn. drawn ≡ drawing ++ cost_word area cost) }
{
    match area {
        Some(_) => drawing.number(cost),
        None => drawing.text(b"-"),
    }
}

/// The drawing with the IS-IS metric of an interface more, or both where they differ.
fn with_metric(drawing: Drawing, interface: &Interface) -> Result<Drawing, OutOfMemory>
    ensures { IfOk result (λ drawn. drawn ≡ drawing
        ++ metric_word interface.now.level1 interface.now.level2 interface.now.metric1 interface.now.metric2) }
{
    let (one, two) = (interface.metric1, interface.metric2);
    match (interface.level1, interface.level2) {
        (true, true) if one != two => drawing.number(one)?.text(b",")?.number(two),
        (true, _) => drawing.number(one),
        (false, true) => drawing.number(two),
        (false, false) => drawing.text(b"-"),
    }
}
