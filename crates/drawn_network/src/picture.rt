ghost use Rattle.std.specs.Prelude.{◌≡◌, ◌++◌, IfOk};
ghost use Rattle.drawn_network.specs.Marks.{fault_marked};
ghost use Rattle.drawn_network.specs.Pictures.{IsPicture, edge_look, graph_begin, graph_look, node_look};

use crate::OutOfMemory;
use crate::areas::link_areas;
use crate::drawing::Drawing;
use crate::ends::ends_of;
use crate::legend::{Legend, with_legend};
use crate::link_part::with_links;
use crate::links::links_among;
use crate::mark::Mark;
use crate::ring_part::with_fault;
use crate::target::fault_target;
use crate::wave_part::{Told, with_waves};
use net_addr::Bytes;
use net_model::Net;
use order_core::Waves;
use std::alloc::Global;

/// The picture of a network and of a list of waves, with what is said of the list above it, and what is marked.
///
/// The only error is want of memory.
pub fn picture_text(
    alloc: Global,
    net: &Net,
    waves: &Waves,
    said: &[u8],
    mark: Mark<'_>,
) -> Result<Bytes, OutOfMemory>
    ensures { IfOk result (IsPicture net.now waves.now said.now (fault_marked mark.entry)) }
{
    let _ranks = waves.ranks();
    let ends = ends_of(alloc, net)?;
    let links = links_among(alloc, ends.as_slice())?;
    let areas = link_areas(alloc, links.as_slice())?;
    let legend = Legend {
        said,
        waves: waves.count(),
        areas: areas.as_slice(),
        has_links: links.len() > 0,
    };
    let drawing = with_legend(with_looks(Drawing::new(alloc))?, &legend)?;
    let told = Told {
        net,
        mark,
        target: fault_target(net, mark),
    };
    let drawing = with_waves(drawing, &told, waves)?;
    let drawing = with_links(drawing, net, areas.as_slice(), links.as_slice())?;
    let drawing = with_fault(drawing, net, mark)?.text(b"}\n")?;
    Ok(drawing.finish())
}

/// The drawing with what stands in every picture more: how the whole, its nodes and its lines are drawn.
fn with_looks(drawing: Drawing) -> Result<Drawing, OutOfMemory>
    ensures { IfOk result (λ drawn. drawn ≡ drawing ++ graph_begin ++ graph_look ++ node_look ++ edge_look) }
{
    drawing
        .text(
            b"digraph network {\n  graph [layout=neato, start=1, normalize=true, overlap=false, overlap_shrink=false, splines=true];\n",
        )?
        .text(b"  graph [fontname=\"Helvetica\", labelloc=t];\n")?
        .text(
            b"  node [shape=box, style=\"rounded,filled\", fillcolor=white, fontname=\"Helvetica\", fontsize=12, height=0.3, margin=\"0.12,0.06\"];\n",
        )?
        .text(
            b"  edge [dir=none, color=\"#555555\", fontname=\"Helvetica\", fontsize=10, labeldistance=1.8, labelangle=-35, len=1.7];\n",
        )
}
