ghost use Rattle.std.specs.Prelude.{◌≡◌, ◌+◌, ◌<◌, ◌^◌, ◌++◌, IfOk};
ghost use Rattle.std.specs.List.{flat_map};
ghost use Rattle.net_model.specs.RouterNames.{names_of};
ghost use Rattle.order_core.specs.Rankings.{wave_count, wave_of};
ghost use Rattle.printed_lines.specs.Words.{router_word};
ghost use Rattle.drawn_network.specs.Marks.{fault_marked};
ghost use Rattle.drawn_network.specs.RouterLines.{all_wave_lines, lacking_look, lacking_words, line_of_router, router_label, router_node};
ghost use Rattle.drawn_network.specs.RouterLines.{target_look, wave_nodes};

use crate::OutOfMemory;
use crate::drawing::Drawing;
use crate::ends::interfaces_at;
use crate::look::color_of;
use crate::mark::Mark;
use crate::target::has_target;
use net_addr::Prefix;
use net_model::Net;
use order_core::Waves;

/// The routers of a network, and what is told of a fault at them.
#[derive(Drop)]
pub(crate) struct Told<'a> {
    /// The network.
    pub net: &'a Net,
    /// What is marked.
    pub mark: Mark<'a>,
    /// The target of the fault's address.
    pub target: Option<Prefix>,
}

/// The drawing with the routers of all waves more.
pub(crate) fn with_waves(
    drawing: Drawing,
    told: &Told<'_>,
    waves: &Waves,
) -> Result<Drawing, OutOfMemory>
    ensures { IfOk result (λ drawn. drawn ≡ drawing
        ++ all_wave_lines told.now.net.now (fault_marked told.now.mark) told.now.target waves.now) }
{
    let mut drawing = drawing;
    for wave in 0..waves.count() {
        drawing = with_wave(drawing, told, waves, wave)?;
    }
    Ok(drawing)
}

/// The drawing with the routers of a wave more.
fn with_wave(
    drawing: Drawing,
    told: &Told<'_>,
    waves: &Waves,
    wave: u32,
) -> Result<Drawing, OutOfMemory>
    requires wave { wave < wave_count waves.now }
    requires few { wave + 1 < 2 ^ 32 }
    ensures { IfOk result (λ drawn. drawn ≡ drawing
        ++ wave_nodes told.now.net.now (fault_marked told.now.mark) told.now.target waves.now wave) }
{
    let drawing = drawing.text(b"  // wave ")?.number(wave + 1)?.text(b"\n")?;
    with_routers(drawing, told, wave, waves.wave(wave))
}

/// The drawing with some routers of a wave more.
fn with_routers(
    drawing: Drawing,
    told: &Told<'_>,
    wave: u32,
    routers: &[u32],
) -> Result<Drawing, OutOfMemory>
    requires { wave + 1 < 2 ^ 32 }
    ensures { IfOk result (λ drawn. drawn ≡ drawing
        ++ flat_map (line_of_router told.now.net.now (fault_marked told.now.mark) told.now.target wave) routers.now) }
{
    let mut drawing = drawing;
    for router in routers {
        drawing = with_router(drawing, told, wave, *router)?;
    }
    Ok(drawing)
}

/// The drawing with a router of a wave more.
fn with_router(
    drawing: Drawing,
    told: &Told<'_>,
    wave: u32,
    router: u32,
) -> Result<Drawing, OutOfMemory>
    requires { wave + 1 < 2 ^ 32 }
    ensures { IfOk result (λ drawn. drawn ≡ drawing
        ++ line_of_router told.now.net.now (fault_marked told.now.mark) told.now.target wave router) }
{
    let lacks = told.mark.lacks(router);
    let has = has_target(told.target, interfaces_at(told.net, router));
    with_line(drawing, router_name(told.net, router), wave, (lacks, has))
}

/// The drawing with the line of a router of this name more, which lacks a step or not, and has the target or not.
fn with_line(
    drawing: Drawing,
    name: &[u8],
    wave: u32,
    marked: (bool, bool),
) -> Result<Drawing, OutOfMemory>
    requires { wave + 1 < 2 ^ 32 }
    ensures { IfOk result (λ drawn. drawn ≡ drawing ++ router_node name.now wave marked.0 marked.1) }
{
    let (lacks, has) = marked;
    let drawing = drawing.text(b"  ")?.quoted(name)?.text(b" [label=\"")?;
    with_label(drawing, name, wave, lacks)?
        .text(b"\", fillcolor=\"")?
        .text(color_of(wave))?
        .text(b"\"")?
        .text(lacking_look(lacks))?
        .text(target_look(has))?
        .text(b"];\n")
}

/// The drawing with the label of a router of this name more.
fn with_label(drawing: Drawing, name: &[u8], wave: u32, lacks: bool) -> Result<Drawing, OutOfMemory>
    requires { wave + 1 < 2 ^ 32 }
    ensures { IfOk result (λ drawn. drawn ≡ drawing ++ router_label name.now wave lacks) }
{
    drawing
        .escaped(name)?
        .text(b"\\n")?
        .number(wave + 1)?
        .text(lacking_words(lacks))
}

/// What the label of a router says more that lacks a step.
fn lacking_words(lacks: bool) -> &'static [u8]
    ensures { result.now ≡ lacking_words lacks }
{
    if lacks { b"\\nno step" } else { b"" }
}

/// How it looks.
fn lacking_look(lacks: bool) -> &'static [u8]
    ensures { result.now ≡ lacking_look lacks }
{
    if lacks {
        b", color=\"#d62728\", penwidth=3"
    } else {
        b""
    }
}

/// How a router looks that has the target.
fn target_look(has: bool) -> &'static [u8]
    ensures { result.now ≡ target_look has }
{
    if has { b", peripheries=2" } else { b"" }
}

/// The name of a router, and none where there is no such router.
pub(crate) fn router_name(net: &Net, router: u32) -> &[u8]
    ensures { result.now ≡ router_word (names_of net.now) router }
{
    if router < net.routers() {
        net.config(router).name.as_slice()
    } else {
        b""
    }
}
