ghost use Rattle.std.specs.Prelude.{◌≡◌, ◌++◌, IfOk};
ghost use Rattle.drawn_network.specs.Colors.{area_place, border_at, color_of, line_look, style_at};

use crate::OutOfMemory;
use crate::drawing::Drawing;

/// The colour of a wave.
pub(crate) fn color_of(wave: u32) -> &'static [u8]
    ensures { result.now ≡ color_of wave }
{
    match wave % 12 {
        0 => b"#9ecae1",
        1 => b"#a1d99b",
        2 => b"#fdd0a2",
        3 => b"#dadaeb",
        4 => b"#fcc5c0",
        5 => b"#fee391",
        6 => b"#c7e9c0",
        7 => b"#decbe4",
        8 => b"#ccebc5",
        9 => b"#d9d9d9",
        10 => b"#fed9a6",
        _ => b"#b3cde3",
    }
}

/// The style of the lines of an area, by the place of the area among those of the picture.
fn style_at(place: usize) -> &'static [u8]
    ensures { result.now ≡ style_at place }
{
    match place % 4 {
        0 => b"solid",
        1 => b"dashed",
        2 => b"dotted",
        _ => b"bold",
    }
}

/// The same below a cell of the legend.
pub(crate) fn border_at(place: usize) -> &'static [u8]
    ensures { result.now ≡ border_at place }
{
    match place % 4 {
        0 => b"border=\"1\"",
        1 => b"border=\"1\" style=\"dashed\"",
        2 => b"border=\"1\" style=\"dotted\"",
        _ => b"border=\"3\"",
    }
}

/// The drawing with how a line is drawn more, by its area: in the area's style, and grey without one.
pub(crate) fn with_look(
    drawing: Drawing,
    areas: &[u32],
    area: Option<u32>,
) -> Result<Drawing, OutOfMemory>
    ensures { IfOk result (λ drawn. drawn ≡ drawing ++ line_look areas.now area) }
{
    match area {
        Some(area) => drawing
            .text(b"style=")?
            .text(style_at(area_place(areas, area))),
        None => drawing.text(b"color=\"#bbbbbb\""),
    }
}

/// How many areas of a picture are lower than one of them.
fn area_place(areas: &[u32], area: u32) -> usize
    ensures { result ≡ area_place areas.now area }
{
    areas.iter().filter(|other| **other < area).count()
}
