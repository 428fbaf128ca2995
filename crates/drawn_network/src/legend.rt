ghost use Rattle.std.specs.Prelude.{◌≡◌, ◌+◌, ◌<◌, ◌≤◌, ◌^◌, ◌++◌, codes, length, IfOk};
ghost use Rattle.drawn_network.specs.Legends.{area_cell, area_table, area_rows, columns_for, ends_row, legend_line, legend_rows};
ghost use Rattle.drawn_network.specs.Legends.{row_end, row_start, said_text, wave_cell, wave_part, wave_rows, wide_row};

use crate::OutOfMemory;
use crate::drawing::Drawing;
use crate::look::{border_at, color_of};

/// What the legend tells.
#[derive(Drop)]
pub(crate) struct Legend<'a> {
    /// What is decided of the list.
    pub said: &'a [u8],
    /// How many waves it has.
    pub waves: u32,
    /// The areas of the links, ascending.
    pub areas: &'a [u32],
    /// Whether there are links.
    pub has_links: bool,
}

/// The drawing with the line of the legend more.
pub(crate) fn with_legend(drawing: Drawing, legend: &Legend<'_>) -> Result<Drawing, OutOfMemory>
    requires { 0 < legend.now.waves }
    ensures { IfOk result (λ drawn. drawn ≡ drawing
        ++ legend_line legend.now.said.now legend.now.waves legend.now.areas.now legend.now.has_links) }
{
    let columns = columns_for(legend.waves as usize, legend.areas.len());
    let drawing = drawing.text(b"  label=<<table border=\"0\" cellspacing=\"3\">")?;
    with_rows(drawing, columns, legend)?.text(b"</table>>;\n")
}

/// How many cells stand in a row.
fn columns_for(waves: usize, areas: usize) -> usize
    requires { 0 < waves }
    ensures value { result ≡ columns_for waves areas }
    ensures some { 0 < result }
    ensures few { result ≤ 8 }
{
    waves.max(areas).min(8)
}

/// The drawing with the rows of the legend more.
fn with_rows(drawing: Drawing, columns: usize, legend: &Legend<'_>) -> Result<Drawing, OutOfMemory>
    requires some { 0 < columns }
    requires few { columns ≤ 8 }
    ensures { IfOk result (λ drawn. drawn ≡ drawing
        ++ legend_rows columns legend.now.said.now legend.now.waves legend.now.areas.now legend.now.has_links) }
{
    let drawing = with_said(drawing, columns, legend.said)?;
    let drawing = with_wave_rows(drawing, columns, legend.waves)?;
    let drawing = with_area_rows(drawing, columns, legend.areas)?;
    with_ends_row(drawing, columns, legend.has_links)
}

/// The drawing with the row of what is decided more.
fn with_said(drawing: Drawing, columns: usize, said: &[u8]) -> Result<Drawing, OutOfMemory>
    requires { columns ≤ 8 }
    ensures { IfOk result (λ drawn. drawn ≡ drawing ++ wide_row columns (said_text said.now)) }
{
    let drawing = drawing
        .text(b"<tr><td colspan=\"")?
        .number(columns as u32)?
        .text(b"\">")?;
    with_said_text(drawing, said)?.text(b"</td></tr>")
}

/// The drawing with what is decided more, in larger letters.
fn with_said_text(drawing: Drawing, said: &[u8]) -> Result<Drawing, OutOfMemory>
    ensures { IfOk result (λ drawn. drawn ≡ drawing ++ said_text said.now) }
{
    drawing
        .text(b"<font point-size=\"16\">")?
        .html(said)?
        .text(b"</font>")
}

/// The drawing with the row more of what stands at the ends of the lines, where there are any.
fn with_ends_row(drawing: Drawing, columns: usize, lines: bool) -> Result<Drawing, OutOfMemory>
    requires { columns ≤ 8 }
    ensures { IfOk result (λ drawn. drawn ≡ drawing ++ ends_row columns lines) }
{
    if lines {
        with_ends_text(drawing, columns)
    } else {
        Ok(drawing)
    }
}

/// The drawing with that row more.
fn with_ends_text(drawing: Drawing, columns: usize) -> Result<Drawing, OutOfMemory>
    requires { columns ≤ 8 }
    ensures { IfOk result (λ drawn. drawn ≡ drawing ++ wide_row columns (codes "OSPF cost / IS-IS metric")) }
{
    drawing
        .text(b"<tr><td colspan=\"")?
        .number(columns as u32)?
        .text(b"\">")?
        .text(b"OSPF cost / IS-IS metric")?
        .text(b"</td></tr>")
}

/// The drawing with the cells of the waves more.
fn with_wave_rows(drawing: Drawing, columns: usize, waves: u32) -> Result<Drawing, OutOfMemory>
    requires { 0 < columns }
    ensures { IfOk result (λ drawn. drawn ≡ drawing ++ wave_rows columns waves) }
{
    let mut drawing = drawing;
    for wave in 0..waves {
        drawing = with_wave_part(drawing, columns, waves, wave)?;
    }
    Ok(drawing)
}

/// The drawing with the cell of one of so many waves more, where a row begins or ends also with that.
fn with_wave_part(
    drawing: Drawing,
    columns: usize,
    waves: u32,
    wave: u32,
) -> Result<Drawing, OutOfMemory>
    requires some { 0 < columns }
    requires wave { wave < waves }
    ensures { IfOk result (λ drawn. drawn ≡ drawing ++ wave_part columns waves wave) }
{
    let drawing = drawing.text(row_start(columns, wave as usize))?;
    with_wave_cell(drawing, wave)?.text(row_end(columns, waves as usize, wave as usize))
}

/// The drawing with the cell of a wave more.
fn with_wave_cell(drawing: Drawing, wave: u32) -> Result<Drawing, OutOfMemory>
    requires { wave + 1 < 2 ^ 32 }
    ensures { IfOk result (λ drawn. drawn ≡ drawing ++ wave_cell wave) }
{
    drawing
        .text(b"<td bgcolor=\"")?
        .text(color_of(wave))?
        .text(b"\">wave ")?
        .number(wave + 1)?
        .text(b"</td>")
}

/// The drawing with the cells of the areas more.
fn with_area_rows(drawing: Drawing, columns: usize, areas: &[u32]) -> Result<Drawing, OutOfMemory>
    requires { 0 < columns }
    ensures { IfOk result (λ drawn. drawn ≡ drawing ++ area_rows columns areas.now) }
{
    let mut drawing = drawing;
    for place in 0..areas.len() {
        drawing = with_area_part(drawing, columns, areas, place)?;
    }
    Ok(drawing)
}

/// The drawing with the cell of the area at a place more, where a row begins or ends also with that.
fn with_area_part(
    drawing: Drawing,
    columns: usize,
    areas: &[u32],
    place: usize,
) -> Result<Drawing, OutOfMemory>
    requires some { 0 < columns }
    requires place { place < length areas.now }
    ensures { IfOk result (λ drawn. drawn ≡ drawing ++ area_table columns areas.now place) }
{
    let drawing = drawing.text(row_start(columns, place))?;
    with_area_cell(drawing, place, areas[place])?.text(row_end(columns, areas.len(), place))
}

/// The drawing with the cell of an area more, which has this place among them.
fn with_area_cell(drawing: Drawing, place: usize, area: u32) -> Result<Drawing, OutOfMemory>
    ensures { IfOk result (λ drawn. drawn ≡ drawing ++ area_cell place area) }
{
    drawing
        .text(b"<td sides=\"b\" ")?
        .text(border_at(place))?
        .text(b">area ")?
        .number(area)?
        .text(b"</td>")
}

/// What stands before the cell at a place: that a row begins, or nothing.
fn row_start(columns: usize, place: usize) -> &'static [u8]
    requires { 0 < columns }
    ensures { result.now ≡ row_start columns place }
{
    if place % columns == 0 { b"<tr>" } else { b"" }
}

/// What stands behind the cell at a place of so many: that a row ends, or nothing.
fn row_end(columns: usize, count: usize, place: usize) -> &'static [u8]
    requires some { 0 < columns }
    requires place { place < count }
    ensures { result.now ≡ row_end columns count place }
{
    if (place + 1) % columns == 0 || place + 1 == count {
        b"</tr>"
    } else {
        b""
    }
}
