ghost use Rattle.std.specs.Prelude.{◌≡◌, ◌∷◌, [], IfOk, length};
ghost use Rattle.printed_lines.specs.Texts.{text_of};
ghost use Rattle.survey_report.specs.NetworkLines.{counts_line};
ghost use Rattle.survey_report.specs.KindTexts.{AreKindTexts, IsKindText, ListsOneSided, ListsUneven};

use crate::OutOfMemory;
use crate::counted_texts::{counts_line, routers_text};
use crate::kinds::{LineKind, Protocol};
use crate::network_lines::{
    apart_line, half_lines, line_text, masks_lines, one_side_lines, router_lines, uneven_lines,
};
use crate::network_read::NetworkRead;
use crate::text_lines::{acting_text, flat_text, odd_text};
use net_addr::Bytes;
use net_model::{Net, Zone};
use network_survey::{
    Port, PortPair, count_links, count_subnets, first_cut_off, half_ports, mask_pairs,
    off_start_routers, one_sided_in, one_sided_in_area, silent_routers, uneven_in, uneven_in_area,
};
use std::alloc::Global;

/// The text of several kinds, in their order.
pub(crate) fn kinds_text(
    alloc: Global,
    read: &NetworkRead<'_, '_, '_>,
    kinds: &[LineKind],
) -> Result<Bytes, OutOfMemory>
    ensures { IfOk result (AreKindTexts read.now kinds.now) }
{
    let mut text = Vec::new(alloc);
    for kind in kinds {
        let part = kind_text(alloc, read, *kind)?;
        text.extend_from_slice(part.as_slice())?;
    }
    Ok(Bytes::from_vec(text))
}

/// The text of the lines of a kind.
fn kind_text(
    alloc: Global,
    read: &NetworkRead<'_, '_, '_>,
    kind: LineKind,
) -> Result<Bytes, OutOfMemory>
    ensures { IfOk result (IsKindText read.now kind) }
{
    match kind {
        LineKind::Counts => counts_text(alloc, read),
        LineKind::Routers => routers_text(alloc, read.net()),
        LineKind::Silent => silent_text(alloc, read),
        LineKind::Half => half_text(alloc, read),
        LineKind::Masks => masks_text(alloc, read),
        LineKind::OneSide(by) => one_side_text(alloc, read, by),
        LineKind::Apart => apart_text(alloc, read),
        LineKind::Uneven(by) => uneven_text(alloc, read, by),
        LineKind::Start => start_text(alloc, read),
        LineKind::Odd => odd_text(alloc, read.files()),
        LineKind::Flat => flat_text(alloc, read.files()),
        LineKind::Acts => acting_text(alloc, read.files()),
    }
}

/// How much was read.
fn counts_text(alloc: Global, read: &NetworkRead<'_, '_, '_>) -> Result<Bytes, OutOfMemory>
    ensures { IfOk result (IsKindText read.now LineKind.Counts) }
{
    let ports = read.ports();
    let links = count_links(alloc, ports)?;
    let subnets = count_subnets(alloc, ports)?;
    numbers_text(alloc, read.net(), ports, links, subnets)
}

/// How much was read, of these links and subnets.
fn numbers_text(
    alloc: Global,
    net: &Net,
    ports: &[Port<'_>],
    links: usize,
    subnets: usize,
) -> Result<Bytes, OutOfMemory>
    ensures { IfOk result (λ text. text ≡ text_of (counts_line (length net.now) (length ports.now) links subnets ∷ [])) }
{
    let routers = u64::from(net.routers());
    let interfaces = ports.len() as u64;
    let line = counts_line(alloc, routers, interfaces, links as u64, subnets as u64)?;
    line_text(alloc, line)
}

/// The routers without an up interface that runs OSPF.
fn silent_text(alloc: Global, read: &NetworkRead<'_, '_, '_>) -> Result<Bytes, OutOfMemory>
    ensures { IfOk result (IsKindText read.now LineKind.Silent) }
{
    let found = silent_routers(alloc, read.net())?;
    router_lines(alloc, b"silent", read.net(), found.as_slice())
}

/// The interfaces on which OSPF sends, and no other router is.
fn half_text(alloc: Global, read: &NetworkRead<'_, '_, '_>) -> Result<Bytes, OutOfMemory>
    ensures { IfOk result (IsKindText read.now LineKind.Half) }
{
    let found = half_ports(alloc, read.ports())?;
    half_lines(alloc, read.net(), found.as_slice())
}

/// The interfaces whose masks don't fit.
fn masks_text(alloc: Global, read: &NetworkRead<'_, '_, '_>) -> Result<Bytes, OutOfMemory>
    ensures { IfOk result (IsKindText read.now LineKind.Masks) }
{
    let found = mask_pairs(alloc, read.ports())?;
    masks_lines(alloc, read.net(), found.as_slice())
}

/// The interfaces on which a protocol sends, and on none of the other routers that are there.
fn one_side_text(
    alloc: Global,
    read: &NetworkRead<'_, '_, '_>,
    by: Protocol,
) -> Result<Bytes, OutOfMemory>
    ensures { IfOk result (IsKindText read.now (LineKind.OneSide by)) }
{
    let found = one_sided(alloc, read, by)?;
    one_side_lines(alloc, by, read.net(), found.as_slice())
}

/// These interfaces.
fn one_sided<'n>(
    alloc: Global,
    read: &NetworkRead<'n, '_, '_>,
    by: Protocol,
) -> Result<Vec<Port<'n>>, OutOfMemory>
    ensures { IfOk result (λ found. ListsOneSided read.now.net by found.items) }
{
    let ports = read.ports();
    match by {
        Protocol::Ospf => one_sided_in_area(alloc, ports),
        Protocol::Level1 => one_sided_in(alloc, Zone::One, ports),
        Protocol::Level2 => one_sided_in(alloc, Zone::Two, ports),
    }
}

/// A router that no walk joins with the first one.
fn apart_text(alloc: Global, read: &NetworkRead<'_, '_, '_>) -> Result<Bytes, OutOfMemory>
    ensures { IfOk result (IsKindText read.now LineKind.Apart) }
{
    match first_cut_off(alloc, read.net(), read.ports())? {
        Some(router) => line_text(alloc, apart_line(alloc, read.net(), router)?),
        None => Ok(Bytes::from_vec(Vec::new(alloc))),
    }
}

/// The links that cost a protocol differently at their ends.
fn uneven_text(
    alloc: Global,
    read: &NetworkRead<'_, '_, '_>,
    by: Protocol,
) -> Result<Bytes, OutOfMemory>
    ensures { IfOk result (IsKindText read.now (LineKind.Uneven by)) }
{
    let found = uneven(alloc, read, by)?;
    uneven_lines(alloc, by, read.net(), found.as_slice())
}

/// The ends of these links.
fn uneven<'n>(
    alloc: Global,
    read: &NetworkRead<'n, '_, '_>,
    by: Protocol,
) -> Result<Vec<PortPair<'n>>, OutOfMemory>
    ensures { IfOk result (λ found. ListsUneven read.now.net by found.items) }
{
    let ports = read.ports();
    match by {
        Protocol::Ospf => uneven_in_area(alloc, ports),
        Protocol::Level1 => uneven_in(alloc, Zone::One, ports),
        Protocol::Level2 => uneven_in(alloc, Zone::Two, ports),
    }
}

/// The routers that aren't where a migration starts.
fn start_text(alloc: Global, read: &NetworkRead<'_, '_, '_>) -> Result<Bytes, OutOfMemory>
    ensures { IfOk result (IsKindText read.now LineKind.Start) }
{
    let found = off_start_routers(alloc, read.net())?;
    router_lines(alloc, b"start", read.net(), found.as_slice())
}
