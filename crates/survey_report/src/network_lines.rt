ghost use Rattle.std.specs.Prelude.{◌≡◌, ◌∷◌, ◌++◌, [], IfOk, codes, decimal, map};
ghost use Rattle.net_model.specs.RouterNames.{names_of};
ghost use Rattle.printed_lines.specs.Texts.{text_of};
ghost use Rattle.printed_lines.specs.Words.{prefix_word, router_word, spaced};
ghost use Rattle.survey_report.specs.NetworkLines.{apart_line, end_words, half_line, mask_word, masked_words, masks_line, one_side_line, port_words, protocol_word, router_line, uneven_line};

use crate::OutOfMemory;
use crate::kinds::Protocol;
use itoa::Buffer;
use net_addr::Bytes;
use net_model::Net;
use network_survey::{Port, PortPair};
use printed_lines::{LineBuilder, TextBuilder};
use std::alloc::Global;

/// The text of one line.
pub(crate) fn line_text(alloc: Global, line: LineBuilder) -> Result<Bytes, OutOfMemory>
    ensures { IfOk result (λ text. text ≡ text_of (line ∷ [])) }
{
    Ok(TextBuilder::new(alloc).line(line)?.finish())
}

/// The name of a router, empty where there is none of this number.
fn name_of(net: &Net, router: u32) -> &[u8]
    ensures { result.now ≡ router_word (names_of net.now) router }
{
    if router < net.routers() {
        net.config(router).name.as_slice()
    } else {
        b""
    }
}

/// The lines of these routers behind a word.
pub(crate) fn router_lines(
    alloc: Global,
    word: &[u8],
    net: &Net,
    routers: &[u32],
) -> Result<Bytes, OutOfMemory>
    ensures { IfOk result (λ text. text ≡ text_of (map (router_line word.now (names_of net.now)) routers.now)) }
{
    let mut text = TextBuilder::new(alloc);
    for router in routers {
        text = text.line(router_line(alloc, word, net, *router)?)?;
    }
    Ok(text.finish())
}

/// The line of a router behind a word.
fn router_line(
    alloc: Global,
    word: &[u8],
    net: &Net,
    router: u32,
) -> Result<LineBuilder, OutOfMemory>
    ensures { IfOk result (λ line. line ≡ router_line word.now (names_of net.now) router) }
{
    LineBuilder::start(alloc, word)?.word(name_of(net, router))
}

/// The line with an interface more: its subnet, its router, its name.
fn with_port(line: LineBuilder, net: &Net, port: &Port<'_>) -> Result<LineBuilder, OutOfMemory>
    ensures { IfOk result (λ longer. longer ≡ line ++ spaced (port_words (names_of net.now) port.now)) }
{
    let line = line.prefix(port.subnet)?.word(name_of(net, port.router))?;
    line.word(port.interface.name.as_slice())
}

/// The lines of interfaces where OSPF has no neighbor.
pub(crate) fn half_lines(alloc: Global, net: &Net, ports: &[Port<'_>]) -> Result<Bytes, OutOfMemory>
    ensures { IfOk result (λ text. text ≡ text_of (map (half_line (names_of net.now)) ports.now)) }
{
    let mut text = TextBuilder::new(alloc);
    for port in ports {
        text = text.line(half_line(alloc, net, port)?)?;
    }
    Ok(text.finish())
}

/// The line of such an interface.
fn half_line(alloc: Global, net: &Net, port: &Port<'_>) -> Result<LineBuilder, OutOfMemory>
    ensures { IfOk result (λ line. line ≡ half_line (names_of net.now) port.now) }
{
    with_port(LineBuilder::start(alloc, b"half")?, net, port)
}

/// The lines of interfaces where a protocol has no neighbor, though other routers are there.
pub(crate) fn one_side_lines(
    alloc: Global,
    by: Protocol,
    net: &Net,
    ports: &[Port<'_>],
) -> Result<Bytes, OutOfMemory>
    ensures { IfOk result (λ text. text ≡ text_of (map (one_side_line by (names_of net.now)) ports.now)) }
{
    let mut text = TextBuilder::new(alloc);
    for port in ports {
        text = text.line(one_side_line(alloc, by, net, port)?)?;
    }
    Ok(text.finish())
}

/// The line of such an interface.
fn one_side_line(
    alloc: Global,
    by: Protocol,
    net: &Net,
    port: &Port<'_>,
) -> Result<LineBuilder, OutOfMemory>
    ensures { IfOk result (λ line. line ≡ one_side_line by (names_of net.now) port.now) }
{
    let line = LineBuilder::start(alloc, b"oneside")?.word(by.word())?;
    with_port(line, net, port)
}

/// The line with the address of an interface more, and the length of its mask.
fn with_mask(line: LineBuilder, port: &Port<'_>) -> Result<LineBuilder, OutOfMemory>
    ensures { IfOk result (λ longer. longer ≡ line ++ 32 ∷ mask_word port.now) }
{
    let mut buffer = Buffer::new();
    let length = buffer.format(u64::from(port.subnet.len()));
    line.address(port.interface.address)?
        .attach(b'/', length.as_bytes())
}

/// The lines of two interfaces each whose masks don't fit.
pub(crate) fn masks_lines(
    alloc: Global,
    net: &Net,
    pairs: &[PortPair<'_>],
) -> Result<Bytes, OutOfMemory>
    ensures { IfOk result (λ text. text ≡ text_of (map (masks_line (names_of net.now)) pairs.now)) }
{
    let mut text = TextBuilder::new(alloc);
    for pair in pairs {
        text = text.line(masks_line(alloc, net, pair)?)?;
    }
    Ok(text.finish())
}

/// The line of two such interfaces.
fn masks_line(alloc: Global, net: &Net, pair: &PortPair<'_>) -> Result<LineBuilder, OutOfMemory>
    ensures { IfOk result (λ line. line ≡ masks_line (names_of net.now) pair.now) }
{
    let start = LineBuilder::start(alloc, b"masks")?;
    let one = with_masked(start, net, &pair.one)?;
    with_masked(one, net, &pair.other)
}

/// The line with an interface more: its address with the length of its mask, and its router.
fn with_masked(line: LineBuilder, net: &Net, port: &Port<'_>) -> Result<LineBuilder, OutOfMemory>
    ensures { IfOk result (λ longer. longer ≡ line ++ spaced (masked_words (names_of net.now) port.now)) }
{
    with_mask(line, port)?.word(name_of(net, port.router))
}

/// The line of the first router and one that no walk joins with it.
pub(crate) fn apart_line(alloc: Global, net: &Net, router: u32) -> Result<LineBuilder, OutOfMemory>
    ensures { IfOk result (λ line. line ≡ apart_line (names_of net.now) router) }
{
    let line = LineBuilder::start(alloc, b"apart")?.word(name_of(net, 0))?;
    line.word(name_of(net, router))
}

/// The lines of links that cost a protocol differently at their ends.
pub(crate) fn uneven_lines(
    alloc: Global,
    by: Protocol,
    net: &Net,
    pairs: &[PortPair<'_>],
) -> Result<Bytes, OutOfMemory>
    ensures { IfOk result (λ text. text ≡ text_of (map (uneven_line by (names_of net.now)) pairs.now)) }
{
    let mut text = TextBuilder::new(alloc);
    for pair in pairs {
        text = text.line(uneven_line(alloc, by, net, pair)?)?;
    }
    Ok(text.finish())
}

/// The line of such a link.
fn uneven_line(
    alloc: Global,
    by: Protocol,
    net: &Net,
    pair: &PortPair<'_>,
) -> Result<LineBuilder, OutOfMemory>
    ensures { IfOk result (λ line. line ≡ uneven_line by (names_of net.now) pair.now) }
{
    let start = uneven_start(alloc, by, &pair.one)?;
    let one = with_end(start, by, net, &pair.one)?;
    with_end(one, by, net, &pair.other)
}

/// The beginning of the line of such a link.
fn uneven_start(alloc: Global, by: Protocol, port: &Port<'_>) -> Result<LineBuilder, OutOfMemory>
    ensures { IfOk result (λ line. line ≡ codes "uneven" ++ spaced (prefix_word port.now.subnet ∷ protocol_word by ∷ [])) }
{
    let line = LineBuilder::start(alloc, b"uneven")?.prefix(port.subnet)?;
    line.word(by.word())
}

/// The line with an end of a link more: its router, and what it costs.
fn with_end(
    line: LineBuilder,
    by: Protocol,
    net: &Net,
    port: &Port<'_>,
) -> Result<LineBuilder, OutOfMemory>
    ensures { IfOk result (λ longer. longer ≡ line ++ spaced (end_words by (names_of net.now) port.now)) }
{
    let cost = by.cost(port.interface);
    line.word(name_of(net, port.router))?
        .number(u64::from(cost))
}
