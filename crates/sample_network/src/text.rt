ghost use Rattle.std.specs.Prelude.{◌≡◌, ◌+◌, ◌%◌, ◌/◌, ◌<◌, ◌≤◌, ◌++◌, IfOk};
ghost use Rattle.printed_lines.specs.Texts.{text_of};
ghost use Rattle.sample_network.specs.SampleTexts.{sample_address_line, before_lines, sample_cost_line, sample_hostname_line};
ghost use Rattle.sample_network.specs.SampleTexts.{sample_interface_line, sample_isis_lines, link_lines, loopback_lines};
ghost use Rattle.sample_network.specs.SampleTexts.{sample_metric_line, next_lines, sample_ospf_lines, sample_router_lines};
ghost use Rattle.sample_network.specs.SampleTexts.{sample_run_line, sample_text, sample_title_line, two_digits};

use crate::OutOfMemory;
use crate::links::{cost_of, far_end, link_before, loopback, metric_of, near_end};
use net_addr::Bytes;
use printed_lines::{LineBuilder, TextBuilder};
use std::alloc::Global;

/// The configurations of a sample network of so many routers, one behind the other.
///
/// The only error is want of memory.
pub fn sample_text(alloc: Global, routers: u32) -> Result<Bytes, OutOfMemory>
    requires { routers < 100 }
    ensures { IfOk result (λ text. text ≡ sample_text routers) }
{
    let mut text = TextBuilder::new(alloc);
    for before in 0..routers {
        text = with_router(alloc, text, routers, before + 1)?;
    }
    Ok(text.finish())
}

/// The text with the configuration of a router more.
fn with_router(
    alloc: Global,
    text: TextBuilder,
    routers: u32,
    router: u32,
) -> Result<TextBuilder, OutOfMemory>
    requires first { 1 ≤ router }
    requires last { router ≤ routers }
    requires few { routers < 100 }
    ensures { IfOk result (λ longer. longer ≡ text ++ text_of (sample_router_lines routers router)) }
{
    let text = with_loopback(alloc, text, router)?;
    let text = with_next(alloc, text, routers, router)?;
    let text = with_before(alloc, text, routers, router)?;
    let text = with_ospf(alloc, text)?;
    let text = with_isis(alloc, text, router)?;
    text.line(LineBuilder::start(alloc, b"end")?)
}

/// The text with the name and the loopback of a router more.
fn with_loopback(alloc: Global, text: TextBuilder, router: u32) -> Result<TextBuilder, OutOfMemory>
    requires { router < 100 }
    ensures { IfOk result (λ longer. longer ≡ text ++ text_of (loopback_lines router)) }
{
    let text = text.line(hostname_line(alloc, router)?)?;
    let text = text.line(interface_line(alloc, b"Loopback0")?)?;
    let text = text.line(address_line(alloc, loopback(router), b"255.255.255.255")?)?;
    text.line(run_line(alloc)?)
}

/// The text with the interface of a router to the next one more.
fn with_next(
    alloc: Global,
    text: TextBuilder,
    routers: u32,
    router: u32,
) -> Result<TextBuilder, OutOfMemory>
    requires { router < 100 }
    ensures { IfOk result (λ longer. longer ≡ text ++ text_of (next_lines routers router)) }
{
    let end = LinkEnd {
        name: b"GigabitEthernet0/0",
        address: near_end(router),
        link: router,
    };
    with_link(alloc, text, routers, &end)
}

/// The text with the interface of a router to the one before it more.
fn with_before(
    alloc: Global,
    text: TextBuilder,
    routers: u32,
    router: u32,
) -> Result<TextBuilder, OutOfMemory>
    requires first { 1 ≤ router }
    requires last { router ≤ routers }
    requires few { routers < 100 }
    ensures { IfOk result (λ longer. longer ≡ text ++ text_of (before_lines routers router)) }
{
    let link = link_before(routers, router);
    let end = LinkEnd {
        name: b"GigabitEthernet0/1",
        address: far_end(link),
        link,
    };
    with_link(alloc, text, routers, &end)
}

/// The end of a link: the interface there, by its name and its address, and the number of the link.
#[derive(Clone, Copy)]
struct LinkEnd<'a> {
    name: &'a [u8],
    address: u32,
    link: u32,
}

/// The text with the interface at an end of a link more.
fn with_link(
    alloc: Global,
    text: TextBuilder,
    routers: u32,
    end: &LinkEnd<'_>,
) -> Result<TextBuilder, OutOfMemory>
    ensures { IfOk result (λ longer. longer ≡ text ++ text_of (link_lines routers end.now.name.now end.now.address end.now.link)) }
{
    let text = text.line(interface_line(alloc, end.name)?)?;
    let text = text.line(address_line(alloc, end.address, b"255.255.255.252")?)?;
    let text = text.line(cost_line(alloc, cost_of(routers, end.link))?)?;
    let text = text.line(run_line(alloc)?)?;
    text.line(metric_line(alloc, metric_of(routers, end.link))?)
}

/// The text with the OSPF process of a router more.
fn with_ospf(alloc: Global, text: TextBuilder) -> Result<TextBuilder, OutOfMemory>
    ensures { IfOk result (λ longer. longer ≡ text ++ text_of sample_ospf_lines) }
{
    let text = text.line(LineBuilder::start(alloc, b"router ospf 1")?)?;
    text.line(LineBuilder::start(alloc, b" network 10.0.0.0 0.255.255.255 area 0")?)
}

/// The text with the IS-IS process of a router more.
fn with_isis(alloc: Global, text: TextBuilder, router: u32) -> Result<TextBuilder, OutOfMemory>
    ensures { IfOk result (λ longer. longer ≡ text ++ text_of (sample_isis_lines router)) }
{
    let text = text.line(LineBuilder::start(alloc, b"router isis")?)?;
    let text = text.line(title_line(alloc, router)?)?;
    let text = text.line(LineBuilder::start(alloc, b" is-type level-2-only")?)?;
    let text = text.line(LineBuilder::start(alloc, b" metric-style wide")?)?;
    text.line(LineBuilder::start(alloc, b" distance 255")?)
}

/// The line that names a router.
fn hostname_line(alloc: Global, router: u32) -> Result<LineBuilder, OutOfMemory>
    ensures { IfOk result (λ line. line ≡ sample_hostname_line router) }
{
    let [tens, units] = two_digits(router);
    LineBuilder::start(alloc, b"hostname")?.word(&[b'S', tens, units])
}

/// The network entity title of a router.
fn title_line(alloc: Global, router: u32) -> Result<LineBuilder, OutOfMemory>
    ensures { IfOk result (λ line. line ≡ sample_title_line router) }
{
    let line = LineBuilder::indented(alloc, b"net")?.word(b"49.0001.0000.0000")?;
    let [tens, units] = two_digits(router);
    line.attach(b'.', &[b'0', b'0', tens, units])?
        .attach(b'.', b"00")
}

/// The last two decimal digits of a number.
fn two_digits(number: u32) -> [u8; 2]
    ensures { result ≡ two_digits number }
{
    [digit(number / 10), digit(number)]
}

/// The last decimal digit of a number.
fn digit(number: u32) -> u8
    ensures { result ≡ 48 + number % 10 }
{
    b'0' + (number % 10) as u8
}

/// The line that opens the section of an interface.
fn interface_line(alloc: Global, name: &[u8]) -> Result<LineBuilder, OutOfMemory>
    ensures { IfOk result (λ line. line ≡ sample_interface_line name.now) }
{
    LineBuilder::start(alloc, b"interface")?.word(name)
}

/// The line of the address of an interface.
fn address_line(alloc: Global, address: u32, mask: &[u8]) -> Result<LineBuilder, OutOfMemory>
    ensures { IfOk result (λ line. line ≡ sample_address_line address mask.now) }
{
    let line = LineBuilder::indented(alloc, b"ip")?.word(b"address")?;
    line.address(address)?.word(mask)
}

/// The line of the OSPF cost of an interface.
fn cost_line(alloc: Global, cost: u32) -> Result<LineBuilder, OutOfMemory>
    ensures { IfOk result (λ line. line ≡ sample_cost_line cost) }
{
    let line = LineBuilder::indented(alloc, b"ip")?.word(b"ospf")?;
    line.word(b"cost")?.number(u64::from(cost))
}

/// The line by which an interface runs IS-IS.
fn run_line(alloc: Global) -> Result<LineBuilder, OutOfMemory>
    ensures { IfOk result (λ line. line ≡ sample_run_line) }
{
    let line = LineBuilder::indented(alloc, b"ip")?.word(b"router")?;
    line.word(b"isis")
}

/// The line of the IS-IS metric of an interface.
fn metric_line(alloc: Global, metric: u32) -> Result<LineBuilder, OutOfMemory>
    ensures { IfOk result (λ line. line ≡ sample_metric_line metric) }
{
    let line = LineBuilder::indented(alloc, b"isis")?.word(b"metric")?;
    line.number(u64::from(metric))
}
