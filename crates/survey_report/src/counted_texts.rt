ghost use Rattle.std.specs.Prelude.{◌≡◌, ◌∷◌, ◌++◌, [], IfOk, codes, decimal, map};
ghost use Rattle.net_model.specs.Limits.{up_interfaces};
ghost use Rattle.printed_lines.specs.Words.{spaced};
ghost use Rattle.survey_report.specs.KindTexts.{IsRouterText};
ghost use Rattle.survey_report.specs.NetworkLines.{counts_line, read_router_line};
ghost use Rattle.survey_report.specs.Parts.{ArePartsOf};

use crate::OutOfMemory;
use crate::network_lines::line_text;
use net_addr::Bytes;
use net_model::{Config, Net};
use network_survey::{areas_of, isis_interfaces, ospf_interfaces};
use printed_lines::LineBuilder;
use std::alloc::Global;

/// The line of how much was read: routers, up interfaces, subnets that routers share, all subnets.
pub(crate) fn counts_line(
    alloc: Global,
    routers: u64,
    interfaces: u64,
    links: u64,
    prefixes: u64,
) -> Result<LineBuilder, OutOfMemory>
    ensures { IfOk result (λ line. line ≡ counts_line routers interfaces links prefixes) }
{
    let start = LineBuilder::start(alloc, b"survey")?;
    let told = with_count(start, routers, b"routers")?;
    let ports = with_count(told, interfaces, b"interfaces")?;
    let shared = with_count(ports, links, b"links")?;
    with_count(shared, prefixes, b"prefixes")
}

/// The line with a count more, and what was counted.
fn with_count(line: LineBuilder, number: u64, word: &[u8]) -> Result<LineBuilder, OutOfMemory>
    ensures { IfOk result (λ longer. longer ≡ line ++ spaced (decimal number ∷ word.now ∷ [])) }
{
    line.number(number)?.word(word)
}

/// The routers of a network, each with its areas.
pub(crate) fn routers_text(alloc: Global, net: &Net) -> Result<Bytes, OutOfMemory>
    ensures { IfOk result (ArePartsOf IsRouterText net.now) }
{
    let mut text = Vec::new(alloc);
    for router in 0..net.routers() {
        let line = router_text(alloc, net.config(router))?;
        text.extend_from_slice(line.as_slice())?;
    }
    Ok(Bytes::from_vec(text))
}

/// A router with its areas.
fn router_text(alloc: Global, config: &Config) -> Result<Bytes, OutOfMemory>
    ensures { IfOk result (IsRouterText config.now) }
{
    let areas = areas_of(alloc, config)?;
    line_text(alloc, read_router_line(alloc, config, areas.as_slice())?)
}

/// The line of a router with these areas.
fn read_router_line(
    alloc: Global,
    config: &Config,
    areas: &[u32],
) -> Result<LineBuilder, OutOfMemory>
    ensures { IfOk result (λ line. line ≡ read_router_line config.now areas.now) }
{
    let start = router_start(alloc, config.name.as_slice())?;
    let up = with_named(start, b"up", up_interfaces(config))?;
    let ospf = with_named(up, b"ospf", ospf_interfaces(config))?;
    let isis = with_named(ospf, b"isis", isis_interfaces(config))?;
    with_areas(isis, areas)
}

/// The beginning of the line of a router.
fn router_start(alloc: Global, name: &[u8]) -> Result<LineBuilder, OutOfMemory>
    ensures { IfOk result (λ line. line ≡ codes "router" ++ spaced (name.now ∷ [])) }
{
    LineBuilder::start(alloc, b"router")?.word(name)
}

/// The line with a word more, and a number.
fn with_named(line: LineBuilder, word: &[u8], number: usize) -> Result<LineBuilder, OutOfMemory>
    ensures { IfOk result (λ longer. longer ≡ line ++ spaced (word.now ∷ decimal number ∷ [])) }
{
    line.word(word)?.number(number as u64)
}

/// The line with some areas more.
fn with_areas(line: LineBuilder, areas: &[u32]) -> Result<LineBuilder, OutOfMemory>
    ensures { IfOk result (λ longer. longer ≡ line ++ spaced (codes "areas" ∷ map decimal areas.now)) }
{
    with_numbers(line.word(b"areas")?, areas)
}

/// The line with some numbers more.
fn with_numbers(line: LineBuilder, numbers: &[u32]) -> Result<LineBuilder, OutOfMemory>
    ensures { IfOk result (λ longer. longer ≡ line ++ spaced (map decimal numbers.now)) }
{
    let mut line = line;
    for number in numbers {
        line = line.number(u64::from(*number))?;
    }
    Ok(line)
}

/// How many interfaces of a router are up.
fn up_interfaces(config: &Config) -> usize
    ensures { result ≡ up_interfaces config.now }
{
    let interfaces = config.interfaces.as_slice();
    interfaces.iter().filter(|i| i.up).count()
}
