ghost use Rattle.std.specs.Prelude.{◌≡◌, ◌+◌, ◌%◌, ◌<◌, ◌++◌, ◌∷◌, [], IfOk};
ghost use Rattle.std.specs.List.{flat_map, list_any};
ghost use Rattle.printed_lines.specs.Texts.{text_of};
ghost use Rattle.isis_writer.specs.RouterLines.{both_level_lines, circuit_line, circuit_lines, idle_distance_line, four_digits};
ghost use Rattle.isis_writer.specs.RouterLines.{has_old_line, interface_head, interface_lines, is_old_line, leak_line};
ghost use Rattle.isis_writer.specs.RouterLines.{leak_lines, level_lines, level_metric_lines, level_word, isis_metric_line};
ghost use Rattle.isis_writer.specs.RouterLines.{passive_line, passive_lines, process_head, process_lines, router_lines};
ghost use Rattle.isis_writer.specs.RouterLines.{run_lines, style_line, title_line, type_line};

use design_file::{SettledInterface, SettledRouter};
use ios_lines::interface_line::{InterfaceLine, InterfaceStatement};
use ios_sections::section::InterfaceSection;
use net_model::{Levels, MOST_DISTANCE};
use printed_lines::{LineBuilder, OutOfMemory, TextBuilder};
use std::alloc::Global;

/// The text with all lines more of a router of this number, whose old interfaces are these.
pub(crate) fn with_router(
    alloc: Global,
    text: TextBuilder,
    old: &[InterfaceSection],
    number: u32,
    router: &SettledRouter,
) -> Result<TextBuilder, OutOfMemory>
    requires { number < 1000 }
    ensures { IfOk result (λ longer. longer ≡ text ++ text_of (router_lines old.now number router.now)) }
{
    let text = with_process(alloc, text, number, router)?;
    with_interfaces(alloc, text, old, router.interfaces.as_slice())
}

/// The text with the lines more of the IS-IS process.
fn with_process(
    alloc: Global,
    text: TextBuilder,
    number: u32,
    router: &SettledRouter,
) -> Result<TextBuilder, OutOfMemory>
    requires { number < 1000 }
    ensures { IfOk result (λ longer. longer ≡ text ++ text_of (process_lines number router.now)) }
{
    let text = text.line(process_head(alloc)?)?;
    let text = text.line(title_line(alloc, router.area.as_slice(), number)?)?;
    let text = text.line(type_line(alloc, router.levels)?)?;
    let text = text.line(style_line(alloc)?)?;
    let text = text.line(distance_line(alloc)?)?;
    let text = with_leak(alloc, text, router.leak)?;
    with_passives(alloc, text, router.interfaces.as_slice())
}

/// The line that opens the section of the IS-IS process.
fn process_head(alloc: Global) -> Result<LineBuilder, OutOfMemory>
    ensures { IfOk result (λ line. line ≡ process_head) }
{
    LineBuilder::start(alloc, b"router")?.word(b"isis")
}

/// The network entity title of a router.
fn title_line(alloc: Global, area: &[u8], number: u32) -> Result<LineBuilder, OutOfMemory>
    requires { number < 1000 }
    ensures { IfOk result (λ line. line ≡ title_line area.now number) }
{
    let line = LineBuilder::indented(alloc, b"net")?.word(area)?;
    let line = line.attach(b'.', b"0000.0000")?;
    line.attach(b'.', &four_digits(number + 1))?
        .attach(b'.', b"00")
}

/// Four decimal digits of a number.
fn four_digits(n: u32) -> [u8; 4]
    ensures { result ≡ four_digits n }
{
    [digit(n / 1000), digit(n / 100), digit(n / 10), digit(n)]
}

/// The last decimal digit of a number.
fn digit(n: u32) -> u8
    ensures { result ≡ 48 + n % 10 }
{
    b'0' + (n % 10) as u8
}

/// The word for some levels.
fn level_word(levels: Levels) -> &'static [u8]
    ensures { result.now ≡ level_word levels }
{
    match levels {
        Levels::One => b"level-1",
        Levels::Both => b"level-1-2",
        Levels::Two => b"level-2-only",
    }
}

/// The line of the levels of a router.
fn type_line(alloc: Global, levels: Levels) -> Result<LineBuilder, OutOfMemory>
    ensures { IfOk result (λ line. line ≡ type_line levels) }
{
    LineBuilder::indented(alloc, b"is-type")?.word(level_word(levels))
}

/// The line of wide metrics.
fn style_line(alloc: Global) -> Result<LineBuilder, OutOfMemory>
    ensures { IfOk result (λ line. line ≡ style_line) }
{
    LineBuilder::indented(alloc, b"metric-style")?.word(b"wide")
}

/// The line of the distance at which nothing is installed.
fn distance_line(alloc: Global) -> Result<LineBuilder, OutOfMemory>
    ensures { IfOk result (λ line. line ≡ idle_distance_line) }
{
    LineBuilder::indented(alloc, b"distance")?.number(u64::from(MOST_DISTANCE))
}

/// The text with the line more that leaks level 2 routes into level 1, where the router leaks.
fn with_leak(alloc: Global, text: TextBuilder, leak: bool) -> Result<TextBuilder, OutOfMemory>
    ensures { IfOk result (λ longer. longer ≡ text ++ text_of (leak_lines leak)) }
{
    if leak {
        text.line(leak_line(alloc)?)
    } else {
        Ok(text)
    }
}

/// The line that leaks level 2 routes into level 1.
fn leak_line(alloc: Global) -> Result<LineBuilder, OutOfMemory>
    ensures { IfOk result (λ line. line ≡ leak_line) }
{
    let line = LineBuilder::indented(alloc, b"redistribute")?.word(b"isis")?;
    let line = line.word(b"ip")?.word(b"level-2")?;
    line.word(b"into")?.word(b"level-1")
}

/// The text with the lines more of the passive interfaces.
fn with_passives(
    alloc: Global,
    text: TextBuilder,
    interfaces: &[SettledInterface],
) -> Result<TextBuilder, OutOfMemory>
    ensures { IfOk result (λ longer. longer ≡ text ++ text_of (flat_map passive_lines interfaces.now)) }
{
    let mut longer = text;
    for interface in interfaces {
        longer = with_passive(alloc, longer, interface)?;
    }
    Ok(longer)
}

/// The text with the line more of an interface, where it is passive.
fn with_passive(
    alloc: Global,
    text: TextBuilder,
    interface: &SettledInterface,
) -> Result<TextBuilder, OutOfMemory>
    ensures { IfOk result (λ longer. longer ≡ text ++ text_of (passive_lines interface.now)) }
{
    if interface.passive {
        text.line(passive_line(alloc, interface.name.as_slice())?)
    } else {
        Ok(text)
    }
}

/// The line of a passive interface.
fn passive_line(alloc: Global, name: &[u8]) -> Result<LineBuilder, OutOfMemory>
    ensures { IfOk result (λ line. line ≡ passive_line name.now) }
{
    LineBuilder::indented(alloc, b"passive-interface")?.word(name)
}

/// The text with the lines more of the IS-IS interfaces.
fn with_interfaces(
    alloc: Global,
    text: TextBuilder,
    old: &[InterfaceSection],
    interfaces: &[SettledInterface],
) -> Result<TextBuilder, OutOfMemory>
    ensures { IfOk result (λ longer. longer ≡ text ++ text_of (flat_map (λ i. interface_lines (has_old_line old.now i.name) i) interfaces.now)) }
{
    let mut longer = text;
    for interface in interfaces {
        let has_old = has_old_line(old, interface.name.as_slice());
        longer = with_interface(alloc, longer, has_old, interface)?;
    }
    Ok(longer)
}

/// Whether the old configuration has a line `isis circuit-type` or `isis metric` for an interface.
fn has_old_line(old: &[InterfaceSection], name: &[u8]) -> bool
    ensures { result ≡ has_old_line old.now name.now }
{
    old.iter().any(|section| section.name.as_slice() == name && has_line(section.lines.as_slice()))
}

/// Whether one of some lines is `isis circuit-type` or `isis metric`.
fn has_line(lines: &[InterfaceStatement]) -> bool
    ensures { result ≡ list_any (λ l. is_old_line l.says) lines.now }
{
    lines.iter().any(|line| is_old_line(&line.says))
}

/// Whether a line is `isis circuit-type` or `isis metric`.
fn is_old_line(line: &InterfaceLine) -> bool
    ensures { result ≡ is_old_line line.now }
{
    matches!(
        line,
        InterfaceLine::Circuit(_)
            | InterfaceLine::Metric(_)
            | InterfaceLine::Metric1(_)
            | InterfaceLine::Metric2(_)
    )
}

/// The text with the lines more of an IS-IS interface, of which an old line may stand.
fn with_interface(
    alloc: Global,
    text: TextBuilder,
    old: bool,
    interface: &SettledInterface,
) -> Result<TextBuilder, OutOfMemory>
    ensures { IfOk result (λ longer. longer ≡ text ++ text_of (interface_lines old interface.now)) }
{
    let text = text.line(interface_head(alloc, interface.name.as_slice())?)?;
    let text = with_run(alloc, text, interface.passive)?;
    let text = with_circuit(alloc, text, old, interface)?;
    let text = text.line(metric_line(alloc, interface.metric)?)?;
    with_level_metrics(alloc, text, old, interface.metric)
}

/// The line that opens the section of an interface.
fn interface_head(alloc: Global, name: &[u8]) -> Result<LineBuilder, OutOfMemory>
    ensures { IfOk result (λ line. line ≡ interface_head name.now) }
{
    LineBuilder::start(alloc, b"interface")?.word(name)
}

/// The text with the line more that runs IS-IS on an interface, where it isn't passive.
fn with_run(alloc: Global, text: TextBuilder, passive: bool) -> Result<TextBuilder, OutOfMemory>
    ensures { IfOk result (λ longer. longer ≡ text ++ text_of (run_lines passive)) }
{
    if passive {
        Ok(text)
    } else {
        let line = LineBuilder::indented(alloc, b"ip")?;
        text.line(line.word(b"router")?.word(b"isis")?)
    }
}

/// The text with the line more of the levels of an interface, where it isn't passive.
fn with_circuit(
    alloc: Global,
    text: TextBuilder,
    old: bool,
    interface: &SettledInterface,
) -> Result<TextBuilder, OutOfMemory>
    ensures { IfOk result (λ longer. longer ≡ text ++ text_of (circuit_lines old interface.now)) }
{
    if interface.passive {
        Ok(text)
    } else {
        with_levels(alloc, text, old, interface.circuit)
    }
}

/// The text with the line more of the levels that are named; where none are, of both, if an old line stands.
fn with_levels(
    alloc: Global,
    text: TextBuilder,
    old: bool,
    circuit: Option<Levels>,
) -> Result<TextBuilder, OutOfMemory>
    ensures { IfOk result (λ longer. longer ≡ text ++ text_of (level_lines old circuit)) }
{
    match circuit {
        Some(levels) => text.line(circuit_line(alloc, levels)?),
        None if old => text.line(circuit_line(alloc, Levels::Both)?),
        None => Ok(text),
    }
}

/// The line of the levels of an interface.
fn circuit_line(alloc: Global, levels: Levels) -> Result<LineBuilder, OutOfMemory>
    ensures { IfOk result (λ line. line ≡ circuit_line levels) }
{
    let line = LineBuilder::indented(alloc, b"isis")?.word(b"circuit-type")?;
    line.word(level_word(levels))
}

/// The line of the metric of an interface.
fn metric_line(alloc: Global, metric: u32) -> Result<LineBuilder, OutOfMemory>
    ensures { IfOk result (λ line. line ≡ isis_metric_line metric []) }
{
    let line = LineBuilder::indented(alloc, b"isis")?.word(b"metric")?;
    line.number(u64::from(metric))
}

/// The text with the lines more of the metric in each level, where an old line stands.
fn with_level_metrics(
    alloc: Global,
    text: TextBuilder,
    old: bool,
    metric: u32,
) -> Result<TextBuilder, OutOfMemory>
    ensures { IfOk result (λ longer. longer ≡ text ++ text_of (level_metric_lines old metric)) }
{
    if old {
        with_both_levels(alloc, text, metric)
    } else {
        Ok(text)
    }
}

/// The text with the lines more of the metric in each level.
fn with_both_levels(
    alloc: Global,
    text: TextBuilder,
    metric: u32,
) -> Result<TextBuilder, OutOfMemory>
    ensures { IfOk result (λ longer. longer ≡ text ++ text_of (both_level_lines metric)) }
{
    let text = text.line(level_metric_line(alloc, metric, b"level-1")?)?;
    text.line(level_metric_line(alloc, metric, b"level-2")?)
}

/// The line of the metric of an interface in one level.
fn level_metric_line(alloc: Global, metric: u32, level: &[u8]) -> Result<LineBuilder, OutOfMemory>
    ensures { IfOk result (λ line. line ≡ isis_metric_line metric (level.now ∷ [])) }
{
    metric_line(alloc, metric)?.word(level)
}
