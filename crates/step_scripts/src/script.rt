ghost use Rattle.std.specs.Prelude.{◌≡◌, ◌+◌, ◌<◌, ◌++◌, [], ◌∷◌, length, IfOk};
ghost use Rattle.std.specs.List.{list_any};
ghost use Rattle.igp_theory.specs.Changes.{first, second};
ghost use Rattle.printed_lines.specs.Texts.{text_of};
ghost use Rattle.step_scripts.specs.Scripts.{change_comment, change_lines, change_part, end_lines, isis_change_lines};
ghost use Rattle.step_scripts.specs.Scripts.{lacks_process, scripted, name_on, opens_wave, script_text, shows_waves, wave_comment};
ghost use Rattle.step_scripts.specs.Scripts.{wave_comments};

use crate::Version;
use crate::change_lines::{with_isis_lines, with_ospf_lines};
use net_addr::Bytes;
use net_model::{Config, Net};
use order_core::Waves;
use printed_lines::{LineBuilder, TextBuilder};
use std::alloc::{AllocError, Global};

/// The script of a wave list: for each change of its flat run a comment with its number and its router, and the lines
/// that make it.
///
/// A script of version 2 has besides a comment before each wave. A router that lacks a process has the comment of its
/// change alone; where there is such a router the script ends with the comment `! end`. The only error is want of memory.
pub fn script_text(
    alloc: Global,
    net: &Net,
    waves: &Waves,
    version: Version,
) -> Result<Bytes, AllocError>
    requires { length waves.now ≡ length net.now }
    ensures { IfOk result (λ text. text ≡ script_text version net.now waves.now) }
{
    let script = Script {
        net,
        waves,
        version,
    };
    let mut text = TextBuilder::new(alloc);
    for (place, router) in waves.flat().iter().enumerate() {
        let made = 2 * place as u64;
        text = with_first(alloc, text, &script, made + 1, *router)?;
        text = with_second(alloc, text, net, made + 2, *router)?;
    }
    Ok(with_end(alloc, text, net)?.finish())
}

/// What a script is of: the waves of the routers of a network. The version says whether it shows them.
#[derive(Clone, Copy)]
struct Script<'a> {
    net: &'a Net,
    waves: &'a Waves,
    version: Version,
}

/// The text with the part more for the first change of a router.
fn with_first(
    alloc: Global,
    text: TextBuilder,
    script: &Script<'_>,
    number: u64,
    router: u32,
) -> Result<TextBuilder, AllocError>
    requires each { length script.now.waves.now ≡ length script.now.net.now }
    requires router { router < length script.now.net.now }
    ensures { IfOk result (λ longer. longer ≡
        text ++ text_of (change_part (scripted script.now.version script.now.net.now script.now.waves.now) number (first router))) }
{
    let config = script.net.config(router);
    let text = with_wave(alloc, text, script.waves, script.version, router)?;
    let text = with_comment(alloc, text, number, config)?;
    with_isis(alloc, text, config)
}

/// The text with the part more for the second change of a router.
fn with_second(
    alloc: Global,
    text: TextBuilder,
    net: &Net,
    number: u64,
    router: u32,
) -> Result<TextBuilder, AllocError>
    requires { router < length net.now }
    ensures { IfOk result (λ longer. longer ≡ text ++ text_of (change_comment number (name_on net.now router) ∷ change_lines net.now (second router))) }
{
    let config = net.config(router);
    let text = with_comment(alloc, text, number, config)?;
    with_ospf_lines(alloc, text, config.process)
}

/// The text with the comment before a wave more, where the script is of version 2 and the router is the first of its wave.
pub fn with_wave(
    alloc: Global,
    text: TextBuilder,
    waves: &Waves,
    version: Version,
    router: u32,
) -> Result<TextBuilder, AllocError>
    requires { router < length waves.now }
    ensures { IfOk result (λ longer. longer ≡ text ++ text_of (wave_comments version waves.now (first router))) }
{
    if shows_waves(version) && opens_wave(waves, router) {
        let number = u64::from(waves.ranks()[router as usize]) + 1;
        text.line(wave_comment(alloc, number)?)
    } else {
        Ok(text)
    }
}

/// Whether a script of this version has a comment before each wave.
fn shows_waves(version: Version) -> bool
    ensures { result ≡ shows_waves version }
{
    matches!(version, Version::Two)
}

/// The comment before the wave of this number.
fn wave_comment(alloc: Global, number: u64) -> Result<LineBuilder, AllocError>
    ensures { IfOk result (λ line. line ≡ wave_comment number) }
{
    let line = LineBuilder::start(alloc, b"!")?.word(b"wave")?;
    line.number(number)
}

/// Whether a router is the first one of its wave.
fn opens_wave(waves: &Waves, router: u32) -> bool
    requires { router < length waves.now }
    ensures { result ≡ opens_wave waves.now router }
{
    let rank = waves.ranks()[router as usize];
    waves.wave(rank)[0] == router
}

/// The text with the comment before a change more: its number and the name of its router.
pub fn with_comment(
    alloc: Global,
    text: TextBuilder,
    number: u64,
    config: &Config,
) -> Result<TextBuilder, AllocError>
    ensures { IfOk result (λ longer. longer ≡ text ++ text_of (change_comment number config.now.name ∷ [])) }
{
    let line = LineBuilder::start(alloc, b"!")?.number(number)?;
    text.line(line.word(config.name.as_slice())?)
}

/// The text with the lines more that set the distance of IS-IS to 115.
fn with_isis(alloc: Global, text: TextBuilder, config: &Config) -> Result<TextBuilder, AllocError>
    ensures { IfOk result (λ longer. longer ≡ text ++ text_of (isis_change_lines config.now)) }
{
    if config.isis {
        with_isis_lines(alloc, text, config.tag.as_slice())
    } else {
        Ok(text)
    }
}

/// The text with the comment at its end more, where some router of the network lacks a process.
fn with_end(alloc: Global, text: TextBuilder, net: &Net) -> Result<TextBuilder, AllocError>
    ensures { IfOk result (λ longer. longer ≡ text ++ text_of (end_lines net.now)) }
{
    if some_lacks_process(net) {
        text.line(LineBuilder::start(alloc, b"!")?.word(b"end")?)
    } else {
        Ok(text)
    }
}

/// Whether some router of the network lacks a process.
fn some_lacks_process(net: &Net) -> bool
    ensures { result ≡ list_any lacks_process net.now }
{
    for router in 0..net.routers() {
        if lacks_process(net.config(router)) {
            return true;
        }
    }
    false
}

/// Whether a router lacks one of the two processes.
fn lacks_process(config: &Config) -> bool
    ensures { result ≡ lacks_process config.now }
{
    !config.isis || config.process.is_none()
}
