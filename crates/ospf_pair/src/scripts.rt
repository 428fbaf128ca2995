ghost use Rattle.std.specs.Prelude.{◌≡◌, ◌+◌, ◌<◌, ◌++◌, ◌∷◌, [], length, IfOk};
ghost use Rattle.std.specs.List.{list_any};
ghost use Rattle.igp_theory.specs.Changes.{first, second};
ghost use Rattle.printed_lines.specs.Texts.{text_of};
ghost use Rattle.step_scripts.specs.Scripts.{change_comment, distance_line, name_on, opens_wave, ospf_distance_lines};
ghost use Rattle.step_scripts.specs.Scripts.{ospf_head};
ghost use Rattle.step_scripts.specs.Scripts.{shows_waves, wave_comment, wave_comments};
ghost use Rattle.ospf_pair.specs.PairScripts.{lacks_ospf, pair_change_lines, pair_end_lines, pair_part, pair_script_text};
ghost use Rattle.ospf_pair.specs.PairScripts.{pair_scripted};

use crate::PairNet;
use net_addr::Bytes;
use net_model::{Config, ISIS_DISTANCE, MOST_DISTANCE, Net};
use printed_lines::{LineBuilder, TextBuilder};
use std::alloc::{AllocError, Global};
use step_scripts::{WaveFile, with_comment, with_wave};

/// The script of a wave list of a pair: for each change of its flat run a comment with its number and its router, and the lines that
/// make it.
///
/// A first change gives the new process the distance 115, a second one the old process 255. A script of version 2 has besides a
/// comment before each wave. A router without processes has the comment of its change alone; where there is such a router the
/// script ends with the comment `! end`. The only error is want of memory.
pub fn pair_scripts(alloc: Global, pair: &PairNet, file: &WaveFile) -> Result<Bytes, AllocError>
    requires { length file.now.waves ≡ length pair.now.old }
    ensures { IfOk result (λ text. text ≡ pair_script_text file.now.version pair.now file.now.waves) }
{
    let script = PairScript { pair, file };
    let mut text = TextBuilder::new(alloc);
    for (place, router) in file.waves.flat().iter().enumerate() {
        let made = 2 * place as u64;
        text = with_first(alloc, text, &script, made + 1, *router)?;
        text = with_second(alloc, text, pair, made + 2, *router)?;
    }
    Ok(with_end(alloc, text, pair)?.finish())
}

/// What a script is of: a pair, and the waves of its routers.
#[derive(Clone, Copy)]
struct PairScript<'a> {
    pair: &'a PairNet,
    file: &'a WaveFile,
}

/// The text with the part more for the first change of a router.
fn with_first(
    alloc: Global,
    text: TextBuilder,
    script: &PairScript<'_>,
    number: u64,
    router: u32,
) -> Result<TextBuilder, AllocError>
    requires each { length script.now.file.now.waves ≡ length script.now.pair.now.old }
    requires router { router < length script.now.pair.now.old }
    ensures { IfOk result (λ longer. longer ≡
        text ++ text_of (pair_part (pair_scripted script.now.file.now.version script.now.pair.now script.now.file.now.waves) number (first router))) }
{
    let PairScript { pair, file } = *script;
    let text = with_wave(alloc, text, &file.waves, file.version, router)?;
    let text = with_comment(alloc, text, number, pair.old().config(router))?;
    with_process(alloc, text, pair.new_net().config(router), ISIS_DISTANCE)
}

/// The text with the part more for the second change of a router.
fn with_second(
    alloc: Global,
    text: TextBuilder,
    pair: &PairNet,
    number: u64,
    router: u32,
) -> Result<TextBuilder, AllocError>
    requires { router < length pair.now.old }
    ensures { IfOk result (λ longer. longer ≡
        text ++ text_of (change_comment number (name_on pair.now.old router) ∷ pair_change_lines pair.now (second router))) }
{
    let config = pair.old().config(router);
    let text = with_comment(alloc, text, number, config)?;
    with_process(alloc, text, config, MOST_DISTANCE)
}

/// The text with the lines more that give the OSPF process of a router this distance; without one there is no line.
fn with_process(
    alloc: Global,
    text: TextBuilder,
    config: &Config,
    distance: u8,
) -> Result<TextBuilder, AllocError>
    ensures { IfOk result (λ longer. longer ≡ text ++ text_of (ospf_distance_lines distance config.now.process)) }
{
    match config.process {
        Some(process) => {
            let text = text.line(ospf_head(alloc, process)?)?;
            text.line(distance_line(alloc, distance)?)
        }
        None => Ok(text),
    }
}

/// The line that opens the section of an OSPF process.
fn ospf_head(alloc: Global, process: u32) -> Result<LineBuilder, AllocError>
    ensures { IfOk result (λ line. line ≡ ospf_head process) }
{
    let line = LineBuilder::start(alloc, b"router")?.word(b"ospf")?;
    line.number(u64::from(process))
}

/// The line of a section that sets the distance of its process.
fn distance_line(alloc: Global, distance: u8) -> Result<LineBuilder, AllocError>
    ensures { IfOk result (λ line. line ≡ distance_line distance) }
{
    LineBuilder::indented(alloc, b"distance")?.number(u64::from(distance))
}

/// The text with the comment at its end more, where some router has no OSPF process.
fn with_end(alloc: Global, text: TextBuilder, pair: &PairNet) -> Result<TextBuilder, AllocError>
    ensures { IfOk result (λ longer. longer ≡ text ++ text_of (pair_end_lines pair.now)) }
{
    if some_lacks_ospf(pair.old()) {
        text.line(LineBuilder::start(alloc, b"!")?.word(b"end")?)
    } else {
        Ok(text)
    }
}

/// Whether some router of the network has no OSPF process.
fn some_lacks_ospf(net: &Net) -> bool
    ensures { result ≡ list_any lacks_ospf net.now }
{
    for router in 0..net.routers() {
        if lacks_ospf(net.config(router)) {
            return true;
        }
    }
    false
}

/// Whether a router has no OSPF process.
fn lacks_ospf(config: &Config) -> bool
    ensures { result ≡ lacks_ospf config.now }
{
    config.process.is_none()
}
