ghost use Rattle.std.specs.Prelude.{◌≡◌, ◌<◌, All, IfOk, length, slice_index_or, []};
ghost use Rattle.net_model.specs.RouterNames.{names_of};
ghost use Rattle.step_scripts.specs.WavesTexts.{AreOneOfEach, named_line, wave_list_text, waves_in, waves_text};

use net_addr::Bytes;
use net_model::Net;
use order_core::Waves;
use printed_lines::{LineBuilder, TextBuilder};
use std::alloc::{AllocError, Global};

/// The text of a wave list and a chain, a version 2 file: the names of a wave in number order, those of the chain in its order.
///
/// `read_waves` reads it back as these waves (`waves_laws`).
pub fn waves_text(
    alloc: Global,
    net: &Net,
    waves: &Waves,
    chain: &[u32],
) -> Result<Bytes, AllocError>
    requires ranks { length waves.now ≡ length net.now }
    requires chain { AreOneOfEach waves.now chain.now }
    ensures { IfOk result (λ text. text ≡ waves_text (names_of net.now) waves.now chain.now) }
{
    let text = with_waves(alloc, net, waves)?;
    let chain = named_line(alloc, net, b"chain", chain)?;
    Ok(text.line(chain)?.finish())
}

/// The text of a wave list alone, a version 2 file without a chain. `read_waves` reads it back as these waves (`waves_laws`).
pub fn wave_list_text(alloc: Global, net: &Net, waves: &Waves) -> Result<Bytes, AllocError>
    requires { length waves.now ≡ length net.now }
    ensures { IfOk result (λ text. text ≡ wave_list_text (names_of net.now) (waves_in waves.now)) }
{
    Ok(with_waves(alloc, net, waves)?.finish())
}

/// The header, and a line for each wave.
fn with_waves(alloc: Global, net: &Net, waves: &Waves) -> Result<TextBuilder, AllocError>
    requires { length waves.now ≡ length net.now }
    ensures { IfOk result (λ text. text ≡ wave_list_text (names_of net.now) (waves_in waves.now)) }
{
    let header = LineBuilder::start(alloc, b"order 2")?;
    let mut text = TextBuilder::new(alloc).line(header)?;
    for wave in 0..waves.count() {
        text = text.line(named_line(alloc, net, b"wave", waves.wave(wave))?)?;
    }
    Ok(text)
}

/// A line of a word and the names of some routers.
fn named_line(
    alloc: Global,
    net: &Net,
    word: &[u8],
    routers: &[u32],
) -> Result<LineBuilder, AllocError>
    requires { All (λ u. u < length net.now) routers.now }
    ensures { IfOk result (λ line. line ≡ named_line (names_of net.now) word.now routers.now) }
{
    let mut line = LineBuilder::start(alloc, word)?;
    for router in routers {
        line = line.word(router_name(net, *router))?;
    }
    Ok(line)
}

/// The name of a router.
fn router_name(net: &Net, router: u32) -> &[u8]
    requires { router < length net.now }
    ensures { result.now ≡ slice_index_or (names_of net.now) router [] }
{
    net.config(router).name.as_slice()
}
