ghost use Rattle.std.specs.Prelude.{◌≡◌, ◌<◌, ◌++◌, All, IfOk, codes, find, length, slice_index_or, []};
ghost use Rattle.std.specs.List.{list_any};
ghost use Rattle.net_model.specs.RouterNames.{names_of};
ghost use Rattle.printed_lines.specs.Words.{spaced};
ghost use Rattle.step_scripts.specs.WavesTexts.{AreOneOfEach, named_line, names_at};
ghost use Rattle.live_replan.specs.RestTexts.{has_rest, is_left, rest_chain, rest_of, rest_text};

use igp_theory::Phase;
use net_addr::Bytes;
use net_model::Net;
use order_core::Waves;
use printed_lines::{LineBuilder, TextBuilder};
use std::alloc::{AllocError, Global};

/// The text of the waves of what is left of a migration: a wave list and a chain without the routers that are New at the start.
///
/// Where the chain is a single router that is New, the lowest-numbered router of the one wave that isn't stands for it; where all
/// routers are New the text says that all is done. The only error is want of memory.
pub fn rest_text(
    alloc: Global,
    net: &Net,
    start: &[Phase],
    waves: &Waves,
    chain: &[u32],
) -> Result<Bytes, AllocError>
    requires ranks { length waves.now ≡ length net.now }
    requires start { length start.now ≡ length net.now }
    requires chain { AreOneOfEach waves.now chain.now }
    ensures { IfOk result (λ text. text ≡ rest_text (names_of net.now) start.now waves.now chain.now) }
{
    let header = LineBuilder::start(alloc, b"rest 1")?;
    let mut text = TextBuilder::new(alloc).line(header)?;
    if !some_left(start) {
        return Ok(text.line(LineBuilder::start(alloc, b"done")?)?.finish());
    }
    for wave in 0..waves.count() {
        let line = rest_line(alloc, net, start, waves.wave(wave))?;
        text = text.line(line)?;
    }
    let chain = chain_line(alloc, net, start, waves, chain)?;
    Ok(text.line(chain)?.finish())
}

/// Whether something is left to do on some router.
fn some_left(start: &[Phase]) -> bool
    ensures { result ≡ list_any is_left start.now }
{
    start.iter().any(|phase| is_left(*phase))
}

/// Whether something is left to do in a phase.
fn is_left(phase: Phase) -> bool
    ensures { result ≡ is_left phase }
{
    !matches!(phase, Phase::New)
}

/// Whether something is left to do on a router.
fn has_rest(start: &[Phase], router: u32) -> bool
    ensures { result ≡ has_rest start.now router }
{
    match start.get(router as usize) {
        Some(phase) => is_left(*phase),
        None => false,
    }
}

/// The line of a wave: the names of those of its routers with something left to do.
fn rest_line(
    alloc: Global,
    net: &Net,
    start: &[Phase],
    routers: &[u32],
) -> Result<LineBuilder, AllocError>
    requires { All (λ u. u < length net.now) routers.now }
    ensures { IfOk result (λ line. line ≡ named_line (names_of net.now) (codes "wave") (rest_of start.now routers.now)) }
{
    let mut line = LineBuilder::start(alloc, b"wave")?;
    for router in routers {
        if has_rest(start, *router) {
            line = line.word(router_name(net, *router))?;
        }
    }
    Ok(line)
}

/// The line of the chain.
fn chain_line(
    alloc: Global,
    net: &Net,
    start: &[Phase],
    waves: &Waves,
    chain: &[u32],
) -> Result<LineBuilder, AllocError>
    requires ranks { length waves.now ≡ length net.now }
    requires chain { AreOneOfEach waves.now chain.now }
    ensures { IfOk result (λ line. line ≡ named_line (names_of net.now) (codes "chain") (rest_chain start.now waves.now chain.now)) }
{
    let line = LineBuilder::start(alloc, b"chain")?;
    if chain.len() != 1 || has_rest(start, chain[0]) {
        return with_names(line, net, chain);
    }
    match lowest_left(start, waves.wave(0)) {
        Some(router) => line.word(router_name(net, router)),
        None => Ok(line),
    }
}

/// The line with the names of some routers more.
fn with_names(line: LineBuilder, net: &Net, routers: &[u32]) -> Result<LineBuilder, AllocError>
    requires { All (λ u. u < length net.now) routers.now }
    ensures { IfOk result (λ longer. longer ≡ line ++ spaced (names_at (names_of net.now) routers.now)) }
{
    let mut line = line;
    for router in routers {
        line = line.word(router_name(net, *router))?;
    }
    Ok(line)
}

/// The first of some routers with something left to do.
fn lowest_left(start: &[Phase], routers: &[u32]) -> Option<u32>
    ensures { result ≡ find (has_rest start.now) routers.now }
{
    routers
        .iter()
        .copied()
        .find(|router| has_rest(start, *router))
}

/// The name of a router.
fn router_name(net: &Net, router: u32) -> &[u8]
    requires { router < length net.now }
    ensures { result.now ≡ slice_index_or (names_of net.now) router [] }
{
    net.config(router).name.as_slice()
}
