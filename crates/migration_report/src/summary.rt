ghost use Rattle.std.specs.Prelude.{◌≡◌, ◌-◌, ◌<◌, ◌∷◌, ◌++◌, [], IfOk, decimal, length};
ghost use Rattle.net_model.specs.RouterNames.{names_of};
ghost use Rattle.order_core.specs.Rankings.{wave_count};
ghost use Rattle.printed_lines.specs.Texts.{line};
ghost use Rattle.migration_report.specs.SummaryTexts.{lowest_in, summary_text};
ghost use Rattle.printed_lines.specs.Words.{router_word};

use crate::report::router_name;
use net_addr::Bytes;
use net_model::Net;
use order_core::Waves;
use printed_lines::{LineBuilder, TextBuilder};
use std::alloc::{AllocError, Global};

/// What is counted of a planned network.
#[derive(Clone, Copy, Debug)]
pub struct PlanCounts {
    /// How many routers were asked for.
    pub routers: u32,
    /// How many distinct prefixes the network has.
    pub prefixes: u64,
    /// How many branches led to its waves.
    pub branches: u64,
}

/// The lines that sum up planned waves of a network: what is counted of it, how many waves there are, and the lowest
/// routers of the first one and of the last one. The only error is want of memory.
pub(crate) fn summary_text(
    alloc: Global,
    net: &Net,
    counts: PlanCounts,
    waves: &Waves,
) -> Result<Bytes, AllocError>
    requires { length waves.now ≡ length net.now }
    ensures { IfOk result (λ text. text ≡ summary_text (names_of net.now) counts waves.now) }
{
    let text = TextBuilder::new(alloc);
    let text = with_count(alloc, text, b"sample", u64::from(counts.routers))?;
    let text = with_count(alloc, text, b"prefixes", counts.prefixes)?;
    let text = with_count(alloc, text, b"branches", counts.branches)?;
    let text = with_count(alloc, text, b"waves", u64::from(waves.count()))?;
    let last = last_wave(waves);
    let text = with_router(alloc, text, b"first", net, lowest_in(waves, 0))?;
    let text = with_router(alloc, text, b"last", net, lowest_in(waves, last))?;
    Ok(text.finish())
}

/// The text with the line of a word and a number more.
fn with_count(
    alloc: Global,
    text: TextBuilder,
    word: &[u8],
    count: u64,
) -> Result<TextBuilder, AllocError>
    ensures { IfOk result (λ longer. longer ≡ text ++ line word.now (decimal count ∷ [])) }
{
    text.line(LineBuilder::start(alloc, word)?.number(count)?)
}

/// The text with the line of a word and the name of a router more.
fn with_router(
    alloc: Global,
    text: TextBuilder,
    word: &[u8],
    net: &Net,
    router: u32,
) -> Result<TextBuilder, AllocError>
    requires { router < length net.now }
    ensures { IfOk result (λ longer. longer ≡ text ++ line word.now (router_word (names_of net.now) router ∷ [])) }
{
    text.line(LineBuilder::start(alloc, word)?.word(router_name(net, router))?)
}

/// The number of the last wave.
fn last_wave(waves: &Waves) -> u32
    ensures last { result ≡ wave_count waves.now - 1 }
    ensures some { 0 < wave_count waves.now }
{
    let routers = waves.ranks().len();
    prove!(routers > 0);
    waves.count() - 1
}

/// The lowest router of a wave.
fn lowest_in(waves: &Waves, wave: u32) -> u32
    requires { wave < wave_count waves.now }
    ensures lowest { result ≡ lowest_in waves.now wave }
    ensures below { result < length waves.now }
{
    let routers = waves.ranks().len();
    prove!(routers > 0);
    waves.wave(wave)[0]
}
