ghost use Rattle.std.specs.Prelude.{◌≡◌, ◌<◌, ◌++◌, IfOk, length};
ghost use Rattle.net_model.specs.RouterNames.{names_of};
ghost use Rattle.printed_lines.specs.Words.{router_word};
ghost use Rattle.migration_report.specs.JournalTexts.{departs_text, next_text, next_texts, or_done, reached_text};

use crate::report::router_name;
use net_addr::Bytes;
use net_model::Net;
use printed_lines::{LineBuilder, TextBuilder};
use state_replay::Half;
use std::alloc::{AllocError, Global};
use std::marker::Model;

/// Of each router the change that may come next.
#[derive(Debug, Drop)]
pub struct Nexts {
    all: Vec<Option<Half>>,
}

impl Model for Nexts {
    ghost use Rattle.std.specs.Prelude.{List, Option};
    ghost use Rattle.state_replay.specs.declared.half.Half.{Half};

    ghost Value = { List (Option Half) };

    ghost view = { λ x. x.all.items };
}

impl Nexts {
    /// These changes.
    pub fn from_vec(all: Vec<Option<Half>>) -> Nexts
        ensures { result ≡ all.items }
    {
        Nexts { all }
    }

    /// The changes, in the order of the routers.
    pub fn as_slice(&self) -> &[Option<Half>]
        ensures { result.now ≡ self.now }
    {
        self.all.as_slice()
    }
}

/// The line that tells the first line of a journal that fits no run. The only error is want of memory.
pub(crate) fn departs_text(alloc: Global, line: u32) -> Result<Bytes, AllocError>
    ensures { IfOk result (λ text. text ≡ departs_text line) }
{
    LineBuilder::start(alloc, b"departs")?
        .number(u64::from(line))?
        .finish()
}

/// The lines that tell how many changes of a migration are made, and which may come next: of each router the change in
/// its place of `nexts`. The only error is want of memory.
pub(crate) fn reached_text(
    alloc: Global,
    net: &Net,
    made: u32,
    nexts: &[Option<Half>],
) -> Result<Bytes, AllocError>
    requires { length nexts.now ≡ length net.now }
    ensures { IfOk result (λ text. text ≡ reached_text (names_of net.now) made nexts.now (length net.now)) }
{
    let line = LineBuilder::start(alloc, b"at")?;
    let line = line.number(u64::from(made))?.word(b"of")?;
    let line = line.number(2 * u64::from(net.routers()))?;
    let mut text = line.finish()?.into_vec();
    let nexts = next_texts(alloc, net, nexts)?;
    text.extend_from_slice(or_done(alloc, nexts)?.as_slice())?;
    Ok(Bytes::from_vec(text))
}

/// The lines of the changes that may come next.
fn next_texts(alloc: Global, net: &Net, nexts: &[Option<Half>]) -> Result<Bytes, AllocError>
    requires { length nexts.now ≡ length net.now }
    ensures { IfOk result (λ text. text ≡ next_texts (names_of net.now) nexts.now (length net.now)) }
{
    let mut text = TextBuilder::new(alloc);
    for router in 0..net.routers() {
        text = add_next(alloc, text, net, router, nexts[router as usize])?;
    }
    Ok(text.finish())
}

/// The text with the line of a change that may come next more, where there is one.
fn add_next(
    alloc: Global,
    text: TextBuilder,
    net: &Net,
    router: u32,
    next: Option<Half>,
) -> Result<TextBuilder, AllocError>
    requires { router < length net.now }
    ensures { IfOk result (λ longer. longer ≡ text ++ next_text (router_word (names_of net.now) router) next) }
{
    let Some(half) = next else {
        return Ok(text);
    };
    let line = LineBuilder::start(alloc, b"next")?;
    let line = line.word(router_name(net, router))?;
    text.line(line.number(u64::from(half.number()))?)
}

/// These lines, or where there are none the line that all is done.
fn or_done(alloc: Global, text: Bytes) -> Result<Bytes, AllocError>
    ensures { IfOk result (λ all. all ≡ or_done text) }
{
    if text.as_slice().is_empty() {
        LineBuilder::start(alloc, b"done")?.finish()
    } else {
        Ok(text)
    }
}
