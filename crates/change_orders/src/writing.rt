ghost use Rattle.std.specs.Prelude.{◌≡◌, ◌+◌, ◌*◌, ◌%◌, ◌<◌, ◌++◌, [], ◌∷◌, All, IfOk, length};
ghost use Rattle.net_model.specs.RouterNames.{names_of};
ghost use Rattle.step_scripts.specs.WavesTexts.{AreOneOfEach};
ghost use Rattle.change_orders.specs.TwoTexts.{item_word, items_line, two_kind_name, two_refusal_text, two_text};

use crate::TwoKind;
use net_addr::Bytes;
use net_model::Net;
use order_core::Waves;
use printed_lines::{LineBuilder, TextBuilder};
use std::alloc::{AllocError, Global};

/// The text of a wave list of single changes and a chain: the changes of a wave in the order of items, those of the chain in its
/// order.
///
/// `read_two` reads it back as these waves, where each router's first change comes before its second (`two_laws`).
pub fn two_text(alloc: Global, net: &Net, waves: &Waves, chain: &[u32]) -> Result<Bytes, AllocError>
    requires ranks { length waves.now ≡ 2 * length net.now }
    requires chain { AreOneOfEach waves.now chain.now }
    ensures { IfOk result (λ text. text ≡ two_text (names_of net.now) waves.now chain.now) }
{
    let header = LineBuilder::start(alloc, b"order 3")?;
    let mut text = TextBuilder::new(alloc).line(header)?;
    for wave in 0..waves.count() {
        text = text.line(items_line(alloc, net, b"wave", waves.wave(wave))?)?;
    }
    let chain = items_line(alloc, net, b"chain", chain)?;
    Ok(text.line(chain)?.finish())
}

/// A line of a word and the words of some items.
fn items_line(
    alloc: Global,
    net: &Net,
    word: &[u8],
    items: &[u32],
) -> Result<LineBuilder, AllocError>
    requires { All (λ i. i < 2 * length net.now) items.now }
    ensures { IfOk result (λ line. line ≡ items_line (names_of net.now) word.now items.now) }
{
    let mut line = LineBuilder::start(alloc, word)?;
    for item in items {
        line = with_item(line, net, *item)?;
    }
    Ok(line)
}

/// The line with the word of an item more: a blank, and `R1:2`. The only error is want of memory.
pub fn with_item(line: LineBuilder, net: &Net, item: u32) -> Result<LineBuilder, AllocError>
    requires { item < 2 * length net.now }
    ensures { IfOk result (λ longer. longer ≡ line ++ 32 ∷ item_word (names_of net.now) item) }
{
    let line = line.word(net.config(item / 2).name.as_slice())?;
    line.attach(b':', change_digit(item))
}

/// The digit of the number of an item's change.
fn change_digit(item: u32) -> &'static [u8]
    ensures { result.now ≡ (48 + (item % 2 + 1)) ∷ [] }
{
    if item % 2 == 0 { b"1" } else { b"2" }
}

/// The line for a faulty line of an order file of single changes.
pub fn two_refusal_text(
    alloc: Global,
    file: &str,
    line: u32,
    kind: TwoKind,
) -> Result<Bytes, AllocError>
    ensures { IfOk result (λ text. text ≡ two_refusal_text file.now line kind) }
{
    let text = LineBuilder::start(alloc, b"refused")?.word(file.as_bytes())?;
    text.number(u64::from(line))?
        .word(two_kind_name(kind))?
        .finish()
}

/// The name of a kind.
fn two_kind_name(kind: TwoKind) -> &'static [u8]
    ensures { result.now ≡ two_kind_name kind }
{
    match kind {
        TwoKind::Form => b"Form",
        TwoKind::NotInNetwork => b"NotInNetwork",
        TwoKind::Twice => b"Twice",
        TwoKind::Missing => b"Missing",
        TwoKind::Early => b"Early",
    }
}
