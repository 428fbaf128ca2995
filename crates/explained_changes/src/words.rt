ghost use Rattle.std.specs.Prelude.{◌≡◌, ◌+◌, ◌*◌, ◌%◌, ◌<◌, ◌++◌, ◌∷◌, [], IfOk, codes, decimal, length};
ghost use Rattle.net_model.specs.RouterNames.{names_of};
ghost use Rattle.order_core.specs.Rankings.{rank_of};
ghost use Rattle.printed_lines.specs.Words.{spaced};
ghost use Rattle.change_orders.specs.TwoTexts.{item_word};
ghost use Rattle.explained_texts.specs.ReasonTexts.{may_words};
ghost use Rattle.explained_changes.specs.ChangeReasonTexts.{comes_words};

use crate::OutOfMemory;
use change_orders::with_item;
use net_model::Net;
use printed_lines::LineBuilder;
use std::alloc::Global;

/// The line of a change that may stand one wave earlier.
pub(crate) fn may_line(
    alloc: Global,
    net: &Net,
    ranks: &[u32],
    item: u32,
) -> Result<LineBuilder, OutOfMemory>
    requires item { item < length ranks.now }
    requires each { length ranks.now ≡ 2 * length net.now }
    ensures { IfOk result (λ line. line ≡ item_word (names_of net.now) item ++ spaced (may_words ranks.now item)) }
{
    let line = wave_line(alloc, net, ranks, item)?;
    line.word(b"may")?.word(b"be")?.word(b"earlier")
}

/// The line of a change that comes after another one, so far: what it comes after stands at its end.
pub(crate) fn comes_line(
    alloc: Global,
    net: &Net,
    ranks: &[u32],
    item: u32,
    after: u32,
) -> Result<LineBuilder, OutOfMemory>
    requires item { item < length ranks.now }
    requires after { after < length ranks.now }
    requires each { length ranks.now ≡ 2 * length net.now }
    ensures { IfOk result (λ line. line ≡ item_word (names_of net.now) item
        ++ spaced (comes_words (names_of net.now) ranks.now item after [])) }
{
    let line = wave_line(alloc, net, ranks, item)?.word(b"after")?;
    with_item(line, net, after)
}

/// The beginning of a line: a change, and its wave.
fn wave_line(alloc: Global, net: &Net, ranks: &[u32], item: u32) -> Result<LineBuilder, OutOfMemory>
    requires item { item < length ranks.now }
    requires each { length ranks.now ≡ 2 * length net.now }
    ensures { IfOk result (λ line. line ≡ item_word (names_of net.now) item
        ++ spaced (codes "wave" ∷ decimal (rank_of ranks.now item + 1) ∷ [])) }
{
    let line = item_line(alloc, net, item)?.word(b"wave")?;
    line.number(u64::from(ranks[item as usize]) + 1)
}

/// A line that begins with the word of a change.
fn item_line(alloc: Global, net: &Net, item: u32) -> Result<LineBuilder, OutOfMemory>
    requires { item < 2 * length net.now }
    ensures { IfOk result (λ line. line ≡ item_word (names_of net.now) item) }
{
    let line = LineBuilder::start(alloc, net.config(item / 2).name.as_slice())?;
    line.attach(b':', number_word(item))
}

/// The number of an item's change, as a word.
fn number_word(item: u32) -> &'static [u8]
    ensures { result.now ≡ (48 + (item % 2 + 1)) ∷ [] }
{
    if item % 2 == 0 { b"1" } else { b"2" }
}
