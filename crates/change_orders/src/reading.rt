ghost use Rattle.std.specs.Prelude.{◌≡◌, ◌+◌, ◌*◌, ◌^◌, ◌<◌, ◌≤◌, ◌↔◌, ℕ, List, [], ◌∷◌, length, map, false, IfErr, IfOk, IsTrue, MatchBool, Some};
ghost use Rattle.net_addr.specs.Lines.{line_texts};
ghost use Rattle.net_model.specs.Refusals.{IsNetwork};
ghost use Rattle.step_scripts.specs.WaveFiles.{AreOfEach};
ghost use Rattle.step_scripts.specs.WaveLines.{waves_on};
ghost use Rattle.step_scripts.specs.declared.version.Version.TheVariants.{Two};
ghost use Rattle.change_orders.specs.TwoFaults.{RefusesTwo, two_header};
ghost use Rattle.change_orders.specs.TwoFiles.{AreTwoWaves, NamesTwo};
ghost use Rattle.change_orders.specs.steps.Standing.{BeginsTwo, HaveLedTo, StandsIn, TakesTwoLine, TakesWave, standing, taking};

use crate::items::{all_found, are_in_order, item_of, items_found};
use crate::seating::{ReadSoFar, seat, some_early};
use crate::words::changes_behind;
use crate::{TwoKind, TwoRefusal};
use net_addr::LineCursor;
use net_model::Net;
use order_core::Waves;
use std::alloc::{AllocError, Global};

/// The waves of single changes that a text names, as ranks of items: change c of router u is the item 2u + c - 1.
///
/// The text is the line `order 3`, then a line for each wave, the word `wave` and its changes `NAME:1` or `NAME:2` in the order of
/// items, and maybe a last line `chain` with one change of each wave in their order. Words are joined by one blank each. A text that
/// is no such file is refused with its least faulty line.
pub fn read_two(alloc: Global, net: &Net, text: &[u8]) -> Result<Waves, TwoRefusal>
    requires some { 0 < length net.now }
    requires short { length text.now < 2 ^ 26 }
    ensures ok { IfOk result (NamesTwo net.now text.now) }
    ensures in_turn { IfOk result (AreTwoWaves (length net.now)) }
    ensures err { IfErr result (RefusesTwo net.now text.now) }
{
    let mut lines = LineCursor::new(text);
    if !begins_file(&mut lines) {
        return Err(TwoRefusal::Bad {
            line: 1,
            kind: TwoKind::Form,
        });
    }
    let mut read = ReadSoFar::new(alloc, net.routers())?;
    let mut number = 2;
    while let Some(line) = lines.next_line() {
        if let Some(kind) = take_line(alloc, net, line, &mut read)? {
            return Err(TwoRefusal::Bad { line: number, kind });
        }
        number += 1;
    }
    let Some(ranks) = all_found(alloc, read.ranks.as_slice())? else {
        return Err(TwoRefusal::Bad {
            line: number,
            kind: TwoKind::Missing,
        });
    };
    Ok(Waves::from_ranks(alloc, ranks.as_slice())?)
}

/// Takes the first line, and whether it is the header.
fn begins_file(lines: &mut LineCursor) -> bool
    ensures { MatchBool result (lines.old ≡ two_header ∷ lines.new) (BeginsTwo lines.old → ⊥) }
{
    match lines.next_line() {
        Some(line) => line == b"order 3".as_slice(),
        None => false,
    }
}

/// Takes a line behind the header, or tells why it is faulty.
fn take_line(
    alloc: Global,
    net: &Net,
    line: &[u8],
    read: &mut ReadSoFar,
) -> Result<Option<TwoKind>, AllocError>
    requires network { IsNetwork net.now }
    requires each { length read.old.ranks.items ≡ 2 * length net.now }
    requires room { read.old.waves + 1 < 2 ^ 32 }
    ensures taken { IfOk result (TakesTwoLine net.now line.now (taking read.old read.new)) }
    ensures each { length read.new.ranks.items ≡ 2 * length net.now }
    ensures waves { read.new.waves ≤ read.old.waves + 1 }
{
    if read.chained {
        return Ok(Some(TwoKind::Form));
    }
    if let Some(words) = changes_behind(alloc, b"wave", line)? {
        return take_wave(alloc, net, words.as_slice(), read);
    }
    let Some(words) = changes_behind(alloc, b"chain", line)? else {
        return Ok(Some(TwoKind::Form));
    };
    if !is_chain(net, words.as_slice(), read) {
        return Ok(Some(TwoKind::Form));
    }
    read.chained = true;
    Ok(None)
}

/// Takes a wave of these words, or tells why it is faulty.
fn take_wave(
    alloc: Global,
    net: &Net,
    words: &[&[u8]],
    read: &mut ReadSoFar,
) -> Result<Option<TwoKind>, AllocError>
    requires network { IsNetwork net.now }
    requires each { length read.old.ranks.items ≡ 2 * length net.now }
    requires room { read.old.waves + 1 < 2 ^ 32 }
    ensures taken { IfOk result (TakesWave net.now (map (λ word. word.now) words.now) (taking read.old read.new)) }
    ensures each { length read.new.ranks.items ≡ 2 * length net.now }
    ensures waves { read.new.waves ≤ read.old.waves + 1 }
{
    let found = items_found(alloc, net, words)?;
    if !are_in_order(found.as_slice()) {
        return Ok(Some(TwoKind::Form));
    }
    let Some(items) = all_found(alloc, found.as_slice())? else {
        return Ok(Some(TwoKind::NotInNetwork));
    };
    if !seat(&mut read.ranks, items.as_slice(), read.waves) {
        return Ok(Some(TwoKind::Twice));
    }
    if some_early(read.ranks.as_slice(), items.as_slice(), read.waves) {
        return Ok(Some(TwoKind::Early));
    }
    read.waves += 1;
    Ok(None)
}

/// Whether these are words of one change of each wave, in their order.
fn is_chain(net: &Net, words: &[&[u8]], read: &ReadSoFar) -> bool
    requires network { IsNetwork net.now }
    requires each { length read.now.ranks.items ≡ 2 * length net.now }
    ensures { (lines : List (List ℕ)) → HaveLedTo net.now lines (standing read.now) →
        IsTrue result ↔ AreOfEach (waves_on Two lines) (map (λ word. word.now) words.now) }
{
    if words.len() != read.waves as usize {
        return false;
    }
    for place in 0..words.len() {
        if !stands_in(net, words[place], read.ranks.as_slice(), place as u32) {
            return false;
        }
    }
    true
}

/// Whether a word names a change of this wave.
fn stands_in(net: &Net, word: &[u8], ranks: &[Option<u32>], wave: u32) -> bool
    requires network { IsNetwork net.now }
    requires each { length ranks.now ≡ 2 * length net.now }
    ensures { IsTrue result ↔ StandsIn net.now ranks.now word.now wave }
{
    match item_of(net, word) {
        Some(item) => is_wave(ranks[item as usize], wave),
        None => false,
    }
}

/// Whether this is the wave.
fn is_wave(rank: Option<u32>, wave: u32) -> bool
    ensures { IsTrue result ↔ (rank ≡ Some wave) }
{
    match rank {
        Some(rank) => rank == wave,
        None => false,
    }
}
