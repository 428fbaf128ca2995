ghost use Rattle.std.specs.Prelude.{◌≡◌, ◌<◌, ◌^◌, ◌↔◌, ◌++◌, length, map, All, Contains, IfErr, IfNone};
ghost use Rattle.std.specs.Prelude.{IfOk, IfSome, IsTrue, MatchBool, MatchOption, OnOk};
ghost use Rattle.std.specs.List.{AllZip};
ghost use Rattle.net_addr.specs.Lines.{line_texts, text_lines};
ghost use Rattle.net_addr.specs.Spans.{bytes_of, LiesIn};
ghost use Rattle.net_model.specs.Lookups.{IsNamed};
ghost use Rattle.net_model.specs.Refusals.{IsNetwork};
ghost use Rattle.order_core.specs.Orders.{AreDistinct};
ghost use Rattle.step_scripts.specs.FaultyLines.{HasHeader, RefusesWaves};
ghost use Rattle.step_scripts.specs.steps.ReadWaves.{AreFileEntries, AreFirstWaves, AreRanksOf, AreEntriesRead, HasRepeat, HasUnknown};
ghost use Rattle.step_scripts.specs.steps.ReadWaves.{HasUnseated, IsUnfit, NamesOneOf, TakesSeats, bytes_of_lines};
ghost use Rattle.step_scripts.specs.WaveFiles.{NamesWaves, all_in, wave_at};
ghost use Rattle.step_scripts.specs.WaveLines.{header_of};

use crate::names::{Names, chain_on, wave_on};
use crate::seats::{Seats, is_listed};
use crate::{OrderKind, OrderRefusal, Version, WaveFile};
use net_addr::{Line, Span, lines};
use net_model::Net;
use order_core::Waves;
use std::alloc::{AllocError, Global};

/// The waves that a text names, in either version.
///
/// Version 1 is the line `order 1`, then the name of each router once, one a line; each router is a wave of its own.
/// Version 2 is the line `order 2`, then a line for each wave, the word `wave` and the names of its routers, and maybe
/// a last line `chain` with one name of each wave in their order. Words and names are joined by one blank each. A text
/// that is no such file is refused with its least faulty line.
pub fn read_waves(alloc: Global, net: &Net, text: &[u8]) -> Result<WaveFile, OrderRefusal>
    requires some { 0 < length net.now }
    requires short { length text.now < 2 ^ 26 }
    ensures ok { IfOk result (λ file. NamesWaves net.now text.now file.version file.waves) }
    ensures err { IfErr result (RefusesWaves net.now text.now) }
{
    let routers = net.routers();
    let all = lines(alloc, text)?;
    let Some((version, entries)) = entries_of(text, all.as_slice()) else {
        return Err(OrderRefusal::Bad {
            line: 1,
            kind: OrderKind::Header,
        });
    };
    let seats = seat_waves(alloc, net, version, text, entries)?;
    let entries = Entries {
        version,
        text,
        lines: entries,
    };
    check_ending(alloc, net, &entries, &seats)?;
    let Some(ranks) = ranks_of(alloc, routers, &seats)? else {
        return Err(OrderRefusal::Bad {
            line: all.as_slice().len() as u32 + 1,
            kind: OrderKind::Missing,
        });
    };
    let waves = Waves::from_ranks(alloc, ranks.as_slice())?;
    Ok(WaveFile { version, waves })
}

/// The version and the lines after the header, where the first line is a header.
fn entries_of<'a>(text: &[u8], lines: &'a [Line]) -> Option<(Version, &'a [Line])>
    requires exact { lines.now ≡ text_lines text.now }
    requires inside { All (λ line. LiesIn text.now line.span) lines.now }
    requires texts { bytes_of_lines text.now lines.now ≡ line_texts text.now }
    ensures none { IfNone result ((version : Version) → HasHeader version text.now → ⊥) }
    ensures some { IfSome result (λ found. AreFileEntries found.0 text.now found.1.now) }
{
    let (first, entries) = lines.split_first()?;
    let version = version_of(bytes_at(text, first.span))?;
    Some((version, entries))
}

/// The version of a header.
fn version_of(line: &[u8]) -> Option<Version>
    ensures { MatchOption result ((version : Version) → line.now ≡ header_of version → ⊥) (λ version. line.now ≡ header_of version) }
{
    if line == b"order 1".as_slice() {
        Some(Version::One)
    } else if line == b"order 2".as_slice() {
        Some(Version::Two)
    } else {
        None
    }
}

/// The bytes of a span.
fn bytes_at(text: &[u8], span: Span) -> &[u8]
    requires { LiesIn text.now span }
    ensures { result.now ≡ bytes_of text.now span }
{
    &text[span.start as usize..span.stop as usize]
}

/// The routers of the waves on the first lines, up to one that is no wave.
fn seat_waves(
    alloc: Global,
    net: &Net,
    version: Version,
    text: &[u8],
    entries: &[Line],
) -> Result<Seats, OrderRefusal>
    requires entries { AreFileEntries version text.now entries.now }
    ensures ok { IfOk result (AreFirstWaves net.now version (bytes_of_lines text.now entries.now)) }
    ensures err { IfErr result (RefusesWaves net.now text.now) }
{
    let mut seats = Seats::new(alloc, net.routers())?;
    for line in entries {
        let Some(names) = wave_on(alloc, version, bytes_at(text, line.span))? else {
            return Ok(seats);
        };
        if let Some(kind) = seat(alloc, net, &names, &mut seats)? {
            return Err(OrderRefusal::Bad {
                line: line.number,
                kind,
            });
        }
    }
    Ok(seats)
}

/// Adds the routers of these names as one more wave, or tells why they can't be.
fn seat(
    alloc: Global,
    net: &Net,
    names: &Names<'_>,
    seats: &mut Seats,
) -> Result<Option<OrderKind>, AllocError>
    requires { AreDistinct (all_in seats.old) }
    ensures { IfOk result (λ fault. MatchOption fault (TakesSeats net.now names.now seats.old seats.new) (IsUnfit net.now names.now seats.old)) }
{
    let Some(routers) = routers_of(alloc, net, names.as_slice())? else {
        return Ok(Some(OrderKind::NotInNetwork));
    };
    if !are_new(seats, routers.as_slice()) {
        return Ok(Some(OrderKind::Twice));
    }
    seats.add(routers)?;
    Ok(None)
}

/// The routers of these names, where each is that of one.
fn routers_of(alloc: Global, net: &Net, names: &[&[u8]]) -> Result<Option<Vec<u32>>, AllocError>
    ensures { IfOk result (λ found. MatchOption found
        (HasUnknown net.now (map (λ name. name.now) names.now))
        (λ routers. AllZip (IsNamed net.now) (map (λ name. name.now) names.now) routers.items)) }
{
    let mut routers = Vec::new(alloc);
    for name in names {
        let Some(router) = net.number_of(name) else {
            return Ok(None);
        };
        routers.push(router)?;
    }
    Ok(Some(routers))
}

/// Whether no router stands in a seat, and none twice among these.
fn are_new(seats: &Seats, routers: &[u32]) -> bool
    requires { AreDistinct (all_in seats.now) }
    ensures { MatchBool result (AreDistinct (all_in seats.now ++ routers.now)) (HasRepeat seats.now routers.now) }
{
    for place in 0..routers.len() {
        let router = routers[place];
        if stood_before(seats, &routers[..place], router) {
            return false;
        }
    }
    true
}

/// Whether a router stands in a seat or among these.
fn stood_before(seats: &Seats, before: &[u32], router: u32) -> bool
    ensures { IsTrue result ↔ Contains (all_in seats.now ++ before.now) router }
{
    match seats.wave_with(router) {
        Some(_) => true,
        None => is_listed(before, router),
    }
}

/// The lines of an order file of a version behind the first one.
#[derive(Clone, Copy)]
struct Entries<'a> {
    version: Version,
    text: &'a [u8],
    lines: &'a [Line],
}

/// Refuses what stands behind the waves, where it isn't nothing or a chain of them.
fn check_ending(
    alloc: Global,
    net: &Net,
    entries: &Entries<'_>,
    seats: &Seats,
) -> Result<(), OrderRefusal>
    requires network { IsNetwork net.now }
    requires entries { AreFileEntries entries.now.version entries.now.text.now entries.now.lines.now }
    requires first { AreFirstWaves net.now entries.now.version (bytes_of_lines entries.now.text.now entries.now.lines.now) seats.now }
    ensures ok { OnOk result (AreEntriesRead net.now entries.now.version
        (bytes_of_lines entries.now.text.now entries.now.lines.now) seats.now) }
    ensures err { IfErr result (RefusesWaves net.now entries.now.text.now) }
{
    let waves = seats.count();
    if waves == entries.lines.len() {
        return Ok(());
    }
    let line = entries.lines[waves];
    let Some(names) = chain_on(alloc, entries.version, bytes_at(entries.text, line.span))? else {
        return Err(OrderRefusal::Bad {
            line: line.number,
            kind: OrderKind::Wave,
        });
    };
    if !is_chain(net, names.as_slice(), seats) {
        return Err(OrderRefusal::Bad {
            line: line.number,
            kind: OrderKind::Chain,
        });
    }
    if waves + 1 == entries.lines.len() {
        return Ok(());
    }
    let next = entries.lines[waves + 1];
    Err(OrderRefusal::Bad {
        line: next.number,
        kind: OrderKind::Wave,
    })
}

/// Whether these are names of routers, one of each wave in their order.
fn is_chain(net: &Net, names: &[&[u8]], seats: &Seats) -> bool
    ensures { IsTrue result ↔ AllZip (NamesOneOf net.now) seats.now (map (λ name. name.now) names.now) }
{
    if names.len() != seats.count() {
        return false;
    }
    for place in 0..names.len() {
        if !names_one_of(net, names[place], seats, place) {
            return false;
        }
    }
    true
}

/// Whether this is the name of a router of a wave.
fn names_one_of(net: &Net, name: &[u8], seats: &Seats, wave: usize) -> bool
    requires { wave < length seats.now }
    ensures { IsTrue result ↔ NamesOneOf net.now (wave_at seats.now wave) name.now }
{
    match net.number_of(name) {
        None => false,
        Some(router) => seats.has(wave, router),
    }
}

/// The rank of each router below a count, where each has a seat.
fn ranks_of(alloc: Global, routers: u32, seats: &Seats) -> Result<Option<Vec<u32>>, AllocError>
    requires { length seats.now < 2 ^ 32 }
    ensures { IfOk result (λ found. MatchOption found
        (HasUnseated routers seats.now)
        (λ ranks. AreRanksOf routers seats.now ranks.items)) }
{
    let mut ranks = Vec::new(alloc);
    for router in 0..routers {
        let Some(wave) = seats.wave_with(router) else {
            return Ok(None);
        };
        ranks.push(wave as u32)?;
    }
    Ok(Some(ranks))
}
