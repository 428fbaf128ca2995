ghost use Rattle.std.specs.Prelude.{◌≡◌, ◌<◌, ◌≤◌, ◌^◌, ◌-◌, ◌+◌, ◌↔◌, [], ◌∷◌, ℕ, List, All, IfErr, IfNone, IfOk, IfSome, IsTrue};
ghost use Rattle.std.specs.Prelude.{MatchResult, length, replicate, take};
ghost use Rattle.net_addr.specs.Lines.{line_texts, text_lines};
ghost use Rattle.net_addr.specs.Spans.{LiesIn};
ghost use Rattle.net_model.specs.Refusals.{IsNetwork};
ghost use Rattle.order_core.specs.Pairs.{Pair};
ghost use Rattle.rib_mix.specs.Mixture.{migration_of};
ghost use Rattle.plan_theory.specs.Ranked.{base_of, size_of};
ghost use Rattle.refutation_check.specs.RestVerdicts.{IsRestVerdict, IsStartedVerdict, LeavesNoRestWhereClosed};
ghost use Rattle.refutation_check.specs.Verdicts.{IsHeadedVerdict, IsLinesVerdict, IsTextVerdict, IsTwoVerdict};
ghost use Rattle.refutation_check.specs.Verdicts.{LeavesNoneWhereClosed, RefutesWhereClosed, tree_header_of};
ghost use Rattle.refutation_check.specs.steps.Judged.{started_of};
ghost use Rattle.refutation_check.specs.steps.Reading.{HasReadLines, IsEndVerdict, IsFirstWrongOf, IsWholeVerdict, StandBehind, line_bytes};

use crate::asked::Asked;
use crate::reading::{Reading, WrongLine};
use crate::shape::is_text;
use crate::spans::bytes_at;
use crate::start::read_start;
use crate::tally::Tally;
use crate::verdict::{Verdict, WrongKind};
use crate::walk::Walk;
use net_addr::{Line, OutOfMemory, lines};
use order_core::{Tag, Turn};
use plan_theory::{Items, base_pairs, number_count};
use rib_mix::{Mixed, Phase};
use route_core::RouteSource;
use std::alloc::Global;

/// The verdict on a tree file of routers over a network and two sources of tables: the first wrong line with its lowest
/// kind, else the count of unvisited places, else that it is a closed tree, with the counts of its branches and leaves.
///
/// The tree may be of any depth and width. It takes time in proportion to the text, and memory for its lines, for the
/// branches of one path and a number for each pair of routers. The only error is want of memory.
pub fn verify<O: RouteSource, N: RouteSource>(
    alloc: Global,
    mixed: &Mixed<'_, O, N>,
    text: &[u8],
) -> Result<Verdict, OutOfMemory>
    requires { length text.now < 2 ^ 26 }
    ensures verdict { IfOk result (IsTextVerdict (migration_of O.table N.table mixed.now) text.now) }
    ensures network { IsNetwork mixed.now.net }
    ensures refutes { IfOk result (RefutesWhereClosed (migration_of O.table N.table mixed.now)) }
{
    verify_headed(alloc, mixed, Items::Routers, text)
}

/// The verdict on a tree file of single changes, whose first line is `tree 2`: its leaves name changes, and each router's
/// first change before its second is assumed everywhere. A closed one leaves no list of all changes, each router's first
/// before its second, with only sound states.
///
/// Time and memory as for `verify`, with twice as many numbers as routers.
pub fn verify_two<O: RouteSource, N: RouteSource>(
    alloc: Global,
    mixed: &Mixed<'_, O, N>,
    text: &[u8],
) -> Result<Verdict, OutOfMemory>
    requires { length text.now < 2 ^ 26 }
    ensures verdict { IfOk result (IsTwoVerdict (migration_of O.table N.table mixed.now) text.now) }
    ensures network { IsNetwork mixed.now.net }
    ensures refutes { IfOk result (LeavesNoneWhereClosed Items.Changes (migration_of O.table N.table mixed.now)) }
{
    verify_headed(alloc, mixed, Items::Changes, text)
}

/// The verdict on a tree file whose first line is `tree 3`: its second line says the phase in which each router begins, and
/// the nodes behind it are judged from there. A closed one leaves no list of the changes that are left at that start, each
/// router's next to each other, with only sound states.
///
/// Whether the start is sound, or a journal leads there, isn't asked. Time and memory as for `verify`.
pub fn verify_rest<O: RouteSource, N: RouteSource>(
    alloc: Global,
    mixed: &Mixed<'_, O, N>,
    text: &[u8],
) -> Result<Verdict, OutOfMemory>
    requires { length text.now < 2 ^ 26 }
    ensures verdict { IfOk result (IsRestVerdict (migration_of O.table N.table mixed.now) text.now) }
    ensures network { IsNetwork mixed.now.net }
    ensures refutes { IfOk result (LeavesNoRestWhereClosed (migration_of O.table N.table mixed.now) text.now) }
{
    let _routers = mixed.net().routers();
    let all = lines(alloc, text)?;
    match entries_of(text, all.as_slice(), b"tree 3") {
        Some(entries) => judge_started(alloc, mixed, text, entries),
        None => Ok(wrong(1, WrongKind::Form)),
    }
}

/// The verdict on the lines behind a header, of which the first is that of a start.
fn judge_started<O: RouteSource, N: RouteSource>(
    alloc: Global,
    mixed: &Mixed<'_, O, N>,
    text: &[u8],
    entries: &[Line],
) -> Result<Verdict, OutOfMemory>
    requires short { length text.now < 2 ^ 26 }
    requires network { IsNetwork mixed.now.net }
    requires inside { All (λ line. LiesIn text.now line.span) entries.now }
    requires few { length entries.now + 2 < 2 ^ 32 - 2 }
    ensures { IfOk result (IsStartedVerdict (migration_of O.table N.table mixed.now) (line_bytes text.now entries.now)) }
{
    let Some((line, nodes)) = entries.split_first() else {
        return Ok(wrong(2, WrongKind::Form));
    };
    match read_start(alloc, mixed.net(), text, line.span)? {
        Ok(start) => judge_from(alloc, mixed, start.as_slice(), text, nodes),
        Err(kind) => Ok(wrong(2, kind)),
    }
}

/// The verdict on the lines of nodes behind that of a start.
fn judge_from<O: RouteSource, N: RouteSource>(
    alloc: Global,
    mixed: &Mixed<'_, O, N>,
    start: &[Phase],
    text: &[u8],
    nodes: &[Line],
) -> Result<Verdict, OutOfMemory>
    requires short { length text.now < 2 ^ 26 }
    requires network { IsNetwork mixed.now.net }
    requires inside { All (λ line. LiesIn text.now line.span) nodes.now }
    requires few { length nodes.now + 3 < 2 ^ 32 - 2 }
    requires each { length start.now ≡ length mixed.now.net }
    ensures { IfOk result (IsLinesVerdict Items.Routers (started_of O.table N.table mixed.now start.now)
        3 (line_bytes text.now nodes.now)) }
{
    let asked = Asked {
        mixed,
        start,
        items: Items::Routers,
    };
    judge_lines(alloc, &asked, text, nodes, 3)
}

/// The verdict on a tree file with one line before its nodes, where every router begins in `Old`.
fn verify_headed<O: RouteSource, N: RouteSource>(
    alloc: Global,
    mixed: &Mixed<'_, O, N>,
    items: Items,
    text: &[u8],
) -> Result<Verdict, OutOfMemory>
    requires { length text.now < 2 ^ 26 }
    ensures verdict { IfOk result (IsHeadedVerdict items (tree_header_of items) (migration_of O.table N.table mixed.now) text.now) }
    ensures network { IsNetwork mixed.now.net }
{
    let start = all_old(alloc, mixed.net().routers())?;
    let all = lines(alloc, text)?;
    let Some(entries) = entries_of(text, all.as_slice(), header_of(items)) else {
        return Ok(wrong(1, WrongKind::Form));
    };
    let asked = Asked {
        mixed,
        start: start.as_slice(),
        items,
    };
    judge_lines(alloc, &asked, text, entries, 2)
}

/// The start where each of so many routers is in `Old`.
fn all_old(alloc: Global, routers: u32) -> Result<Vec<Phase>, OutOfMemory>
    ensures { IfOk result (λ start. start.items ≡ replicate routers Phase.Old) }
{
    Ok(vec![in alloc; Phase::Old; routers as usize]?)
}

/// The first line of a tree file.
fn header_of(items: Items) -> &'static [u8]
    ensures { result.now ≡ tree_header_of items }
{
    match items {
        Items::Routers => b"tree 1",
        Items::Changes => b"tree 2",
    }
}

/// That a line is wrong.
fn wrong(line: u32, kind: WrongKind) -> Verdict
    ensures { result ≡ Verdict.Wrong line kind }
{
    Verdict::Wrong { line, kind }
}

/// The verdict on the lines of nodes, the first of which has this number.
fn judge_lines<O: RouteSource, N: RouteSource>(
    alloc: Global,
    asked: &Asked<'_, '_, O, N>,
    text: &[u8],
    entries: &[Line],
    first: u32,
) -> Result<Verdict, OutOfMemory>
    requires short { length text.now < 2 ^ 26 }
    requires network { IsNetwork asked.now.mixed.now.net }
    requires inside { All (λ line. LiesIn text.now line.span) entries.now }
    requires few { length entries.now + first < 2 ^ 32 - 2 }
    ensures { IfOk result (IsLinesVerdict asked.now.items (started_of O.table N.table asked.now.mixed.now asked.now.start.now)
        first (line_bytes text.now entries.now)) }
{
    let start = first_reading(alloc, asked.items, asked.mixed.net().routers())?;
    match read_lines(alloc, asked, text, entries, start)? {
        Ok(read) => Ok(end_verdict(read, entries.len() as u32 + first)),
        Err(found) => Ok(wrong(found.place + first, found.kind)),
    }
}

/// What is read before the first line of a node: the one place that is open assumes the base.
fn first_reading(alloc: Global, items: Items, routers: u32) -> Result<Reading, OutOfMemory>
    requires { routers ≤ 200 }
    ensures routers { IfOk result (λ start. start.walk.routers ≡ size_of items routers) }
    ensures left { IfOk result (λ start. start.walk.left ≡ base_of items routers ∷ []) }
    ensures tally { IfOk result (λ start. start.tally ≡ record { branches = 0; leaves = 0; unvisited = 0 }) }
{
    let base = base_pairs(alloc, items, routers)?;
    let walk = Walk::start(alloc, number_count(items, routers))?;
    let walk = walk_past(alloc, walk, base.as_slice())?;
    let tally = Tally {
        branches: 0,
        leaves: 0,
        unvisited: 0,
    };
    Ok(Reading { walk, tally })
}

/// The walk with these pairs assumed besides: each is the one child of a branch that was entered.
fn walk_past(alloc: Global, mut walk: Walk, base: &[(u32, u32)]) -> Result<Walk, OutOfMemory>
    requires below { All (λ (p : Pair). (p.0 < walk.routers) × (p.1 < walk.routers)) base.now }
    requires none { walk.left ≡ [] ∷ [] }
    ensures routers { IfOk result (λ after. after.routers ≡ walk.routers) }
    ensures left { IfOk result (λ after. after.left ≡ base.now ∷ []) }
{
    for (before, after) in base {
        let turns = [
            Turn {
                router: *before,
                tag: Tag::Old,
            },
            Turn {
                router: *after,
                tag: Tag::New,
            },
        ];
        walk = walk.enter(alloc, &turns)?;
    }
    Ok(walk)
}

/// The verdict behind the last line, where this would be the number of one more.
fn end_verdict(read: Reading, next: u32) -> Verdict
    ensures { IsEndVerdict read next result }
{
    if read.walk.is_whole() {
        whole_verdict(read.tally)
    } else {
        Verdict::Wrong {
            line: next,
            kind: WrongKind::Form,
        }
    }
}

/// The lines after the header, where the first line is the header.
fn entries_of<'a>(text: &[u8], lines: &'a [Line], header: &[u8]) -> Option<&'a [Line]>
    requires short { length text.now < 2 ^ 26 }
    requires exact { lines.now ≡ text_lines text.now }
    requires inside { All (λ line. LiesIn text.now line.span) lines.now }
    requires texts { line_bytes text.now lines.now ≡ line_texts text.now }
    ensures none { IfNone result ((lines : List (List ℕ)) → line_texts text.now ≡ header.now ∷ lines → ⊥) }
    ensures behind { IfSome result (λ entries. StandBehind (header.now ∷ []) text.now entries.now) }
    ensures inside { IfSome result (λ entries. All (λ line. LiesIn text.now line.span) entries.now) }
    ensures few { IfSome result (λ entries. length entries.now + 2 < 2 ^ 32 - 2) }
{
    let (first, entries) = lines.split_first()?;
    if is_text(bytes_at(text, first.span), header) {
        Some(entries)
    } else {
        None
    }
}

/// What is read with all these lines, or that one of them is wrong.
fn read_lines<O: RouteSource, N: RouteSource>(
    alloc: Global,
    asked: &Asked<'_, '_, O, N>,
    text: &[u8],
    entries: &[Line],
    start: Reading,
) -> Result<Result<Reading, WrongLine>, OutOfMemory>
    requires short { length text.now < 2 ^ 26 }
    requires network { IsNetwork asked.now.mixed.now.net }
    requires inside { All (λ line. LiesIn text.now line.span) entries.now }
    requires few { length entries.now < 2 ^ 32 - 2 }
    requires routers { start.walk.routers ≡ size_of asked.now.items (length asked.now.mixed.now.net) }
    requires start { HasReadLines asked.now.items (started_of O.table N.table asked.now.mixed.now asked.now.start.now) [] start }
    ensures read { IfOk result (λ read. MatchResult read
        (HasReadLines asked.now.items (started_of O.table N.table asked.now.mixed.now asked.now.start.now) (line_bytes text.now entries.now))
        (IsFirstWrongOf asked.now.items (started_of O.table N.table asked.now.mixed.now asked.now.start.now) (line_bytes text.now entries.now))) }
    ensures place { IfOk result (λ read. IfErr read (λ wrong. wrong.place < length entries.now)) }
{
    let mut reading = start;
    for (place, line) in entries.iter().enumerate() {
        match reading.take_line(alloc, asked, text, line.span)? {
            Ok(after) => reading = after,
            Err(kind) => {
                let place = place as u32;
                return Ok(Err(WrongLine { place, kind }));
            }
        }
    }
    Ok(Ok(reading))
}

/// The verdict on a whole tree with these counts.
fn whole_verdict(tally: Tally) -> Verdict
    ensures { IsWholeVerdict tally result }
{
    if tally.unvisited > 0 {
        Verdict::Unfinished {
            unvisited: tally.unvisited,
        }
    } else {
        Verdict::Closed {
            branches: tally.branches,
            leaves: tally.leaves,
        }
    }
}
