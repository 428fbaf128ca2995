ghost use Rattle.std.specs.Prelude.{◌≡◌, ◌<◌, ◌++◌, ◌∷◌, [], All, IfOk, length, map};
ghost use Rattle.igp_theory.specs.Migrations.{listed_migration};
ghost use Rattle.net_model.specs.RouterNames.{names_of};
ghost use Rattle.printed_lines.specs.Words.{prefix_word, router_word, spaced};
ghost use Rattle.used_routes.specs.UsedRoutes.{IsOfTables, entry_at, usable_at};
ghost use Rattle.explained_texts.specs.UseWords.{action_words, phase_word, usable_words};
ghost use Rattle.explained_texts.specs.WayTexts.{IsUseLine};
ghost use Rattle.igp_theory.specs.Routes.{HasHopsBelow};

use crate::OutOfMemory;
use crate::earlier::name_of;
use net_model::Net;
use printed_lines::LineBuilder;
use rib_mix::Phase;
use route_core::{Entry, Hops, RouteSource};
use std::alloc::Global;
use used_routes::{Origin, Sources, UsedRoute};

/// The line of what a router uses for the address `a` in a phase.
pub(crate) fn use_line<O: RouteSource, N: RouteSource>(
    alloc: Global,
    sources: &Sources<'_, O, N>,
    a: u32,
    router: u32,
    phase: Phase,
) -> Result<LineBuilder, OutOfMemory>
    requires router { router < length sources.now.net.now }
    requires old { O.routers sources.now.old.now ≡ length sources.now.net.now }
    requires new { N.routers sources.now.new.now ≡ length sources.now.net.now }
    ensures { IfOk result (λ line. IsUseLine
        (listed_migration sources.now.net.now (O.table sources.now.old.now) (N.table sources.now.new.now)) a router phase
        (line ++ 10 ∷ [])) }
{
    let line = LineBuilder::start(alloc, b"at")?.word(name_of(sources.net, router))?;
    let line = line.word(phase_word(phase))?;
    match sources.used_route(router, phase, a) {
        None => line.word(b"none"),
        Some(route) => {
            let _block = route.prefix.base();
            with_route(line, sources, router, route)
        }
    }
}

/// The word for a phase.
fn phase_word(phase: Phase) -> &'static [u8]
    ensures { result.now ≡ phase_word phase }
{
    match phase {
        Phase::Old => b"old",
        Phase::Middle => b"middle",
        Phase::New => b"new",
    }
}

/// The line with a route of a router more: its prefix, its protocol, its distance, and what it does.
fn with_route<O: RouteSource, N: RouteSource>(
    line: LineBuilder,
    sources: &Sources<'_, O, N>,
    router: u32,
    route: UsedRoute,
) -> Result<LineBuilder, OutOfMemory>
    requires router { router < length sources.now.net.now }
    requires old { O.routers sources.now.old.now ≡ length sources.now.net.now }
    requires new { N.routers sources.now.new.now ≡ length sources.now.net.now }
    requires within { IsOfTables (O.table sources.now.old.now router) (N.table sources.now.new.now router) route.origin }
    ensures { IfOk result (λ longer. longer ≡ line ++ spaced (prefix_word route.prefix
        ∷ usable_words (names_of sources.now.net.now) route.distance
        (usable_at (O.table sources.now.old.now router) (N.table sources.now.new.now router) route.origin))) }
{
    let line = line.prefix(route.prefix)?;
    let distance = u64::from(route.distance);
    match route.origin {
        Origin::Connected => line.word(b"connected")?.number(distance),
        Origin::Old(place) => {
            let line = line.word(b"ospf")?.number(distance)?;
            with_entry_of(line, sources.net, sources.old, router, place)
        }
        Origin::New(place) => {
            let line = line.word(b"isis")?.number(distance)?;
            with_entry_of(line, sources.net, sources.new, router, place)
        }
    }
}

/// The line with what the entry at a place of a router's table does more.
fn with_entry_of<S: RouteSource>(
    line: LineBuilder,
    net: &Net,
    source: &S,
    router: u32,
    place: usize,
) -> Result<LineBuilder, OutOfMemory>
    requires router { router < length net.now }
    requires routers { S.routers source.now ≡ length net.now }
    requires place { place < length (S.table source.now router) }
    ensures { IfOk result (λ longer. longer ≡ line
        ++ spaced (action_words (names_of net.now) (entry_at (S.table source.now router) place))) }
{
    let _routers = source.routers();
    with_entry(line, net, source.table(router).entry(place))
}

/// The line with what an entry does more: the names of all its hops, or that it drops packets.
fn with_entry(line: LineBuilder, net: &Net, entry: &Entry) -> Result<LineBuilder, OutOfMemory>
    requires { HasHopsBelow (length net.now) entry.now }
    ensures { IfOk result (λ longer. longer ≡ line ++ spaced (action_words (names_of net.now) entry.now)) }
{
    match entry {
        Entry::Via(hops) => with_hops(line.word(b"to")?, net, hops),
        Entry::Discard => line.word(b"discard"),
    }
}

/// The line with the names of hops more.
fn with_hops(line: LineBuilder, net: &Net, hops: &Hops) -> Result<LineBuilder, OutOfMemory>
    requires { All (λ h. h < length net.now) hops.now }
    ensures { IfOk result (λ longer. longer ≡ line ++ spaced (map (router_word (names_of net.now)) hops.now)) }
{
    let mut line = line;
    for hop in hops.as_slice() {
        line = line.word(name_of(net, *hop))?;
    }
    Ok(line)
}
