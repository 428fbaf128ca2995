ghost use Rattle.std.specs.Prelude.{◌≡◌, ◌*◌, ◌<◌, ◌≤◌, ◌↔◌, ℕ, List, ◌∷◌, [], All, Contains, IfOk, IsTrue, MatchBool, length};
ghost use Rattle.std.specs.Vec.{vec_capacity};
ghost use Rattle.order_core.specs.declared.turn.Tag.{Tag};
ghost use Rattle.order_core.specs.declared.turn.Turn.{Turn};
ghost use Rattle.igp_theory.specs.Forwarding.{MustForward};
ghost use Rattle.igp_theory.specs.Migrations.{started};
ghost use Rattle.igp_theory.specs.Phases.{State};
ghost use Rattle.igp_theory.specs.TimetableLaws.{MiddleStepsAs};
ghost use Rattle.prefix_atoms.specs.Classes.{IsInClass};
ghost use Rattle.rib_mix.specs.Answers.{NextLeadsTo};
ghost use Rattle.rib_mix.specs.Mixture.{migration_of};
ghost use Rattle.plan_theory.specs.Ranked.{base_of, ranked, size_of};
ghost use Rattle.plan_theory.specs.Numbers.{AreNumbered, ForwardAlike, turn_of};

use crate::items::Items;
use igp_theory::Phase;
use order_core::Turn;
use rib_mix::{Mixed, Next, OutOfMemory};
use route_core::RouteSource;
use std::alloc::Global;

/// How many numbers there are where so many routers are.
pub fn number_count(items: Items, routers: u32) -> u32
    requires { routers ≤ 1000 }
    ensures { result ≡ size_of items routers }
{
    match items {
        Items::Routers => routers,
        Items::Changes => 2 * routers,
    }
}

/// The pairs that every ranking keeps: of changes each router's first before its second.
pub fn base_pairs(alloc: Global, items: Items, routers: u32) -> Result<Vec<(u32, u32)>, OutOfMemory>
    requires { routers ≤ 1000 }
    ensures { IfOk result (λ pairs. pairs.items ≡ base_of items routers) }
{
    match items {
        Items::Routers => Ok(Vec::new(alloc)),
        Items::Changes => change_pairs(alloc, routers),
    }
}

/// Each router's first change before its second.
fn change_pairs(alloc: Global, routers: u32) -> Result<Vec<(u32, u32)>, OutOfMemory>
    requires { routers ≤ 1000 }
    ensures { IfOk result (λ pairs. pairs.items ≡ base_of Items.Changes routers) }
{
    let mut pairs = Vec::new(alloc);
    for router in 0..routers {
        pairs.push((router + router, router + router + 1))?;
    }
    Ok(pairs)
}

/// The number that a turn of a router has to name for the addresses of a class, wherever the routers start.
fn number_at<O: RouteSource, N: RouteSource>(
    items: Items,
    mixed: &Mixed<'_, O, N>,
    atom: u32,
    router: u32,
) -> u32
    requires few { length mixed.now.net ≤ 1000 }
    requires router { router < length mixed.now.net }
    requires atom { atom < length mixed.now.classes.samples }
    ensures names { (start : State) (a : ℕ) (tag : Tag) → IsInClass mixed.now.classes atom a → MustForward mixed.now.net a router
        → (ranked items (started start (migration_of O.table N.table mixed.now))).names a (turn_of result tag) }
    ensures router { (start : State) (tag : Tag)
        → (ranked items (started start (migration_of O.table N.table mixed.now))).ring (turn_of result tag ∷ []) ≡ turn_of router tag ∷ [] }
    ensures below { result < size_of items (length mixed.now.net) }
{
    match items {
        Items::Routers => router,
        Items::Changes => {
            if middle_is_new(mixed, atom, router) {
                router + router
            } else {
                router + router + 1
            }
        }
    }
}

/// The turns of a ring by the numbers that they have to name for an address, in room for them.
pub fn number_turns<O: RouteSource, N: RouteSource>(
    items: Items,
    mixed: &Mixed<'_, O, N>,
    address: u32,
    turns: &[Turn],
    numbered: &mut Vec<Turn>,
)
    requires few { length mixed.now.net ≤ 1000 }
    requires must { All (λ (turn : Turn). MustForward mixed.now.net address turn.router) turns.now }
    requires room { length turns.now ≤ vec_capacity numbered.old }
    ensures numbered { (start : State)
        → AreNumbered items (started start (migration_of O.table N.table mixed.now)) address turns.now numbered.new.items }
    ensures below { All (λ turn. turn.router < size_of items (length mixed.now.net)) numbered.new.items }
    ensures capacity { vec_capacity numbered.old ≤ vec_capacity numbered.new }
{
    let atom = mixed.atoms().of(address);
    numbered.clear();
    for turn in turns {
        let router = number_at(items, mixed, atom, turn.router);
        numbered.push_reserved(Turn {
            router,
            tag: turn.tag,
        });
    }
}

/// Whether a router in `Middle` steps as in `New` for the addresses of a class; else it steps as in `Old`.
fn middle_is_new<O: RouteSource, N: RouteSource>(
    mixed: &Mixed<'_, O, N>,
    atom: u32,
    router: u32,
) -> bool
    requires router { router < length mixed.now.net }
    requires atom { atom < length mixed.now.classes.samples }
    ensures { (start : State) (a : ℕ) → IsInClass mixed.now.classes atom a → MustForward mixed.now.net a router → MatchBool result
        (MiddleStepsAs (started start (migration_of O.table N.table mixed.now)) router a Phase.New)
        (MiddleStepsAs (started start (migration_of O.table N.table mixed.now)) router a Phase.Old
        × (MiddleStepsAs (started start (migration_of O.table N.table mixed.now)) router a Phase.New → ⊥)) }
{
    let middle = mixed.hops(router, atom, Phase::Middle);
    let new = mixed.hops(router, atom, Phase::New);
    lead_alike(middle, new)
}

/// Whether two answers forward to the same routers.
fn lead_alike(one: Next<'_>, other: Next<'_>) -> bool
    ensures { IsTrue result ↔ ForwardAlike one.entry other.entry }
{
    let left = hops_of(one);
    let right = hops_of(other);
    has_all(left, right) && has_all(right, left)
}

/// The routers that an answer forwards to.
fn hops_of<'a>(next: Next<'a>) -> &'a [u32]
    ensures { (h : ℕ) → Contains result.now h ↔ NextLeadsTo next.entry h }
{
    match next {
        Next::Via(hops) => hops.as_slice(),
        Next::Discard | Next::Connected | Next::Absent => &[],
    }
}

/// Whether some routers have each of others.
fn has_all(routers: &[u32], others: &[u32]) -> bool
    ensures { IsTrue result ↔ ((h : ℕ) → Contains others.now h → Contains routers.now h) }
{
    for other in others {
        if !has(routers, *other) {
            return false;
        }
    }
    true
}

/// Whether a router is among some.
fn has(routers: &[u32], router: u32) -> bool
    ensures { IsTrue result ↔ Contains routers.now router }
{
    routers.contains(&router)
}
