ghost use Rattle.std.specs.Prelude.{◌≡◌, ◌<◌, ◌≤◌, ◌⊎◌, ◌∷◌, [], ◌++◌, length, vec_len};
ghost use Rattle.std.specs.Vec.{vec_capacity};
ghost use Rattle.igp_theory.specs.Loops.{AroundRing};
ghost use Rattle.order_core.specs.Turns.{routers_of};
ghost use Rattle.order_core.specs.declared.turn.Turn.{Turn};
ghost use Rattle.loop_finder.specs.steps.Rings.{next_in};
ghost use Rattle.loop_finder.specs.steps.ClassSteps.{ClassStep, IsTagged, StepsBy, state_over};

use crate::class_steps::ClassSteps;
use order_core::{Tag, Turn};
use rib_mix::Phase;
use route_core::RouteSource;

/// Writes the turns of a ring: its routers with their tags.
pub(crate) fn write_ring<O: RouteSource, N: RouteSource>(
    steps: &ClassSteps<'_, '_, O, N>,
    routers: &[u32],
    ring: &mut Vec<Turn>,
)
    requires around { AroundRing (ClassStep (state_over O.table N.table steps.now)) routers.now }
    requires room { length routers.now ≤ vec_capacity ring.old }
    ensures routers { routers_of ring.new.items ≡ routers.now }
    ensures tags { AroundRing (λ (s t : Turn). IsTagged (state_over O.table N.table steps.now) s t.router) ring.new.items }
    ensures capacity { vec_capacity ring.old ≤ vec_capacity ring.new }
{
    ring.clear();
    for place in 0..routers.len() {
        let router = routers[place];
        let next = next_router(routers, place);
        let tag = tag_of(steps, router, next);
        add_turn(ring, Turn { router, tag });
    }
}

/// The router after a place of a ring.
fn next_router(routers: &[u32], place: usize) -> u32
    requires { place < length routers.now }
    ensures { result ≡ next_in routers.now place }
{
    if place + 1 < routers.len() {
        routers[place + 1]
    } else {
        routers[0]
    }
}

/// By which of its phases a router steps to the next one.
fn tag_of<O: RouteSource, N: RouteSource>(
    steps: &ClassSteps<'_, '_, O, N>,
    router: u32,
    next: u32,
) -> Tag
    requires router { router < length steps.now.mixture.net }
    requires some { StepsBy (state_over O.table N.table steps.now) router Phase.Old next
        ⊎ StepsBy (state_over O.table N.table steps.now) router Phase.New next }
    ensures { IsTagged (state_over O.table N.table steps.now) (record { router = router; tag = result }) next }
{
    let old = steps.leads(router, Phase::Old, next);
    let new = steps.leads(router, Phase::New, next);
    match (old, new) {
        (true, true) => Tag::Both,
        (true, false) => Tag::Old,
        (false, _) => Tag::New,
    }
}

/// Adds a turn for which there is room.
fn add_turn(ring: &mut Vec<Turn>, turn: Turn)
    requires { vec_len ring.old < vec_capacity ring.old }
    ensures items { ring.new.items ≡ ring.old.items ++ turn ∷ [] }
    ensures capacity { vec_capacity ring.old ≤ vec_capacity ring.new }
{
    let _ = ring.push(turn);
}
