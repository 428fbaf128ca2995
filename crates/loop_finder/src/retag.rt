ghost use Rattle.std.specs.Prelude.{◌≡◌, ◌<◌, ◌≤◌, ◌&&◌, ◌↔◌, ℕ, IfSome, IsTrue, length};
ghost use Rattle.std.specs.Vec.{vec_capacity};
ghost use Rattle.igp_theory.specs.Forwarding.{MustForward, Steps};
ghost use Rattle.igp_theory.specs.Loops.{AroundRing, IsTag, IsTagOf};
ghost use Rattle.igp_theory.specs.Migrations.{started};
ghost use Rattle.igp_theory.specs.Phases.{all_old, state_in};
ghost use Rattle.std.specs.Bool.{OnTrue};
ghost use Rattle.order_core.specs.Turns.{routers_of};
ghost use Rattle.order_core.specs.declared.turn.Turn.{Turn};
ghost use Rattle.prefix_atoms.specs.Classes.{IsInClass};
ghost use Rattle.rib_mix.specs.Mixture.{migration_of};
ghost use Rattle.loop_finder.specs.Faults.{KeepsRing};
ghost use Rattle.loop_finder.specs.steps.Rings.{next_in};
ghost use Rattle.loop_finder.specs.steps.Starts.{StepsEither, StepsFrom, TurnsAreTagged, TurnsStep};

use crate::class_hops::next_hops;
use crate::class_steps::is_among;
use crate::fault::Fault;
use order_core::{Tag, Turn};
use rib_mix::{Mixed, Phase};
use route_core::RouteSource;

/// Writes the tags of a ring for an address anew: by which of the phase in which it starts, and New, each router steps to the
/// next one.
fn tag_from_start<O: RouteSource, N: RouteSource>(
    mixed: &Mixed<'_, O, N>,
    start: &[Phase],
    address: u32,
    ring: &mut Vec<Turn>,
)
    requires start { length start.now ≡ length mixed.now.net }
    requires steps { AroundRing (StepsFrom (migration_of O.table N.table mixed.now) (state_in start.now) address) (routers_of ring.old.items) }
    ensures routers { routers_of ring.new.items ≡ routers_of ring.old.items }
    ensures tags { AroundRing (λ (s t : Turn). IsTag (started (state_in start.now) (migration_of O.table N.table mixed.now)) address s t.router)
        ring.new.items }
    ensures capacity { vec_capacity ring.old ≤ vec_capacity ring.new }
{
    let atom = mixed.atoms().of(address);
    for place in 0..ring.len() {
        let router = ring[place].router;
        let next = turn_after(ring, place);
        let tag = start_tag(mixed, atom, start[router as usize], router, next);
        ring[place] = Turn { router, tag };
    }
}

/// The router of the turn after a place of a ring.
fn turn_after(ring: &Vec<Turn>, place: usize) -> u32
    requires { place < length ring.now.items }
    ensures { result ≡ next_in (routers_of ring.now.items) place }
{
    if place + 1 < ring.len() {
        ring[place + 1].router
    } else {
        ring[0].router
    }
}

/// By which of a phase and New a router that has to pass a class's packets on steps to another.
fn start_tag<O: RouteSource, N: RouteSource>(
    mixed: &Mixed<'_, O, N>,
    atom: u32,
    start: Phase,
    router: u32,
    next: u32,
) -> Tag
    requires atom { atom < length mixed.now.classes.samples }
    requires router { router < length mixed.now.net }
    ensures { (a : ℕ) → IsInClass mixed.now.classes atom a → StepsEither (migration_of O.table N.table mixed.now) start a router next →
        IsTagOf result (Steps (migration_of O.table N.table mixed.now) router start a next)
        (Steps (migration_of O.table N.table mixed.now) router Phase.New a next) }
{
    let first = leads(mixed, atom, start, router, next);
    let last = leads(mixed, atom, Phase::New, router, next);
    match (first, last) {
        (true, true) => Tag::Both,
        (true, false) => Tag::Old,
        (false, _) => Tag::New,
    }
}

/// Whether a router that has to pass a class's packets on steps to another in a phase.
fn leads<O: RouteSource, N: RouteSource>(
    mixed: &Mixed<'_, O, N>,
    atom: u32,
    phase: Phase,
    router: u32,
    next: u32,
) -> bool
    requires atom { atom < length mixed.now.classes.samples }
    requires router { router < length mixed.now.net }
    ensures { (a : ℕ) → IsInClass mixed.now.classes atom a → MustForward mixed.now.net a router →
        IsTrue result ↔ Steps (migration_of O.table N.table mixed.now) router phase a next }
{
    is_among(next_hops(mixed, atom, phase, router), next)
}

/// Writes the tags of a loop that was found anew, where there is one.
pub(crate) fn tag_found<O: RouteSource, N: RouteSource>(
    mixed: &Mixed<'_, O, N>,
    start: &[Phase],
    found: Option<Fault>,
    ring: &mut Vec<Turn>,
)
    requires start { length start.now ≡ length mixed.now.net }
    requires steps { IfSome found (λ fault. TurnsStep (migration_of O.table N.table mixed.now) (state_in start.now) fault ring.old.items) }
    ensures routers { routers_of ring.new.items ≡ routers_of ring.old.items }
    ensures tags { IfSome found (λ fault. TurnsAreTagged (started (state_in start.now) (migration_of O.table N.table mixed.now)) fault ring.new.items) }
    ensures ring { KeepsRing found ring.old.items ring.new.items }
    ensures capacity { vec_capacity ring.old ≤ vec_capacity ring.new }
{
    if let Some(Fault::Loop { address }) = found {
        tag_from_start(mixed, start, address, ring);
    }
}

/// Whether every router is in its old phase.
pub(crate) fn is_all_old(phases: &[Phase]) -> bool
    ensures { OnTrue result (state_in phases.now ≡ all_old) }
{
    for phase in phases {
        if *phase != Phase::Old {
            return false;
        }
    }
    true
}

/// Whether the state in which every router is in its old phase is known to be sound: where it's the start, and the start is.
pub(crate) fn is_old_begun(begun: bool, from_old: bool) -> bool
    ensures { result ≡ begun && from_old }
{
    begun && from_old
}
