ghost use Rattle.std.specs.Prelude.{◌≡◌, ◌<◌, ◌≤◌, ◌↔◌, ℕ, length};
ghost use Rattle.std.specs.Bool.{OnFalse, OnTrue};
ghost use Rattle.std.specs.Vec.{vec_capacity};
ghost use Rattle.net_model.specs.Network.{Connected};
ghost use Rattle.prefix_atoms.specs.Classes.{HasTarget};
ghost use Rattle.order_core.specs.Marks.{IsMarked};
ghost use Rattle.loop_finder.specs.Faults.{KeepsRing};
ghost use Rattle.loop_finder.specs.Rooms.{HasRoom};
ghost use Rattle.loop_finder.specs.Mixes.{mix_of, sample_of};
ghost use Rattle.loop_finder.specs.Parts.{IsPart};
ghost use Rattle.loop_finder.specs.steps.ClassSteps.{AreForwarders, state_over};
ghost use Rattle.loop_finder.specs.steps.Verdicts.{IsClassVerdict, Verdict, two_states};

use crate::class_hops::class_target;
use crate::class_steps::ClassSteps;
use crate::fault::Fault;
use crate::part::Part;
use crate::ring::find_ring;
use crate::room::Room;
use crate::span::Span;
use crate::tags::write_ring;
use net_addr::Prefix;
use order_core::Turn;
use rib_mix::Mixed;
use route_core::RouteSource;

/// The fault of the steps of two states for the class of a part, at the class's least address.
pub(crate) fn class_fault<O: RouteSource, N: RouteSource>(
    mixed: &Mixed<'_, O, N>,
    span: &Span<'_>,
    part: &Part<'_>,
    room: &mut Room,
) -> Option<Fault>
    requires part { IsPart (mix_of O.table N.table mixed.now) part.now }
    requires span { length span.now.first.now ≡ length mixed.now.net }
    requires room { HasRoom (length mixed.now.net) room.old }
    ensures room { HasRoom (length mixed.now.net) room.new }
    ensures told { IsClassVerdict (two_states (mix_of O.table N.table mixed.now) span.now.first.now span.now.last.now) part.now.atom result
        room.new.ring.items }
    ensures ring { KeepsRing result room.old.ring.items room.new.ring.items }
{
    let atom = part.atom();
    if !mark_class(mixed, atom, &mut room.forwards) {
        return None;
    }
    let steps = ClassSteps::new(mixed, span, room.forwards.as_slice(), part);
    steps_fault(
        &steps,
        mixed.atoms().sample(atom),
        &mut room.live,
        &mut room.path,
        &mut room.ring,
    )
}

/// Marks the routers that have to pass packets for a class on; false where its addresses have no target.
fn mark_class<O: RouteSource, N: RouteSource>(
    mixed: &Mixed<'_, O, N>,
    atom: u32,
    forwards: &mut [bool],
) -> bool
    requires atom { atom < length mixed.now.classes.samples }
    requires many { length forwards.old ≡ length mixed.now.net }
    ensures forwarders { OnTrue result (AreForwarders mixed.now.net (sample_of mixed.now.classes atom) forwards.new) }
    ensures none { OnFalse result (HasTarget mixed.now.net (sample_of mixed.now.classes atom) None) }
{
    match class_target(mixed, atom) {
        Some(target) => {
            let routers = mixed.net().routers();
            mark_forwarders(mixed, routers, target, forwards);
            true
        }
        None => false,
    }
}

/// Marks the routers at which a prefix isn't connected.
fn mark_forwarders<O: RouteSource, N: RouteSource>(
    mixed: &Mixed<'_, O, N>,
    routers: u32,
    target: Prefix,
    forwards: &mut [bool],
)
    requires routers { routers ≡ length mixed.now.net }
    requires many { length forwards.old ≡ routers }
    ensures { (u : ℕ) → IsMarked forwards.new u ↔ ((u < routers) × ¬ Connected mixed.now.net u target) }
{
    for router in 0..routers {
        forwards[router as usize] = !mixed.originates(router, target);
    }
}

/// The fault of some steps, at the least address of their class.
fn steps_fault<O: RouteSource, N: RouteSource>(
    steps: &ClassSteps<'_, '_, O, N>,
    address: u32,
    live: &mut [bool],
    path: &mut Vec<u32>,
    ring: &mut Vec<Turn>,
) -> Option<Fault>
    requires address { address ≡ sample_of steps.now.mixture.classes steps.now.atom }
    requires live { length live.old ≡ length steps.now.mixture.net }
    requires path { length steps.now.mixture.net ≤ vec_capacity path.old }
    requires ring { length steps.now.mixture.net ≤ vec_capacity ring.old }
    ensures path { vec_capacity path.old ≤ vec_capacity path.new }
    ensures capacity { vec_capacity ring.old ≤ vec_capacity ring.new }
    ensures verdict { Verdict (state_over O.table N.table steps.now) result ring.new.items }
    ensures ring { KeepsRing result ring.old.items ring.new.items }
{
    if let Some(router) = steps.first_stuck() {
        return Some(Fault::Missing { address, router });
    }
    if !find_ring(steps, live, path) {
        return None;
    }
    write_ring(steps, path.as_slice(), ring);
    Some(Fault::Loop { address })
}
