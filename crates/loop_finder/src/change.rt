ghost use Rattle.std.specs.Prelude.{◌≡◌, ◌<◌, IfNone, IfSome, Some, length, true};
ghost use Rattle.std.specs.Bool.{OnTrue};
ghost use Rattle.loop_finder.specs.Mixes.{mix_of};
ghost use Rattle.loop_finder.specs.Faults.{KeepsRing};
ghost use Rattle.loop_finder.specs.Parts.{IsPart, part_hops};
ghost use Rattle.loop_finder.specs.Rooms.{HasRoom};
ghost use Rattle.loop_finder.specs.Subjects.{IsSubject};
ghost use Rattle.loop_finder.specs.Watches.{ArePlacesOf};
ghost use Rattle.loop_finder.specs.steps.Verdicts.{IsClassVerdict, two_states};
ghost use Rattle.loop_finder.specs.steps.Watches.{StaysSound, StaysSoundAt, TurnsFaulty};

use crate::class_fault::class_fault;
use crate::fault::Fault;
use crate::follow::passes_part_never;
use crate::part::Part;
use crate::room::Room;
use crate::span::Span;
use crate::subject::Subject;
use rib_mix::{Mixed, Phase};
use route_core::RouteSource;

/// A change of a router: the phases that come of it, and its phase before.
#[derive(Drop)]
pub(crate) struct Turned<'s> {
    /// The phases of all routers.
    pub phases: &'s [Phase],
    /// The router.
    pub router: u32,
    /// Its phase before.
    pub was: Phase,
}

/// The fault of a state that came of a sound one by a change of a router. Looked at are the parts at the places that such a
/// change concerns, and of those in which the router's hops change only the walks through it.
pub(crate) fn turned_fault<O: RouteSource, N: RouteSource>(
    subject: &Subject<'_, O, N>,
    places: &[u32],
    turned: &Turned<'_>,
    room: &mut Room,
) -> Option<Fault>
    requires subject { IsSubject (mix_of O.table N.table subject.now.mixed.now) subject.now.parts.items subject.now.pieces subject.now.watch.items }
    requires places { ArePlacesOf subject.now.parts.items turned.now.router places.now }
    requires phases { length turned.now.phases.now ≡ length subject.now.mixed.now.net }
    requires router { turned.now.router < length subject.now.mixed.now.net }
    requires room { HasRoom (length subject.now.mixed.now.net) room.old }
    ensures room { HasRoom (length subject.now.mixed.now.net) room.new }
    ensures sound { IfNone result (StaysSound (mix_of O.table N.table subject.now.mixed.now)
        (record { phases = turned.now.phases.now; router = turned.now.router; was = turned.now.was })) }
    ensures fault { IfSome result (λ fault. TurnsFaulty (mix_of O.table N.table subject.now.mixed.now)
        (record { phases = turned.now.phases.now; router = turned.now.router; was = turned.now.was }) fault room.new.ring.items) }
    ensures ring { KeepsRing result room.old.ring.items room.new.ring.items }
{
    for place in places {
        if let Some(fault) = part_fault(
            subject.mixed,
            &subject.parts[*place as usize],
            turned,
            room,
        ) {
            return Some(fault);
        }
    }
    None
}

/// The fault of such a state for the class of a part.
fn part_fault<O: RouteSource, N: RouteSource>(
    mixed: &Mixed<'_, O, N>,
    part: &Part<'_>,
    turned: &Turned<'_>,
    room: &mut Room,
) -> Option<Fault>
    requires part { IsPart (mix_of O.table N.table mixed.now) part.now }
    requires phases { length turned.now.phases.now ≡ length mixed.now.net }
    requires router { turned.now.router < length mixed.now.net }
    requires room { HasRoom (length mixed.now.net) room.old }
    ensures room { HasRoom (length mixed.now.net) room.new }
    ensures sound { IfNone result (StaysSoundAt (mix_of O.table N.table mixed.now)
        (record { phases = turned.now.phases.now; router = turned.now.router; was = turned.now.was }) part.now.atom) }
    ensures told { IfSome result (λ fault. IsClassVerdict (two_states (mix_of O.table N.table mixed.now) turned.now.phases.now turned.now.phases.now)
        part.now.atom (Some fault) room.new.ring.items) }
    ensures ring { KeepsRing result room.old.ring.items room.new.ring.items }
{
    let router = turned.router;
    if keeps_hops(part, router, turned.was, turned.phases[router as usize]) {
        return None;
    }
    let span = Span {
        first: turned.phases,
        last: turned.phases,
    };
    if passes_part_never(part, &span, router, mixed.net().routers(), room) {
        return None;
    }
    class_fault(mixed, &span, part, room)
}

/// Whether all routers move in a part, and a router has the same hops in two phases.
fn keeps_hops(part: &Part<'_>, router: u32, was: Phase, phase: Phase) -> bool
    requires { router < length part.now.rows }
    ensures moves { OnTrue result (part.now.moves ≡ true) }
    ensures hops { OnTrue result (part_hops part.now router was ≡ part_hops part.now router phase) }
{
    part.moves() && part.hops_in(router, was) == part.hops_in(router, phase)
}
