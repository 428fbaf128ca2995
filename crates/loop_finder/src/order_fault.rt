ghost use Rattle.std.specs.Prelude.{◌≡◌, ◌+◌, ◌*◌, ◌≤◌, ◌<◌, ℕ, Contains, IfNone, IfSome, length};
ghost use Rattle.std.specs.Bool.{OnTrue};
ghost use Rattle.order_core.specs.Orders.{IsOrder};
ghost use Rattle.loop_finder.specs.Mixes.{mix_of};
ghost use Rattle.loop_finder.specs.Faults.{KeepsRing, told, told_fault};
ghost use Rattle.igp_theory.specs.Phases.{all_old, state_in};
ghost use Rattle.igp_theory.specs.States.{state_of};
ghost use Rattle.loop_finder.specs.Orders.{AreFirstStates};
ghost use Rattle.loop_finder.specs.Rooms.{HasRoom};
ghost use Rattle.loop_finder.specs.Works.{IsWork};
ghost use Rattle.loop_finder.specs.Soundness.{Sound};
ghost use Rattle.loop_finder.specs.Subjects.{IsSubject};
ghost use Rattle.loop_finder.specs.steps.Orders.{IsAdvanced, IsOrderState, next_phase};
ghost use Rattle.loop_finder.specs.steps.Verdicts.{Faulty, FirstFaulty};

use crate::change::{Turned, turned_fault};
use crate::classes_fault::classes_fault;
use crate::fault::Fault;
use crate::room::Room;
use crate::span::Span;
use crate::subject::Subject;
use crate::work::Work;
use rib_mix::Phase;
use route_core::RouteSource;

/// The fault of a state.
pub(crate) fn state_fault<O: RouteSource, N: RouteSource>(
    subject: &Subject<'_, O, N>,
    phases: &[Phase],
    room: &mut Room,
) -> Option<Fault>
    requires subject { IsSubject (mix_of O.table N.table subject.now.mixed.now) subject.now.parts.items subject.now.pieces subject.now.watch.items }
    requires phases { length phases.now ≡ length subject.now.mixed.now.net }
    requires room { HasRoom (length subject.now.mixed.now.net) room.old }
    ensures room { HasRoom (length subject.now.mixed.now.net) room.new }
    ensures sound { IfNone result (Sound (mix_of O.table N.table subject.now.mixed.now) (state_in phases.now)) }
    ensures fault { IfSome result (λ fault.
        Faulty (mix_of O.table N.table subject.now.mixed.now) (state_in phases.now) fault room.new.ring.items) }
    ensures ring { KeepsRing result room.old.ring.items room.new.ring.items }
{
    let span = Span {
        first: phases,
        last: phases,
    };
    classes_fault(subject, &span, None, room)
}

/// The first unsound state of an order, with its fault. `known` tells how many states are known to be sound from the first on.
///
/// After a change only the walks through the changed router are followed, since the state before was sound.
pub(crate) fn order_fault<O: RouteSource, N: RouteSource>(
    subject: &Subject<'_, O, N>,
    begun: bool,
    known: usize,
    order: &[u32],
    work: &mut Work,
) -> Option<(u32, Fault)>
    requires subject { IsSubject (mix_of O.table N.table subject.now.mixed.now) subject.now.parts.items subject.now.pieces subject.now.watch.items }
    requires begun { OnTrue begun (Sound (mix_of O.table N.table subject.now.mixed.now) all_old) }
    requires known { AreFirstStates (Sound (mix_of O.table N.table subject.now.mixed.now)) order.now known }
    requires order { IsOrder (length subject.now.mixed.now.net) order.now }
    requires work { IsWork (length subject.now.mixed.now.net) work.old }
    ensures work { IsWork (length subject.now.mixed.now.net) work.new }
    ensures sound { IfNone result (AreFirstStates (Sound (mix_of O.table N.table subject.now.mixed.now)) order.now (2 * length order.now + 1)) }
    ensures within { IfSome result (λ found. found.0 ≤ 2 * length order.now) }
    ensures fault { IfSome result (λ found. FirstFaulty (mix_of O.table N.table subject.now.mixed.now) order.now found.0
        (told_fault found.1 work.new.room.ring.items)) }
    ensures ring { KeepsRing (told result) work.old.room.ring.items work.new.room.ring.items }
{
    begin(&mut work.first);
    if let Some(fault) = begin_fault(subject, begun, work) {
        return Some((0, fault));
    }
    for k in 0..2 * subject.mixed.net().routers() {
        if let Some(fault) = change_fault(subject, known, order, k, work) {
            return Some((k + 1, fault));
        }
    }
    None
}

/// The fault of the first state, where that isn't known to be sound.
fn begin_fault<O: RouteSource, N: RouteSource>(
    subject: &Subject<'_, O, N>,
    begun: bool,
    work: &mut Work,
) -> Option<Fault>
    requires subject { IsSubject (mix_of O.table N.table subject.now.mixed.now) subject.now.parts.items subject.now.pieces subject.now.watch.items }
    requires begun { OnTrue begun (Sound (mix_of O.table N.table subject.now.mixed.now) all_old) }
    requires phases { (u : ℕ) → state_in work.old.first.items u ≡ Phase.Old }
    requires work { IsWork (length subject.now.mixed.now.net) work.old }
    ensures work { IsWork (length subject.now.mixed.now.net) work.new }
    ensures first { work.new.first.items ≡ work.old.first.items }
    ensures sound { IfNone result (Sound (mix_of O.table N.table subject.now.mixed.now) all_old) }
    ensures fault { IfSome result (λ fault. Faulty (mix_of O.table N.table subject.now.mixed.now) all_old fault work.new.room.ring.items) }
    ensures ring { KeepsRing result work.old.room.ring.items work.new.room.ring.items }
{
    if begun {
        return None;
    }
    state_fault(subject, work.first.as_slice(), &mut work.room)
}

/// Makes a change of an order after a sound state; the fault of the state that comes of it, where that isn't known to be
/// sound.
fn change_fault<O: RouteSource, N: RouteSource>(
    subject: &Subject<'_, O, N>,
    known: usize,
    order: &[u32],
    k: u32,
    work: &mut Work,
) -> Option<Fault>
    requires subject { IsSubject (mix_of O.table N.table subject.now.mixed.now) subject.now.parts.items subject.now.pieces subject.now.watch.items }
    requires known { AreFirstStates (Sound (mix_of O.table N.table subject.now.mixed.now)) order.now known }
    requires routers { (u : ℕ) → Contains order.now u → u < length subject.now.mixed.now.net }
    requires k { k < 2 * length order.now }
    requires state { IsOrderState work.old.first.items order.now k }
    requires before { Sound (mix_of O.table N.table subject.now.mixed.now) (state_of order.now k) }
    requires work { IsWork (length subject.now.mixed.now.net) work.old }
    ensures state { IsOrderState work.new.first.items order.now (k + 1) }
    ensures work { IsWork (length subject.now.mixed.now.net) work.new }
    ensures sound { IfNone result (Sound (mix_of O.table N.table subject.now.mixed.now) (state_of order.now (k + 1))) }
    ensures fault { IfSome result (λ fault.
        Faulty (mix_of O.table N.table subject.now.mixed.now) (state_of order.now (k + 1)) fault work.new.room.ring.items) }
    ensures ring { KeepsRing result work.old.room.ring.items work.new.room.ring.items }
{
    let router = order[k as usize / 2];
    let was = advance(&mut work.first, router);
    if is_known(k, known) {
        return None;
    }
    let turned = Turned {
        phases: work.first.as_slice(),
        router,
        was,
    };
    let places = subject.watch[router as usize].as_slice();
    turned_fault(subject, places, &turned, &mut work.room)
}

/// Whether the state that comes of a change is among the first ones, so many of them.
fn is_known(k: u32, known: usize) -> bool
    ensures { OnTrue result (k + 1 < known) }
{
    (k as usize) + 1 < known
}

/// Every router is in its old phase.
fn begin(phases: &mut Vec<Phase>)
    ensures phases { (u : ℕ) → state_in phases.new.items u ≡ Phase.Old }
    ensures many { length phases.new.items ≡ length phases.old.items }
{
    for router in 0..phases.len() {
        phases[router] = Phase::Old;
    }
}

/// Makes the next change of a router, and tells its phase before.
fn advance(phases: &mut Vec<Phase>, router: u32) -> Phase
    requires { router < length phases.old.items }
    ensures state { IsAdvanced phases.old.items phases.new.items router }
    ensures was { state_in phases.old.items router ≡ result }
    ensures many { length phases.new.items ≡ length phases.old.items }
{
    let was = phases[router as usize];
    phases[router as usize] = next_phase(was);
    was
}

/// The phase after the next change.
fn next_phase(phase: Phase) -> Phase
    ensures { result ≡ next_phase phase }
{
    match phase {
        Phase::Old => Phase::Middle,
        Phase::Middle | Phase::New => Phase::New,
    }
}
