ghost use Rattle.std.specs.Prelude.{◌≡◌, ◌<◌, All, IfNone, IfSome, Some, length, slice_index, true};
ghost use Rattle.std.specs.Bool.{OnTrue};
ghost use Rattle.loop_finder.specs.Mixes.{mix_of};
ghost use Rattle.loop_finder.specs.Faults.{KeepsRing};
ghost use Rattle.loop_finder.specs.Rooms.{HasRoom};
ghost use Rattle.loop_finder.specs.Subjects.{IsSubject, class_part_at};
ghost use Rattle.loop_finder.specs.steps.Verdicts.{IsClassVerdict, IsClearAt, Told, two_states};
ghost use Rattle.loop_finder.specs.steps.WaveStarts.{AreClearParts};

use crate::calm::Calm;
use crate::class_fault::class_fault;
use crate::fault::Fault;
use crate::follow::is_clear;
use crate::part::Part;
use crate::room::Room;
use crate::span::Span;
use crate::subject::Subject;
use crate::watch::Places;
use route_core::RouteSource;

/// A wave whose first state is sound, and before which wave each piece is calm.
#[derive(Clone, Copy)]
pub(crate) struct Stir<'s> {
    calm: &'s Calm,
    wave: u32,
}

/// What is known of a wave, where `begun` tells that its first state is sound.
pub(crate) fn stir_in(begun: bool, calm: &Calm, wave: u32) -> Option<Stir<'_>>
    ensures { IfSome result (λ stir. (begun ≡ true) × (stir.calm.now.before.items ≡ calm.now.before.items) × (stir.wave ≡ wave)) }
{
    if begun {
        return Some(Stir { calm, wave });
    }
    None
}

/// The fault of the steps of two states, for the first class that has one. Where they are the first and the last of a wave of
/// which this is known, the states between them are sound for the parts whose pieces are all calm in it.
pub(crate) fn classes_fault<O: RouteSource, N: RouteSource>(
    subject: &Subject<'_, O, N>,
    span: &Span<'_>,
    stir: Option<Stir<'_>>,
    room: &mut Room,
) -> Option<Fault>
    requires subject { IsSubject (mix_of O.table N.table subject.now.mixed.now) subject.now.parts.items subject.now.pieces subject.now.watch.items }
    requires span { length span.now.first.now ≡ length subject.now.mixed.now.net }
    requires stir { IfSome stir (λ known. AreClearParts (IsClearAt (mix_of O.table N.table subject.now.mixed.now) span.now.first.now span.now.last.now)
        subject.now.parts.items subject.now.pieces.made.items known.calm.now.before.items known.wave) }
    requires room { HasRoom (length subject.now.mixed.now.net) room.old }
    ensures room { HasRoom (length subject.now.mixed.now.net) room.new }
    ensures told { Told (two_states (mix_of O.table N.table subject.now.mixed.now) span.now.first.now span.now.last.now) result room.new.ring.items }
    ensures ring { KeepsRing result room.old.ring.items room.new.ring.items }
{
    for place in 0..subject.parts.len() {
        if let Some(fault) = fault_at(subject, place, span, stir, room) {
            return Some(fault);
        }
    }
    None
}

/// The fault of the steps of two states for the class of the part at a place, which is looked at whole only where it isn't known
/// that the states between them are sound for it.
fn fault_at<O: RouteSource, N: RouteSource>(
    subject: &Subject<'_, O, N>,
    place: usize,
    span: &Span<'_>,
    stir: Option<Stir<'_>>,
    room: &mut Room,
) -> Option<Fault>
    requires subject { IsSubject (mix_of O.table N.table subject.now.mixed.now) subject.now.parts.items subject.now.pieces subject.now.watch.items }
    requires place { place < length subject.now.parts.items }
    requires span { length span.now.first.now ≡ length subject.now.mixed.now.net }
    requires stir { IfSome stir (λ known. AreClearParts (IsClearAt (mix_of O.table N.table subject.now.mixed.now) span.now.first.now span.now.last.now)
        subject.now.parts.items subject.now.pieces.made.items known.calm.now.before.items known.wave) }
    requires room { HasRoom (length subject.now.mixed.now.net) room.old }
    ensures room { HasRoom (length subject.now.mixed.now.net) room.new }
    ensures clear { IfNone result (IsClearAt (mix_of O.table N.table subject.now.mixed.now) span.now.first.now span.now.last.now
        (class_part_at subject.now.parts.items place).atom) }
    ensures told { IfSome result (λ fault. IsClassVerdict (two_states (mix_of O.table N.table subject.now.mixed.now) span.now.first.now span.now.last.now)
        (class_part_at subject.now.parts.items place).atom (Some fault) room.new.ring.items) }
    ensures ring { KeepsRing result room.old.ring.items room.new.ring.items }
{
    if is_clear_at(subject, place, span, stir, room) {
        return None;
    }
    class_fault(subject.mixed, span, &subject.parts[place], room)
}

/// Whether every router moves in the part at a place, and no walk over its steps in two states returns. Of a wave of which this
/// is known it's known where all its pieces are calm in it, and is not looked at else.
fn is_clear_at<O: RouteSource, N: RouteSource>(
    subject: &Subject<'_, O, N>,
    place: usize,
    span: &Span<'_>,
    stir: Option<Stir<'_>>,
    room: &mut Room,
) -> bool
    requires subject { IsSubject (mix_of O.table N.table subject.now.mixed.now) subject.now.parts.items subject.now.pieces subject.now.watch.items }
    requires place { place < length subject.now.parts.items }
    requires span { length span.now.first.now ≡ length subject.now.mixed.now.net }
    requires stir { IfSome stir (λ known. AreClearParts (IsClearAt (mix_of O.table N.table subject.now.mixed.now) span.now.first.now span.now.last.now)
        subject.now.parts.items subject.now.pieces.made.items known.calm.now.before.items known.wave) }
    requires room { HasRoom (length subject.now.mixed.now.net) room.old }
    ensures clear { OnTrue result (IsClearAt (mix_of O.table N.table subject.now.mixed.now) span.now.first.now span.now.last.now
        (class_part_at subject.now.parts.items place).atom) }
    ensures room { HasRoom (length subject.now.mixed.now.net) room.new }
    ensures ring { room.new.ring.items ≡ room.old.ring.items }
{
    let part = &subject.parts[place];
    match stir {
        Some(known) => is_calm_in(part, &subject.pieces.made[place], known),
        None => is_clear(part, span, subject.mixed.net().routers(), room),
    }
}

/// Whether every router moves in a part, and all its pieces, at these places, are calm in a wave.
fn is_calm_in(part: &Part<'_>, places: &Places, stir: Stir<'_>) -> bool
    ensures moves { OnTrue result (part.now.moves ≡ true) }
    ensures calm { OnTrue result (All (λ p. stir.entry.wave < slice_index stir.entry.calm.now.before.items p) places.now) }
{
    part.moves() && are_calm_in(places.as_slice(), &stir.calm.before, stir.wave)
}

/// Whether the pieces at some places are calm in a wave.
fn are_calm_in(places: &[u32], before: &Vec<u32>, wave: u32) -> bool
    ensures { OnTrue result (All (λ p. wave < slice_index before.now.items p) places.now) }
{
    for place in places {
        if wave >= calm_at(before, *place as usize) {
            return false;
        }
    }
    true
}

/// The wave before which the piece at a place is calm.
fn calm_at(before: &Vec<u32>, place: usize) -> u32
    ensures { result ≡ slice_index before.now.items place }
{
    before.get(place).copied().unwrap_or(0)
}
