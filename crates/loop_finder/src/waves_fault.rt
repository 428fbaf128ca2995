ghost use Rattle.std.specs.Prelude.{◌≡◌, ◌+◌, ◌<◌, ◌≤◌, ◌⊎◌, ℕ, All, IfNone, IfSome, length, slice_index, true};
ghost use Rattle.std.specs.Bool.{OnTrue};
ghost use Rattle.loop_finder.specs.Mixes.{mix_of};
ghost use Rattle.loop_finder.specs.Calm.{AreCalm};
ghost use Rattle.loop_finder.specs.Faults.{KeepsRing, told, told_fault};
ghost use Rattle.loop_finder.specs.Works.{IsWork};
ghost use Rattle.loop_finder.specs.Subjects.{IsSubject};
ghost use Rattle.loop_finder.specs.Times.{times_in};
ghost use Rattle.loop_finder.specs.steps.Times.{IsInOrder};
ghost use Rattle.loop_finder.specs.steps.Verdicts.{FaultyWave, FaultyWaves, SoundWave, SoundWaves};
ghost use Rattle.loop_finder.specs.steps.WaveStarts.{BeginsSound};

use crate::calm::{Calm, least_of};
use crate::classes_fault::{classes_fault, stir_in};
use crate::fault::Fault;
use crate::part::Part;
use crate::span::Span;
use crate::subject::Subject;
use crate::times::{ChangeWaves, begin_wave, end_wave, last_wave};
use crate::work::Work;
use route_core::RouteSource;

/// The number of the first wave with an unsound state, with its fault. `begun` tells that the state in which the first wave
/// begins is sound.
///
/// `calm` tells of the latest timetable before which of its waves each piece is calm; afterwards it tells of this one.
pub(crate) fn times_fault<O: RouteSource, N: RouteSource>(
    subject: &Subject<'_, O, N>,
    begun: bool,
    times: &[ChangeWaves],
    calm: &mut Calm,
    work: &mut Work,
) -> Option<(u32, Fault)>
    requires subject { IsSubject (mix_of O.table N.table subject.now.mixed.now) subject.now.parts.items subject.now.pieces subject.now.watch.items }
    requires begun { OnTrue begun (BeginsSound (mix_of O.table N.table subject.now.mixed.now) (times_in times.now) 1) }
    requires times { length times.now ≡ length subject.now.mixed.now.net }
    requires order { IsInOrder (times_in times.now) }
    requires many { length calm.old.times.items ≡ length subject.now.mixed.now.net }
    requires calm { AreCalm subject.now.pieces.all.items (times_in calm.old.times.items) calm.old.before.items }
    requires work { IsWork (length subject.now.mixed.now.net) work.old }
    ensures many { length calm.new.times.items ≡ length subject.now.mixed.now.net }
    ensures calm { AreCalm subject.now.pieces.all.items (times_in calm.new.times.items) calm.new.before.items }
    ensures work { IsWork (length subject.now.mixed.now.net) work.new }
    ensures sound { IfNone result (SoundWaves (mix_of O.table N.table subject.now.mixed.now) (times_in times.now)) }
    ensures fault { IfSome result (λ found. FaultyWaves (mix_of O.table N.table subject.now.mixed.now) (times_in times.now) found.0
        (told_fault found.1 work.new.room.ring.items)) }
    ensures ring { KeepsRing (told result) work.old.room.ring.items work.new.room.ring.items }
{
    let routers = subject.mixed.net().routers();
    calm.renew(&subject.pieces, routers, times, &mut work.room);
    waves_fault(subject, begun, calm, work)
}

/// The same for the timetable for which `calm` tells for each piece before which wave it is calm: where the first state of a
/// wave is sound in which all pieces of a part are calm, all its states are sound for the class of the part.
fn waves_fault<O: RouteSource, N: RouteSource>(
    subject: &Subject<'_, O, N>,
    begun: bool,
    calm: &Calm,
    work: &mut Work,
) -> Option<(u32, Fault)>
    requires subject { IsSubject (mix_of O.table N.table subject.now.mixed.now) subject.now.parts.items subject.now.pieces subject.now.watch.items }
    requires begun { OnTrue begun (BeginsSound (mix_of O.table N.table subject.now.mixed.now) (times_in calm.now.times.items) 1) }
    requires times { length calm.now.times.items ≡ length subject.now.mixed.now.net }
    requires order { IsInOrder (times_in calm.now.times.items) }
    requires calm { AreCalm subject.now.pieces.all.items (times_in calm.now.times.items) calm.now.before.items }
    requires work { IsWork (length subject.now.mixed.now.net) work.old }
    ensures work { IsWork (length subject.now.mixed.now.net) work.new }
    ensures sound { IfNone result (SoundWaves (mix_of O.table N.table subject.now.mixed.now) (times_in calm.now.times.items)) }
    ensures fault { IfSome result (λ found. FaultyWaves (mix_of O.table N.table subject.now.mixed.now) (times_in calm.now.times.items)
        found.0 (told_fault found.1 work.new.room.ring.items)) }
    ensures ring { KeepsRing (told result) work.old.room.ring.items work.new.room.ring.items }
{
    let end = last_wave(&calm.times);
    let mut wave = first_stirred(&subject.parts, begun, calm);
    while wave <= end {
        let known = begins_sound(begun, wave);
        if let Some(fault) = wave_fault(subject, known, calm, wave, work) {
            return Some((wave, fault));
        }
        if wave == end {
            return None;
        }
        wave += 1;
    }
    None
}

/// Whether the state in which a wave begins is known to be sound: the wave before ends in it.
fn begins_sound(begun: bool, wave: u32) -> bool
    ensures { OnTrue result ((begun ≡ true) ⊎ (1 < wave)) }
{
    begun || wave > 1
}

/// Whether every router moves in all parts.
fn all_move(parts: &Vec<Part<'_>>) -> bool
    ensures { OnTrue result (All (λ part. part.moves ≡ true) parts.now.items) }
{
    for place in 0..parts.len() {
        if !parts[place].moves() {
            return false;
        }
    }
    true
}

/// The first wave of which it isn't known that all pieces are calm in it; where it isn't known that this tells of its states, the
/// first of all.
fn first_stirred(parts: &Vec<Part<'_>>, begun: bool, calm: &Calm) -> u32
    ensures some { 1 ≤ result }
    ensures begun { 1 < result → begun ≡ true }
    ensures moves { 1 < result → All (λ part. part.moves ≡ true) parts.now.items }
    ensures calm { 1 < result → (p : ℕ) → p < length calm.now.before.items → result ≤ slice_index calm.now.before.items p }
{
    if !begun {
        return 1;
    }
    if !all_move(parts) {
        return 1;
    }
    least_of(&calm.before).max(1)
}

/// The fault of the states of a wave. `begun` tells that the one in which it begins is sound.
fn wave_fault<O: RouteSource, N: RouteSource>(
    subject: &Subject<'_, O, N>,
    begun: bool,
    calm: &Calm,
    wave: u32,
    work: &mut Work,
) -> Option<Fault>
    requires subject { IsSubject (mix_of O.table N.table subject.now.mixed.now) subject.now.parts.items subject.now.pieces subject.now.watch.items }
    requires begun { OnTrue begun (BeginsSound (mix_of O.table N.table subject.now.mixed.now) (times_in calm.now.times.items) wave) }
    requires wave { 1 ≤ wave }
    requires times { length calm.now.times.items ≡ length subject.now.mixed.now.net }
    requires order { IsInOrder (times_in calm.now.times.items) }
    requires calm { AreCalm subject.now.pieces.all.items (times_in calm.now.times.items) calm.now.before.items }
    requires work { IsWork (length subject.now.mixed.now.net) work.old }
    ensures work { IsWork (length subject.now.mixed.now.net) work.new }
    ensures sound { IfNone result (SoundWave (mix_of O.table N.table subject.now.mixed.now) (times_in calm.now.times.items) wave) }
    ensures fault { IfSome result (λ fault. FaultyWave (mix_of O.table N.table subject.now.mixed.now) (times_in calm.now.times.items)
        wave (told_fault fault work.new.room.ring.items)) }
    ensures ring { KeepsRing result work.old.room.ring.items work.new.room.ring.items }
{
    begin_wave(&mut work.first, &calm.times, wave);
    end_wave(&mut work.last, &calm.times, wave);
    let span = Span {
        first: work.first.as_slice(),
        last: work.last.as_slice(),
    };
    let stir = stir_in(begun, calm, wave);
    classes_fault(subject, &span, stir, &mut work.room)
}

/// The fault alone, of an answer with the number of its wave.
pub(crate) fn fault_alone(found: Option<(u32, Fault)>) -> Option<Fault>
    ensures { result ≡ told found }
{
    match found {
        Some((_, fault)) => Some(fault),
        None => None,
    }
}
