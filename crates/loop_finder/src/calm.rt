ghost use Rattle.std.specs.Prelude.{◌≡◌, ◌<◌, ◌≤◌, ℕ, List, [], All, IfOk, length, slice_index, slice_index_or, slice_set};
ghost use Rattle.std.specs.Bool.{OnFalse};
ghost use Rattle.igp_theory.specs.Changes.{first, second};
ghost use Rattle.igp_theory.specs.Timetables.{Timetable};
ghost use Rattle.loop_finder.specs.Calm.{AreCalm, IsCalmBefore, IsUnstirred, WaveStep};
ghost use Rattle.loop_finder.specs.steps.Calm.{AreLowered};
ghost use Rattle.loop_finder.specs.Parts.{ClassPart};
ghost use Rattle.loop_finder.specs.Returns.{NeverReturnsTo};
ghost use Rattle.loop_finder.specs.Rooms.{HasRoom};
ghost use Rattle.loop_finder.specs.Times.{times_in};
ghost use Rattle.loop_finder.specs.Watches.{ArePlacesOf, IsWatch};

use crate::graph::StepGraph;
use crate::part::Part;
use crate::pieces::Pieces;
use crate::returns::may_return;
use crate::room::Room;
use crate::times::{ChangeWaves, least_moved};
use crate::watch::Places;
use rib_mix::OutOfMemory;
use std::alloc::Global;
use std::marker::Model;

/// A wave of the timetable of so many routers.
#[derive(Drop)]
struct Wave<'s> {
    times: &'s [ChangeWaves],
    routers: u32,
    number: u32,
    ghost each: { length times.now ≡ routers },
}

/// The steps of a part in the states of a wave.
#[derive(Drop)]
struct WaveSteps<'s, 'm> {
    part: &'s Part<'m>,
    times: &'s [ChangeWaves],
    wave: u32,
    routers: u32,
}

impl<'s, 'm> Model for WaveSteps<'s, 'm> {
    ghost use Rattle.loop_finder.specs.steps.Calm.{IsWaveState, WaveState};

    ghost Value = { WaveState };

    ghost view = { λ x. record { part = x.part.now; times = x.times.now; wave = x.wave; routers = x.routers } };

    ghost invariant = { λ x. IsWaveState (record { part = x.part.now; times = x.times.now; wave = x.wave; routers = x.routers }) };
}

impl<'s, 'm> WaveSteps<'s, 'm> {
    /// The steps of a part in a wave.
    fn new(part: &'s Part<'m>, wave: &'s Wave<'s>) -> WaveSteps<'s, 'm>
        requires { length part.now.rows ≡ wave.now.routers }
        ensures { result ≡ record { part = part.now; times = wave.now.times.now; wave = wave.now.number; routers = wave.now.routers } }
    {
        WaveSteps {
            part,
            times: wave.times,
            wave: wave.number,
            routers: wave.routers,
        }
    }
}

impl<'s, 'm> StepGraph for WaveSteps<'s, 'm> {
    ghost use Rattle.loop_finder.specs.Calm.{WaveStep};
    ghost use Rattle.loop_finder.specs.Times.{times_in};

    ghost size = { λ s. s.routers };

    ghost step = { λ s. WaveStep s.part (times_in s.times) s.wave };

    fn size(&self) -> u32 {
        self.routers
    }

    #[inline(always)]
    fn hops(&self, router: u32) -> (&[u32], &[u32]) {
        let waves = self.times[router as usize];
        let begins = self.part.hops_in(router, waves.begins(self.wave));
        if !waves.changes_in(self.wave) {
            return (begins, &[]);
        }
        (begins, self.part.hops_in(router, waves.ends(self.wave)))
    }
}

/// What is known of the pieces of parts for the latest timetable.
#[derive(Drop)]
pub(crate) struct Calm {
    /// The timetable.
    pub times: Vec<ChangeWaves>,
    /// For each piece a wave of it before which it is calm.
    pub before: Vec<u32>,
    /// For each piece whether it was looked at, and nothing has changed in that wave and those before since then.
    looked: Vec<bool>,
}

impl Calm {
    /// Nothing is known of some pieces, for a timetable of so many routers.
    pub fn new(alloc: Global, pieces: &Pieces<'_>, routers: u32) -> Result<Calm, OutOfMemory>
        ensures times { IfOk result (λ calm. length calm.times.items ≡ routers) }
        ensures calm { IfOk result (λ calm. AreCalm pieces.now.all.items (times_in calm.times.items) calm.before.items) }
    {
        let once = ChangeWaves {
            first: 1,
            second: 1,
        };
        Ok(Calm {
            times: vec![in alloc; once; routers as usize]?,
            before: vec![in alloc; 1; pieces.all.len()]?,
            looked: vec![in alloc; false; pieces.all.len()]?,
        })
    }

    /// Makes what is known of some pieces hold for another timetable. In the waves before each change that moved of a
    /// piece's routers nothing changes for the piece; from there on it is looked at.
    pub fn renew(
        &mut self,
        pieces: &Pieces<'_>,
        routers: u32,
        times: &[ChangeWaves],
        room: &mut Room,
    )
        requires rows { All (λ piece. length piece.rows ≡ routers) pieces.now.all.items }
        requires watch { IsWatch pieces.now.all.items routers pieces.now.watch.items }
        requires times { length times.now ≡ routers }
        requires many { length self.old.times.items ≡ routers }
        requires calm { AreCalm pieces.now.all.items (times_in self.old.times.items) self.old.before.items }
        requires room { HasRoom routers room.old }
        ensures times { self.new.times.items ≡ times.now }
        ensures calm { AreCalm pieces.now.all.items (times_in self.new.times.items) self.new.before.items }
        ensures room { HasRoom routers room.new }
        ensures ring { room.new.ring.items ≡ room.old.ring.items }
    {
        self.take_times(pieces, times);
        self.look(pieces, routers, times, room);
    }

    /// Looks at each piece where something may have changed since it was looked at, from the first wave on in which it isn't known to
    /// be calm.
    fn look(&mut self, pieces: &Pieces<'_>, routers: u32, times: &[ChangeWaves], room: &mut Room)
        requires rows { All (λ piece. length piece.rows ≡ routers) pieces.now.all.items }
        requires times { length times.now ≡ routers }
        requires calm { AreCalm pieces.now.all.items (times_in times.now) self.old.before.items }
        requires room { HasRoom routers room.old }
        ensures times { self.new.times.items ≡ self.old.times.items }
        ensures calm { AreCalm pieces.now.all.items (times_in times.now) self.new.before.items }
        ensures room { HasRoom routers room.new }
        ensures ring { room.new.ring.items ≡ room.old.ring.items }
    {
        for place in 0..pieces.all.len() {
            if has_mark(self.looked.as_slice(), place) {
                continue;
            }
            let known = self.before[place];
            self.before[place] = calm_from(&pieces.all[place], routers, times, known, room);
        }
        self.looked.fill(true);
    }

    /// Takes the waves of another timetable.
    fn take_times(&mut self, pieces: &Pieces<'_>, times: &[ChangeWaves])
        requires watch { IsWatch pieces.now.all.items (length times.now) pieces.now.watch.items }
        requires times { length self.old.times.items ≡ length times.now }
        requires calm { AreCalm pieces.now.all.items (times_in self.old.times.items) self.old.before.items }
        ensures times { self.new.times.items ≡ times.now }
        ensures calm { AreCalm pieces.now.all.items (times_in self.new.times.items) self.new.before.items }
    {
        for router in 0..times.len() {
            self.take_waves(&pieces.watch[router], router, times[router]);
        }
    }

    /// Takes the waves of a router, which some places concern.
    fn take_waves(&mut self, places: &Places, router: usize, waves: ChangeWaves)
        requires router { router < length self.old.times.items }
        requires places { All (λ p. p < length self.old.before.items) places.now }
        ensures times { self.new.times.items ≡ slice_set self.old.times.items router waves }
        ensures calm { (parts : List ClassPart) → ArePlacesOf parts router places.now →
            AreCalm parts (times_in self.old.times.items) self.old.before.items →
            AreCalm parts (times_in self.new.times.items) self.new.before.items }
    {
        let known = self.times[router];
        if known == waves {
            return;
        }
        let most = least_moved(known, waves);
        let places = places.as_slice();
        unmark(
            places,
            most,
            self.before.as_slice(),
            self.looked.as_mut_slice(),
        );
        lower(places, most, &mut self.before);
        self.times[router] = waves;
    }
}

/// Lowers the numbers at some places that are above a number to that.
fn lower(places: &[u32], most: u32, before: &mut Vec<u32>)
    requires { All (λ p. p < length before.old.items) places.now }
    ensures { AreLowered places.now most before.old.items before.new.items }
{
    for place in places {
        let piece = *place as usize;
        before[piece] = before[piece].min(most);
    }
}

/// Whether a place is marked.
fn has_mark(marks: &[bool], place: usize) -> bool {
    marks.get(place).copied().unwrap_or(false)
}

/// Takes the marks from those of some places at which there is no lower number than this.
fn unmark(places: &[u32], most: u32, before: &[u32], marks: &mut [bool]) {
    for place in places {
        let piece = *place as usize;
        if let (Some(wave), Some(mark)) = (before.get(piece), marks.get_mut(piece)) {
            *mark &= *wave < most;
        }
    }
}

/// The first wave that isn't known to be calm for a part, from one on before which it is: that one where some router
/// may not move, else the first in which a walk over the part's steps returns to a router that makes a change in it. The
/// greatest number where there is none.
fn calm_from(
    part: &Part<'_>,
    routers: u32,
    times: &[ChangeWaves],
    known: u32,
    room: &mut Room,
) -> u32
    requires rows { length part.now.rows ≡ routers }
    requires times { length times.now ≡ routers }
    requires known { IsCalmBefore part.now (times_in times.now) known }
    requires room { HasRoom routers room.old }
    ensures calm { IsCalmBefore part.now (times_in times.now) result }
    ensures room { HasRoom routers room.new }
    ensures ring { room.new.ring.items ≡ room.old.ring.items }
{
    if !part.moves() || known == u32::MAX {
        return known;
    }
    let steppers = part.steppers();
    let mut wave = next_wave(steppers, times, known);
    while wave < u32::MAX {
        let at = Wave {
            times,
            routers,
            number: wave,
        };
        if stirs_in(part, steppers, &at, room) {
            return wave;
        }
        wave = next_wave(steppers, times, wave + 1);
    }
    wave
}

/// The first wave from one on in which one of some routers makes a change; the greatest number where there is none.
fn next_wave(steppers: &[u32], times: &[ChangeWaves], from: u32) -> u32
    requires { All (λ u. u < length times.now) steppers.now }
    ensures no_sooner { from ≤ result }
    ensures first { All (λ u. from ≤ times_in times.now (first u) → result ≤ times_in times.now (first u)) steppers.now }
    ensures second { All (λ u. from ≤ times_in times.now (second u) → result ≤ times_in times.now (second u)) steppers.now }
{
    let mut next = u32::MAX;
    for router in steppers {
        let waves = times[*router as usize];
        next = earlier_of(waves.second, from, earlier_of(waves.first, from, next));
        if next == from {
            return from;
        }
    }
    next
}

/// A wave where it's from one on and before another, else that other.
fn earlier_of(wave: u32, from: u32, next: u32) -> u32
    ensures within { result ≤ next }
    ensures no_sooner { from ≤ next → from ≤ result }
    ensures first { from ≤ wave → result ≤ wave }
{
    if wave < from { next } else { next.min(wave) }
}

/// Whether a walk over the steps of a part in a wave returns to one of some routers that makes a change in it.
fn stirs_in(part: &Part<'_>, steppers: &[u32], wave: &Wave<'_>, room: &mut Room) -> bool
    requires rows { length part.now.rows ≡ wave.now.routers }
    requires steppers { All (λ u. u < wave.now.routers) steppers.now }
    requires room { HasRoom wave.now.routers room.old }
    ensures calm { OnFalse result (All (IsUnstirred part.now (times_in wave.now.times.now) wave.now.number) steppers.now) }
    ensures room { HasRoom wave.now.routers room.new }
    ensures ring { room.new.ring.items ≡ room.old.ring.items }
{
    for router in steppers {
        if stirs(part, wave, *router, room) {
            return true;
        }
    }
    false
}

/// Whether a router makes a change in a wave, and a walk over the steps of a part in the wave returns to it.
fn stirs(part: &Part<'_>, wave: &Wave<'_>, router: u32, room: &mut Room) -> bool
    requires rows { length part.now.rows ≡ wave.now.routers }
    requires router { router < wave.now.routers }
    requires room { HasRoom wave.now.routers room.old }
    ensures never { OnFalse result (IsUnstirred part.now (times_in wave.now.times.now) wave.now.number router) }
    ensures room { HasRoom wave.now.routers room.new }
    ensures ring { room.new.ring.items ≡ room.old.ring.items }
{
    if !wave.times[router as usize].changes_in(wave.number) {
        return false;
    }
    let steps = WaveSteps::new(part, wave);
    may_return(&steps, router, &mut room.live, &mut room.path)
}

/// The least of some numbers.
pub(crate) fn least_of(numbers: &Vec<u32>) -> u32
    ensures { (k : ℕ) → k < length numbers.now.items → result ≤ slice_index numbers.now.items k }
{
    let mut least = u32::MAX;
    for number in numbers {
        least = least.min(*number);
    }
    least
}
