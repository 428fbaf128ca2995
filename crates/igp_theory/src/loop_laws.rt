ghost use Rattle.igp_theory.specs.LoopLaws.{LoopsArise, ArisingLoopsAreUnsound, FaultsBetweenSoundEndsAreLoops, LoopsBetweenSoundEndsHaveBothTags};
ghost use Rattle.igp_theory.specs.LoopLaws.{SeamlessWavesPutOldFirst, WavesAreSeamlessByLoops};
ghost use Rattle.igp_theory.specs.TimetableLaws.{LoopsAriseInWaves, RankedLoopsAriseInWaves, ReturnsInWavesAreUnsound};
ghost use Rattle.igp_theory.specs.TimetableLaws.{TimesFaultsBetweenSoundEndsAreLoops};

use crate::migration::AnyMigration;

/// The law that a loop of the network arises where every router tagged `Old` is at its start and every router
/// tagged `New` in `New`, whatever phases from the start on the others are in, and that a state in which a loop
/// arises isn't sound.
pub fn loops_arise<T: AnyMigration>()
    ensures arise { LoopsArise T.migration }
    ensures unsound { ArisingLoopsAreUnsound T.migration }
{}

/// The law that between sound ends faults are loops with a turn tagged `Old` and one tagged `New`.
///
/// The fault of an unsound state from the start on is such a loop that arises there; that of a timetable is one that
/// arises in a state of its wave. A missing step and a loop of one tag are impossible there.
pub fn faults_between_sound_ends_are_loops<T: AnyMigration>()
    ensures state { FaultsBetweenSoundEndsAreLoops T.migration }
    ensures waves { TimesFaultsBetweenSoundEndsAreLoops T.migration }
{}

/// The law of the waves in which loops arise.
///
/// A loop arises in a state of a wave exactly where each of its routers steps to the next when the wave begins or when
/// it ends. Where routers are ranked, that is where its routers tagged `New` stand in waves up to this one and its
/// routers tagged `Old` in waves from it on.
pub fn loops_arise_in_waves<T: AnyMigration>()
    ensures timed { LoopsAriseInWaves T.migration }
    ensures ranked { RankedLoopsAriseInWaves T.migration }
{}

/// The law of lists of steps over every hop that a router has in some state of a wave.
///
/// Where such a list returns to its first router some state of the wave is unsound: the list contains a
/// ring of distinct routers, and each of them keeps one phase that makes its step.
pub fn returns_in_waves_are_unsound<T: AnyMigration>()
    ensures { ReturnsInWavesAreUnsound T.migration }
{}

/// The law that loops say which wave lists are seamless.
///
/// Whatever the ends, a seamless wave list puts some router tagged `Old` of each loop with both tags in an
/// earlier wave than some router tagged `New`. Between sound ends a wave list is seamless exactly where it
/// does so for each such loop, and every loop has both tags there.
pub fn loops_say_which_waves_are_seamless<T: AnyMigration>()
    ensures both_tags { LoopsBetweenSoundEndsHaveBothTags T.migration }
    ensures seamless { SeamlessWavesPutOldFirst T.migration }
    ensures exact { WavesAreSeamlessByLoops T.migration }
{}
