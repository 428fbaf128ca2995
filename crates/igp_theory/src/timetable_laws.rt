ghost use Rattle.igp_theory.specs.TimetableLaws.{StatesAreThoseOfWaves, SoundWaveByWave, TimetablesHaveOneRun, RoutersSwitch};
ghost use Rattle.igp_theory.specs.TimetableLaws.{ChangesSwitch, OneSwitch, SoundSwitchesOldFirst, OldFirstIsSound};

use crate::migration::AnyMigration;

/// The law that the states of a timetable are those of its waves.
///
/// Every combination of phases of one wave, each router from the phase in which the wave begins for it up to that in
/// which it ends, is the state after some prefix of some run, and there is no other.
pub fn states_are_those_of_waves()
    ensures { StatesAreThoseOfWaves }
{}

/// The law that a migration is sound throughout exactly where every state of each of its waves is sound.
pub fn sound_wave_by_wave<T: AnyMigration>()
    ensures { SoundWaveByWave T.migration }
{}

/// The law that a timetable has one run where of no two of its changes either may stand before the other.
pub fn one_run()
    ensures { TimetablesHaveOneRun }
{}

/// The law that, where routers are ranked, a turn of a loop is switched in the wave of its router.
pub fn routers_switch<T: AnyMigration>()
    ensures { RoutersSwitch T.migration }
{}

/// The law that, where changes are ranked, a turn of a loop is switched in the wave of the change from which on its
/// router steps as in `New`; a router has one such change.
pub fn changes_switch<T: AnyMigration>()
    ensures switch { ChangesSwitch T.migration }
    ensures one { OneSwitch T.migration }
{}

/// The law that loops decide whether a migration is sound throughout.
///
/// Whatever the ends, one that is switches some turn tagged `Old` of each loop with both tags in an earlier wave than
/// some turn tagged `New`. Between sound ends one that does so for each such loop is sound throughout.
pub fn loops_decide<T: AnyMigration>()
    ensures sound { SoundSwitchesOldFirst T.migration }
    ensures enough { OldFirstIsSound T.migration }
{}
