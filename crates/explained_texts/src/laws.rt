ghost use Rattle.explained_texts.specs.TextLaws.{FirstFaultsStandInTheirState, HasOneReasonsText, HasOneWayText};
ghost use Rattle.explained_texts.specs.TextLaws.{WaveFaultsStandInTheirWave, WaysOfOrdersAreInOneState, WaysOfWavesAreInOneState};

use igp_theory::AnyMigration;

/// The laws of these texts: there is one of each (`reasons`, `way`), and what is asked of a fault so that its way can be told
/// holds of the first fault of an order (`of_order`) and of the fault of a timetable, and so of a wave list (`of_waves`).
pub fn texts_are_one<T: AnyMigration>()
    ensures reasons { HasOneReasonsText T.migration }
    ensures way { HasOneWayText T.migration }
    ensures of_order { FirstFaultsStandInTheirState T.migration }
    ensures of_waves { WaveFaultsStandInTheirWave T.migration }
{}

/// The laws that what is told of a fault is so in one state: of an order in that in which it was found, of a timetable in one of
/// those of its wave.
pub fn ways_are_in_one_state<T: AnyMigration>()
    ensures of_order { WaysOfOrdersAreInOneState T.migration }
    ensures of_waves { WaysOfWavesAreInOneState T.migration }
{}
