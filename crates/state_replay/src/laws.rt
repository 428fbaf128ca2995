ghost use Rattle.state_replay.specs.ReplayLaws.{OnePlaceLaw, SomeNextLaw};

/// The laws of journals: one has reached one place, with one count of each router, and where changes that begin a run
/// leave none that may come next all are made.
pub fn replay_laws()
    ensures one_place { OnePlaceLaw }
    ensures some_next { SomeNextLaw }
{}
