ghost use Rattle.live_replan.specs.RestLaws.{RestWavesLaw};

/// The law of printed rests: where the routers that are New stand in the first wave beside another one, and no chain of two or more
/// has one of them, each other router is named in one wave, no wave is empty, and the chain has one of each.
pub fn rest_laws()
    ensures { RestWavesLaw }
{}
