ghost use Rattle.observed_night.specs.ObservedLaws.{AlikeLaw, AstrayLaw, JournalLaw, OneObservedLaw, OnePhaseLaw};

/// The laws of what is observed: one thing is; a journal that is printed reaches the state that is told, which the distances show;
/// and where a router is told whose changes can't be, no run leads to what they show.
pub fn observed_laws()
    ensures one { OneObservedLaw }
    ensures journal { JournalLaw }
    ensures astray { AstrayLaw }
    ensures alike { AlikeLaw }
    ensures one_phase { OnePhaseLaw }
{}
