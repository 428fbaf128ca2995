ghost use Rattle.applied_changes.specs.AppliedTexts.{AppliedBytesLaw, AppliedTextLaw};
ghost use Rattle.applied_changes.specs.MadeChanges.{MadeLinesLaw};

/// The laws of texts with the lines of changes put before their `end` lines.
///
/// Such a text reads as the configurations of the text, each with the distances of its router's phase at each process
/// that it has, and nothing else differs; and of its bytes only those of the lines are new. The lines put in for a router in
/// a state of an order are those of its changes up to that state.
pub fn applied_laws()
    ensures applied_text { AppliedTextLaw }
    ensures applied_bytes { AppliedBytesLaw }
    ensures made_lines { MadeLinesLaw }
{}
