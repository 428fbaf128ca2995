ghost use Rattle.failure_texts.specs.FailureLaws.{CountsAddUp};

/// The law of the counts: each link is withstood, breaks the list, or has ends that no list helps.
pub fn failure_laws()
    ensures { CountsAddUp }
{}
