ghost use Rattle.migrate_cli.specs.AnswerLaws.{OneAnswerLaw, OneOutcomeLaw};

/// The laws of the answers of a call: texts come to one outcome, and a call has one answer, where the files that the answer
/// asks for are told.
pub fn one_answer()
    ensures outcome { OneOutcomeLaw }
    ensures answer { OneAnswerLaw }
{}
