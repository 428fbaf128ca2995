ghost use Rattle.step_scripts.specs.ScriptLaws.{ScriptCommentsLaw, ScriptFrontLaw};

/// The laws of scripts: one begins with the parts for the first changes of its flat run, and the lines of these parts,
/// comments apart, are those that make these changes; and its k-th comment of a change has the number k and the name of
/// the router of the k-th change.
pub fn script_laws()
    ensures front { ScriptFrontLaw }
    ensures comments { ScriptCommentsLaw }
{}
