ghost use Rattle.isis_writer.specs.Deltas.{DeltaLaw};
ghost use Rattle.isis_writer.specs.Prepared.{PreparedBytesLaw};
ghost use Rattle.isis_writer.specs.PreparedConfigurations.{PreparedBeforeLaw, PreparedTextLaw, PreparedTextsLaw};

/// The laws of prepared texts.
///
/// A prepared text reads as the configurations of the text, each with the IS-IS that is settled for its router and all else
/// as it was. With a line feed at its end another text may stand behind it, so that several prepared texts, one after the
/// other, read as the configurations of all of them. Up to the last `end` line every byte of the text stays, and of the
/// bytes only those of the lines before `end` lines are new.
pub fn prepared_laws()
    ensures prepared_text { PreparedTextLaw }
    ensures prepared_bytes { PreparedBytesLaw }
    ensures before_others { PreparedBeforeLaw }
    ensures prepared_texts { PreparedTextsLaw }
{}

/// The law of the new lines alone: they are those that are put before each `end` line, each configuration's behind the name of
/// its router, and nothing else is printed.
pub fn delta_law()
    ensures { DeltaLaw }
{}
