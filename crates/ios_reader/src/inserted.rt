ghost use Rattle.ios_reader.specs.InsertedLines.{SomeConfigurationLaw, ClosedTextLaw, JoinedTextsLaw, JoinedBlocksLaw, BlockSectionsLaw, InsertedLinesLaw};

/// The laws of texts that are put together: what they are read as follows from what their parts are read as.
///
/// Each text that is read has a configuration. Texts of which the first ends with its last `end` line are read one after
/// the other. Lines put before an `end` line make of that configuration the one that its sections and, behind them, the
/// new ones give, and leave the other configurations as they are. Two such blocks of lines are one, with the sections of
/// the one and then those of the other.
pub fn inserted_laws()
    ensures some_configuration { SomeConfigurationLaw }
    ensures closed_text { ClosedTextLaw }
    ensures joined_texts { JoinedTextsLaw }
    ensures joined_blocks { JoinedBlocksLaw }
    ensures block_sections { BlockSectionsLaw }
    ensures inserted_lines { InsertedLinesLaw }
{}
