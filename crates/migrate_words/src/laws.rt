ghost use Rattle.migrate_words.specs.Laws.{NumbersLaw, OneCommandLaw, PlainWordsLaw, RangesLaw};

/// The laws of the words of a call: they ask for one command, which is as its usage line has it, with a number in its range;
/// plain words are taken with just their values; and words that the command line takes ask for something unless a value of them,
/// a number, an area or a level, is off.
pub fn words_laws()
    ensures one { OneCommandLaw }
    ensures ranges { RangesLaw }
    ensures plain { PlainWordsLaw }
    ensures numbers { NumbersLaw }
{}
