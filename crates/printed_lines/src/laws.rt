ghost use Rattle.printed_lines.specs.ReadBack.{AddressesReadBack, LineReadsBack, LinesReadBack, NumbersReadBack, TextsReadBack, WordsMakeLines, WordsReadBack};

/// The laws that what is printed reads back.
///
/// The readers are those of `net_addr`: a text that is printed has just the printed lines, a line just the printed
/// words, and a word in decimal or dotted decimal stands for just the printed number or address.
pub fn printed_laws()
    ensures lines { LinesReadBack }
    ensures line { LineReadsBack }
    ensures words { WordsReadBack }
    ensures lines_of_words { WordsMakeLines }
    ensures texts { TextsReadBack }
    ensures numbers { NumbersReadBack }
    ensures addresses { AddressesReadBack }
{}
