ghost use Rattle.ios_lines.specs.HeadLaws.{HeadLaw};
ghost use Rattle.ios_lines.specs.NumberLaws.{AddressWordLaw, MaskWordLaw, NumberWordLaw};
ghost use Rattle.ios_lines.specs.TitleLaws.{TitleWordLaw};

/// The law of the title of a `net` line: a word has one exactly where it is two hexadecimal digits and at most six
/// groups, three groups, and `.00`; a group is a dot and four hexadecimal digits.
pub fn title_law()
    ensures { TitleWordLaw }
{}

/// The law of the lines at indent 0: the table of the forms of those that say something.
pub fn head_law()
    ensures { HeadLaw }
{}

/// The laws of numbers, addresses and masks: a word of a configuration stands for one exactly where it does so in every
/// other text, by the definitions of `net_addr`.
pub fn number_laws()
    ensures numbers { NumberWordLaw }
    ensures addresses { AddressWordLaw }
    ensures masks { MaskWordLaw }
{}
