ghost use Rattle.ios_reader.specs.AreaLaws.{LastRangesLaw, LastStubLinesLaw};
ghost use Rattle.ios_reader.specs.FaultyLines.{FirstFaultyLineLaw};
ghost use Rattle.ios_reader.specs.ReadLaws.{OneReadingLaw, ReadOrRefusedLaw, OneReadRefusalLaw, SomeAnswerLaw};

/// The laws of `read_configs`: each text is read or refused, not both, and in one way.
pub fn read_laws()
    ensures one_reading { OneReadingLaw }
    ensures read_or_refused { ReadOrRefusedLaw }
    ensures one_refusal { OneReadRefusalLaw }
    ensures some_answer { SomeAnswerLaw }
{}

/// The law of `read_or_faults`: the first faulty line that it tells of a text is the one that `read_configs` refuses.
pub fn faulty_lines_law()
    ensures { FirstFaultyLineLaw }
{}

/// The laws of the ranges and stub areas of an OSPF process: of each area and prefix there is the range of the last line
/// that gives one, and no other; of each area the last stub line.
pub fn area_laws()
    ensures ranges { LastRangesLaw }
    ensures stubs { LastStubLinesLaw }
{}
