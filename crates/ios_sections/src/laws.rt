ghost use Rattle.ios_sections.specs.SectionLaws.{OpenBannerLaw, OutsideBannersLaw, EndLinesLaw, FirstMentionLaw};

/// The laws of how the lines of a text are read.
///
/// A line is outside banners exactly where behind the lines before it no banner is open. One is open behind some lines
/// exactly where one of them, outside banners, opened it, and none has held `^C` since. Its `end` lines cut a text
/// into configurations and a rest. The OSPF process of a router is
/// the one that its first line names that names one.
pub fn section_laws()
    ensures open_banner { OpenBannerLaw }
    ensures outside_banners { OutsideBannersLaw }
    ensures end_lines { EndLinesLaw }
    ensures first_mention { FirstMentionLaw }
{}
