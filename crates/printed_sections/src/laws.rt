ghost use Rattle.printed_sections.specs.PrintedSections.{SectionsReadBack};

/// The law that printed sections read back.
pub fn sections_read_back()
    ensures { SectionsReadBack }
{}
