ghost use Rattle.std.specs.Prelude.{◌≡◌, ◌<◌};
ghost use Rattle.observed_night.specs.Parts.{part_place, part_word};

/// What a router's configurations may differ in, besides the distances of its processes.
///
/// The first difference is told, in this order.
#[derive(Clone, Copy, Debug, PartialEq, Eq)]
pub enum Part {
    /// The name: the router stands in one of the networks alone.
    Name,
    /// The interfaces, in whatever order.
    Interfaces,
    /// The number of the OSPF process, and whether there is one.
    Process,
    /// Whether there is an IS-IS process.
    Isis,
    /// The tag of the IS-IS process.
    Tag,
    /// The IS-IS area.
    Area,
    /// The IS-IS system id.
    System,
    /// The levels of IS-IS.
    Levels,
    /// Whether level 2 routes are leaked into level 1.
    Leak,
    /// The ranges of the OSPF areas, in whatever order.
    Ranges,
    /// The stub areas, in whatever order.
    Stubs,
    /// What a range costs.
    Rfc1583,
}

impl Part {
    /// The word that tells it.
    pub fn word(self) -> &'static [u8]
        ensures { result.now ≡ part_word self }
    {
        match self {
            Part::Name => b"name",
            Part::Interfaces => b"interface",
            Part::Process => b"process",
            Part::Isis => b"isis",
            Part::Tag => b"tag",
            Part::Area => b"area",
            Part::System => b"system",
            Part::Levels => b"level",
            Part::Leak => b"leak",
            Part::Ranges => b"range",
            Part::Stubs => b"stub",
            Part::Rfc1583 => b"rfc1583",
        }
    }
}

/// How many parts there are.
pub(crate) const PART_COUNT: u8 = 12;

/// The part at a place of the order in which differences are told.
pub(crate) fn part_at(place: u8) -> Part
    requires { place < PART_COUNT }
    ensures { part_place result ≡ place }
{
    match place {
        0 => Part::Name,
        1 => Part::Interfaces,
        2 => Part::Process,
        3 => Part::Isis,
        4 => Part::Tag,
        5 => Part::Area,
        6 => Part::System,
        7 => Part::Levels,
        8 => Part::Leak,
        9 => Part::Ranges,
        10 => Part::Stubs,
        _ => Part::Rfc1583,
    }
}
