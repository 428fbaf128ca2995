ghost use Rattle.std.specs.Prelude.{◌↔◌, IsTrue, MatchOption};
ghost use Rattle.observed_night.specs.Parts.{AreAlikeButDistances, AreAlikeIn, DifferFirstIn};

use crate::Part;
use crate::items::have_same_items;
use crate::part::{PART_COUNT, part_at};
use net_model::Config;

/// The first part that two configurations differ in.
pub(crate) fn first_part(one: &Config, other: &Config) -> Option<Part>
    ensures { MatchOption result (AreAlikeButDistances one.now other.now) (DifferFirstIn one.now other.now) }
{
    for place in 0..PART_COUNT {
        let part = part_at(place);
        if !is_alike_in(part, one, other) {
            return Some(part);
        }
    }
    None
}

/// Whether two configurations are alike in a part.
fn is_alike_in(part: Part, one: &Config, other: &Config) -> bool
    ensures { IsTrue result ↔ AreAlikeIn part one.now other.now }
{
    match part {
        Part::Name => one.name == other.name,
        Part::Interfaces => have_same_items(one.interfaces.as_slice(), other.interfaces.as_slice()),
        Part::Process => one.process == other.process,
        Part::Isis => one.isis == other.isis,
        Part::Tag => one.tag == other.tag,
        Part::Area => one.isis_area == other.isis_area,
        Part::System => one.system == other.system,
        Part::Levels => one.levels == other.levels,
        Part::Leak => one.leak == other.leak,
        Part::Ranges => have_same_items(one.ranges.as_slice(), other.ranges.as_slice()),
        Part::Stubs => have_same_items(one.stubs.as_slice(), other.stubs.as_slice()),
        Part::Rfc1583 => one.rfc1583 == other.rfc1583,
    }
}
