ghost use Rattle.std.specs.Prelude.{◌≡◌};
ghost use Rattle.isis_routes.specs.steps.Levels.{zone_number};

use crate::level_walks::{ZONE_ONE, ZONE_TWO};

/// A level of IS-IS (RFC 1195).
#[derive(Clone, Copy, Debug)]
pub(crate) enum Level {
    /// Level 1, inside an area.
    One,
    /// Level 2, between areas.
    Two,
}

impl Level {
    /// The number of the level among the zones of routes.
    pub fn zone(self) -> usize
        ensures { result ≡ zone_number self }
    {
        match self {
            Level::One => ZONE_ONE,
            Level::Two => ZONE_TWO,
        }
    }
}
