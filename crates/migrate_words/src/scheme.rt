ghost use Rattle.std.specs.Prelude.{◌≡◌};
ghost use Rattle.migrate_words.specs.Schemes.{scheme_of};

use net_model::Levels;
use std::marker::Model;

/// The area of a design for which a call names none.
pub const USUAL_AREA: &str = "49.0001";

/// The levels of a design for which a call names none.
pub const USUAL_LEVELS: Levels = Levels::Two;

/// What a design is asked to say of every router: its IS-IS area, and the levels that it runs.
#[derive(Debug, Drop)]
pub struct Scheme<'a> {
    area: &'a str,
    levels: Levels,
}

impl<'a> Model for Scheme<'a> {
    ghost use Rattle.migrate_words.specs.Schemes.{AskedScheme, scheme_of};

    ghost Value = { AskedScheme };

    ghost view = { λ scheme. scheme_of scheme.area.now scheme.levels };
}

impl<'a> Scheme<'a> {
    /// The scheme of an area and some levels.
    pub fn new(area: &'a str, levels: Levels) -> Scheme<'a>
        ensures { result ≡ scheme_of area.now levels }
    {
        Scheme { area, levels }
    }

    /// The area.
    pub fn area(&self) -> &'a str
        ensures { result.now ≡ self.now.area }
    {
        self.area
    }

    /// The levels.
    pub fn levels(&self) -> Levels
        ensures { result ≡ self.now.levels }
    {
        self.levels
    }
}
