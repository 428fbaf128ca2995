ghost use Rattle.std.specs.Prelude.{◌≡◌};

/// One of the two changes that a migration makes on a router.
#[derive(Clone, Copy, Debug, PartialEq, Eq)]
pub enum Half {
    /// The first one, which sets the distance of IS-IS to 115.
    First,
    /// The second one, which sets the distance of OSPF to 255.
    Second,
}

impl Half {
    ghost use Rattle.state_replay.specs.Halves.{half_number};

    /// Its number, 1 or 2: how many changes its router has made with it.
    pub fn number(self) -> u8
        ensures { result ≡ half_number self }
    {
        match self {
            Half::First => 1,
            Half::Second => 2,
        }
    }
}
