ghost use Rattle.std.specs.Prelude.{◌≡◌};

use std::marker::Model;

/// By which of its two phases a router of a ring steps to the next one.
#[derive(Clone, Copy, Debug, PartialEq, Eq)]
pub enum Tag {
    /// Only by its old routes.
    Old,
    /// Only by its new routes.
    New,
    /// By both.
    Both,
}

impl Tag {
    ghost use Rattle.order_core.specs.Turns.{is_old, is_new};

    /// Whether only the old routes step on.
    pub fn is_old(self) -> bool
        ensures { result ≡ is_old self }
    {
        matches!(self, Tag::Old)
    }

    /// Whether only the new routes step on.
    pub fn is_new(self) -> bool
        ensures { result ≡ is_new self }
    {
        matches!(self, Tag::New)
    }
}

/// A router of a ring, with its tag.
#[derive(Clone, Copy, Debug, PartialEq, Eq)]
pub struct Turn {
    /// The number of the router.
    pub router: u32,
    /// By which routes it steps to the next one.
    pub tag: Tag,
}

/// The turns of a ring, each stepping to the next and the last to the first.
#[derive(Debug, Drop)]
pub struct Turns {
    all: Vec<Turn>,
}

impl Model for Turns {
    ghost use Rattle.std.specs.Prelude.{List};
    ghost use Rattle.order_core.specs.declared.turn.Turn.{Turn};

    ghost Value = { List Turn };

    ghost view = { λ x. x.all.items };
}

impl Turns {
    /// These turns.
    pub fn from_vec(all: Vec<Turn>) -> Turns
        ensures { result ≡ all.items }
    {
        Turns { all }
    }

    /// The turns in order.
    pub fn as_slice(&self) -> &[Turn]
        ensures { result.now ≡ self.now }
    {
        self.all.as_slice()
    }

    /// The vector of the turns.
    pub fn into_vec(self) -> Vec<Turn>
        ensures { result.items ≡ self }
    {
        self.all
    }
}
