ghost use Rattle.std.specs.Prelude.{◌≡◌};

use crate::entry::Entry;
use net_addr::Prefix;
use std::marker::Model;

/// Prefixes, each with what a table is to say of it.
#[derive(Debug, Drop)]
pub struct Entries {
    all: Vec<(Prefix, Entry)>,
}

impl Model for Entries {
    ghost use Rattle.std.specs.Prelude.{List};
    ghost use Rattle.net_addr.specs.Addresses.{Block};
    ghost use Rattle.route_core.specs.declared.entry.Entry.{Entry};

    ghost Value = { List (Block × Entry) };

    ghost view = { λ x. x.all.items };
}

impl Entries {
    /// The pairs of a vector, in its order.
    pub fn from_vec(all: Vec<(Prefix, Entry)>) -> Entries
        ensures { result ≡ all.items }
    {
        Entries { all }
    }

    /// The pairs as a slice.
    pub fn as_slice(&self) -> &[(Prefix, Entry)]
        ensures { result.now ≡ self.now }
    {
        self.all.as_slice()
    }

    /// The vector that the pairs stand in.
    pub fn into_vec(self) -> Vec<(Prefix, Entry)>
        ensures { result.items ≡ self }
    {
        self.all
    }
}
