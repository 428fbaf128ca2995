ghost use Rattle.std.specs.Prelude.{◌≡◌, ◌↔◌, IsTrue, Contains};

use std::marker::Model;

/// Numbers of calls, counted from 1.
#[derive(Debug, Drop)]
pub struct Calls {
    all: Vec<u64>,
}

impl Model for Calls {
    ghost use Rattle.std.specs.Prelude.{List, ℕ};

    ghost Value = { List ℕ };

    ghost view = { λ x. x.all.items };
}

impl Calls {
    /// The numbers of a vector, in its order.
    pub fn from_vec(all: Vec<u64>) -> Calls
        ensures { result ≡ all.items }
    {
        Calls { all }
    }

    /// The numbers as a slice.
    pub fn as_slice(&self) -> &[u64]
        ensures { result.now ≡ self.now }
    {
        self.all.as_slice()
    }

    /// The vector that the numbers stand in.
    pub fn into_vec(self) -> Vec<u64>
        ensures { result.items ≡ self }
    {
        self.all
    }

    /// Whether this call is among them.
    pub(crate) fn has(&self, call: u64) -> bool
        ensures { IsTrue result ↔ Contains self.now call }
    {
        self.all.contains(&call)
    }
}
