ghost use Rattle.std.specs.Prelude.{◌≡◌, [], ◌∷◌, ◌++◌, not, bytes_eq, IfOk, OnOk, if◌then◌else◌};
ghost use Rattle.std.specs.List.{list_any, position_or_len};

use crate::OutOfMemory;
use indexmap::IndexSet;
use std::alloc::Global;
use std::marker::Model;

/// Where a name stands among the names.
#[derive(Clone, Copy, Debug)]
pub(crate) struct NamePlace {
    /// Its place.
    pub place: usize,
    /// Whether it wasn't there before.
    pub added: bool,
}

/// Names, each once, in the order in which they came first.
#[derive(Drop)]
pub(crate) struct NameIndex {
    names: IndexSet<Vec<u8>>,
}

impl Model for NameIndex {
    ghost use Rattle.std.specs.Prelude.{List, ℕ, map};

    ghost Value = { List (List ℕ) };

    ghost view = { λ x. map (λ k. k.items) x.names.keys };
}

impl NameIndex {
    /// No names, and room for so many.
    pub fn with_room(alloc: Global, room: usize) -> Result<NameIndex, OutOfMemory>
        ensures { IfOk result (λ names. names ≡ []) }
    {
        Ok(NameIndex {
            names: IndexSet::with_capacity(alloc, room)?,
        })
    }

    /// Takes in a name where it isn't there, as the last one, and tells its place.
    pub fn add(&mut self, alloc: Global, name: &[u8]) -> Result<NamePlace, OutOfMemory>
        ensures place { IfOk result (λ r. r.place ≡ position_or_len (bytes_eq name.now) self.old) }
        ensures added { IfOk result (λ r. r.added ≡ not (list_any (bytes_eq name.now) self.old)) }
        ensures names { OnOk result (self.new ≡ (if list_any (bytes_eq name.now) self.old then self.old else self.old ++ name.now ∷ [])) }
    {
        let key = Vec::from_slice(alloc, name)?;
        let (place, added) = self.names.insert_full(key)?;
        Ok(NamePlace { place, added })
    }
}
