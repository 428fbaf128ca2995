ghost use Rattle.std.specs.Prelude.{◌≡◌};
ghost use Rattle.std.specs.Option.{option_copied};
ghost use Rattle.store_edge.specs.Files.{file_bytes};

use net_addr::{Bytes, Name};
use std::marker::Model;

/// Files by name: each name with its bytes.
#[derive(Debug, Drop)]
pub struct FileList {
    all: Vec<(Name, Bytes)>,
}

impl Model for FileList {
    ghost use Rattle.std.specs.Prelude.{List, ℕ};

    ghost Value = { List (List ℕ × List ℕ) };

    ghost view = { λ x. x.all.items };
}

impl FileList {
    /// The files of a vector, in its order.
    pub fn from_vec(all: Vec<(Name, Bytes)>) -> FileList
        ensures { result ≡ all.items }
    {
        FileList { all }
    }

    /// The files as a slice.
    pub fn as_slice(&self) -> &[(Name, Bytes)]
        ensures { result.now ≡ self.now }
    {
        self.all.as_slice()
    }

    /// The vector that the files stand in.
    pub fn into_vec(self) -> Vec<(Name, Bytes)>
        ensures { result.items ≡ self }
    {
        self.all
    }

    /// The bytes of the first file with this name.
    pub(crate) fn find(&self, name: &[u8]) -> Option<&Bytes>
        ensures { option_copied result ≡ file_bytes self.now name.now }
    {
        first_of(self.all.as_slice(), name)
    }
}

/// The bytes of the first of these files that has this name.
fn first_of<'a>(files: &'a [(Name, Bytes)], name: &[u8]) -> Option<&'a Bytes>
    ensures { option_copied result ≡ file_bytes files.now name.now }
{
    for file in files {
        if name == file.0.as_slice() {
            return Some(&file.1);
        }
    }
    None
}
