ghost use Rattle.std.specs.Prelude.{◌≡◌, [], None, Some, unwrap_or};
ghost use Rattle.store_edge.specs.Files.{file_bytes, SureFilesState};

use crate::file_list::FileList;
use crate::files::{FileAnswer, Files};
use crate::names::{front, own_name};
use net_addr::{Bytes, Name};
use std::alloc::Global;
use std::marker::Model;

/// Files in memory that never fail, for tests: a name that isn't there has no bytes.
#[derive(Debug, Drop)]
pub struct SureFiles {
    files: FileList,
    asked: Vec<Name>,
}

impl Model for SureFiles {
    ghost use Rattle.store_edge.specs.Files.{SureFilesState};

    ghost Value = { SureFilesState };

    ghost view = { λ x. record { files = x.files; asked = x.asked.items } };
}

impl SureFiles {
    /// These files.
    pub fn new(alloc: Global, files: FileList) -> SureFiles
        ensures { result ≡ record { files = files; asked = [] } }
    {
        SureFiles {
            files,
            asked: Vec::new(alloc),
        }
    }
}

impl Files for SureFiles {
    ghost content = { λ files name. Some (unwrap_or (file_bytes files.files name) []) };

    ghost asked = { λ files. files.asked };

    ghost faults = { λ _. 0 };

    ghost failed_at = { λ _. None };

    fn read(&mut self, alloc: Global, name: &str, most: u64) -> Result<Bytes, FileAnswer> {
        let asked = own_name(alloc, name)?;
        let bytes = match self.files.find(name.as_bytes()) {
            Some(all) => front(alloc, all.as_slice(), most)?,
            None => Bytes::from_vec(Vec::new(alloc)),
        };
        self.asked.push(asked)?;
        Ok(bytes)
    }
}
