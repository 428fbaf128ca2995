ghost use Rattle.std.specs.Prelude.{◌≡◌, ◌+◌, ◌≤◌, ℕ, All, List, [], map, IfOk, IfErr, OnOk};
ghost use Rattle.migrate_cli.specs.Calls.{reads_so_far};
ghost use Rattle.migrate_cli.specs.steps.FilesRead.{file_of};
ghost use Rattle.migrate_cli.specs.Reading.{IsReadOf, IsShort, counted, to_read};
ghost use Rattle.migrate_cli.specs.steps.Stops.{EndReads, HasAsked, HasRead, IsNextText, StopsAlone, StopsAt};

use crate::files::{FILE_MOST, Wanted};
use net_addr::Bytes;
use std::alloc::Global;
use std::marker::Model;
use store_edge::{FileAnswer, Files};

/// How many bytes the configuration files have together at most, 64 MiB.
const CONFIGS_MOST: u64 = 67_108_864;

/// Why reading stopped.
pub(crate) enum Stop<'a> {
    /// The file could not be read.
    Fault(&'a str),
    /// The file has more bytes than it may have.
    Long(&'a str),
    /// The configuration files have more bytes together than they may have, so many at the file at which it was seen.
    Total(u64),
    /// There was no memory.
    OutOfMemory,
}

/// The texts of files, and how many of their bytes count to those of all configurations.
#[derive(Drop)]
pub(crate) struct Texts {
    all: Vec<Bytes>,
    counted: u64,
}

impl Model for Texts {
    ghost use Rattle.migrate_cli.specs.steps.Stops.{KeptTexts};

    ghost Value = { KeptTexts };

    ghost view = { λ x. record { all = x.all.items; counted = x.counted } };
}

impl Texts {
    /// No texts.
    fn new(alloc: Global) -> Texts
        ensures { result ≡ record { all = []; counted = 0 } }
    {
        Texts {
            all: Vec::new(alloc),
            counted: 0,
        }
    }

    /// The texts, in the order in which they were read.
    pub fn into_vec(self) -> Vec<Bytes>
        ensures { result.items ≡ self.all }
    {
        self.all
    }

    /// Reads the next file.
    fn read_next<'a, F: Files>(
        &mut self,
        alloc: Global,
        files: &mut F,
        wanted: &Wanted<'a>,
    ) -> Result<(), Stop<'a>>
        requires most { wanted.now.most ≤ FILE_MOST }
        requires counted { self.old.counted ≤ CONFIGS_MOST }
        ensures ok { OnOk result (IsNextText (F.content files.old) (file_of wanted.now) self.old self.new) }
        ensures stop { IfErr result (StopsAt (F.content files.old) (file_of wanted.now) self.old.counted) }
        ensures asked { HasAsked wanted.now.name.now (F.asked files.old) (F.asked files.new) result }
        ensures contents_stay { (other : List ℕ) → F.content files.new other ≡ F.content files.old other }
        ensures failed { EndReads result (reads_so_far (F.asked files.old) (F.faults files.old) (F.failed_at files.old))
            (reads_so_far (F.asked files.new) (F.faults files.new) (F.failed_at files.new)) }
    {
        let text = read_whole(alloc, files, wanted)?;
        let total = self.counted + counted_in(wanted, &text);
        if total > CONFIGS_MOST {
            return Err(Stop::Total(total));
        }
        if self.all.push(text).is_err() {
            return Err(Stop::OutOfMemory);
        }
        self.counted = total;
        Ok(())
    }
}

/// How many bytes of a text count to those of all configurations.
fn counted_in(wanted: &Wanted<'_>, text: &Bytes) -> u64
    ensures { result ≡ counted (file_of wanted.now) text.now }
{
    if wanted.counts {
        text.as_slice().len() as u64
    } else {
        0
    }
}

/// Reads a file that is no longer than it may be.
fn read_whole<'a, F: Files>(
    alloc: Global,
    files: &mut F,
    wanted: &Wanted<'a>,
) -> Result<Bytes, Stop<'a>>
    requires { wanted.now.most ≤ FILE_MOST }
    ensures read { IfOk result (IsReadOf (F.content files.old) (file_of wanted.now)) }
    ensures short { IfOk result (IsShort (file_of wanted.now)) }
    ensures stop { IfErr result (StopsAlone (F.content files.old) (file_of wanted.now)) }
    ensures asked { HasAsked wanted.now.name.now (F.asked files.old) (F.asked files.new) result }
    ensures contents_stay { (other : List ℕ) → F.content files.new other ≡ F.content files.old other }
    ensures failed { EndReads result (reads_so_far (F.asked files.old) (F.faults files.old) (F.failed_at files.old))
        (reads_so_far (F.asked files.new) (F.faults files.new) (F.failed_at files.new)) }
{
    let name = wanted.name;
    match files.read(alloc, name, wanted.most + 1) {
        Ok(text) if text.as_slice().len() as u64 > wanted.most => Err(Stop::Long(name)),
        Ok(text) => Ok(text),
        Err(FileAnswer::Failed) => Err(Stop::Fault(name)),
        Err(FileAnswer::OutOfMemory) => Err(Stop::OutOfMemory),
    }
}

/// Reads files, in their order.
pub(crate) fn read_texts<'a, F: Files>(
    alloc: Global,
    wanted: &[Wanted<'a>],
    files: &mut F,
) -> Result<Texts, Stop<'a>>
    requires { All (λ file. file.most ≤ FILE_MOST) wanted.now }
    ensures read { HasRead (to_read (F.content files.old) (map file_of wanted.now)) (F.asked files.old) (F.asked files.new) result }
    ensures failed { EndReads result (reads_so_far (F.asked files.old) (F.faults files.old) (F.failed_at files.old))
        (reads_so_far (F.asked files.new) (F.faults files.new) (F.failed_at files.new)) }
{
    let mut texts = Texts::new(alloc);
    for file in wanted {
        if let Err(stop) = texts.read_next(alloc, files, file) {
            return Err(stop);
        }
    }
    Ok(texts)
}
