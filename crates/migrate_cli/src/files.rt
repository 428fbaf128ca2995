ghost use Rattle.std.specs.Prelude.{◌≡◌, ◌++◌, IfOk, OnOk, map};
ghost use Rattle.migrate_cli.specs.CommandFiles.{config_file, files_of, own_file, own_most, text_names};
ghost use Rattle.migrate_cli.specs.steps.FilesRead.{file_of};

use crate::OutOfMemory;
use migrate_words::{Command, CommandKind};
use migration_report::Decision;
use net_addr::Bytes;
use std::alloc::Global;
use step_scripts::OrderKind;

/// How many bytes a file has at most that isn't a design, 16 MiB.
pub(crate) const FILE_MOST: u64 = 16_777_216;

/// How many bytes a design has at most, 1 MiB.
pub(crate) const DESIGN_MOST: u64 = 1_048_576;

/// A file that a command reads.
#[derive(Clone, Copy, Debug)]
pub(crate) struct Wanted<'a> {
    /// Its name.
    pub name: &'a str,
    /// The most bytes that it may have.
    pub most: u64,
    /// Whether its bytes count to those of all configurations.
    pub counts: bool,
}

impl<'a> Wanted<'a> {
    /// A file of a command's own: an order, a tree, a journal or a design.
    fn own(kind: CommandKind, name: &'a str) -> Wanted<'a>
        ensures { file_of result ≡ own_file kind name.now }
    {
        Wanted {
            name,
            most: own_most(kind),
            counts: false,
        }
    }

    /// A file of configurations.
    fn config(name: &'a str) -> Wanted<'a>
        ensures { file_of result ≡ config_file name.now }
    {
        Wanted {
            name,
            most: FILE_MOST,
            counts: true,
        }
    }
}

/// How many bytes a file of a command's own has at most.
fn own_most(kind: CommandKind) -> u64
    ensures { result ≡ own_most kind }
{
    match kind {
        CommandKind::Prepare | CommandKind::Delta => DESIGN_MOST,
        _ => FILE_MOST,
    }
}

/// The names of the texts of configurations of a command: those of its files, or `sample` for the one that is made.
pub(crate) fn text_names<'a, 'b>(command: &'b Command<'a>) -> &'b [&'a str]
    ensures { map (λ name. name.now) result.now ≡ text_names command.now }
{
    match command.kind {
        CommandKind::Sample => &["sample"],
        _ => command.configs.as_slice(),
    }
}

/// The files that a command reads, in the order in which it reads them: first its own, and then the configurations.
pub(crate) fn files_of<'a>(
    alloc: Global,
    command: &Command<'a>,
) -> Result<Vec<Wanted<'a>>, OutOfMemory>
    ensures { IfOk result (λ files. map file_of files.items ≡ files_of command.now) }
{
    let mut files = Vec::new(alloc);
    add_own(&mut files, command.kind, command.own.as_slice())?;
    for name in command.configs.as_slice() {
        files.push(Wanted::config(name))?;
    }
    Ok(files)
}

/// Adds the files of a command's own.
fn add_own<'a>(
    files: &mut Vec<Wanted<'a>>,
    kind: CommandKind,
    names: &[&'a str],
) -> Result<(), OutOfMemory>
    ensures { OnOk result (map file_of files.new.items ≡ map file_of files.old.items
        ++ map (own_file kind) (map (λ name. name.now) names.now)) }
{
    for name in names {
        files.push(Wanted::own(kind, name))?;
    }
    Ok(())
}

/// The bytes of a name.
pub(crate) fn name_bytes(alloc: Global, name: &str) -> Result<Bytes, OutOfMemory>
    ensures { IfOk result (λ bytes. bytes ≡ name.now) }
{
    Ok(Bytes::from_vec(Vec::from_slice(alloc, name.as_bytes())?))
}

/// What is decided where a line of an order file is faulty.
pub(crate) fn bad_order(
    alloc: Global,
    name: &str,
    line: u32,
    kind: OrderKind,
) -> Result<Decision, OutOfMemory>
    ensures { IfOk result (λ decision. decision ≡ Decision.BadOrder name.now line kind) }
{
    let file = name_bytes(alloc, name)?;
    Ok(Decision::BadOrder { file, line, kind })
}
