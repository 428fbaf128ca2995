ghost use Rattle.std.specs.Prelude.{◌≡◌, ◌≤◌, All, IfErr, IfOk, length, map};
ghost use Rattle.ios_reader.specs.Texts.{ReadsText};
ghost use Rattle.isis_writer.specs.ReadTexts.{ReadsTexts};
ghost use Rattle.migrate_cli.specs.steps.Unread.{IsUnread, IsUnreadText, ReadsBoth};

use crate::files::FILE_MOST;
use ios_reader::{ReadKind, ReadRefusal, read_configs};
use net_addr::Bytes;
use net_model::{Config, Configs};
use std::alloc::Global;

/// Why the configurations of some files aren't read.
pub(crate) enum Unread<'a> {
    /// This is the first file that has a faulty line, with its first faulty line and the least kind on it.
    Bad {
        /// The name of the file.
        file: &'a str,
        /// The line, counted from 1.
        line: u32,
        /// Why it is faulty.
        kind: ReadKind,
    },
    /// There was no memory.
    OutOfMemory,
}

/// The configurations of the texts of some files, in their order.
pub(crate) fn read_all<'a>(
    alloc: Global,
    names: &[&'a str],
    texts: &[Bytes],
) -> Result<Configs, Unread<'a>>
    requires lengths { length names.now ≡ length texts.now }
    requires short { All (λ text. length text ≤ FILE_MOST) texts.now }
    ensures ok { IfOk result (ReadsTexts texts.now) }
    ensures err { IfErr result (IsUnread (map (λ name. name.now) names.now) texts.now) }
{
    let mut all = Vec::new(alloc);
    for (i, text) in texts.iter().enumerate() {
        let mut more = match read_one(alloc, names[i], text) {
            Ok(more) => more,
            Err(unread) => return Err(unread),
        };
        if all.append(&mut more).is_err() {
            return Err(Unread::OutOfMemory);
        }
    }
    Ok(Configs::from_vec(all))
}

/// The configurations of the texts of two files.
pub(crate) fn read_two<'a>(
    alloc: Global,
    names: &[&'a str],
    texts: &[Bytes],
) -> Result<(Configs, Configs), Unread<'a>>
    requires names { length names.now ≡ 2 }
    requires texts { length texts.now ≡ 2 }
    requires short { All (λ text. length text ≤ FILE_MOST) texts.now }
    ensures ok { IfOk result (λ both. ReadsBoth texts.now both.0 both.1) }
    ensures err { IfErr result (IsUnread (map (λ name. name.now) names.now) texts.now) }
{
    let old = match read_one(alloc, names[0], &texts[0]) {
        Ok(old) => old,
        Err(unread) => return Err(unread),
    };
    let new = match read_one(alloc, names[1], &texts[1]) {
        Ok(new) => new,
        Err(unread) => return Err(unread),
    };
    Ok((Configs::from_vec(old), Configs::from_vec(new)))
}

/// The configurations of the text of one file.
pub(crate) fn read_one<'a>(
    alloc: Global,
    file: &'a str,
    text: &Bytes,
) -> Result<Vec<Config>, Unread<'a>>
    requires { length text.now ≤ FILE_MOST }
    ensures ok { IfOk result (λ configs. ReadsText text.now configs.items) }
    ensures err { IfErr result (IsUnreadText file.now text.now) }
{
    match read_configs(alloc, text.as_slice()) {
        Ok(configs) => Ok(configs.into_vec()),
        Err(ReadRefusal::Bad { line, kind }) => Err(Unread::Bad { file, line, kind }),
        Err(ReadRefusal::OutOfMemory) => Err(Unread::OutOfMemory),
    }
}
