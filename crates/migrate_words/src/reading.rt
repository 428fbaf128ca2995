ghost use Rattle.std.specs.Prelude.{◌≡◌, IfSome, find, map, option_map, string_bytes};
ghost use Rattle.std.specs.Option.{option_copied};
ghost use Rattle.std.specs.Str.{bytes_eq};
ghost use Rattle.clap.specs.Words.{found_of, rows_of};
ghost use Rattle.migrate_words.specs.Refusals.{AnswersWords};
ghost use Rattle.migrate_words.specs.Usages.{kinds, usage_of};
ghost use Rattle.migrate_words.specs.steps.Reading.{IsEntered, IsOfKind, NamesCommand, ReadsAs};
ghost use Rattle.migrate_words.specs.steps.Seen.{IsOfTable, kind_of_entry};

use crate::arguments::{configs_of, number_of, own_of, scheme_of};
use crate::lines::command_line;
use crate::refusal::told;
use crate::subcommands::{Subcommand, subcommands};
use crate::{Command, WordsRefused};
use clap::ArgMatches;
use std::alloc::Global;

/// The command that the words of a call, those after the program's name, ask for.
///
/// The words are refused where the command line doesn't take them, or a number isn't in its range.
pub fn read_command<'a>(alloc: Global, words: &'a [String]) -> Result<Command<'a>, WordsRefused>
    ensures { AnswersWords (map string_bytes words.now) result }
{
    let line = match command_line(alloc) {
        Ok(line) => line,
        Err(_) => return Err(WordsRefused::OutOfMemory),
    };
    match line.try_get_matches_from(words) {
        Ok(matches) => entered(alloc, &matches),
        Err(error) => Err(told(alloc, &error)),
    }
}

/// The command of the subcommand that was entered.
fn entered<'a>(alloc: Global, matches: &ArgMatches<'a>) -> Result<Command<'a>, WordsRefused>
    ensures { ReadsAs (λ command. command) (IsEntered matches.now) result }
{
    match matches.subcommand() {
        Some((name, given)) => named(alloc, name, given),
        None => Err(WordsRefused::Number),
    }
}

/// The command of the subcommand of a name, by the values of its arguments.
fn named<'a>(alloc: Global, name: &str, given: &ArgMatches<'a>) -> Result<Command<'a>, WordsRefused>
    ensures { ReadsAs (λ command. command) (NamesCommand name.now (rows_of (found_of given.now))) result }
{
    match entry_of(name) {
        Some(entry) => command_of(alloc, entry, given),
        None => Err(WordsRefused::Number),
    }
}

/// The entry of the table with this word.
fn entry_of(word: &str) -> Option<&'static Subcommand>
    ensures kind { option_map kind_of_entry (option_copied result) ≡ find (λ kind. bytes_eq (usage_of kind).word word.now) kinds }
    ensures usage { IfSome (option_copied result) IsOfTable }
{
    first_of(subcommands(), word)
}

/// The first of these entries with this word.
fn first_of<'a>(entries: &'a [Subcommand], word: &str) -> Option<&'a Subcommand>
    ensures { option_copied result ≡ find (λ entry. bytes_eq entry.word.now word.now) entries.now }
{
    for entry in entries {
        if entry.word == word {
            return Some(entry);
        }
    }
    None
}

/// The command of an entry of the table, by the values of its arguments.
fn command_of<'a>(
    alloc: Global,
    entry: &Subcommand,
    given: &ArgMatches<'a>,
) -> Result<Command<'a>, WordsRefused>
    requires { IsOfTable entry.now }
    ensures { ReadsAs (λ command. command) (IsOfKind entry.now.kind (rows_of (found_of given.now))) result }
{
    let number = number_of(given, entry.number)?;
    let scheme = match scheme_of(given, entry.number) {
        Ok(scheme) => scheme,
        Err(refused) => return Err(refused),
    };
    let own = own_of(alloc, given, entry.own)?;
    let configs = configs_of(alloc, given, entry.configs)?;
    Ok(Command {
        kind: entry.kind,
        own,
        configs,
        number,
        scheme,
    })
}
