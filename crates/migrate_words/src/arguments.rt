ghost use Rattle.std.specs.Prelude.{codes};
ghost use Rattle.clap.specs.Words.{first_of, found_of, rows_of};
ghost use Rattle.migrate_words.specs.Asked.{AreGivenLevels, HasConfigs, HasText, HaveTexts, IsGivenArea, IsGivenNumber};
ghost use Rattle.migrate_words.specs.Asked.{IsGivenScheme, IsNumberIn};
ghost use Rattle.migrate_words.specs.declared.subcommands.ConfigFiles.TheVariants.{Several};
ghost use Rattle.migrate_words.specs.declared.subcommands.NumberTaken.TheVariants.{DesignOptions};
ghost use Rattle.migrate_words.specs.steps.Reading.{ReadsAs};
ghost use Rattle.migrate_words.specs.steps.Seen.{argument_names};

use crate::command::{
    LEAST_BUDGET, LEAST_SAMPLE, LEAST_WAVE, MOST_BUDGET, MOST_SAMPLE, MOST_WAVE, USUAL_BUDGET,
};
use crate::scheme::{USUAL_AREA, USUAL_LEVELS};
use crate::subcommands::{ConfigFiles, NumberTaken, OwnFile, networks};
use crate::{FileNames, Scheme, WordsRefused};
use clap::ArgMatches;
use design_file::{is_area, levels_named};
use net_addr::read_number;
use net_model::Levels;
use std::alloc::Global;

/// The files of a command's own, as they are named.
pub(crate) fn own_of<'a>(
    alloc: Global,
    given: &ArgMatches<'a>,
    own: &[OwnFile],
) -> Result<FileNames<'a>, WordsRefused>
    ensures { ReadsAs (λ names. names) (HaveTexts (rows_of (found_of given.now)) (argument_names own.now)) result }
{
    let mut all = Vec::new(alloc);
    for file in own {
        let name = text_of(given, file.name)?;
        if all.push(name).is_err() {
            return Err(WordsRefused::OutOfMemory);
        }
    }
    Ok(FileNames::from_vec(all))
}

/// The text of a required argument.
fn text_of<'a>(given: &ArgMatches<'a>, argument: &str) -> Result<&'a str, WordsRefused>
    ensures { ReadsAs (λ text. text.now) (HasText (rows_of (found_of given.now)) argument.now) result }
{
    match given.get_str(argument) {
        Some(text) => Ok(text),
        None => Err(WordsRefused::Number),
    }
}

/// The configuration files, none where none are taken.
pub(crate) fn configs_of<'a>(
    alloc: Global,
    given: &ArgMatches<'a>,
    configs: ConfigFiles,
) -> Result<FileNames<'a>, WordsRefused>
    ensures { ReadsAs (λ names. names) (HasConfigs configs (rows_of (found_of given.now))) result }
{
    match configs {
        ConfigFiles::NoConfigs => Ok(FileNames::from_vec(Vec::new(alloc))),
        ConfigFiles::Several => several_of(alloc, given),
        ConfigFiles::Networks => own_of(alloc, given, networks()),
    }
}

/// The configuration files of one network.
fn several_of<'a>(alloc: Global, given: &ArgMatches<'a>) -> Result<FileNames<'a>, WordsRefused>
    ensures { ReadsAs (λ names. names) (HasConfigs Several (rows_of (found_of given.now))) result }
{
    let mut all = Vec::new(alloc);
    let Some(names) = given.get_strs("CONFIG") else {
        return Err(WordsRefused::Number);
    };
    match all.extend_from_slice(names) {
        Ok(()) => Ok(FileNames::from_vec(all)),
        Err(_) => Err(WordsRefused::OutOfMemory),
    }
}

/// The number that is given, 0 where none is taken.
pub(crate) fn number_of(given: &ArgMatches<'_>, number: NumberTaken) -> Result<u32, WordsRefused>
    ensures { ReadsAs (λ n. n) (IsGivenNumber number (first_of (codes "N") (rows_of (found_of given.now)))) result }
{
    let word = given.get_str("N");
    match (number, word) {
        (NumberTaken::NoNumber, _) => Ok(0),
        (NumberTaken::Budget, None) => Ok(USUAL_BUDGET),
        (NumberTaken::Budget, Some(word)) => number_in(word, LEAST_BUDGET, MOST_BUDGET),
        (NumberTaken::Routers, None) => Err(WordsRefused::Number),
        (NumberTaken::Routers, Some(word)) => number_in(word, LEAST_SAMPLE, MOST_SAMPLE),
        (NumberTaken::WaveSize, None) => Err(WordsRefused::Number),
        (NumberTaken::WaveSize, Some(word)) => number_in(word, LEAST_WAVE, MOST_WAVE),
        (NumberTaken::DesignOptions, _) => Ok(0),
    }
}

/// The scheme that is given, the usual one where none is taken.
pub(crate) fn scheme_of<'a>(
    given: &ArgMatches<'a>,
    number: NumberTaken,
) -> Result<Scheme<'a>, WordsRefused>
    ensures { ReadsAs (λ scheme. scheme) (IsGivenScheme number (rows_of (found_of given.now))) result }
{
    match number {
        NumberTaken::DesignOptions => design_scheme(given),
        _ => Ok(Scheme::new(USUAL_AREA, USUAL_LEVELS)),
    }
}

/// The scheme of the options of a design.
fn design_scheme<'a>(given: &ArgMatches<'a>) -> Result<Scheme<'a>, WordsRefused>
    ensures { ReadsAs (λ scheme. scheme) (IsGivenScheme DesignOptions (rows_of (found_of given.now))) result }
{
    let area = match area_of(given) {
        Ok(area) => area,
        Err(refused) => return Err(refused),
    };
    match levels_of(given) {
        Ok(levels) => Ok(Scheme::new(area, levels)),
        Err(refused) => Err(refused),
    }
}

/// The area that is given, the usual one where there is none.
fn area_of<'a>(given: &ArgMatches<'a>) -> Result<&'a str, WordsRefused>
    ensures { ReadsAs (λ area. area.now) (IsGivenArea (first_of (codes "AREA") (rows_of (found_of given.now)))) result }
{
    match given.get_str("AREA") {
        None => Ok(USUAL_AREA),
        Some(word) if is_area(word) => Ok(word),
        Some(_) => Err(WordsRefused::Number),
    }
}

/// The levels that are given, the usual ones where there are none.
fn levels_of(given: &ArgMatches<'_>) -> Result<Levels, WordsRefused>
    ensures { ReadsAs (λ levels. levels) (AreGivenLevels (first_of (codes "L") (rows_of (found_of given.now)))) result }
{
    match given.get_str("L") {
        None => Ok(USUAL_LEVELS),
        Some(word) => match levels_named(word) {
            Some(levels) => Ok(levels),
            None => Err(WordsRefused::Number),
        },
    }
}

/// The number that a word stands for, from `least` to `most`.
fn number_in(word: &str, least: u32, most: u32) -> Result<u32, WordsRefused>
    ensures { ReadsAs (λ number. number) (IsNumberIn least most word.now) result }
{
    match read_number(word.as_bytes(), u64::from(most)) {
        Some(number) if u64::from(least) <= number => Ok(number as u32),
        _ => Err(WordsRefused::Number),
    }
}
