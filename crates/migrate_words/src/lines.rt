ghost use Rattle.std.specs.Prelude.{List, IfOk, ◌∷◌, [], map};
ghost use Rattle.clap.specs.Words.{App, Rule, Shape, with_subcommand};
ghost use Rattle.clap.specs.Simple.{new_shape};
ghost use Rattle.migrate_words.specs.CommandLine.{area_option, budget_option, command_line, config_files, config_rules};
ghost use Rattle.migrate_words.specs.CommandLine.{level_option, number_rules, one_text, shape_of};
ghost use Rattle.migrate_words.specs.steps.LineSteps.{IsLine, IsRule, IsWhole, bare_line, with_arguments};
ghost use Rattle.migrate_words.specs.steps.Seen.{argument_names, usage_seen};

use crate::subcommands::{ConfigFiles, NumberTaken, OwnFile, Subcommand, networks, subcommands};
use crate::version::VERSION;
use clap::{Arg, ArgAction, Command};
use std::alloc::{AllocError, Global};

/// The command line of `migrate`.
pub(crate) fn command_line<'a>(alloc: Global) -> Result<Command<'a>, AllocError>
    ensures { IfOk result (IsWhole command_line) }
{
    let mut line = top(alloc);
    for entry in subcommands() {
        line = with_subcommand(line, subcommand(alloc, entry)?)?;
    }
    Ok(line)
}

/// The command line with no subcommand yet.
fn top<'a>(alloc: Global) -> Command<'a>
    ensures { IsWhole bare_line result }
{
    Command::new(alloc, "migrate")
        .about("Plans the move of a network from OSPF to IS-IS, a router at a time.")
        .version(VERSION)
        .no_binary_name(true)
        .subcommand_required(true)
}

/// The command line with one more subcommand.
fn with_subcommand<'a>(
    line: Command<'a>,
    subcommand: Command<'a>,
) -> Result<Command<'a>, AllocError>
    ensures { IfOk result (λ r. (whole : App) (sub : Shape) → IsWhole whole line.entry → IsLine sub subcommand.entry
        → IsWhole (with_subcommand whole sub) r) }
{
    line.subcommand(subcommand)
}

/// The subcommand of an entry, with its arguments.
fn subcommand<'a>(alloc: Global, entry: &Subcommand) -> Result<Command<'a>, AllocError>
    ensures { IfOk result (IsLine (shape_of (usage_seen entry.now))) }
{
    let line = with_number(alloc, bare(alloc, entry), entry.number)?;
    with_configs(alloc, with_files(alloc, line, entry.own)?, entry.configs)
}

/// The subcommand of an entry, with no argument yet.
fn bare<'a>(alloc: Global, entry: &Subcommand) -> Command<'a>
    ensures { IsLine (new_shape entry.now.word.now) result }
{
    Command::new(alloc, entry.word)
        .about(entry.about)
        .override_usage(entry.usage)
}

/// A subcommand with the argument for a number, where it takes one.
fn with_number<'a>(
    alloc: Global,
    line: Command<'a>,
    number: NumberTaken,
) -> Result<Command<'a>, AllocError>
    ensures { IfOk result (λ r. (shape : Shape) → IsLine shape line.entry
        → IsLine (with_arguments shape (number_rules number)) r) }
{
    match number {
        NumberTaken::NoNumber => Ok(line),
        NumberTaken::Budget => with_argument(line, budget_option(alloc)),
        NumberTaken::Routers => {
            let routers = one_text(alloc, "N", "The number of routers, from 3 to 60");
            with_argument(line, routers)
        }
        NumberTaken::WaveSize => {
            let size = one_text(alloc, "N", "The most routers of a wave, 1 or more");
            with_argument(line, size)
        }
        NumberTaken::DesignOptions => with_design_options(alloc, line),
    }
}

/// A subcommand with the options of a design.
fn with_design_options<'a>(alloc: Global, line: Command<'a>) -> Result<Command<'a>, AllocError>
    ensures { IfOk result (λ r. (shape : Shape) → IsLine shape line.entry
        → IsLine (with_arguments shape (area_option ∷ level_option ∷ [])) r) }
{
    let line = with_argument(line, area_option(alloc))?;
    with_argument(line, level_option(alloc))
}

/// A subcommand with the arguments for these files.
fn with_files<'a>(
    alloc: Global,
    line: Command<'a>,
    files: &[OwnFile],
) -> Result<Command<'a>, AllocError>
    ensures { IfOk result (λ r. (shape : Shape) → IsLine shape line.entry
        → IsLine (with_arguments shape (map one_text (argument_names files.now))) r) }
{
    let mut line = line;
    for file in files {
        line = with_argument(line, one_text(alloc, file.name, file.help))?;
    }
    Ok(line)
}

/// A subcommand with the arguments for configuration files, where it takes any.
fn with_configs<'a>(
    alloc: Global,
    line: Command<'a>,
    configs: ConfigFiles,
) -> Result<Command<'a>, AllocError>
    ensures { IfOk result (λ r. (shape : Shape) → IsLine shape line.entry
        → IsLine (with_arguments shape (config_rules configs)) r) }
{
    match configs {
        ConfigFiles::NoConfigs => Ok(line),
        ConfigFiles::Several => with_argument(line, config_files(alloc)),
        ConfigFiles::Networks => with_files(alloc, line, networks()),
    }
}

/// A subcommand with one more argument.
fn with_argument<'a>(line: Command<'a>, argument: Arg<'a>) -> Result<Command<'a>, AllocError>
    ensures { IfOk result (λ r. (shape : Shape) (rule : Rule) → IsLine shape line.entry → IsRule rule argument.entry
        → IsLine (with_arguments shape (rule ∷ [])) r) }
{
    line.arg(argument)
}

/// A required positional of one text.
fn one_text<'a>(alloc: Global, name: &'a str, help: &'a str) -> Arg<'a>
    ensures { IsRule (one_text name.now) result }
{
    Arg::new(alloc, name).required(true).help(help)
}

/// The configuration files.
fn config_files<'a>(alloc: Global) -> Arg<'a>
    ensures { IsRule config_files result }
{
    Arg::new(alloc, "CONFIG")
        .required(true)
        .action(ArgAction::Append)
        .help("The configurations of the routers, one file or more")
}

/// The option `--area`.
fn area_option<'a>(alloc: Global) -> Arg<'a>
    ensures { IsRule area_option result }
{
    Arg::new(alloc, "AREA").long("area").help(
        "The IS-IS area of all routers, as two hexadecimal digits and groups of four; 49.0001 unless given",
    )
}

/// The option `--level`.
fn level_option<'a>(alloc: Global) -> Arg<'a>
    ensures { IsRule level_option result }
{
    Arg::new(alloc, "L")
        .long("level")
        .help("The levels of all routers: 1, 1-2 or 2; 2 unless given")
}

/// The option `--budget`.
fn budget_option<'a>(alloc: Global) -> Arg<'a>
    ensures { IsRule budget_option result }
{
    Arg::new(alloc, "N").long("budget").help(
        "The most branches of the search, from 1 to 100000; 10000 unless given",
    )
}
