ghost use Rattle.std.specs.Prelude.{◌≡◌, ◌≤◌, ◌<◌, ◌↔◌, ℕ, List, [], ◌∷◌, All, IfOk, IsTrue, length, slice_index_or};
ghost use Rattle.design_writer.specs.CostDesigns.{HaveTextNames};
ghost use Rattle.migrate_words.specs.Asked.{IsInRange};
ghost use Rattle.ospf_pair.specs.PairRefusals.{MakePair};
ghost use Rattle.migrate_cli.specs.CommandFiles.{AsksNetworks, NeedsStart, OverNetworks, given_texts, own_files};
ghost use Rattle.migrate_cli.specs.Decisions.{IsDecision, input_of};
ghost use Rattle.migrate_cli.specs.Reading.{AreShort};
ghost use Rattle.migrate_cli.specs.steps.FilesRead.{IsJudgedAtOnce};

use crate::OutOfMemory;
use crate::check::{check_over, judge_check};
use crate::delta::judge_delta;
use crate::design::judge_design;
use crate::files::FILE_MOST;
use crate::moves::Move;
use crate::pair::judge_pair_scripts;
use crate::picture::judge_picture;
use crate::plan::{judge_plan, plan_over};
use crate::prepare::judge_prepare;
use crate::refute::{judge_refute, refute_over};
use crate::replan::judge_replan;
use crate::replay::judge_replay;
use crate::rollback::judge_rollback;
use crate::sample::judge_sample;
use crate::scripts::judge_scripts;
use crate::shown::judge_tables;
use crate::split::judge_split;
use crate::twopass::judge_two_pass;
use crate::why::judge_why;
use migrate_words::{Command, CommandKind};
use migration_report::Decision;
use net_addr::Bytes;
use net_model::Net;
use ospf_pair::PairNet;
use std::alloc::Global;

/// Whether a command asks that every router is where a migration starts.
pub(crate) fn needs_start(kind: CommandKind) -> bool
    ensures { IsTrue result ↔ NeedsStart kind }
{
    !matches!(
        kind,
        CommandKind::Prepare
            | CommandKind::Delta
            | CommandKind::Tables
            | CommandKind::Design
            | CommandKind::Observe
            | CommandKind::Survey
    )
}

/// What a command decides on the texts of its own files, those of configurations, and the network that these make.
pub(crate) fn judge_command(
    alloc: Global,
    command: &Command<'_>,
    own: &[Bytes],
    configs: &[Bytes],
    net: &Net,
) -> Result<Decision, OutOfMemory>
    requires range { IsInRange command.now }
    requires networks { AsksNetworks command.now.kind }
    requires one { OverNetworks command.now.kind → ⊥ }
    requires at_once { IsJudgedAtOnce command.now.kind }
    requires some { 0 < length net.now }
    requires own { AreShort (own_files command.now) own.now }
    requires configs { All (λ text. length text ≤ FILE_MOST) configs.now }
    requires names { HaveTextNames net.now }
    ensures { IfOk result (IsDecision command.now.kind (input_of command.now (given_texts own.now configs.now) net.now [])) }
{
    match command.kind {
        CommandKind::Check => {
            let (file, order) = first_own(command, own);
            judge_check(alloc, file, order, net)
        }
        CommandKind::Prepare => {
            let (file, design) = first_own(command, own);
            judge_prepare(alloc, file, design, configs, net)
        }
        CommandKind::Plan => judge_plan(alloc, command.number, net),
        CommandKind::TwoPass => judge_two_pass(alloc, command.number, net),
        CommandKind::Refute => judge_refute(alloc, &own[0], net),
        CommandKind::Scripts => {
            let (file, order) = first_own(command, own);
            judge_scripts(alloc, file, order, net)
        }
        CommandKind::Replay => {
            let journal = &own[1];
            let (file, order) = first_own(command, own);
            judge_replay(alloc, file, order, journal, net)
        }
        CommandKind::Sample => judge_sample(alloc, command.number, net),
        CommandKind::Split => {
            let (file, order) = first_own(command, own);
            judge_split(alloc, file, order, command.number, net)
        }
        CommandKind::Delta => {
            let (file, design) = first_own(command, own);
            judge_delta(alloc, file, design, configs, net)
        }
        CommandKind::Tables => judge_tables(alloc, net),
        CommandKind::Why => {
            let (file, order) = first_own(command, own);
            judge_why(alloc, file, order, net)
        }
        CommandKind::Rollback => {
            let journal = &own[1];
            let (file, order) = first_own(command, own);
            judge_rollback(alloc, file, order, journal, net)
        }
        CommandKind::Replan => {
            let journal = &own[1];
            judge_replan(alloc, command.number, first_own(command, own), journal, net)
        }
        CommandKind::Picture => {
            let (file, order) = first_own(command, own);
            judge_picture(alloc, file, order, net)
        }
        CommandKind::Design => judge_design(alloc, &command.scheme, net),
        _ => unreachable!(),
    }
}

/// Whether a command is over two networks.
pub(crate) fn over_networks(kind: CommandKind) -> bool
    ensures { IsTrue result ↔ OverNetworks kind }
{
    matches!(
        kind,
        CommandKind::Pair
            | CommandKind::PairScripts
            | CommandKind::PairCheck
            | CommandKind::PairRefute
    )
}

/// What a command over two networks decides on the texts of its own files and the pair of these networks.
pub(crate) fn judge_pair(
    alloc: Global,
    command: &Command<'_>,
    own: &[Bytes],
    pair: &PairNet,
) -> Result<Decision, OutOfMemory>
    requires make { MakePair pair.now }
    requires over { OverNetworks command.now.kind }
    requires range { IsInRange command.now }
    requires some { 0 < length pair.now.old }
    requires own { AreShort (own_files command.now) own.now }
    ensures { (configs : List (List ℕ)) → IfOk result (IsDecision command.now.kind
        (input_of command.now (given_texts own.now configs) pair.now.old (pair.now.new ∷ []))) }
{
    let of = Move::to_ospf(pair);
    match command.kind {
        CommandKind::PairScripts => {
            let (file, order) = first_own(command, own);
            judge_pair_scripts(alloc, file, order, pair)
        }
        CommandKind::PairCheck => {
            let (file, order) = first_own(command, own);
            check_over(alloc, file, order, &of)
        }
        CommandKind::PairRefute => refute_over(alloc, &own[0], &of),
        CommandKind::Pair => plan_over(alloc, command.number, &of),
        _ => unreachable!(),
    }
}

/// The first file of a command's own: its name and its text.
pub(crate) fn first_own<'a, 'b>(command: &Command<'a>, own: &'b [Bytes]) -> (&'a str, &'b Bytes)
    requires some { 0 < length command.now.own }
    requires texts { 0 < length own.now }
    ensures name { result.0.now ≡ slice_index_or command.now.own 0 [] }
    ensures text { result.1.now ≡ slice_index_or own.now 0 [] }
{
    (command.own.as_slice()[0], &own[0])
}
