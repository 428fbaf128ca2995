ghost use Rattle.std.specs.Prelude.{◌≡◌, ◌<◌, ◌≤◌, ◌∷◌, [], All, IfErr, IfOk, length, slice_index_or};
ghost use Rattle.net_model.specs.Refusals.{MakeNetwork};
ghost use Rattle.migrate_words.specs.Asked.{IsInRange};
ghost use Rattle.migrate_cli.specs.CommandFiles.{config_texts, files_of, given_texts, own_texts};
ghost use Rattle.migrate_cli.specs.Configurations.{GiveNetwork};
ghost use Rattle.migrate_cli.specs.ObserveDecision.{IsNightOutcome, IsObserveDecision, RefusesTexts};
ghost use Rattle.migrate_cli.specs.Outcomes.{IsOutcome};
ghost use Rattle.migrate_cli.specs.Reading.{AreShort, named_text};
ghost use Rattle.migrate_cli.specs.steps.NightFiles.{RefusesConfigs, before_texts_in, current_texts_in, night_texts_in};

use crate::OutOfMemory;
use crate::commands::first_own;
use crate::configurations::{read_all, read_one};
use crate::files::{FILE_MOST, bad_order};
use crate::judging::{refuse_network, refuse_start, refuse_unread};
use migrate_words::{Command, CommandKind};
use migration_report::{Decision, Outcome};
use net_addr::Bytes;
use net_model::{Configs, Net};
use observed_night::{Observed, observe};
use std::alloc::{AllocError, Global};
use step_scripts::{OrderRefusal, read_waves};

/// The files of `observe`: their names and their texts.
#[derive(Clone, Copy)]
pub(crate) struct NightFiles<'a, 'b> {
    /// The name of the order file.
    pub file: &'a str,
    /// Its text.
    pub order: &'b Bytes,
    /// The name of the file of the configurations of before.
    pub before_file: &'a str,
    /// Its text.
    pub before: &'b Bytes,
    /// The names of the files of the configurations of now.
    pub names: &'b [&'a str],
    /// Their texts.
    pub texts: &'b [Bytes],
}

/// What `observe` comes to on the texts of its files.
pub(crate) fn judge_observe(
    alloc: Global,
    command: &Command<'_>,
    texts: &[Bytes],
) -> Result<Outcome, OutOfMemory>
    requires kind { command.now.kind ≡ CommandKind.Observe }
    requires range { IsInRange command.now }
    requires short { AreShort (files_of command.now) texts.now }
    ensures { IfOk result (IsOutcome command.now (given_texts (own_texts command.now texts.now) (config_texts command.now texts.now))) }
{
    let (own, configs) = texts.split_at(2);
    let (file, order) = first_own(command, own);
    let (before_file, before) = second_own(command, own);
    let files = NightFiles {
        file,
        order,
        before_file,
        before,
        names: command.configs.as_slice(),
        texts: configs,
    };
    judge_night(alloc, &files)
}

/// The second file of a command's own: its name and its text.
fn second_own<'a, 'b>(command: &Command<'a>, own: &'b [Bytes]) -> (&'a str, &'b Bytes)
    requires some { 1 < length command.now.own }
    requires texts { 1 < length own.now }
    ensures name { result.0.now ≡ slice_index_or command.now.own 1 [] }
    ensures text { result.1.now ≡ slice_index_or own.now 1 [] }
{
    (command.own.as_slice()[1], &own[1])
}

/// What the files of `observe` come to: first the configurations of before, then those of now, then the order file.
fn judge_night(alloc: Global, files: &NightFiles<'_, '_>) -> Result<Outcome, OutOfMemory>
    requires order { length files.now.order.now ≤ FILE_MOST }
    requires before { length files.now.before.now ≤ FILE_MOST }
    requires each { length files.now.names.now ≡ length files.now.texts.now }
    requires short { All (λ text. length text ≤ FILE_MOST) files.now.texts.now }
    ensures { IfOk result (IsNightOutcome (night_texts_in files.now)) }
{
    let before = match read_before(alloc, files)? {
        Ok(before) => before,
        Err(outcome) => return Ok(outcome),
    };
    if let Some(router) = before.off_start() {
        return refuse_start(alloc, &before, router);
    }
    let now = match read_now(alloc, files)? {
        Ok(now) => now,
        Err(outcome) => return Ok(outcome),
    };
    let decision = judge_night_order(alloc, files, &before, &now)?;
    Ok(Outcome::Decided {
        net: before,
        decision,
    })
}

/// The network of the configurations of before, or what the call comes to where they give none.
fn read_before(
    alloc: Global,
    files: &NightFiles<'_, '_>,
) -> Result<Result<Net, Outcome>, OutOfMemory>
    requires { length files.now.before.now ≤ FILE_MOST }
    ensures given { IfOk result (λ read. IfOk read (GiveNetwork (files.now.before.now ∷ []))) }
    ensures some { IfOk result (λ read. IfOk read (λ net. 0 < length net)) }
    ensures refused { IfOk result (λ read. IfErr read (RefusesTexts (before_texts_in files.now))) }
{
    match read_one(alloc, files.before_file, files.before) {
        Ok(configs) => network_of(alloc, Configs::from_vec(configs)),
        Err(unread) => Ok(Err(refuse_unread(alloc, unread)?)),
    }
}

/// The network of the configurations of now, or what the call comes to where they give none.
fn read_now(alloc: Global, files: &NightFiles<'_, '_>) -> Result<Result<Net, Outcome>, OutOfMemory>
    requires each { length files.now.names.now ≡ length files.now.texts.now }
    requires short { All (λ text. length text ≤ FILE_MOST) files.now.texts.now }
    ensures given { IfOk result (λ read. IfOk read (GiveNetwork files.now.texts.now)) }
    ensures refused { IfOk result (λ read. IfErr read (RefusesTexts (current_texts_in files.now))) }
{
    match read_all(alloc, files.names, files.texts) {
        Ok(configs) => network_of(alloc, configs),
        Err(unread) => Ok(Err(refuse_unread(alloc, unread)?)),
    }
}

/// The network of configurations, or what a call comes to where they make none.
fn network_of(alloc: Global, configs: Configs) -> Result<Result<Net, Outcome>, OutOfMemory>
    ensures made { IfOk result (λ read. IfOk read (MakeNetwork configs)) }
    ensures refused { IfOk result (λ read. IfErr read (RefusesConfigs configs)) }
{
    match Net::build(alloc, configs) {
        Ok(net) => Ok(Ok(net)),
        Err(refusal) => Ok(Err(refuse_network(refusal)?)),
    }
}

/// What is decided of the order file of `observe` and the two networks.
fn judge_night_order(
    alloc: Global,
    files: &NightFiles<'_, '_>,
    before: &Net,
    now: &Net,
) -> Result<Decision, OutOfMemory>
    requires short { length files.now.order.now ≤ FILE_MOST }
    requires some { 0 < length before.now }
    ensures { IfOk result (IsObserveDecision before.now now.now (named_text files.now.file.now files.now.order.now)) }
{
    let waves = match read_waves(alloc, before, files.order.as_slice()) {
        Ok(read) => read.waves,
        Err(OrderRefusal::OutOfMemory) => return Err(AllocError),
        Err(OrderRefusal::Bad { line, kind }) => return bad_order(alloc, files.file, line, kind),
    };
    match observe(alloc, before, now, &waves)? {
        Observed::Differs { text } => Ok(Decision::NotObserved { text }),
        Observed::Astray { text } => Ok(Decision::NotObserved { text }),
        Observed::Journal { text } => Ok(Decision::Observed { text }),
    }
}
