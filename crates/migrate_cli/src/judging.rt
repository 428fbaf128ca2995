ghost use Rattle.std.specs.Prelude.{◌≡◌, ◌≢◌, ◌<◌, ◌≤◌, ◌∷◌, ℕ, List, [], All, IfOk, MatchOption, OnOk, length};
ghost use Rattle.net_model.specs.Configuration.{Configuration};
ghost use Rattle.net_model.specs.Network.{HasConfiguration};
ghost use Rattle.net_model.specs.OffStarts.{IsLowestOffStart};
ghost use Rattle.sample_network.specs.SampleTexts.{sample_text};
ghost use Rattle.design_writer.specs.CostDesigns.{HaveTextNames};
ghost use Rattle.migrate_words.specs.Asked.{IsInRange};
ghost use Rattle.migrate_cli.specs.CommandFiles.{AsksNetworks, NeedsStart, OverNetworks, config_texts, files_of, given_texts, groups_of};
ghost use Rattle.migrate_cli.specs.CommandFiles.{own_files, own_texts, text_names};
ghost use Rattle.migrate_cli.specs.steps.FilesRead.{AreTextsApart, IsJudgedAtOnce, ReadsFiles, kept_texts};
ghost use Rattle.migrate_cli.specs.Configurations.{GiveNetwork, GiveNetworks, IsAtStart};
ghost use Rattle.migrate_cli.specs.Reading.{AreShort};
ghost use Rattle.migrate_cli.specs.steps.Unread.{RefusesUnread};
ghost use Rattle.migrate_cli.specs.Outcomes.{IsOutcome};

use crate::OutOfMemory;
use crate::commands::{judge_command, judge_pair, needs_start, over_networks};
use crate::configurations::{Unread, read_all, read_two};
use crate::failures::judge_failures;
use crate::files::{FILE_MOST, name_bytes, text_names};
use crate::observing::judge_observe;
use crate::surveying::judge_survey;
use migrate_words::{Command, CommandKind};
use migration_report::{Decision, Outcome, Refusal};
use net_addr::{Bytes, Name};
use net_model::{Net, NetRefusal};
use ospf_pair::{PairNet, PairRefusal, pair_or_refusal};
use sample_network::sample_text;
use std::alloc::{AllocError, Global};
use store_edge::Sink;

/// What a command comes to on the texts of its files. A long one says on a sink how far it is.
pub(crate) fn judge<P: Sink>(
    alloc: Global,
    command: &Command<'_>,
    texts: Vec<Bytes>,
    progress: &mut P,
) -> Result<Outcome, OutOfMemory>
    requires range { IsInRange command.now }
    requires short { AreShort (files_of command.now) texts.items }
    ensures { IfOk result (IsOutcome command.now (given_texts (own_texts command.now texts.items) (config_texts command.now texts.items))) }
{
    match command.kind {
        CommandKind::Sample => judge_made(alloc, command),
        CommandKind::Survey => judge_survey(alloc, command, texts.as_slice()),
        CommandKind::Observe => judge_observe(alloc, command, texts.as_slice()),
        CommandKind::Failures => judge_failures(alloc, command, texts, progress),
        _ => judge_read(alloc, command, texts),
    }
}

/// What `sample` comes to on the text that is made of so many routers.
fn judge_made(alloc: Global, command: &Command<'_>) -> Result<Outcome, OutOfMemory>
    requires kind { command.now.kind ≡ CommandKind.Sample }
    requires range { IsInRange command.now }
    ensures { IfOk result (IsOutcome command.now (given_texts [] (sample_text command.now.number ∷ []))) }
{
    let mut texts = Vec::new(alloc);
    texts.push(sample_text(alloc, command.number)?)?;
    judge_texts(alloc, command, &[], texts)
}

/// What a command that reads files comes to on their texts.
fn judge_read(
    alloc: Global,
    command: &Command<'_>,
    texts: Vec<Bytes>,
) -> Result<Outcome, OutOfMemory>
    requires reads { ReadsFiles command.now.kind }
    requires networks { AsksNetworks command.now.kind }
    requires at_once { IsJudgedAtOnce command.now.kind }
    requires range { IsInRange command.now }
    requires short { AreShort (files_of command.now) texts.items }
    ensures { IfOk result (IsOutcome command.now (given_texts (own_texts command.now texts.items) (config_texts command.now texts.items))) }
{
    let (own, configs) = split_texts(command, texts)?;
    if over_networks(command.kind) {
        judge_networks(alloc, command, own.as_slice(), configs)
    } else {
        judge_texts(alloc, command, own.as_slice(), configs)
    }
}

/// The texts of a command's own files, and those of its configurations.
pub(crate) fn split_texts(
    command: &Command<'_>,
    texts: Vec<Bytes>,
) -> Result<(Vec<Bytes>, Vec<Bytes>), OutOfMemory>
    requires reads { ReadsFiles command.now.kind }
    requires short { AreShort (files_of command.now) texts.items }
    ensures { IfOk result (λ parts. AreTextsApart command.now texts.items parts.0.items parts.1.items) }
{
    let mut own = texts;
    let place = own.len() - text_names(command).len();
    let configs = own.split_off(place)?;
    Ok((own, configs))
}

/// What a command over one network comes to on the texts of its own files and those of configurations. Once these are read,
/// the memory of their texts is free for the network and its tables, unless the command asks for them.
fn judge_texts(
    alloc: Global,
    command: &Command<'_>,
    own: &[Bytes],
    texts: Vec<Bytes>,
) -> Result<Outcome, OutOfMemory>
    requires networks { AsksNetworks command.now.kind }
    requires one { OverNetworks command.now.kind → ⊥ }
    requires at_once { IsJudgedAtOnce command.now.kind }
    requires range { IsInRange command.now }
    requires own { AreShort (own_files command.now) own.now }
    requires each { length (text_names command.now) ≡ length texts.items }
    requires short { All (λ text. length text ≤ FILE_MOST) texts.items }
    ensures { IfOk result (IsOutcome command.now (given_texts own.now texts.items)) }
{
    let configs = match read_all(alloc, text_names(command), texts.as_slice()) {
        Ok(configs) => configs,
        Err(unread) => return refuse_unread(alloc, unread),
    };
    let kept = kept_texts(alloc, command.kind, texts);
    match Net::build(alloc, configs) {
        Ok(net) => judge_network(alloc, command, own, kept.as_slice(), net),
        Err(refusal) => refuse_network(refusal),
    }
}

/// The texts of configurations for which a command asks once they are read. The memory of the others is free.
fn kept_texts(alloc: Global, kind: CommandKind, texts: Vec<Bytes>) -> Vec<Bytes>
    ensures { result.items ≡ kept_texts kind texts.items }
{
    match kind {
        CommandKind::Prepare | CommandKind::Delta => texts,
        _ => Vec::new(alloc),
    }
}

/// What a command over two networks comes to on the texts of its own files and those of configurations.
fn judge_networks(
    alloc: Global,
    command: &Command<'_>,
    own: &[Bytes],
    texts: Vec<Bytes>,
) -> Result<Outcome, OutOfMemory>
    requires over { OverNetworks command.now.kind }
    requires range { IsInRange command.now }
    requires own { AreShort (own_files command.now) own.now }
    requires each { length (text_names command.now) ≡ length texts.items }
    requires short { All (λ text. length text ≤ FILE_MOST) texts.items }
    ensures { IfOk result (IsOutcome command.now (given_texts own.now texts.items)) }
{
    let (old, new) = match read_two(alloc, text_names(command), texts.as_slice()) {
        Ok(both) => both,
        Err(unread) => return refuse_unread(alloc, unread),
    };
    drop(texts);
    let old = match Net::build(alloc, old) {
        Ok(old) => old,
        Err(refusal) => return refuse_network(refusal),
    };
    match Net::build(alloc, new) {
        Ok(new) => judge_two(alloc, command, own, (old, new)),
        Err(refusal) => refuse_network(refusal),
    }
}

/// What a command over two networks comes to on the texts of its own files and the two networks.
fn judge_two(
    alloc: Global,
    command: &Command<'_>,
    own: &[Bytes],
    nets: (Net, Net),
) -> Result<Outcome, OutOfMemory>
    requires over { OverNetworks command.now.kind }
    requires range { IsInRange command.now }
    requires some { 0 < length nets.0 }
    requires own { AreShort (own_files command.now) own.now }
    ensures { (texts : List (List ℕ)) → IfOk result (λ outcome. GiveNetworks (groups_of command.now.kind texts)
        (nets.0 ∷ nets.1 ∷ []) → IsOutcome command.now (given_texts own.now texts) outcome) }
{
    let (old, new) = nets;
    if let Some(router) = off_start(command, &old) {
        return refuse_start(alloc, &old, router);
    }
    match pair_or_refusal(alloc, &old, &new) {
        Ok(()) => {
            let pair = PairNet::new(old, new);
            let decision = judge_pair(alloc, command, own, &pair)?;
            let net = pair.into_old();
            Ok(Outcome::Decided { net, decision })
        }
        Err(refusal) => refuse_pair(old, refusal),
    }
}

/// What a call comes to whose networks make no pair.
fn refuse_pair(net: Net, refusal: PairRefusal) -> Result<Outcome, OutOfMemory>
    ensures told { OnOk result (refusal ≢ PairRefusal.OutOfMemory) }
    ensures outcome { IfOk result (λ outcome. outcome ≡ Outcome.Decided net (Decision.BadPair refusal)) }
{
    match refusal {
        PairRefusal::OutOfMemory => Err(AllocError),
        refusal => {
            let decision = Decision::BadPair { refusal };
            Ok(Outcome::Decided { net, decision })
        }
    }
}

/// What a call comes to of which a router isn't where a migration starts.
pub(crate) fn refuse_start(alloc: Global, net: &Net, router: u32) -> Result<Outcome, OutOfMemory>
    requires { router < length net.now }
    ensures { IfOk result (λ outcome. (config : Configuration) → HasConfiguration net.now router config →
        outcome ≡ Outcome.Refused (Refusal.OffStart config.name)) }
{
    let name = copied_name(alloc, &net.config(router).name)?;
    let refusal = Refusal::OffStart { name };
    Ok(Outcome::Refused { refusal })
}

/// What a call comes to whose configurations make no network.
pub(crate) fn refuse_network(refusal: NetRefusal) -> Result<Outcome, OutOfMemory>
    ensures told { OnOk result (refusal ≢ NetRefusal.OutOfMemory) }
    ensures outcome { IfOk result (λ outcome. outcome ≡ Outcome.Refused (Refusal.Network refusal)) }
{
    match refusal {
        NetRefusal::OutOfMemory => Err(AllocError),
        refusal => {
            let refusal = Refusal::Network { refusal };
            Ok(Outcome::Refused { refusal })
        }
    }
}

/// What a call comes to where the configurations of some files aren't read.
pub(crate) fn refuse_unread(alloc: Global, unread: Unread<'_>) -> Result<Outcome, OutOfMemory>
    ensures { IfOk result (RefusesUnread unread.entry) }
{
    match unread {
        Unread::Bad { file, line, kind } => {
            let file = name_bytes(alloc, file)?;
            let refusal = Refusal::Config { file, line, kind };
            Ok(Outcome::Refused { refusal })
        }
        Unread::OutOfMemory => Err(AllocError),
    }
}

/// What a command comes to on the texts of its own files, those of its configurations that it keeps, and the network of all these.
fn judge_network(
    alloc: Global,
    command: &Command<'_>,
    own: &[Bytes],
    configs: &[Bytes],
    net: Net,
) -> Result<Outcome, OutOfMemory>
    requires range { IsInRange command.now }
    requires some { 0 < length net }
    requires own { AreShort (own_files command.now) own.now }
    requires networks { AsksNetworks command.now.kind }
    requires one { OverNetworks command.now.kind → ⊥ }
    requires at_once { IsJudgedAtOnce command.now.kind }
    requires configs { All (λ text. length text ≤ FILE_MOST) configs.now }
    requires names { HaveTextNames net }
    ensures { (texts : List (List ℕ)) → configs.now ≡ kept_texts command.now.kind texts →
        IfOk result (λ outcome. GiveNetwork texts net → IsOutcome command.now (given_texts own.now texts) outcome) }
{
    if let Some(router) = off_start(command, &net) {
        return refuse_start(alloc, &net, router);
    }
    let decision = judge_command(alloc, command, own, configs, &net)?;
    Ok(Outcome::Decided { net, decision })
}

/// The same name.
fn copied_name(alloc: Global, name: &Name) -> Result<Name, OutOfMemory>
    ensures { IfOk result (λ copied. copied ≡ name.now) }
{
    Ok(Name::from_vec(Vec::from_slice(alloc, name.as_slice())?))
}

/// The lowest router that isn't where a migration starts, where the command asks for it.
fn off_start(command: &Command<'_>, net: &Net) -> Option<u32>
    ensures { MatchOption result
        (NeedsStart command.now.kind → IsAtStart net.now)
        (λ router. NeedsStart command.now.kind × IsLowestOffStart net.now router) }
{
    if needs_start(command.kind) {
        net.off_start()
    } else {
        None
    }
}
