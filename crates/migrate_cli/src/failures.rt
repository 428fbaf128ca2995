ghost use Rattle.std.specs.Prelude.{◌≡◌, ◌≢◌, ◌<◌, ◌≤◌, All, IfOk, OnOk, length};
ghost use Rattle.failure_texts.specs.LinkVerdicts.{IsToldVerdict};
ghost use Rattle.igp_theory.specs.LoopLaws.{AreSoundEnds};
ghost use Rattle.migrate_words.specs.Asked.{IsInRange};
ghost use Rattle.order_core.specs.Orders.{AreDistinct};
ghost use Rattle.ospf_routes.specs.RouteTables.{table_at};
ghost use Rattle.rib_mix.specs.Mixture.{migration_of};
ghost use Rattle.step_scripts.specs.WaveFiles.{NamesWaves};
ghost use Rattle.migrate_cli.specs.CommandFiles.{config_texts, files_of, given_texts, own_texts};
ghost use Rattle.migrate_cli.specs.FailuresDecision.{AreFailedLinks, IsFailuresDecision, IsLinkVerdict, IsToldFailures};
ghost use Rattle.migrate_cli.specs.FailuresDecision.{IsVerdictOver, told_failures};
ghost use Rattle.migrate_cli.specs.Outcomes.{IsOutcome};
ghost use Rattle.migrate_cli.specs.Reading.{AreShort, NamedText, named_text};
ghost use Rattle.migrate_cli.specs.SplitDecision.{IsYes};
ghost use Rattle.migrate_cli.specs.steps.FirstUnsound.{IsEndFault};
ghost use Rattle.migrate_cli.specs.steps.StandingNetworks.{IsStandingOutcome, IsLinksDecision};
ghost use Rattle.migrate_cli.specs.steps.Tables.{move_of, new_table};

use crate::OutOfMemory;
use crate::check::{check_read, unsound_state, unsound_wave};
use crate::commands::first_own;
use crate::configurations::read_all;
use crate::files::{FILE_MOST, bad_order, text_names};
use crate::judging::{refuse_network, refuse_start, refuse_unread, split_texts};
use crate::moves::Move;
use crate::picture::checked_line;
use crate::progress::Progress;
use crate::split::is_yes;
use crate::tables::{NewRoutes, Tables};
use failed_links::{links, without};
use failure_texts::{FailedLink, LinkVerdict, failures_text, has_break};
use igp_theory::Phase;
use loop_finder::Finder;
use migrate_words::{Command, CommandKind};
use migration_report::{Decision, Outcome};
use net_addr::{Bytes, Prefix};
use net_model::{Net, NetRefusal, Zone};
use order_core::Waves;
use ospf_routes::{OspfRoutes, area_zones};
use plan_theory::EndFault;
use rib_mix::Mixed;
use std::alloc::{AllocError, Global};
use step_scripts::{OrderRefusal, Version, WaveFile, read_waves};
use store_edge::Sink;
use wave_oracle::whole_fault;
use zone_graph::KnownWalks;

/// What `failures` comes to on the texts of its files. How far it is, is said on a sink.
pub(crate) fn judge_failures<P: Sink>(
    alloc: Global,
    command: &Command<'_>,
    texts: Vec<Bytes>,
    progress: &mut P,
) -> Result<Outcome, OutOfMemory>
    requires kind { command.now.kind ≡ CommandKind.Failures }
    requires range { IsInRange command.now }
    requires short { AreShort (files_of command.now) texts.items }
    ensures { IfOk result (IsOutcome command.now (given_texts (own_texts command.now texts.items) (config_texts command.now texts.items))) }
{
    let (own, configs) = split_texts(command, texts)?;
    let read = match read_all(alloc, text_names(command), configs.as_slice()) {
        Ok(read) => read,
        Err(unread) => return refuse_unread(alloc, unread),
    };
    drop(configs);
    match Net::build(alloc, read) {
        Ok(net) => judge_standing(alloc, first_own(command, own.as_slice()), net, progress),
        Err(refusal) => refuse_network(refusal),
    }
}

/// What it comes to on its order file, which is this name and this text, and the network of the configurations.
fn judge_standing<P: Sink>(
    alloc: Global,
    order: (&str, &Bytes),
    net: Net,
    progress: &mut P,
) -> Result<Outcome, OutOfMemory>
    requires short { length order.1.now ≤ FILE_MOST }
    requires some { 0 < length net }
    ensures { IfOk result (IsStandingOutcome (named_text order.entry.0.now order.entry.1.now) net) }
{
    if let Some(router) = net.off_start() {
        return refuse_start(alloc, &net, router);
    }
    let decision = judge_links(alloc, order, &net, progress)?;
    Ok(Outcome::Decided { net, decision })
}

/// What is decided of the text of an order file of routers and a network with a router: what `check` decides of it, and where that is
/// a yes, what it comes to without each of the network's links.
fn judge_links<P: Sink>(
    alloc: Global,
    order: (&str, &Bytes),
    net: &Net,
    progress: &mut P,
) -> Result<Decision, OutOfMemory>
    requires short { length order.1.now ≤ FILE_MOST }
    requires some { 0 < length net.now }
    ensures { IfOk result (IsFailuresDecision (named_text order.entry.0.now order.entry.1.now) net.now) }
{
    let (file, text) = order;
    match read_waves(alloc, net, text.as_slice()) {
        Ok(read) => judge_list(alloc, &read, net, progress),
        Err(OrderRefusal::OutOfMemory) => Err(AllocError),
        Err(OrderRefusal::Bad { line, kind }) => bad_order(alloc, file, line, kind),
    }
}

/// What is decided of the waves of an order file.
fn judge_list<P: Sink>(
    alloc: Global,
    read: &WaveFile,
    net: &Net,
    progress: &mut P,
) -> Result<Decision, OutOfMemory>
    requires each { length read.now.waves ≡ length net.now }
    ensures { (order : NamedText) → NamesWaves net.now order.text read.now.version read.now.waves →
        IfOk result (IsFailuresDecision order net.now) }
{
    let checked = check_read(alloc, read, &Move::to_isis(net))?;
    if is_yes(&checked) {
        return judge_each(alloc, read, net, &checked, progress);
    }
    Ok(checked)
}

/// What is decided of them where `check` says yes: what they come to without each link.
fn judge_each<P: Sink>(
    alloc: Global,
    read: &WaveFile,
    net: &Net,
    checked: &Decision,
    progress: &mut P,
) -> Result<Decision, OutOfMemory>
    requires each { length read.now.waves ≡ length net.now }
    requires yes { IsYes checked.now }
    ensures { IfOk result (IsLinksDecision net.now read.now.version read.now.waves checked.now) }
{
    let _routers = net.routers();
    let failed = links_failed(alloc, read, net, progress)?;
    tell_failures(alloc, net, checked, failed.as_slice())
}

/// What is told where `check` says yes and the links come to this.
fn tell_failures(
    alloc: Global,
    net: &Net,
    checked: &Decision,
    failed: &[FailedLink],
) -> Result<Decision, OutOfMemory>
    requires yes { IsYes checked.now }
    requires told { All (λ x. IsToldVerdict (length net.now) x.verdict) failed.now }
    ensures { IfOk result (IsToldFailures net.now checked.now failed.now) }
{
    let text = failures_behind(alloc, net, checked, failed)?;
    if has_break(failed) {
        return Ok(Decision::ExplainedUnsafe { text });
    }
    Ok(Decision::ExplainedSafe { text })
}

/// The line of `check`, and behind it those of the links.
fn failures_behind(
    alloc: Global,
    net: &Net,
    checked: &Decision,
    failed: &[FailedLink],
) -> Result<Bytes, OutOfMemory>
    requires yes { IsYes checked.now }
    requires told { All (λ x. IsToldVerdict (length net.now) x.verdict) failed.now }
    ensures { IfOk result (λ text. text ≡ told_failures net.now checked.now failed.now) }
{
    let first = checked_line(alloc, net, checked)?;
    let lines = failures_text(alloc, net, failed)?;
    let mut text = first.into_vec();
    text.extend_from_slice(lines.as_slice())?;
    Ok(Bytes::from_vec(text))
}

/// The links of a network, ascending, with what a list comes to without each.
fn links_failed<P: Sink>(
    alloc: Global,
    read: &WaveFile,
    net: &Net,
    progress: &mut P,
) -> Result<Vec<FailedLink>, OutOfMemory>
    requires { length read.now.waves ≡ length net.now }
    ensures { IfOk result (λ failed. AreFailedLinks net.now read.now.version read.now.waves failed.items) }
{
    let links = links(alloc, net)?;
    let known = known_walks(alloc, net)?;
    let mut failed = Vec::with_capacity(alloc, links.len())?;
    for link in links.as_slice() {
        let verdict = link_verdict(alloc, read, net, &known, *link)?;
        failed.push(FailedLink {
            link: *link,
            verdict,
        })?;
        let step = Progress {
            command: "failures",
            done: failed.len(),
            all: links.len(),
            things: "links",
        };
        step.say(alloc, progress);
    }
    Ok(failed)
}

/// The least walks of a network's areas and levels. Without a link an area or a level without it keeps its own, and in the
/// others each router from which none of them goes over the link.
fn known_walks(alloc: Global, net: &Net) -> Result<KnownWalks, OutOfMemory> {
    let mut zones = area_zones(alloc, net)?;
    zones.push(Zone::One)?;
    zones.push(Zone::Two)?;
    Ok(KnownWalks::of_zones(alloc, net, zones.as_slice())?)
}

/// What a list comes to without a link: the network without it is refused, or judged.
fn link_verdict(
    alloc: Global,
    read: &WaveFile,
    net: &Net,
    known: &KnownWalks,
    link: Prefix,
) -> Result<LinkVerdict, OutOfMemory>
    requires { length read.now.waves ≡ length net.now }
    ensures { IfOk result (IsLinkVerdict net.now read.now.version read.now.waves link) }
{
    match without(alloc, net, link) {
        Ok(rest) => verdict_over(alloc, read, known, &Move::to_isis(&rest)),
        Err(refusal) => refused_verdict(refusal),
    }
}

/// What a list comes to where there is no network without a link.
fn refused_verdict(refusal: NetRefusal) -> Result<LinkVerdict, OutOfMemory>
    ensures told { OnOk result (refusal ≢ NetRefusal.OutOfMemory) }
    ensures verdict { IfOk result (λ verdict. verdict ≡ LinkVerdict.Refused refusal) }
{
    match refusal {
        NetRefusal::OutOfMemory => Err(AllocError),
        refusal => Ok(LinkVerdict::Refused { refusal }),
    }
}

/// What a list comes to in a migration, by the tables before and after.
fn verdict_over(
    alloc: Global,
    read: &WaveFile,
    known: &KnownWalks,
    of: &Move<'_>,
) -> Result<LinkVerdict, OutOfMemory>
    requires { length read.now.waves ≡ length of.now.net }
    ensures { IfOk result (IsVerdictOver (move_of of.now) read.now.waves read.now.version) }
{
    let tables = Tables::over(alloc, of, known)?;
    let mixed = tables.mix(alloc)?;
    let verdict = mixed_verdict(alloc, read, &mixed)?;
    Ok(verdict)
}

/// What a list comes to by mixed forwarding: first both ends are looked at, and where they are sound the list.
fn mixed_verdict(
    alloc: Global,
    read: &WaveFile,
    mixed: &Mixed<'_, OspfRoutes, NewRoutes>,
) -> Result<LinkVerdict, OutOfMemory>
    requires { length read.now.waves ≡ length mixed.now.net }
    ensures { IfOk result (IsVerdictOver (migration_of table_at new_table mixed.now) read.now.waves read.now.version) }
{
    let routers = mixed.net().routers();
    let mut finder = Finder::new(alloc, mixed)?;
    if let Some(fault) = end_fault(alloc, &mut finder, routers, Phase::Old)? {
        return Ok(LinkVerdict::UnsoundOld { fault });
    }
    if let Some(fault) = end_fault(alloc, &mut finder, routers, Phase::New)? {
        return Ok(LinkVerdict::UnsoundNew { fault });
    }
    match read.version {
        Version::One => order_verdict(alloc, &mut finder, &read.waves),
        Version::Two => waves_verdict(alloc, &mut finder, &read.waves),
    }
}

/// What is wrong in the state in which each of so many routers is in this phase; none where it is sound.
fn end_fault(
    alloc: Global,
    finder: &mut Finder<'_, OspfRoutes, NewRoutes>,
    routers: u32,
    phase: Phase,
) -> Result<Option<EndFault>, OutOfMemory>
    requires { routers ≡ length finder.old.mixture.net }
    ensures end { IfOk result (IsEndFault (migration_of table_at new_table finder.old.mixture) phase) }
    ensures mixture { finder.new.mixture ≡ finder.old.mixture }
{
    let phases = vec![in alloc; phase; routers as usize]?;
    match finder.state_fault(phases.as_slice()) {
        None => Ok(None),
        Some(fault) => Ok(Some(whole_fault(alloc, fault, finder.ring())?)),
    }
}

/// What an order of the routers comes to between sound ends.
fn order_verdict(
    alloc: Global,
    finder: &mut Finder<'_, OspfRoutes, NewRoutes>,
    waves: &Waves,
) -> Result<LinkVerdict, OutOfMemory>
    requires each { length waves.now ≡ length finder.old.mixture.net }
    requires ones { AreDistinct waves.now }
    requires ends { AreSoundEnds (migration_of table_at new_table finder.old.mixture) }
    ensures { IfOk result (IsVerdictOver (migration_of table_at new_table finder.old.mixture) waves.now Version.One) }
{
    let _ranks = waves.ranks();
    match unsound_state(alloc, finder, waves.flat())? {
        None => Ok(LinkVerdict::Withstood),
        Some((state, fault)) => Ok(LinkVerdict::Breaks { state, fault }),
    }
}

/// What a wave list comes to between sound ends.
fn waves_verdict(
    alloc: Global,
    finder: &mut Finder<'_, OspfRoutes, NewRoutes>,
    waves: &Waves,
) -> Result<LinkVerdict, OutOfMemory>
    requires each { length waves.now ≡ length finder.old.mixture.net }
    requires ends { AreSoundEnds (migration_of table_at new_table finder.old.mixture) }
    ensures { IfOk result (IsVerdictOver (migration_of table_at new_table finder.old.mixture) waves.now Version.Two) }
{
    match unsound_wave(alloc, finder, waves)? {
        None => Ok(LinkVerdict::Withstood),
        Some((wave, fault)) => Ok(LinkVerdict::BreaksWave { wave, fault }),
    }
}
