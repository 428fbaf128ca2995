ghost use Rattle.std.specs.Prelude.{◌≡◌, ◌≢◌, ◌<◌, ◌^◌, ◌++◌, ◌||◌, All, IfOk, flat_map, length, map, nat_lt};
ghost use Rattle.refused_texts.specs.Texts.{network_text};
ghost use Rattle.survey_report.specs.FaultTexts.{faults_text};
ghost use Rattle.survey_report.specs.KindTexts.{AreKindTexts};
ghost use Rattle.survey_report.specs.SurveyFiles.{survey_files};
ghost use Rattle.survey_report.specs.SurveyTexts.{IsConfigurationsSurvey, IsNetworkSurvey, IsSurveyText, last_kinds, odd_kinds, read_kinds, standing_out, uneven_kinds};

use crate::OutOfMemory;
use crate::fault_lines::{any_faulty, faults_text};
use crate::kind_texts::kinds_text;
use crate::kinds::{LineKind, Protocol};
use crate::network_read::NetworkRead;
use crate::reading::{FileFaults, read_files};
use crate::survey_file::{SurveyFile, survey_files};
use net_addr::Bytes;
use net_model::{Config, Configs, Net, NetRefusal};
use network_survey::{Surveyed, network_or_refusals};
use refused_texts::network_text;
use std::alloc::Global;
use std::marker::Model;

/// What a survey tells, and whether something stands out.
#[derive(Drop)]
pub struct SurveyText {
    /// What is told.
    pub text: Bytes,
    /// Whether something stands out.
    pub stands_out: bool,
}

impl Model for SurveyText {
    ghost use Rattle.survey_report.specs.SurveyTexts.{SurveyText};

    ghost Value = { SurveyText };

    ghost view = { λ x. record { text = x.text; stands_out = x.stands_out } };
}

/// What is told of files of these names, with these texts, each of fewer than 2^26 bytes. The only error is want of memory.
pub fn survey_text(
    alloc: Global,
    names: &[&str],
    texts: &[Bytes],
) -> Result<SurveyText, OutOfMemory>
    requires lengths { length names.now ≡ length texts.now }
    requires short { All (λ text. length text < 2 ^ 26) texts.now }
    ensures { IfOk result (IsSurveyText (survey_files (map (λ name. name.now) names.now) texts.now)) }
{
    let files = survey_files(alloc, names, texts)?;
    files_survey(alloc, files.as_slice())
}

/// What is told of files.
fn files_survey(alloc: Global, files: &[SurveyFile<'_>]) -> Result<SurveyText, OutOfMemory>
    ensures { IfOk result (IsSurveyText files.now) }
{
    let read = read_files(alloc, files)?;
    if any_faulty(read.found()) {
        return faults_survey(alloc, read.found());
    }
    configurations_survey(alloc, files, read.into_configs())
}

/// What is told of files that have faulty lines.
fn faults_survey(alloc: Global, found: &[FileFaults<'_, '_>]) -> Result<SurveyText, OutOfMemory>
    ensures { IfOk result (λ survey. survey ≡ standing_out (faults_text found.now)) }
{
    Ok(SurveyText {
        text: faults_text(alloc, found)?,
        stands_out: true,
    })
}

/// What is told of files that were read as these configurations.
fn configurations_survey(
    alloc: Global,
    files: &[SurveyFile<'_>],
    configs: Vec<Config>,
) -> Result<SurveyText, OutOfMemory>
    ensures { IfOk result (IsConfigurationsSurvey files.now configs.items) }
{
    let surveyed = network_or_refusals(alloc, Configs::from_vec(configs))?;
    match surveyed {
        Surveyed::Network(net) => network_survey(alloc, files, &net),
        Surveyed::Refused(found) => refusals_survey(alloc, found.as_slice()),
    }
}

/// What is told of configurations whose network is refused so.
fn refusals_survey(alloc: Global, found: &[NetRefusal]) -> Result<SurveyText, OutOfMemory>
    requires { All (λ refusal. refusal ≢ NetRefusal.OutOfMemory) found.now }
    ensures { IfOk result (λ survey. survey ≡ standing_out (flat_map network_text found.now)) }
{
    Ok(SurveyText {
        text: refusals_text(alloc, found)?,
        stands_out: true,
    })
}

/// The lines of these refusals.
fn refusals_text(alloc: Global, found: &[NetRefusal]) -> Result<Bytes, OutOfMemory>
    requires { All (λ refusal. refusal ≢ NetRefusal.OutOfMemory) found.now }
    ensures { IfOk result (λ text. text ≡ flat_map network_text found.now) }
{
    let mut text = Vec::new(alloc);
    for refusal in found {
        let line = network_text(alloc, refusal)?;
        text.extend_from_slice(line.as_slice())?;
    }
    Ok(Bytes::from_vec(text))
}

/// What is told of files whose network is this.
fn network_survey(
    alloc: Global,
    files: &[SurveyFile<'_>],
    net: &Net,
) -> Result<SurveyText, OutOfMemory>
    ensures { IfOk result (IsNetworkSurvey (record { net = net.now; files = files.now })) }
{
    let read = NetworkRead::of(alloc, net, files)?;
    let network = read_text(alloc, &read)?;
    let odd = odd_text(alloc, &read)?;
    let uneven = uneven_text(alloc, &read)?;
    let last = last_text(alloc, &read)?;
    put_together(network, odd.as_slice(), uneven.as_slice(), last.as_slice())
}

/// What was read of a network.
fn read_text(alloc: Global, read: &NetworkRead<'_, '_, '_>) -> Result<Bytes, OutOfMemory>
    ensures { IfOk result (AreKindTexts read.now read_kinds) }
{
    let kinds = [LineKind::Counts, LineKind::Routers];
    kinds_text(alloc, read, &kinds)
}

/// What is odd between its routers.
fn odd_text(alloc: Global, read: &NetworkRead<'_, '_, '_>) -> Result<Bytes, OutOfMemory>
    ensures { IfOk result (AreKindTexts read.now odd_kinds) }
{
    let kinds = [
        LineKind::Silent,
        LineKind::Half,
        LineKind::Masks,
        LineKind::OneSide(Protocol::Ospf),
        LineKind::OneSide(Protocol::Level1),
        LineKind::OneSide(Protocol::Level2),
        LineKind::Apart,
    ];
    kinds_text(alloc, read, &kinds)
}

/// Its links that cost differently at their ends, which don't stand out.
fn uneven_text(alloc: Global, read: &NetworkRead<'_, '_, '_>) -> Result<Bytes, OutOfMemory>
    ensures { IfOk result (AreKindTexts read.now uneven_kinds) }
{
    let kinds = [
        LineKind::Uneven(Protocol::Ospf),
        LineKind::Uneven(Protocol::Level1),
        LineKind::Uneven(Protocol::Level2),
    ];
    kinds_text(alloc, read, &kinds)
}

/// What is odd about its routers by themselves, and about the texts of the files.
fn last_text(alloc: Global, read: &NetworkRead<'_, '_, '_>) -> Result<Bytes, OutOfMemory>
    ensures { IfOk result (AreKindTexts read.now last_kinds) }
{
    let kinds = [
        LineKind::Start,
        LineKind::Odd,
        LineKind::Flat,
        LineKind::Acts,
    ];
    kinds_text(alloc, read, &kinds)
}

/// What is told of a network, put together from the texts of its kinds.
fn put_together(
    network: Bytes,
    odd: &[u8],
    uneven: &[u8],
    last: &[u8],
) -> Result<SurveyText, OutOfMemory>
    ensures { IfOk result (λ survey. survey ≡ record {
      text = network ++ odd.now ++ uneven.now ++ last.now;
      stands_out = nat_lt 0 (length odd.now) || nat_lt 0 (length last.now);
    }) }
{
    let mut text = network.into_vec();
    text.extend_from_slice(odd)?;
    text.extend_from_slice(uneven)?;
    text.extend_from_slice(last)?;
    Ok(SurveyText {
        text: Bytes::from_vec(text),
        stands_out: 0 < odd.len() || 0 < last.len(),
    })
}
