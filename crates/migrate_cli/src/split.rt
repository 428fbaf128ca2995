ghost use Rattle.std.specs.Prelude.{◌≡◌, ◌<◌, ◌≤◌, ◌↔◌, IfOk, IsTrue, length};
ghost use Rattle.step_scripts.specs.WaveFiles.{NamesWaves};
ghost use Rattle.migrate_cli.specs.Reading.{NamedText, named_text};
ghost use Rattle.migrate_cli.specs.SplitDecision.{IsCutText, IsSplitDecision, IsYes};

use crate::OutOfMemory;
use crate::check::check_read;
use crate::files::{FILE_MOST, bad_order};
use crate::moves::Move;
use migration_report::Decision;
use net_addr::Bytes;
use net_model::Net;
use split_waves::split_waves;
use std::alloc::{AllocError, Global};
use step_scripts::{OrderRefusal, WaveFile, read_waves, wave_list_text};

/// What is decided of the text of an order file and a network with a router: its waves, cut into waves of at most so many
/// routers, where they are safe.
pub(crate) fn judge_split(
    alloc: Global,
    file: &str,
    order: &Bytes,
    most: u32,
    net: &Net,
) -> Result<Decision, OutOfMemory>
    requires short { length order.now ≤ FILE_MOST }
    requires most { 1 ≤ most }
    requires some { 0 < length net.now }
    ensures { IfOk result (IsSplitDecision (named_text file.now order.now) most net.now) }
{
    match read_waves(alloc, net, order.as_slice()) {
        Ok(read) => split_read(alloc, &read, most, net),
        Err(OrderRefusal::OutOfMemory) => Err(AllocError),
        Err(OrderRefusal::Bad { line, kind }) => bad_order(alloc, file, line, kind),
    }
}

/// What is decided of the waves of an order file: what `check` says of them where that is no yes, else these waves, cut.
fn split_read(alloc: Global, read: &WaveFile, most: u32, net: &Net) -> Result<Decision, OutOfMemory>
    requires most { 1 ≤ most }
    requires each { length read.now.waves ≡ length net.now }
    ensures { (order : NamedText) → NamesWaves net.now order.text read.now.version read.now.waves →
        IfOk result (IsSplitDecision order most net.now) }
{
    let checked = check_read(alloc, read, &Move::to_isis(net))?;
    if is_yes(&checked) {
        return cut_read(alloc, read, most, net);
    }
    Ok(checked)
}

/// The order file of the waves of an order file, cut.
fn cut_read(alloc: Global, read: &WaveFile, most: u32, net: &Net) -> Result<Decision, OutOfMemory>
    requires most { 1 ≤ most }
    requires each { length read.now.waves ≡ length net.now }
    ensures { IfOk result (IsCutText net.now most read.now.waves) }
{
    let _routers = net.routers();
    let split = split_waves(alloc, &read.waves, most)?;
    let text = wave_list_text(alloc, net, &split)?;
    Ok(Decision::Split { text })
}

/// Whether a decision of `check` is a yes.
pub(crate) fn is_yes(decision: &Decision) -> bool
    ensures { IsTrue result ↔ IsYes decision.now }
{
    matches!(decision, Decision::Safe | Decision::SafeWaves { .. })
}
