ghost use Rattle.std.specs.Prelude.{◌≡◌, ◌<◌, ◌≤◌, IfOk, Some, length};
ghost use Rattle.drawn_network.specs.Marks.{fault_marked};
ghost use Rattle.migration_report.specs.Outcomes.{decision_text};
ghost use Rattle.plan_theory.specs.Plans.{fault_told};
ghost use Rattle.migrate_cli.specs.PictureDecision.{Draws, IsDrawn, IsListVerdict, IsPictureDecision, drawn_fault};
ghost use Rattle.migrate_cli.specs.Reading.{named_text};

use crate::OutOfMemory;
use crate::check::check_read;
use crate::files::{FILE_MOST, bad_order};
use crate::moves::Move;
use crate::split::is_yes;
use drawn_network::{Mark, picture_text};
use migration_report::{Decision, safe_text, unsafe_text, waves_safe_text, waves_unsafe_text};
use net_addr::Bytes;
use net_model::Net;
use order_core::Waves;
use plan_theory::EndFault;
use std::alloc::{AllocError, Global};
use step_scripts::{OrderRefusal, read_waves};

/// What is decided of the text of an order file of routers and a network with a router: what `check` decides of it, as a picture.
pub(crate) fn judge_picture(
    alloc: Global,
    file: &str,
    order: &Bytes,
    net: &Net,
) -> Result<Decision, OutOfMemory>
    requires short { length order.now ≤ FILE_MOST }
    requires some { 0 < length net.now }
    ensures { IfOk result (IsPictureDecision (named_text file.now order.now) net.now) }
{
    let _routers = net.routers();
    match read_waves(alloc, net, order.as_slice()) {
        Ok(read) => {
            let checked = check_read(alloc, &read, &Move::to_isis(net))?;
            draw_checked(alloc, net, &read.waves, &checked)
        }
        Err(OrderRefusal::OutOfMemory) => Err(AllocError),
        Err(OrderRefusal::Bad { line, kind }) => bad_order(alloc, file, line, kind),
    }
}

/// What is decided where `check` decides so of a wave list: its picture.
fn draw_checked(
    alloc: Global,
    net: &Net,
    waves: &Waves,
    checked: &Decision,
) -> Result<Decision, OutOfMemory>
    requires { IsListVerdict net.now checked.now }
    ensures { IfOk result (IsDrawn net.now waves.now checked.now) }
{
    let text = checked_picture(alloc, net, waves, checked)?;
    if is_yes(checked) {
        return Ok(Decision::ExplainedSafe { text });
    }
    Ok(Decision::ExplainedUnsafe { text })
}

/// The picture of a wave list, with the line of `check` and the fault that this tells.
fn checked_picture(
    alloc: Global,
    net: &Net,
    waves: &Waves,
    checked: &Decision,
) -> Result<Bytes, OutOfMemory>
    requires { IsListVerdict net.now checked.now }
    ensures { IfOk result (Draws net.now waves.now checked.now) }
{
    let said = checked_line(alloc, net, checked)?;
    picture_text(alloc, net, waves, said.as_slice(), mark_in(checked))
}

/// The line of `check`.
pub(crate) fn checked_line(
    alloc: Global,
    net: &Net,
    checked: &Decision,
) -> Result<Bytes, OutOfMemory>
    requires { IsListVerdict net.now checked.now }
    ensures { IfOk result (λ text. text ≡ decision_text net.now checked.now) }
{
    let changes = 2 * net.routers();
    match checked {
        Decision::Safe => safe_text(alloc, changes),
        Decision::SafeWaves { waves } => waves_safe_text(alloc, changes, *waves),
        Decision::Unsafe { state, fault } => unsafe_text(alloc, net, *state, fault),
        Decision::UnsafeWave { wave, fault } => waves_unsafe_text(alloc, net, *wave, fault),
        _ => unreachable!(),
    }
}

/// What is marked of a decision: the fault, where it tells one.
fn mark_in(checked: &Decision) -> Mark<'_>
    ensures { fault_marked result ≡ drawn_fault checked.now }
{
    match checked {
        Decision::Unsafe { fault, .. } => mark_of(fault),
        Decision::UnsafeWave { fault, .. } => mark_of(fault),
        _ => Mark::Nothing,
    }
}

/// What is marked of a fault.
fn mark_of(fault: &EndFault) -> Mark<'_>
    ensures { fault_marked result ≡ Some (fault_told fault.now) }
{
    match fault {
        EndFault::Loop { address, turns } => Mark::Ring {
            address: *address,
            turns: turns.as_slice(),
        },
        EndFault::Missing { address, router } => Mark::Lacking {
            address: *address,
            router: *router,
        },
    }
}
