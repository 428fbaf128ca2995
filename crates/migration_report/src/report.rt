ghost use Rattle.std.specs.Prelude.{◌≡◌, ◌<◌, ◌++◌, All, IfOk, length};
ghost use Rattle.printed_lines.specs.Words.{router_word, spaced};
ghost use Rattle.net_model.specs.RouterNames.{names_of};
ghost use Rattle.plan_theory.specs.Plans.{fault_told};
ghost use Rattle.migration_report.specs.EndTexts.{EndFaultBelow};
ghost use Rattle.migration_report.specs.Texts.{fault_words, ring_words, safe_text, unsafe_text, waves_safe_text, waves_unsafe_text};

use net_addr::Bytes;
use net_model::Net;
use order_core::Turn;
use plan_theory::EndFault;
use printed_lines::LineBuilder;
use std::alloc::{AllocError, Global};

/// The line that an order is safe, with the count of its changes.
pub fn safe_text(alloc: Global, changes: u32) -> Result<Bytes, AllocError>
    ensures { IfOk result (λ text. text ≡ safe_text changes) }
{
    LineBuilder::start(alloc, b"safe")?
        .number(u64::from(changes))?
        .finish()
}

/// The line that a wave list is safe, with the count of its changes and that of its waves.
pub fn waves_safe_text(alloc: Global, changes: u32, waves: u32) -> Result<Bytes, AllocError>
    ensures { IfOk result (λ text. text ≡ waves_safe_text changes waves) }
{
    let line = LineBuilder::start(alloc, b"safe")?.number(u64::from(changes))?;
    line.word(b"waves")?.number(u64::from(waves))?.finish()
}

/// The line that a state of an order isn't sound: its number, and what is wrong in it.
pub fn unsafe_text(
    alloc: Global,
    net: &Net,
    state: u32,
    fault: &EndFault,
) -> Result<Bytes, AllocError>
    requires { EndFaultBelow (length net.now) fault.now }
    ensures { IfOk result (λ text. text ≡ unsafe_text (names_of net.now) state (fault_told fault.now)) }
{
    let line = LineBuilder::start(alloc, b"unsafe")?.number(u64::from(state))?;
    fault_words(line, net, fault)?.finish()
}

/// The line that a wave has a state that isn't sound: its number, from 1, and what is wrong in its states.
pub fn waves_unsafe_text(
    alloc: Global,
    net: &Net,
    wave: u32,
    fault: &EndFault,
) -> Result<Bytes, AllocError>
    requires { EndFaultBelow (length net.now) fault.now }
    ensures { IfOk result (λ text. text ≡ waves_unsafe_text (names_of net.now) wave (fault_told fault.now)) }
{
    let line = LineBuilder::start(alloc, b"unsafe")?.word(b"wave")?;
    let line = line.number(u64::from(wave))?;
    fault_words(line, net, fault)?.finish()
}

/// The line with the words for a fault more.
pub(crate) fn fault_words(
    line: LineBuilder,
    net: &Net,
    fault: &EndFault,
) -> Result<LineBuilder, AllocError>
    requires { EndFaultBelow (length net.now) fault.now }
    ensures { IfOk result (λ longer. longer ≡ line ++ spaced (fault_words (names_of net.now) (fault_told fault.now))) }
{
    match fault {
        EndFault::Loop { address, turns } => {
            let line = line.address(*address)?.word(b"loop")?;
            ring_words(line, net, turns.as_slice())
        }
        EndFault::Missing { address, router } => {
            let line = line.address(*address)?.word(b"missing")?;
            line.word(router_name(net, *router))
        }
    }
}

/// The line with the names of the routers of a ring more.
fn ring_words(mut line: LineBuilder, net: &Net, ring: &[Turn]) -> Result<LineBuilder, AllocError>
    requires { All (λ turn. turn.router < length net.now) ring.now }
    ensures { IfOk result (λ longer. longer ≡ line ++ spaced (ring_words (names_of net.now) ring.now)) }
{
    for turn in ring {
        line = line.word(router_name(net, turn.router))?;
    }
    Ok(line)
}

/// The name of a router.
pub(crate) fn router_name(net: &Net, router: u32) -> &[u8]
    requires { router < length net.now }
    ensures { result.now ≡ router_word (names_of net.now) router }
{
    net.config(router).name.as_slice()
}
