ghost use Rattle.std.specs.Prelude.{◌≡◌, ◌≢◌, ◌∷◌, ◌++◌, [], IfOk, codes, decimal};
ghost use Rattle.printed_lines.specs.Words.{spaced};
ghost use Rattle.printed_lines.specs.Texts.{line};
ghost use Rattle.refused_texts.specs.Texts.{network_text};

use crate::kinds::limit_name;
use net_addr::{Bytes, Name};
use net_model::NetRefusal;
use printed_lines::LineBuilder;
use std::alloc::{AllocError, Global};

/// The line for configurations that make no network.
pub fn network_text(alloc: Global, refusal: &NetRefusal) -> Result<Bytes, AllocError>
    requires { refusal.now ≢ NetRefusal.OutOfMemory }
    ensures { IfOk result (λ text. text ≡ network_text refusal.now) }
{
    match refusal {
        NetRefusal::Limit { what, number } => limit_text(alloc, limit_name(*what), *number),
        NetRefusal::TwoNames { name } => refused(alloc, b"TwoNames")?
            .word(name.as_slice())?
            .finish(),
        NetRefusal::AddressTwice { one, two, address } => {
            let line = pair(refused(alloc, b"AddressTwice")?, one, two)?;
            line.address(*address)?.finish()
        }
        NetRefusal::PrefixInTwoAreas { one, two, dest } => {
            let line = pair(refused(alloc, b"PrefixInTwoAreas")?, one, two)?;
            line.prefix(*dest)?.finish()
        }
        NetRefusal::BorderWithoutBackbone { router } => {
            let line = refused(alloc, b"BorderWithoutBackbone")?;
            line.word(router.as_slice())?.finish()
        }
        NetRefusal::OspfCostSum { sum } => refused(alloc, b"OspfCostSum")?.number(*sum)?.finish(),
        NetRefusal::IsisMetricSum { sum } => refused(alloc, b"IsisMetricSum")?
            .number(*sum)?
            .finish(),
        NetRefusal::SystemIdTwice { one, two } => {
            pair(refused(alloc, b"SystemIdTwice")?, one, two)?.finish()
        }
        NetRefusal::StubMismatch { one, two, area } => {
            let line = pair(refused(alloc, b"StubMismatch")?, one, two)?;
            line.number(u64::from(*area))?.finish()
        }
        NetRefusal::OutOfMemory => unreachable!(),
    }
}

/// The line for too many of something.
pub fn limit_text(alloc: Global, what: &[u8], number: u64) -> Result<Bytes, AllocError>
    ensures { IfOk result (λ text. text ≡ line (codes "limit") (what.now ∷ decimal number ∷ [])) }
{
    LineBuilder::start(alloc, b"limit")?
        .word(what)?
        .number(number)?
        .finish()
}

/// A line that begins with the refusal of a network.
pub fn refused(alloc: Global, name: &[u8]) -> Result<LineBuilder, AllocError>
    ensures { IfOk result (λ text. text ≡ codes "refused" ++ spaced (codes "network" ∷ name.now ∷ [])) }
{
    LineBuilder::start(alloc, b"refused")?
        .word(b"network")?
        .word(name)
}

/// The line with the names of two routers more.
fn pair(text: LineBuilder, one: &Name, two: &Name) -> Result<LineBuilder, AllocError>
    ensures { IfOk result (λ longer. longer ≡ text ++ spaced (one.now ∷ two.now ∷ [])) }
{
    text.word(one.as_slice())?.word(two.as_slice())
}
