ghost use Rattle.std.specs.Prelude.{◌≡◌, ◌+◌, ◌<◌, ◌++◌, ◌∷◌, [], ℕ, List, IfOk, length};
ghost use Rattle.net_addr.specs.Addresses.{Block};
ghost use Rattle.igp_theory.specs.Forwarding.{IsTarget};
ghost use Rattle.explained_texts.specs.WayTexts.{IsTargetLine};
ghost use Rattle.explained_texts.specs.steps.Mixing.{NamesOriginators};

use crate::OutOfMemory;
use crate::earlier::name_of;
use net_addr::Prefix;
use net_model::Net;
use printed_lines::LineBuilder;
use rib_mix::Mixed;
use route_core::RouteSource;
use std::alloc::Global;

/// The line of the target of an address that has one.
pub(crate) fn target_line<O: RouteSource, N: RouteSource>(
    alloc: Global,
    mixed: &Mixed<'_, O, N>,
    a: u32,
) -> Result<LineBuilder, OutOfMemory>
    requires { (p : Block) × IsTarget mixed.now.net a p }
    ensures { IfOk result (λ line. IsTargetLine mixed.now.net a (line ++ 10 ∷ [])) }
{
    let atoms = mixed.atoms();
    let Some(target) = atoms.target(atoms.of(a)) else {
        unreachable!()
    };
    let line = LineBuilder::start(alloc, b"target")?.prefix(target)?;
    with_originators(line.word(b"at")?, mixed.net(), target)
}

/// The line with the names of the routers more at which a prefix is connected.
fn with_originators(
    line: LineBuilder,
    net: &Net,
    target: Prefix,
) -> Result<LineBuilder, OutOfMemory>
    ensures { IfOk result (NamesOriginators net.now target (length net.now) line) }
{
    let mut line = line;
    for router in 0..net.routers() {
        line = with_originator(line, net, target, router)?;
    }
    Ok(line)
}

/// The line with the name of a router more, where the prefix is connected at it.
fn with_originator(
    line: LineBuilder,
    net: &Net,
    target: Prefix,
    router: u32,
) -> Result<LineBuilder, OutOfMemory>
    requires { router < length net.now }
    ensures { (start : List ℕ) → IfOk result (λ longer. NamesOriginators net.now target router start line →
        NamesOriginators net.now target (router + 1) start longer) }
{
    if net.originates(router, target) {
        line.word(name_of(net, router))
    } else {
        Ok(line)
    }
}
