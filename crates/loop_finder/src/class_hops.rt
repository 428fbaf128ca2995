ghost use Rattle.std.specs.Prelude.{◌≡◌, ◌<◌, ◌↔◌, ℕ, Contains, length};
ghost use Rattle.loop_finder.specs.steps.Making.{IsHopsOf};
ghost use Rattle.prefix_atoms.specs.Classes.{HasTarget, IsInClass};
ghost use Rattle.rib_mix.specs.Answers.{NextLeadsTo};
ghost use Rattle.loop_finder.specs.Parts.{StepsOf};
ghost use Rattle.loop_finder.specs.Mixes.{mix_of, sample_of, class_in};
ghost use Rattle.loop_finder.specs.steps.ClassSteps.{AreForwarders};

use net_addr::Prefix;
use rib_mix::{Mixed, Next, Phase};
use route_core::RouteSource;

/// The routers that a router steps to in a phase for the addresses of a class, where it's known which routers have to
/// pass its packets on.
pub(crate) fn class_hops<'m, O: RouteSource, N: RouteSource>(
    mixed: &'m Mixed<'_, O, N>,
    atom: u32,
    phase: Phase,
    forwards: &[bool],
    router: u32,
) -> &'m [u32]
    requires atom { atom < length mixed.now.classes.samples }
    requires many { length forwards.now ≡ length mixed.now.net }
    requires forwards { AreForwarders mixed.now.net (sample_of mixed.now.classes atom) forwards.now }
    requires router { router < length mixed.now.net }
    ensures { (h : ℕ) → Contains result.now h ↔ StepsOf (class_in (mix_of O.table N.table mixed.now) atom) router phase h }
{
    if !forwards[router as usize] {
        return &[];
    }
    next_hops(mixed, atom, phase, router)
}

/// The routers that a router steps to in a phase for the addresses of a class, where it has to pass their packets on.
pub(crate) fn next_hops<'m, O: RouteSource, N: RouteSource>(
    mixed: &'m Mixed<'_, O, N>,
    atom: u32,
    phase: Phase,
    router: u32,
) -> &'m [u32]
    requires atom { atom < length mixed.now.classes.samples }
    requires router { router < length mixed.now.net }
    ensures least { IsInClass mixed.now.classes atom (sample_of mixed.now.classes atom) }
    ensures hops { IsHopsOf (class_in (mix_of O.table N.table mixed.now) atom) router phase result.now }
{
    hops_of(mixed.hops(router, atom, phase))
}

/// A class with the target of its addresses.
#[derive(Drop)]
pub(crate) struct ClassTarget {
    /// The class.
    pub atom: u32,
    /// The target.
    pub target: Prefix,
}

/// The target of a class, none where its addresses have none.
pub(crate) fn class_target<O: RouteSource, N: RouteSource>(
    mixed: &Mixed<'_, O, N>,
    atom: u32,
) -> Option<Prefix>
    requires atom { atom < length mixed.now.classes.samples }
    ensures target { HasTarget mixed.now.net (sample_of mixed.now.classes atom) result }
    ensures least { IsInClass mixed.now.classes atom (sample_of mixed.now.classes atom) }
{
    mixed.atoms().target(atom)
}

/// The hops of an answer.
fn hops_of(next: Next<'_>) -> &[u32]
    ensures { (h : ℕ) → Contains result.now h ↔ NextLeadsTo next.entry h }
{
    match next {
        Next::Via(hops) => hops.as_slice(),
        Next::Discard | Next::Connected | Next::Absent => &[],
    }
}
