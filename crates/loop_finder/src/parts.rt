ghost use Rattle.std.specs.Prelude.{◌≡◌, ◌+◌, ◌<◌, ℕ, All, IfOk, OnOk, length};
ghost use Rattle.std.specs.Bool.{OnTrue};
ghost use Rattle.net_model.specs.Network.{Connected};
ghost use Rattle.net_model.specs.Refusals.{IsNetwork};
ghost use Rattle.loop_finder.specs.steps.Targets.{IsTargetIn};
ghost use Rattle.loop_finder.specs.steps.Making.{AreStill, IsMaking, IsRead, KnowsBoth};
ghost use Rattle.loop_finder.specs.steps.PartRows.{HasEarlierHops};
ghost use Rattle.loop_finder.specs.Parts.{AllMove, AreParts, IsCovered};
ghost use Rattle.loop_finder.specs.Mixes.{mix_of, sample_of, class_in};

use crate::class_hops::{ClassTarget, class_target};
use crate::live::none_marked;
use crate::making::{Making, Makings};
use crate::part::{Part, digest_of};
use crate::rows::RowRoom;
use net_addr::Prefix;
use rib_mix::{Mixed, OutOfMemory};
use route_core::RouteSource;
use std::alloc::Global;

/// The parts of the classes for which some state may be unsound, ascending. A class has none
/// where an earlier part has its hops between routers to which a walk may return.
///
/// Takes time of the classes and the routers, and of the classes and the parts. Only those steps of a class are searched to
/// which steps lead from routers that don't do the same as for the class before.
pub(crate) fn parts_of<'m, O: RouteSource, N: RouteSource>(
    alloc: Global,
    mixed: &'m Mixed<'_, O, N>,
) -> Result<Vec<Part<'m>>, OutOfMemory>
    ensures { IfOk result (λ parts. AreParts (mix_of O.table N.table mixed.now) parts.items (length mixed.now.classes.samples)) }
{
    let mut makings = Makings::new(alloc, mixed.net().routers())?;
    let mut parts = Vec::new(alloc);
    for atom in 0..mixed.atoms().count() {
        add_part(alloc, mixed, atom as u32, &mut makings, &mut parts)?;
    }
    Ok(parts)
}

/// Adds the part of the next class, where some state may be unsound for it and no earlier one has its hops. A class that every
/// router treats like an earlier one isn't read.
fn add_part<'m, O: RouteSource, N: RouteSource>(
    alloc: Global,
    mixed: &'m Mixed<'_, O, N>,
    atom: u32,
    makings: &mut Makings<'m>,
    parts: &mut Vec<Part<'m>>,
) -> Result<(), OutOfMemory>
    requires network { IsNetwork mixed.now.net }
    requires atom { atom < length mixed.now.classes.samples }
    requires makings { KnowsBoth (mix_of O.table N.table mixed.now) makings.old }
    requires parts { AreParts (mix_of O.table N.table mixed.now) parts.old.items atom }
    ensures makings { OnOk result (KnowsBoth (mix_of O.table N.table mixed.now) makings.new) }
    ensures parts { OnOk result (AreParts (mix_of O.table N.table mixed.now) parts.new.items (atom + 1)) }
{
    if is_alike(mixed, atom, parts) {
        return Ok(());
    }
    let Some(target) = class_target(mixed, atom) else {
        return Ok(());
    };
    makings.read(mixed, atom)?;
    let class = ClassTarget { atom, target };
    add_known(alloc, mixed, &class, &makings.recent, parts)
}

/// Whether every router is known to treat an earlier class alike: the parts of the earlier ones tell of it then.
fn is_alike<O: RouteSource, N: RouteSource>(
    mixed: &Mixed<'_, O, N>,
    atom: u32,
    parts: &Vec<Part<'_>>,
) -> bool
    requires network { IsNetwork mixed.now.net }
    requires atom { atom < length mixed.now.classes.samples }
    requires parts { AreParts (mix_of O.table N.table mixed.now) parts.now.items atom }
    ensures { OnTrue result (IsCovered (mix_of O.table N.table mixed.now) parts.now.items atom) }
{
    match mixed.earlier_alike(atom) {
        Some(_) => {
            mixed.have_answers();
            true
        }
        None => false,
    }
}

/// Adds the part of the class that was read, where some state may be unsound for it and no earlier one has its hops.
fn add_known<'m, O: RouteSource, N: RouteSource>(
    alloc: Global,
    mixed: &'m Mixed<'_, O, N>,
    class: &ClassTarget,
    making: &Making<'m>,
    parts: &mut Vec<Part<'m>>,
) -> Result<(), OutOfMemory>
    requires target { IsTargetIn mixed.now.net (sample_of mixed.now.classes class.now.atom) class.now.target }
    requires making { IsMaking (length mixed.now.net) making.now }
    requires read { IsRead (class_in (mix_of O.table N.table mixed.now) class.now.atom) making.now.lists }
    requires still { AreStill (length mixed.now.net) making.now }
    requires parts { AreParts (mix_of O.table N.table mixed.now) parts.old.items class.now.atom }
    ensures { OnOk result (AreParts (mix_of O.table N.table mixed.now) parts.new.items (class.now.atom + 1)) }
{
    let moves = all_move(mixed, class.target, making);
    if moves && is_covered(mixed, class.atom, making, parts) {
        return Ok(());
    }
    let room = next_room(alloc, parts.as_slice());
    let part = Part::build(&room, mixed, class, making.marks.as_slice(), moves)?;
    parts.push(part)?;
    Ok(())
}

/// Room for the rows of the next part, which shares rows with the last one: neighboring classes often go by the same hops.
fn next_room<'r, 'm>(alloc: Global, parts: &'r [Part<'m>]) -> RowRoom<'r, 'm> {
    let before = match parts.last() {
        Some(part) => Some(part.rows()),
        None => None,
    };
    RowRoom { alloc, before }
}

/// Whether every router that has to pass the class's packets on has a step in both networks.
fn all_move<O: RouteSource, N: RouteSource>(
    mixed: &Mixed<'_, O, N>,
    target: Prefix,
    making: &Making<'_>,
) -> bool
    requires { AreStill (length mixed.now.net) making.now }
    ensures { OnTrue result ((atom : ℕ) → IsTargetIn mixed.now.net (sample_of mixed.now.classes atom) target →
        IsRead (class_in (mix_of O.table N.table mixed.now) atom) making.now.lists → AllMove (class_in (mix_of O.table N.table mixed.now) atom)) }
{
    are_homes(mixed, target, making.still.as_slice())
}

/// Whether a prefix is connected at each of some routers.
fn are_homes<O: RouteSource, N: RouteSource>(
    mixed: &Mixed<'_, O, N>,
    prefix: Prefix,
    routers: &[u32],
) -> bool
    requires { All (λ u. u < length mixed.now.net) routers.now }
    ensures { OnTrue result (All (λ u. Connected mixed.now.net u prefix) routers.now) }
{
    for router in routers {
        if !mixed.originates(*router, prefix) {
            return false;
        }
    }
    true
}

/// Whether every state is sound for the class that was read, or every state that is so for the class of one of some parts:
/// where a walk returns to no router, or the part has its hops.
fn is_covered<O: RouteSource, N: RouteSource>(
    mixed: &Mixed<'_, O, N>,
    atom: u32,
    making: &Making<'_>,
    parts: &Vec<Part<'_>>,
) -> bool
    requires making { IsMaking (length mixed.now.net) making.now }
    requires read { IsRead (class_in (mix_of O.table N.table mixed.now) atom) making.now.lists }
    requires all { AllMove (class_in (mix_of O.table N.table mixed.now) atom) }
    requires parts { AreParts (mix_of O.table N.table mixed.now) parts.now.items atom }
    ensures { OnTrue result (IsCovered (mix_of O.table N.table mixed.now) parts.now.items atom) }
{
    let marks = making.marks.as_slice();
    if none_marked(marks) {
        return true;
    }
    mixed.have_answers();
    has_earlier(mixed, atom, marks, digest_of(marks), parts)
}

/// Whether one of some parts has the hops of a class between marked routers, of which this is the digest.
fn has_earlier<O: RouteSource, N: RouteSource>(
    mixed: &Mixed<'_, O, N>,
    atom: u32,
    marks: &[bool],
    digest: u64,
    parts: &Vec<Part<'_>>,
) -> bool
    requires atom { atom < length mixed.now.classes.samples }
    requires marks { length marks.now ≡ length mixed.now.net }
    requires classes { All (λ part. part.atom < length mixed.now.classes.samples) parts.now.items }
    requires rows { All (λ part. length part.rows ≡ length mixed.now.net) parts.now.items }
    ensures { OnTrue result (HasEarlierHops (mix_of O.table N.table mixed.now) marks.now parts.now.items atom) }
{
    for part in parts {
        if part.has_hops_of(mixed, atom, marks, digest) {
            return true;
        }
    }
    false
}
