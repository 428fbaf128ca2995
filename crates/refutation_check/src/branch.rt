ghost use Rattle.std.specs.Prelude.{◌≡◌, ◌<◌, ◌↔◌, ℕ, All, Any, IfNone, IfSome, IsTrue, length};
ghost use Rattle.net_model.specs.Network.{Connected};
ghost use Rattle.net_model.specs.Refusals.{IsNetwork};
ghost use Rattle.igp_theory.specs.Forwarding.{MustForward};
ghost use Rattle.igp_theory.specs.Loops.{AroundRing, IsTag};
ghost use Rattle.order_core.specs.Turns.{HasBothTags, new_routers, old_routers};
ghost use Rattle.order_core.specs.declared.turn.Turn.{Turn};
ghost use Rattle.prefix_atoms.specs.Classes.{IsInClass};
ghost use Rattle.rib_mix.specs.Answers.{NextLeadsTo};
ghost use Rattle.refutation_check.specs.WrongLines.{IsLowestKind, WrongBranch};
ghost use Rattle.refutation_check.specs.steps.Judged.{started_of};
ghost use Rattle.igp_theory.specs.Phases.{state_in};
ghost use Rattle.refutation_check.specs.steps.Rings.{next_at};
ghost use Rattle.refutation_check.specs.steps.Right.{IsRightBranch, tells};

use crate::asked::Asked;
use crate::names::has_number;
use crate::verdict::WrongKind;
use net_addr::Prefix;
use net_model::Net;
use order_core::{Tag, Turn};
use rib_mix::{Next, Phase};
use route_core::RouteSource;

/// The lowest kind by which a branch is wrong, none where it is right.
pub(crate) fn branch_fault<O: RouteSource, N: RouteSource>(
    asked: &Asked<'_, '_, O, N>,
    address: u32,
    turns: &[Turn],
) -> Option<WrongKind>
    requires network { IsNetwork asked.now.mixed.now.net }
    requires below { All (λ turn. turn.router < length asked.now.mixed.now.net) turns.now }
    ensures right { IfNone result (IsRightBranch (started_of O.table N.table asked.now.mixed.now asked.now.start.now) address turns.now) }
    ensures wrong { IfSome result (IsLowestKind (WrongBranch (started_of O.table N.table asked.now.mixed.now asked.now.start.now) address turns.now)) }
{
    let atom = asked.mixed.atoms().of(address);
    let Some(target) = asked.mixed.atoms().target(atom) else {
        return Some(WrongKind::Address);
    };
    if some_originates(asked.mixed.net(), turns, target) {
        return Some(WrongKind::Originator);
    }
    if !goes_round(asked, atom, turns) {
        return Some(WrongKind::Step);
    }
    if !has_both_tags(turns) {
        return Some(WrongKind::OneSided);
    }
    None
}

/// Whether the router of some turn originates the prefix.
fn some_originates(net: &Net, turns: &[Turn], target: Prefix) -> bool
    requires { All (λ turn. turn.router < length net.now) turns.now }
    ensures { IsTrue result ↔ Any (λ (turn : Turn). Connected net.now turn.router target) turns.now }
{
    for turn in turns {
        if net.originates(turn.router, target) {
            return true;
        }
    }
    false
}

/// Whether each turn has the tag by which its router steps to the next one, and the last one to the first, for the
/// addresses of a class.
fn goes_round<O: RouteSource, N: RouteSource>(
    asked: &Asked<'_, '_, O, N>,
    atom: u32,
    turns: &[Turn],
) -> bool
    requires atom { atom < length asked.now.mixed.now.classes.samples }
    requires below { All (λ turn. turn.router < length asked.now.mixed.now.net) turns.now }
    ensures { (a : ℕ) → IsInClass asked.now.mixed.now.classes atom a → All (λ (turn : Turn). MustForward asked.now.mixed.now.net a turn.router) turns.now
        → IsTrue result ↔ AroundRing (λ (r s : Turn). IsTag (started_of O.table N.table asked.now.mixed.now asked.now.start.now) a r s.router) turns.now }
{
    for place in 0..turns.len() {
        let turn = turns[place];
        let next = next_turn(turns, place);
        if !is_tagged(asked, atom, turn, next.router) {
            return false;
        }
    }
    true
}

/// The turn after a place of a ring, the first one after the last.
fn next_turn(turns: &[Turn], place: usize) -> Turn
    requires { place < length turns.now }
    ensures { (d : Turn) → result ≡ next_at turns.now place d }
{
    if place + 1 < turns.len() {
        turns[place + 1]
    } else {
        turns[0]
    }
}

/// Whether a turn has the tag by which its router steps to another, for the addresses of a class.
fn is_tagged<O: RouteSource, N: RouteSource>(
    asked: &Asked<'_, '_, O, N>,
    atom: u32,
    turn: Turn,
    next: u32,
) -> bool
    requires atom { atom < length asked.now.mixed.now.classes.samples }
    requires below { turn.router < length asked.now.mixed.now.net }
    ensures { (a : ℕ) → IsInClass asked.now.mixed.now.classes atom a → MustForward asked.now.mixed.now.net a turn.router
        → IsTrue result ↔ IsTag (started_of O.table N.table asked.now.mixed.now asked.now.start.now) a turn next }
{
    let begin = begin_of(asked.start, turn.router);
    let old = leads_to(asked.mixed.hops(turn.router, atom, begin), next);
    let new = leads_to(asked.mixed.hops(turn.router, atom, Phase::New), next);
    is_tag_of(turn.tag, old, new)
}

/// The phase in which a router begins.
fn begin_of(start: &[Phase], router: u32) -> Phase
    requires { router < length start.now }
    ensures { state_in start.now router ≡ result }
{
    start[router as usize]
}

/// Whether a tag says which of two phases step on.
fn is_tag_of(tag: Tag, old: bool, new: bool) -> bool
    ensures { result ≡ tells tag old new }
{
    match tag {
        Tag::Old => old && !new,
        Tag::New => !old && new,
        Tag::Both => old && new,
    }
}

/// Whether an answer forwards to a router.
fn leads_to(answer: Next<'_>, router: u32) -> bool
    ensures { IsTrue result ↔ NextLeadsTo answer.entry router }
{
    match answer {
        Next::Via(hops) => has_number(hops.as_slice(), router),
        Next::Discard | Next::Connected | Next::Absent => false,
    }
}

/// Whether some turn is Old, and some is New.
fn has_both_tags(turns: &[Turn]) -> bool
    ensures { IsTrue result ↔ HasBothTags turns.now }
{
    has_old(turns) && has_new(turns)
}

/// Whether some turn is Old.
fn has_old(turns: &[Turn]) -> bool
    ensures { IsTrue result ↔ (0 < length (old_routers turns.now)) }
{
    for turn in turns {
        if turn.tag.is_old() {
            return true;
        }
    }
    false
}

/// Whether some turn is New.
fn has_new(turns: &[Turn]) -> bool
    ensures { IsTrue result ↔ (0 < length (new_routers turns.now)) }
{
    for turn in turns {
        if turn.tag.is_new() {
            return true;
        }
    }
    false
}
