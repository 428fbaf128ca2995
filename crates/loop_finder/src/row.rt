ghost use Rattle.std.specs.Prelude.{◌≡◌, ℕ, Contains};
ghost use Rattle.std.specs.Bool.{OnTrue};
ghost use Rattle.order_core.specs.Marks.{IsMarked};
ghost use Rattle.igp_theory.specs.declared.phase.Phase.{Phase};
ghost use Rattle.loop_finder.specs.steps.PartRows.{HasMarked, HasRowHop};
ghost use Rattle.loop_finder.specs.Parts.{hops_of, no_hops};

use crate::live::is_marked;
use rib_mix::Phase;
use std::marker::Model;

/// The hops of a router by which a walk may return to it, in each phase: those of its entry where one of them is marked, else
/// none.
#[derive(Drop)]
pub(crate) struct Row<'m> {
    pub old: &'m [u32],
    pub middle: &'m [u32],
    pub new: &'m [u32],
}

impl<'m> Model for Row<'m> {
    ghost use Rattle.loop_finder.specs.Parts.{PhaseHops};

    ghost Value = { PhaseHops };

    ghost view = { λ x. record { old = x.old.now; middle = x.middle.now; new = x.new.now } };
}

impl<'m> Row<'m> {
    /// No hops.
    pub fn empty() -> Row<'m>
        ensures { result ≡ no_hops }
    {
        let none: &'m [u32] = &[];
        Row {
            old: none,
            middle: none,
            new: none,
        }
    }

    /// The hops in a phase.
    pub fn hops_in(&self, phase: Phase) -> &[u32]
        ensures { result.now ≡ hops_of self.now phase }
    {
        match phase {
            Phase::Old => self.old,
            Phase::Middle => self.middle,
            Phase::New => self.new,
        }
    }

    /// The same hops.
    pub fn copied(&self) -> Row<'m>
        ensures { result ≡ self.now }
    {
        Row {
            old: self.old,
            middle: self.middle,
            new: self.new,
        }
    }

    /// Whether another row has the same hops in the same order.
    pub fn is_same(&self, other: &Row<'_>) -> bool
        ensures { OnTrue result (self.now ≡ other.now) }
    {
        self.old == other.old && self.middle == other.middle && self.new == other.new
    }

    /// Whether there is no hop in any phase.
    pub fn is_bare(&self) -> bool
        ensures { OnTrue result (self.now ≡ no_hops) }
    {
        self.old.is_empty() && self.middle.is_empty() && self.new.is_empty()
    }

    /// Whether there is a hop in one of the networks.
    pub fn has_hop(&self) -> bool
        ensures { OnTrue result (HasRowHop self.now) }
    {
        if !self.old.is_empty() {
            return true;
        }
        !self.new.is_empty()
    }

    /// Whether it has the marked ones of another's hops.
    pub fn has_all(&self, other: &Row<'_>, marks: &[bool]) -> bool
        ensures old { OnTrue result (HasMarked marks.now self.now.old other.now.old) }
        ensures middle { OnTrue result (HasMarked marks.now self.now.middle other.now.middle) }
        ensures new { OnTrue result (HasMarked marks.now self.now.new other.now.new) }
    {
        has_marked(self.old, other.old, marks)
            && has_marked(self.middle, other.middle, marks)
            && has_marked(self.new, other.new, marks)
    }
}

/// Whether the marked ones of some routers are among others.
fn has_marked(others: &[u32], routers: &[u32], marks: &[bool]) -> bool
    ensures { OnTrue result (HasMarked marks.now others.now routers.now) }
{
    for router in routers {
        if !is_among(others, marks, *router) {
            return false;
        }
    }
    true
}

/// Whether a router is among others, where it's marked.
fn is_among(others: &[u32], marks: &[bool], router: u32) -> bool
    ensures { OnTrue result (IsMarked marks.now router → Contains others.now router) }
{
    if !is_marked(marks, router) {
        return true;
    }
    others.contains(&router)
}
