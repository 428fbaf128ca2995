ghost use Rattle.std.specs.Prelude.{◌≡◌, ◌<◌, length, true};
ghost use Rattle.std.specs.Bool.{OnTrue};
ghost use Rattle.loop_finder.specs.steps.Parts.{PartStep};
ghost use Rattle.loop_finder.specs.Returns.{NeverReturnsTo};
ghost use Rattle.loop_finder.specs.Rooms.{HasRoom};
ghost use Rattle.loop_finder.specs.steps.Walks.{ReturnsNever};

use crate::graph::StepGraph;
use crate::live::returns_never;
use crate::part::Part;
use crate::returns::may_return;
use crate::room::Room;
use crate::span::Span;
use rib_mix::Phase;
use std::marker::Model;

/// The steps of a part in two states: each router has the hops of both.
#[derive(Drop)]
struct PartSteps<'s, 'm> {
    part: &'s Part<'m>,
    first: &'s [Phase],
    last: &'s [Phase],
    routers: u32,
}

impl<'s, 'm> Model for PartSteps<'s, 'm> {
    ghost use Rattle.loop_finder.specs.steps.Parts.{IsPartState, PartState};

    ghost Value = { PartState };

    ghost view = { λ x. record { part = x.part.now; first = x.first.now; last = x.last.now; routers = x.routers } };

    ghost invariant = { λ x. IsPartState (record { part = x.part.now; first = x.first.now; last = x.last.now; routers = x.routers }) };
}

impl<'s, 'm> PartSteps<'s, 'm> {
    /// The steps of a part in two states of so many routers.
    fn new(part: &'s Part<'m>, span: &'s Span<'s>, routers: u32) -> PartSteps<'s, 'm>
        requires rows { length part.now.rows ≡ routers }
        requires span { length span.now.first.now ≡ routers }
        ensures { result ≡ record { part = part.now; first = span.now.first.now; last = span.now.last.now; routers = routers } }
    {
        PartSteps {
            part,
            first: span.first,
            last: span.last,
            routers,
        }
    }
}

impl<'s, 'm> StepGraph for PartSteps<'s, 'm> {
    ghost use Rattle.loop_finder.specs.steps.Parts.{PartStep};

    ghost size = { λ s. s.routers };

    ghost step = { λ s. PartStep s.part s.first s.last };

    fn size(&self) -> u32 {
        self.routers
    }

    #[inline(always)]
    fn hops(&self, router: u32) -> (&[u32], &[u32]) {
        let first = self.first[router as usize];
        let last = self.last[router as usize];
        let hops = self.part.hops_in(router, first);
        if first == last {
            return (hops, &[]);
        }
        (hops, self.part.hops_in(router, last))
    }
}

/// Whether all routers move, and no walk over the steps of a part in two states returns to a router.
pub(crate) fn passes_part_never(
    part: &Part<'_>,
    span: &Span<'_>,
    router: u32,
    routers: u32,
    room: &mut Room,
) -> bool
    requires rows { length part.now.rows ≡ routers }
    requires span { length span.now.first.now ≡ routers }
    requires router { router < routers }
    requires room { HasRoom routers room.old }
    ensures moves { OnTrue result (part.now.moves ≡ true) }
    ensures never { OnTrue result (NeverReturnsTo (PartStep part.now span.now.first.now span.now.last.now) router) }
    ensures room { HasRoom routers room.new }
    ensures ring { room.new.ring.items ≡ room.old.ring.items }
{
    if !part.moves() {
        return false;
    }
    let steps = PartSteps::new(part, span, routers);
    !may_return(&steps, router, &mut room.live, &mut room.path)
}

/// Whether all routers move, and no walk over the steps of a part in two states returns.
pub(crate) fn is_clear(part: &Part<'_>, span: &Span<'_>, routers: u32, room: &mut Room) -> bool
    requires rows { length part.now.rows ≡ routers }
    requires span { length span.now.first.now ≡ routers }
    requires room { HasRoom routers room.old }
    ensures moves { OnTrue result (part.now.moves ≡ true) }
    ensures never { OnTrue result (ReturnsNever (PartStep part.now span.now.first.now span.now.last.now)) }
    ensures room { HasRoom routers room.new }
    ensures ring { room.new.ring.items ≡ room.old.ring.items }
{
    if !part.moves() {
        return false;
    }
    let steps = PartSteps::new(part, span, routers);
    returns_never(&steps, part.steppers(), &mut room.live)
}
