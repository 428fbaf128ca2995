ghost use Rattle.std.specs.Prelude.{◌≡◌, ◌<◌, ◌^◌, ◌-◌, ◌∷◌, List, IfOk, MatchResult, length};
ghost use Rattle.net_addr.specs.Spans.{bytes_of, LiesIn};
ghost use Rattle.net_model.specs.Refusals.{IsNetwork};
ghost use Rattle.plan_theory.specs.Ranked.{size_of};
ghost use Rattle.order_search.specs.Trees.{Place};
ghost use Rattle.refutation_check.specs.WrongLines.{IsLowestKind, WrongNode};
ghost use Rattle.refutation_check.specs.steps.Judged.{started_of};
ghost use Rattle.refutation_check.specs.steps.Reading.{IsNotTaken, TakesLine};
ghost use Rattle.refutation_check.specs.steps.Walks.{IsRinged, IsTaken};

use crate::asked::Asked;
use crate::branch::branch_fault;
use crate::node_line::read_node;
use crate::numbered::numbered;
use crate::tally::Tally;
use crate::verdict::WrongKind;
use crate::walk::Walk;
use net_addr::{OutOfMemory, Span};
use order_search::Node;
use route_core::RouteSource;
use std::alloc::Global;

/// How far a tree file has been read.
#[derive(Drop)]
pub(crate) struct Reading {
    /// The places that are open.
    pub(crate) walk: Walk,
    /// What was counted.
    pub(crate) tally: Tally,
}

/// A wrong line.
#[derive(Clone, Copy, Debug)]
pub(crate) struct WrongLine {
    /// How many lines stand before it among those that were read.
    pub(crate) place: u32,
    /// The lowest kind of what is wrong with it.
    pub(crate) kind: WrongKind,
}

impl Reading {
    /// What is read with one line more, or why that line is wrong.
    pub(crate) fn take_line<O: RouteSource, N: RouteSource>(
        self,
        alloc: Global,
        asked: &Asked<'_, '_, O, N>,
        text: &[u8],
        line: Span,
    ) -> Result<Result<Reading, WrongKind>, OutOfMemory>
        requires network { IsNetwork asked.now.mixed.now.net }
        requires routers { self.walk.routers ≡ size_of asked.now.items (length asked.now.mixed.now.net) }
        requires short { length text.now < 2 ^ 26 }
        requires inside { LiesIn text.now line }
        requires branches { self.tally.branches < 2 ^ 32 - 1 }
        requires leaves { self.tally.leaves < 2 ^ 32 - 1 }
        requires unvisited { self.tally.unvisited < 2 ^ 32 - 1 }
        ensures routers { IfOk result (λ taken. IfOk taken (λ after. after.walk.routers ≡ self.walk.routers)) }
        ensures taken { IfOk result (λ taken. MatchResult taken
            (TakesLine asked.now.items (started_of O.table N.table asked.now.mixed.now asked.now.start.now) (bytes_of text.now line) self)
            (IsNotTaken asked.now.items (started_of O.table N.table asked.now.mixed.now asked.now.start.now) self.walk.left (bytes_of text.now line))) }
    {
        if self.walk.is_whole() {
            return Ok(Err(WrongKind::Form));
        }
        let node = match read_node(alloc, asked.items, asked.mixed.net(), text, line)? {
            Ok(node) => node,
            Err(kind) => return Ok(Err(kind)),
        };
        let Reading { walk, tally } = self;
        match take_node(alloc, asked, walk, &node)? {
            Ok(walk) => Ok(Ok(Reading {
                walk,
                tally: tally.with(&node),
            })),
            Err(kind) => Ok(Err(kind)),
        }
    }
}

/// The walk behind a node at the first open place, or why the node is wrong there.
fn take_node<O: RouteSource, N: RouteSource>(
    alloc: Global,
    asked: &Asked<'_, '_, O, N>,
    walk: Walk,
    node: &Node,
) -> Result<Result<Walk, WrongKind>, OutOfMemory>
    requires network { IsNetwork asked.now.mixed.now.net }
    requires routers { walk.routers ≡ size_of asked.now.items (length asked.now.mixed.now.net) }
    requires ringed { IsRinged asked.now.items (length asked.now.mixed.now.net) node.now }
    ensures routers { IfOk result (λ taken. IfOk taken (λ after. after.routers ≡ walk.routers)) }
    ensures taken { IfOk result (λ taken. (place : Place) (left : List Place) → walk.left ≡ place ∷ left → MatchResult taken
        (λ after. IsTaken asked.now.items (started_of O.table N.table asked.now.mixed.now asked.now.start.now) (place ∷ left) after.left node.now)
        (IsLowestKind (WrongNode (started_of O.table N.table asked.now.mixed.now asked.now.start.now) place node.now))) }
{
    match node {
        Node::Branch { address, turns } => {
            match branch_fault(asked, *address, turns.as_slice()) {
                Some(kind) => Ok(Err(kind)),
                None => {
                    let numbered = numbered(alloc, asked, *address, turns.as_slice())?;
                    Ok(Ok(walk.enter(alloc, numbered.as_slice())?))
                }
            }
        }
        Node::Leaf { cycle } => {
            if walk.assumes_round(cycle.as_slice()) {
                Ok(Ok(walk.leave()?))
            } else {
                Ok(Err(WrongKind::NotAssumed))
            }
        }
        Node::Unvisited => Ok(Ok(walk.leave()?)),
    }
}
