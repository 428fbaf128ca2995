ghost use Rattle.std.specs.Prelude.{◌≡◌, ◌+◌, ◌-◌, ◌<◌, ◌≤◌, ◌^◌, max, [], ◌∷◌, ◌++◌, length, take, replicate, IfOk};
ghost use Rattle.std.specs.Prelude.{OnOk, OnErr};
ghost use Rattle.std.specs.Vec.{vec_capacity, vec_len};
ghost use Rattle.link_trail.specs.Lists.{IsApart, IsFree, IsLinked, IsNextNode, first_node, linked, list_at, lists_at_mark, unlinked};

use crate::chain::{Ends, Gap, Node, splice_in, splice_out};
use crate::moves::{Move, take_back};
use std::alloc::{AllocError as OutOfMemory, Global};
use std::marker::Model;

/// Doubly linked lists of numbered nodes. Each node stands in one list at most. Each link and each
/// unlink is a move, and the moves can be taken back, the latest first. A move takes no memory: the
/// room for it is made by `reserve`.
#[derive(Debug, Drop)]
pub struct Links {
    nodes: Vec<Node>,
    ends: Vec<Ends>,
    moves: Vec<Move>,
    room: u32,
}

impl Model for Links {
    ghost use Rattle.std.specs.Prelude.{◌-◌, length};
    ghost use Rattle.link_trail.specs.Lists.{LinkedLists};

    ghost Value = { LinkedLists };

    ghost use Rattle.link_trail.specs.Moves.{AreWholeLinks, lists_after, lists_before, no_lists};

    ghost view = { λ x. record {
      nodes = length x.nodes.items;
      lists = lists_after (no_lists (length x.ends.items)) x.moves.items;
      trail = lists_before (no_lists (length x.ends.items)) x.moves.items;
      spare = x.room - length x.moves.items;
    } };

    ghost invariant = { AreWholeLinks };
}

impl Links {
    /// So many empty lists and nodes, and no room for a move.
    pub fn new(alloc: Global, lists: u32, nodes: u32) -> Result<Links, OutOfMemory>
        ensures { IfOk result (λ x. x ≡ record { nodes = nodes; lists = replicate lists []; trail = []; spare = 0 }) }
    {
        let nodes = vec![in alloc; Node::FREE; nodes as usize]?;
        let ends = vec![in alloc; Ends::EMPTY; lists as usize]?;
        Ok(Links {
            nodes,
            ends,
            moves: Vec::new(alloc),
            room: 0,
        })
    }

    /// Makes the nodes at least so many. The new ones stand in no list.
    pub fn widen(&mut self, nodes: u32) -> Result<(), OutOfMemory>
        ensures ok { OnOk result (self.new ≡ record self.old { nodes = max self.old.nodes nodes }) }
        ensures err { OnErr result (self.new ≡ self.old) }
    {
        let count = self.nodes.len().max(nodes as usize);
        self.nodes.resize(count, Node::FREE)
    }

    /// Makes room for at least so many further moves.
    pub fn reserve(&mut self, moves: u32) -> Result<(), OutOfMemory>
        requires { length self.old.trail + moves < 2 ^ 31 }
        ensures ok { OnOk result (self.new ≡ record self.old { spare = max self.old.spare moves }) }
        ensures err { OnErr result (self.new ≡ self.old) }
    {
        let room = self.moves.len() as u32 + moves;
        self.moves.reserve(moves as usize)?;
        self.room = self.room.max(room);
        Ok(())
    }

    /// Puts the node at the end of the list.
    pub fn link(&mut self, list: u32, node: u32)
        requires list { list < length self.old.lists }
        requires node { node < self.old.nodes }
        requires free { IsFree self.old.lists node }
        requires spare { 0 < self.old.spare }
        ensures nodes { self.new.nodes ≡ self.old.nodes }
        ensures lists { self.new.lists ≡ linked self.old.lists list node }
        ensures trail { self.new.trail ≡ self.old.trail ++ self.old.lists ∷ [] }
        ensures spare { self.new.spare ≡ self.old.spare - 1 }
    {
        let previous = self.ends[list as usize].last;
        let gap = Gap {
            list,
            previous,
            next: None,
        };
        splice_in(&mut self.nodes, &mut self.ends, gap, node);
        record_move(&mut self.moves, Move::Linked { list, node });
    }

    /// Takes the node out of its list.
    pub fn unlink(&mut self, node: u32)
        requires linked { IsLinked self.old.lists node }
        requires spare { 0 < self.old.spare }
        ensures nodes { self.new.nodes ≡ self.old.nodes }
        ensures lists { self.new.lists ≡ unlinked self.old.lists node }
        ensures trail { self.new.trail ≡ self.old.trail ++ self.old.lists ∷ [] }
        ensures spare { self.new.spare ≡ self.old.spare - 1 }
    {
        let Node { list, previous, .. } = self.nodes[node as usize];
        let list = list.unwrap();
        splice_out(&mut self.nodes, &mut self.ends, list, node);
        record_move(
            &mut self.moves,
            Move::Unlinked {
                list,
                node,
                previous,
            },
        );
    }

    /// The first node of the list, if there is one.
    pub fn first(&self, list: u32) -> Option<u32>
        requires { list < length self.now.lists }
        ensures { result ≡ first_node (list_at self.now.lists list) }
    {
        self.ends[list as usize].first
    }

    /// The node right after this one in its list: none where it is the last, or in no list.
    pub fn next(&self, node: u32) -> Option<u32>
        requires { node < self.now.nodes }
        ensures { IsNextNode self.now.lists node result }
    {
        self.nodes[node as usize].next
    }

    /// The count of standing moves, to come back to by `undo_to`. What it says of the lists besides
    /// holds of all `Links`.
    pub fn mark(&self) -> u32
        ensures count { result ≡ length self.now.trail }
        ensures apart { IsApart self.now.lists }
    {
        self.moves.len() as u32
    }

    /// Takes back all moves but the first so many, in time of the moves taken back. They are spare again.
    pub fn undo_to(&mut self, mark: u32)
        requires { mark ≤ length self.old.trail }
        ensures nodes { self.new.nodes ≡ self.old.nodes }
        ensures lists { self.new.lists ≡ lists_at_mark self.old mark }
        ensures trail { self.new.trail ≡ take mark self.old.trail }
        ensures spare { self.new.spare ≡ self.old.spare + (length self.old.trail - mark) }
    {
        while self.mark() > mark {
            self.undo_last();
        }
    }

    // Takes back the latest move.
    fn undo_last(&mut self)
        requires { 0 < length self.old.trail }
        ensures nodes { self.new.nodes ≡ self.old.nodes }
        ensures trail { self.old.trail ≡ self.new.trail ++ self.new.lists ∷ [] }
        ensures spare { self.new.spare ≡ self.old.spare + 1 }
    {
        if let Some(latest) = self.moves.pop() {
            take_back(&mut self.nodes, &mut self.ends, latest);
        }
    }
}

// Adds a move for which there is room.
fn record_move(moves: &mut Vec<Move>, entry: Move)
    requires { vec_len moves.old < vec_capacity moves.old }
    ensures items { moves.new.items ≡ moves.old.items ++ entry ∷ [] }
    ensures capacity { vec_capacity moves.old ≤ vec_capacity moves.new }
{
    let _ = moves.push(entry);
}
