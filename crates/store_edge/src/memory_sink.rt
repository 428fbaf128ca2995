ghost use Rattle.std.specs.Prelude.{◌≡◌, ◌≢◌, ◌≤◌, ◌++◌, [], Some, max, OnOk, OnErr, IsOk};
ghost use Rattle.store_edge.specs.Faults.{Rose, next_count};
ghost use Rattle.store_edge.specs.Sink.{AddsBytes, AddsFront, WriteFails, MemorySinkState};

use crate::calls::Calls;
use crate::kept::KeptBytes;
use crate::sink::{Failed, Sink};
use std::alloc::{AllocError as OutOfMemory, Global};
use std::marker::Model;

/// A sink in memory, for tests: the writes of the given numbers fail, and so does each write that passes the room.
#[derive(Debug, Drop)]
pub struct MemorySink {
    kept: KeptBytes,
    failing: Calls,
    writes: u64,
    faults: u64,
}

impl Model for MemorySink {
    ghost use Rattle.store_edge.specs.Sink.{MemorySinkState};

    ghost Value = { MemorySinkState };

    ghost view = { λ x. record { bytes = x.kept.bytes; room = x.kept.room; failing = x.failing; writes = x.writes; faults = x.faults } };
}

impl MemorySink {
    /// A sink without bytes and without room. The numbers are those of the writes that fail, counted from 1.
    pub fn new(alloc: Global, failing: Calls) -> MemorySink
        ensures { result ≡ record { bytes = []; room = 0; failing = failing; writes = 0; faults = 0 } }
    {
        MemorySink {
            kept: KeptBytes::new(alloc),
            failing,
            writes: 0,
            faults: 0,
        }
    }

    /// Makes room for this many bytes in all.
    pub fn reserve(&mut self, room: u64) -> Result<(), OutOfMemory>
        ensures ok { OnOk result (self.new ≡ record self.old { room = max self.old.room room }) }
        ensures err { OnErr result (self.new ≡ self.old) }
    {
        self.kept.reserve(room)
    }
}

impl Sink for MemorySink {
    ghost written = { λ sink. Some sink.bytes };

    ghost faults = { λ sink. sink.faults };

    /// It fails exactly where the number of the write is one that fails, or the piece passes the room, and keeps nothing then.
    fn write(&mut self, piece: &[u8]) -> Result<(), Failed>
        ensures ok { OnOk result (AddsBytes (Some self.old.bytes) (Some self.new.bytes) piece.now) }
        ensures cut { OnErr result (AddsFront (Some self.old.bytes) (Some self.new.bytes) piece.now) }
        ensures empty { piece.now ≡ [] → IsOk result × (self.new ≡ self.old) }

        ensures failed { OnErr result (Rose self.old.faults self.new.faults) }
        ensures unless_failed { OnOk result (self.new.faults ≡ self.old.faults) }
        ensures never_falls { self.old.faults ≤ self.new.faults }

        ensures fails { OnErr result (WriteFails self.old piece.now) }
        ensures succeeds { OnOk result (piece.now ≢ [] → WriteFails self.old piece.now → ⊥) }
        ensures kept { OnOk result (piece.now ≢ [] → self.new ≡ record self.old {
          bytes = self.old.bytes ++ piece.now;
          writes =
              next_count self.old.writes;
        }) }
        ensures lost { OnErr result (self.new ≡ record self.old { writes = next_count self.old.writes; faults = next_count self.old.faults }) }
    {
        if piece.is_empty() {
            return Ok(());
        }
        self.writes = self.writes.saturating_add(1);
        if self.failing.has(self.writes) || !self.kept.fits(piece) {
            self.faults = self.faults.saturating_add(1);
            return Err(Failed);
        }
        self.kept.add(piece);
        Ok(())
    }
}
