ghost use Rattle.std.specs.Prelude.{◌≡◌, [], Some, max, OnOk, OnErr, IsOk};
ghost use Rattle.store_edge.specs.Sink.{SureSinkState, told_after};

use crate::kept::KeptBytes;
use crate::sink::{Failed, Sink};
use std::alloc::{AllocError as OutOfMemory, Global};
use std::marker::Model;

/// A sink in memory that never fails, for tests. It tells its bytes as long as they fit into its room: from the first write
/// that passes the room on it no longer does.
#[derive(Debug, Drop)]
pub struct SureSink {
    kept: KeptBytes,
    tells: bool,
}

impl Model for SureSink {
    ghost use Rattle.std.specs.Prelude.{Some, None, if◌then◌else◌};
    ghost use Rattle.store_edge.specs.Sink.{SureSinkState};

    ghost Value = { SureSinkState };

    ghost view = { λ x. record { told = if x.tells then Some x.kept.bytes else None; room = x.kept.room } };
}

impl SureSink {
    /// A sink without bytes and without room.
    pub fn new(alloc: Global) -> SureSink
        ensures { result ≡ record { told = Some []; room = 0 } }
    {
        SureSink {
            kept: KeptBytes::new(alloc),
            tells: true,
        }
    }

    /// Makes room for this many bytes in all.
    pub fn reserve(&mut self, room: u64) -> Result<(), OutOfMemory>
        ensures ok { OnOk result (self.new ≡ record self.old { room = max self.old.room room }) }
        ensures err { OnErr result (self.new ≡ self.old) }
    {
        self.kept.reserve(room)
    }
}

impl Sink for SureSink {
    ghost written = { λ sink. sink.told };

    ghost faults = { λ _. 0 };

    fn write(&mut self, piece: &[u8]) -> Result<(), Failed>
        ensures succeeds { IsOk result }
        ensures empty { piece.now ≡ [] → IsOk result × (self.new ≡ self.old) }
        ensures after { self.new ≡ record self.old { told = told_after self.old piece.now } }
    {
        if self.kept.fits(piece) {
            self.kept.add(piece);
        } else {
            self.tells = false;
        }
        Ok(())
    }
}
