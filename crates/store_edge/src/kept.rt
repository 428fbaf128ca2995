ghost use Rattle.std.specs.Prelude.{◌≡◌, ◌+◌, ◌≤◌, ◌↔◌, ◌++◌, [], length, max, IsTrue, OnOk, OnErr};
ghost use Rattle.store_edge.specs.steps.Room.{BytesWithRoom};

use std::alloc::{AllocError as OutOfMemory, Global};
use std::marker::Model;

/// Bytes that are kept, and how many there is room for in all.
#[derive(Debug, Drop)]
pub(crate) struct KeptBytes {
    all: Vec<u8>,
    room: u64,
}

impl Model for KeptBytes {
    ghost use Rattle.std.specs.Prelude.{◌≤◌};
    ghost use Rattle.std.specs.Vec.{vec_len, vec_capacity};
    ghost use Rattle.store_edge.specs.steps.Room.{BytesWithRoom};

    ghost Value = { BytesWithRoom };

    ghost view = { λ x. record { bytes = x.all.items; room = x.room } };

    ghost invariant = { λ x. (vec_len x.all ≤ x.room) × (x.room ≤ vec_capacity x.all) };
}

impl KeptBytes {
    /// No bytes, and no room.
    pub fn new(alloc: Global) -> KeptBytes
        ensures { result ≡ record { bytes = []; room = 0 } }
    {
        KeptBytes {
            all: Vec::new(alloc),
            room: 0,
        }
    }

    /// Whether there is room for these bytes too.
    pub fn fits(&self, piece: &[u8]) -> bool
        ensures fits { IsTrue result ↔ (length self.now.bytes + length piece.now ≤ self.now.room) }
        ensures within { length self.now.bytes ≤ self.now.room }
    {
        piece.len() as u64 <= self.room - self.all.len() as u64
    }

    /// Keeps these bytes too.
    pub fn add(&mut self, piece: &[u8])
        requires { length self.old.bytes + length piece.now ≤ self.old.room }
        ensures { self.new ≡ record self.old { bytes = self.old.bytes ++ piece.now } }
    {
        self.all.extend_from_slice(piece).unwrap()
    }

    /// Makes room for this many bytes in all.
    pub fn reserve(&mut self, room: u64) -> Result<(), OutOfMemory>
        ensures ok { OnOk result (self.new ≡ record self.old { room = max self.old.room room }) }
        ensures err { OnErr result (self.new ≡ self.old) }
    {
        if room > self.room {
            self.all
                .reserve_exact((room - self.all.len() as u64) as usize)?;
            self.room = room;
        }
        Ok(())
    }
}
