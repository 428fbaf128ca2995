ghost use Rattle.std.specs.Prelude.{◌≡◌, ◌≤◌, ℕ, List, [], Option, OnOk, OnErr, IsOk};
ghost use Rattle.store_edge.specs.Faults.{Rose};
ghost use Rattle.store_edge.specs.Sink.{AddsBytes, AddsFront};

/// A write failed, and the count of faults rose.
#[derive(Clone, Copy, Debug, PartialEq, Eq)]
pub struct Failed;

/// Where bytes are written to.
pub trait Sink {
    /// The bytes written so far, where the sink tells them.
    ghost written: { Self → Option (List ℕ) };

    /// How many faults there were.
    ghost faults: { Self → ℕ };

    /// Writes the whole piece, or fails after a front of it. An empty piece isn't a write at all.
    fn write(&mut self, piece: &[u8]) -> Result<(), Failed>
        ensures ok { OnOk result (AddsBytes (written self.old) (written self.new) piece.now) }
        ensures cut { OnErr result (AddsFront (written self.old) (written self.new) piece.now) }
        ensures empty { piece.now ≡ [] → IsOk result × (self.new ≡ self.old) }

        ensures failed { OnErr result (Rose (faults self.old) (faults self.new)) }
        ensures unless_failed { OnOk result (faults self.new ≡ faults self.old) }
        ensures never_falls { faults self.old ≤ faults self.new };
}
