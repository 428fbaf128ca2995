ghost use Rattle.std.specs.Prelude.{◌≡◌, ◌≤◌, [], IsOk, IsSome, OnErr, OnOk, false, true};
ghost use Rattle.std.specs.Io.KnownBytes.{Appends};
ghost use Rattle.store_edge.specs.Faults.{Rose, next_count};
ghost use Rattle.store_edge.specs.Sink.{AddsBytes, AddsFront, told_of};
ghost use Rattle.store_edge.specs.Transfer.{AppendsFront};

use crate::sink::{Failed, Sink};
use crate::transfer::write_whole;
use std::io::Write;
use std::marker::Model;

/// A sink over a writer. Over one of the system, as standard output, what was written isn't told: this is where the proofs trust
/// the outside. Over one whose bytes are known, as a `Vec<u8>`, these are told.
#[derive(Drop)]
pub struct RealSink<W: Write> {
    writer: W,
    tells: bool,
    faults: u64,
}

impl<W: Write> Model for RealSink<W> {
    ghost use Rattle.std.specs.Prelude.{IsSome, IsTrue};
    ghost use Rattle.store_edge.specs.Sink.{RealSinkState};

    ghost Value = { RealSinkState W };

    ghost view = { λ x. record { writer = x.writer; tells = x.tells; faults = x.faults } };

    ghost invariant = { λ x. IsTrue x.tells → IsSome (W.contents x.writer) };
}

impl<W: Write + Drop> RealSink<W> {
    /// The sink that writes to this writer. It tells no bytes.
    pub fn new(writer: W) -> RealSink<W>
        ensures { result ≡ record { writer = writer; tells = false; faults = 0 } }
    {
        RealSink {
            writer,
            tells: false,
            faults: 0,
        }
    }

    /// The sink that writes to a writer whose bytes are known, and tells them.
    pub fn telling(writer: W) -> RealSink<W>
        requires { IsSome (W.contents writer) }
        ensures { result ≡ record { writer = writer; tells = true; faults = 0 } }
    {
        RealSink {
            writer,
            tells: true,
            faults: 0,
        }
    }

    /// The writer.
    pub fn into_writer(self) -> W
        ensures { result ≡ self.writer }
    {
        self.writer
    }
}

impl<W: Write + Drop> Sink for RealSink<W> {
    ghost written = { λ sink. told_of W.contents sink };

    ghost faults = { λ sink. sink.faults };

    fn write(&mut self, piece: &[u8]) -> Result<(), Failed>
        ensures ok { OnOk result (AddsBytes (told_of W.contents self.old) (told_of W.contents self.new) piece.now) }
        ensures cut { OnErr result (AddsFront (told_of W.contents self.old) (told_of W.contents self.new) piece.now) }
        ensures empty { piece.now ≡ [] → IsOk result × (self.new ≡ self.old) }

        ensures failed { OnErr result (Rose self.old.faults self.new.faults) }
        ensures unless_failed { OnOk result (self.new.faults ≡ self.old.faults) }
        ensures never_falls { self.old.faults ≤ self.new.faults }

        // Where the bytes of the writer are known, also where they aren't told.
        ensures appends { OnOk result (Appends (W.contents self.old.writer) (W.contents self.new.writer) piece.now) }
        ensures appends_front { OnErr result (AppendsFront (W.contents self.old.writer) (W.contents self.new.writer) piece.now) }
        ensures counts { OnErr result (self.new.faults ≡ next_count self.old.faults) }
        ensures tells { self.new.tells ≡ self.old.tells }
    {
        if piece.is_empty() {
            return Ok(());
        }
        match write_whole(&mut self.writer, piece) {
            Ok(()) => Ok(()),
            Err(failed) => {
                self.faults = self.faults.saturating_add(1);
                Err(failed)
            }
        }
    }
}
