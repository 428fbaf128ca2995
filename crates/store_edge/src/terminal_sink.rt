ghost use Rattle.std.specs.Prelude.{◌≡◌, ◌≤◌, [], None, IsOk, OnErr, OnOk, false};
ghost use Rattle.store_edge.specs.Faults.{Rose};

use crate::real_sink::RealSink;
use crate::sink::{Failed, Sink};
use std::io::{IsTerminal, Write};

/// A sink over a writer that may be a terminal, as standard error, for what is told while a call runs. Where the writer is none, as
/// a file or a pipe, it takes each piece and writes nothing. It tells no bytes.
#[derive(Drop)]
pub struct TerminalSink<W: Write> {
    sink: RealSink<W>,
    is_terminal: bool,
}

impl<W: Write + IsTerminal + Drop> TerminalSink<W> {
    /// The sink over this writer, which is asked once whether it is a terminal.
    pub fn new(writer: W) -> TerminalSink<W>
        ensures { result.sink ≡ record { writer = writer; tells = false; faults = 0 } }
    {
        let is_terminal = writer.is_terminal();
        TerminalSink {
            sink: RealSink::new(writer),
            is_terminal,
        }
    }
}

impl<W: Write + Drop> Sink for TerminalSink<W> {
    ghost written = { λ _. None };

    ghost faults = { λ terminal. terminal.sink.faults };

    fn write(&mut self, piece: &[u8]) -> Result<(), Failed>
        ensures empty { piece.now ≡ [] → IsOk result × (self.new ≡ self.old) }

        ensures failed { OnErr result (Rose self.old.sink.faults self.new.sink.faults) }
        ensures unless_failed { OnOk result (self.new.sink.faults ≡ self.old.sink.faults) }
        ensures never_falls { self.old.sink.faults ≤ self.new.sink.faults }

        // Where the writer is no terminal nothing is written, and no write fails.
        ensures quiet { self.old.is_terminal ≡ false → IsOk result × (self.new ≡ self.old) }
        ensures same { self.new.is_terminal ≡ self.old.is_terminal }
    {
        if self.is_terminal {
            self.sink.write(piece)
        } else {
            Ok(())
        }
    }
}
