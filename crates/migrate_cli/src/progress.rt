use std::alloc::Global;
use store_edge::Sink;

/// How far a long command is: of how many things so many are done.
#[derive(Clone, Copy, Debug)]
pub(crate) struct Progress<'a> {
    /// The word of the command.
    pub command: &'a str,
    /// How many are done.
    pub done: usize,
    /// How many there are.
    pub all: usize,
    /// What they are.
    pub things: &'a str,
}

impl Progress<'_> {
    /// Says how far it is, as `failures: 120 of 461 links`, in the place of what was said before; the last time it ends the line.
    ///
    /// It has no part in any answer: a fault of the sink is let be, and so is want of memory for the line.
    pub fn say<P: Sink>(&self, alloc: Global, sink: &mut P) {
        let end = if self.done == self.all { "\n" } else { "" };
        let line = format!(in alloc;
            "\r{}: {} of {} {}{end}",
            self.command, self.done, self.all, self.things
        );
        if let Ok(line) = line {
            let _ = sink.write(line.as_bytes());
        }
    }
}
