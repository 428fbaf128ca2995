ghost use Rattle.std.specs.Prelude.{◌↔◌, IsTrue};
ghost use Rattle.migrate_cli.specs.FirstLines.{BeginsWith};

use net_addr::LineCursor;

/// Whether this is the first line of a text.
pub(crate) fn begins_with(first: &[u8], text: &[u8]) -> bool
    ensures { IsTrue result ↔ BeginsWith first.now text.now }
{
    let mut lines = LineCursor::new(text);
    match lines.next_line() {
        Some(line) => line == first,
        None => false,
    }
}
