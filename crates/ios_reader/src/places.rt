ghost use Rattle.std.specs.Prelude.{◌≡◌};
ghost use Rattle.net_addr.specs.Lines.{text_lines};
ghost use Rattle.ios_reader.specs.Places.{between, start_of};

use net_addr::Line;

/// Where the line of this number, counted from 1, begins, and the end of the text where there is none. The lines are those of the text.
pub fn start_of(text: &[u8], lines: &[Line], number: usize) -> usize
    requires { lines.now ≡ text_lines text.now }
    ensures { result ≡ start_of text.now number }
{
    match lines.get(number.saturating_sub(1)) {
        Some(line) => line.span.start as usize,
        None => text.len(),
    }
}

/// What stands between two places of a text, nothing where the first one is behind the second.
pub fn between(text: &[u8], from: usize, to: usize) -> &[u8]
    ensures { result.now ≡ between text.now from to }
{
    let to = to.min(text.len());
    let from = from.min(to);
    &text[from..to]
}
