ghost use Rattle.std.specs.Prelude.{◌+◌, ◌-◌, ◌*◌, ◌≤◌, SomeIff};
ghost use Rattle.std.specs.Char.{IsAsciiDigit};
ghost use Rattle.net_addr.specs.Numerals.{IsNumeralUpTo};
ghost use Rattle.net_addr.specs.Readers.{Reads};

/// The number for which the word stands in decimal, at most `most`.
///
/// The word is one or more ASCII digits, of any count, and may begin with zeros.
pub fn read_number(word: &[u8], most: u64) -> Option<u64>
    ensures { Reads result (IsNumeralUpTo most word.now) }
{
    if word.is_empty() {
        return None;
    }
    let mut value = 0;
    for byte in word {
        value = with_digit(value, *byte, most)?;
    }
    Some(value)
}

/// The number with one more digit at its end, at most `most`.
fn with_digit(value: u64, byte: u8, most: u64) -> Option<u64>
    ensures { SomeIff result (IsAsciiDigit byte × (10 * value + (byte - 48) ≤ most)) (10 * value + (byte - 48)) }
{
    if !byte.is_ascii_digit() {
        return None;
    }
    let next = value.checked_mul(10)?.checked_add(u64::from(byte - b'0'))?;
    if next <= most { Some(next) } else { None }
}
