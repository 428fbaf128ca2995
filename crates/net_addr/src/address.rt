ghost use Rattle.std.specs.Prelude.{◌≡◌, ◌≢◌, ℕ, ◌<◌, ◌∷◌, ◌++◌, List, length, slice_index, All, IfNone, IfSome, SomeIff};
ghost use Rattle.net_addr.specs.AddressWords.{IsAddressWord, IsOctet};
ghost use Rattle.net_addr.specs.steps.Octets.{CutsOctet};
ghost use Rattle.net_addr.specs.Numerals.{decimal_value};
ghost use Rattle.net_addr.specs.Readers.{Reads};

use crate::number::read_number;

/// The address for which the word stands: four numbers of one to three digits, each at most 255, joined by dots.
pub fn read_addr(word: &[u8]) -> Option<u32>
    ensures { Reads result (IsAddressWord word.now) }
{
    let (first, after_first) = cut_octet(word)?;
    let (second, after_second) = cut_octet(after_first)?;
    let (third, after_third) = cut_octet(after_second)?;
    let fourth = read_octet(after_third)?;
    let high = u32::from(first) * 256 + u32::from(second);
    let low = u32::from(third) * 256 + u32::from(fourth);
    Some(high * 65536 + low)
}

/// The octet before the first dot of the word, and what follows that dot.
fn cut_octet(word: &[u8]) -> Option<(u8, &[u8])>
    ensures none { IfNone result ((part : List ℕ) (rest : List ℕ) → IsOctet part → word.now ≢ part ++ 46 ∷ rest) }
    ensures some { IfSome result (λ cut. CutsOctet word.now cut.0 cut.1.now) }
{
    let dot = first_dot(word)?;
    let octet = read_octet(&word[..dot])?;
    Some((octet, &word[dot + 1..]))
}

/// The place of the first dot.
fn first_dot(word: &[u8]) -> Option<usize>
    ensures none { IfNone result (All (λ b. b ≢ 46) word.now) }
    ensures within { IfSome result (λ i. i < length word.now) }
    ensures dot { IfSome result (λ i. slice_index word.now i ≡ 46) }
    ensures before { IfSome result (λ i. (k : ℕ) → k < i → slice_index word.now k ≢ 46) }
{
    word.iter().position(|byte| *byte == b'.')
}

/// The value of an octet.
fn read_octet(word: &[u8]) -> Option<u8>
    ensures { SomeIff result (IsOctet word.now) (decimal_value word.now) }
{
    if word.len() > 3 {
        return None;
    }
    let value = read_number(word, 255)?;
    Some(value as u8)
}
