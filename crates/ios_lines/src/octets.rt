ghost use Rattle.std.specs.Prelude.{◌≡◌, ◌<◌, ◌≤◌, [], ◌∷◌, true, get_or, nat_eq, length, Some, IfSome, IfNone, IsTrue};
ghost use Rattle.std.specs.List.{before_first, after_first};
ghost use Rattle.ios_lines.specs.Words.{is_dot, octet_of, address_of, mask_with, mask_length, mask_of};
ghost use Rattle.ios_lines.specs.steps.Octets.{lacks_octet};

/// The value of a digit.
fn digit_value(digit: u8) -> Option<u32>
    ensures value { result ≡ octet_of (digit ∷ []) }
    ensures small { IfSome result (λ n. n ≤ 9) }
{
    if digit.is_ascii_digit() {
        Some(u32::from(digit - b'0'))
    } else {
        None
    }
}

/// The value of two digits.
fn two_digits(first: u8, second: u8) -> Option<u32>
    ensures value { result ≡ octet_of (first ∷ second ∷ []) }
    ensures small { IfSome result (λ n. n ≤ 99) }
{
    Some(digit_value(first)? * 10 + digit_value(second)?)
}

/// The value of three digits, at most 255.
fn three_digits(first: u8, second: u8, third: u8) -> Option<u32>
    ensures value { result ≡ octet_of (first ∷ second ∷ third ∷ []) }
    ensures small { IfSome result (λ n. n ≤ 255) }
{
    let value = two_digits(first, second)? * 10 + digit_value(third)?;
    if value <= 255 { Some(value) } else { None }
}

/// The value of an octet: one to three digits.
fn octet_of(word: &[u8]) -> Option<u32>
    ensures value { result ≡ octet_of word.now }
    ensures small { IfSome result (λ n. n ≤ 255) }
{
    match word {
        [first] => digit_value(*first),
        [first, second] => two_digits(*first, *second),
        [first, second, third] => three_digits(*first, *second, *third),
        _ => None,
    }
}

/// Whether a dot stands at a place.
fn has_dot(bytes: &[u8], place: usize) -> bool
    ensures dot { result ≡ is_dot (get_or bytes.now place 0) }
    ensures within { IsTrue result → place < length bytes.now }
{
    place < bytes.len() && bytes[place] == b'.'
}

/// The octet before the first dot, and what stands behind that dot. No octet has more than three digits.
#[inline(always)]
#[tactic(auto, using(crate::proofs::OctetFacts::cut_at_one, crate::proofs::OctetFacts::cut_at_two, crate::proofs::OctetFacts::cut_at_three, crate::proofs::OctetFacts::no_cut))]
fn cut_octet(bytes: &[u8]) -> Option<(u32, &[u8])>
    ensures none { IfNone result (lacks_octet bytes.now ≡ true) }
    ensures octet { IfSome result (λ cut. octet_of (before_first is_dot bytes.now) ≡ Some cut.0) }
    ensures behind { IfSome result (λ cut. cut.1.now ≡ after_first is_dot bytes.now) }
    ensures small { IfSome result (λ cut. cut.0 ≤ 255) }
{
    if has_dot(bytes, 1) {
        return Some((digit_value(bytes[0])?, &bytes[2..]));
    }
    if has_dot(bytes, 2) {
        return Some((two_digits(bytes[0], bytes[1])?, &bytes[3..]));
    }
    if has_dot(bytes, 3) {
        return Some((three_digits(bytes[0], bytes[1], bytes[2])?, &bytes[4..]));
    }
    None
}

/// The address for which a word stands: four octets joined by dots.
#[tactic(auto, using(crate::proofs::OctetFacts::lacks_first, crate::proofs::OctetFacts::lacks_second, crate::proofs::OctetFacts::lacks_third, crate::proofs::OctetFacts::lacks_fourth, crate::proofs::OctetFacts::four_octets))]
pub(crate) fn address_of(word: &[u8]) -> Option<u32>
    ensures { result ≡ address_of word.now }
{
    let (first, behind_first) = cut_octet(word)?;
    let (second, behind_second) = cut_octet(behind_first)?;
    let (third, behind_third) = cut_octet(behind_second)?;
    let fourth = octet_of(behind_third)?;
    let high = first * 256 + second;
    let low = third * 256 + fourth;
    Some(high * 65536 + low)
}

/// Whether an address is the mask of so many ones.
#[tactic(auto, using(crate::proofs::MaskWordFacts::mask_by_sum))]
fn is_mask(address: u32, len: u8) -> bool
    requires { len ≤ 32 }
    ensures { result ≡ nat_eq (mask_with len) address }
{
    u64::from(address) + (1u64 << (32 - u32::from(len))) == 0x1_0000_0000
}

/// How many ones a mask has: one at least, and all else are zeros. Most masks have few zeros.
#[tactic(auto, using(crate::proofs::MaskWordFacts::mask_found, crate::proofs::MaskWordFacts::mask_missed))]
fn mask_length(address: u32) -> Option<u8>
    ensures value { result ≡ mask_length (Some address) }
    ensures most { IfSome result (λ len. len ≤ 32) }
{
    for zeros in 0..32 {
        if is_mask(address, 32 - zeros) {
            return Some(32 - zeros);
        }
    }
    None
}

/// The length of the mask for which a word stands (RFC 4632, section 3.1).
#[tactic(auto, unfolding(crate::specs::Words::mask_of))]
pub(crate) fn mask_of(word: &[u8]) -> Option<u8>
    ensures value { result ≡ mask_of word.now }
    ensures most { IfSome result (λ len. len ≤ 32) }
{
    mask_length(address_of(word)?)
}
