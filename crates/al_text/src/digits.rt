//! Decimal digits, and the numbers that they write.

ghost use Rattle.std.specs.Prelude.{◌≡◌, ◌<◌, ◌^◌, ℕ, Some, true, IfSome};
ghost use Rattle.std.specs.Char.{is_ascii_digit};
ghost use Rattle.std.specs.Fmt.{decimal};
ghost use Rattle.std.specs.List.{list_all};
ghost use Rattle.al_text.specs.Digits as spec;

fn are_digits(text: &[u8]) -> bool
    ensures { result ≡ list_all is_ascii_digit text.now }
{
    text.iter().all(|b| b.is_ascii_digit())
}

/// Whether a text is one or more digits.
pub fn is_digits(text: &[u8]) -> bool
    ensures { result ≡ spec.is_digits text.now }
{
    !text.is_empty() && are_digits(text)
}

/// The number that digits write, if it has at most 64 bits.
#[tactic(auto, using(crate::proofs::DigitLemmas::value_more, crate::proofs::DigitLemmas::too_large, crate::proofs::DigitLemmas::small_enough))]
pub fn value_of(digits: &[u8]) -> Option<u64>
    requires { list_all is_ascii_digit digits.now ≡ true }
    ensures { result ≡ spec.value_of digits.now }
{
    let mut value: u64 = 0;
    for b in digits {
        value = value
            .checked_mul(10)?
            .checked_add(u64::from(b.saturating_sub(b'0')))?;
    }
    Some(value)
}

fn is_numeral(text: &[u8]) -> bool
    ensures { result ≡ spec.is_numeral text.now }
{
    is_digits(text) && (text[0] != b'0' || text.len() == 1)
}

fn numeral_of(text: &[u8]) -> Option<u64>
    ensures { result ≡ spec.numeral text.now }
{
    if is_numeral(text) {
        value_of(text)
    } else {
        None
    }
}

/// The number that digits without a leading zero write, `0` included, if it has at most 64 bits. It takes no memory.
#[tactic(auto, using(crate::proofs::DecimalLemmas::numeral_written, crate::proofs::DecimalLemmas::numeral_found))]
pub fn numeral(text: &[u8]) -> Option<u64>
    ensures exact { result ≡ spec.numeral text.now }
    // So it is the number of which this is the decimal text.
    ensures written { IfSome result (λ n. text.now ≡ decimal n) }
    ensures found { (n : ℕ) → n < 2 ^ 64 → text.now ≡ decimal n → result ≡ Some n }
{
    numeral_of(text)
}
