//! Numbers at the front of a text.

ghost use Rattle.std.specs.Prelude.{◌≡◌, ◌<◌, ◌≤◌, ◌+◌, ◌*◌, ◌^◌, length, slice_index, true, min, IfSome};
ghost use Rattle.std.specs.Char.{is_ascii_digit};
ghost use Rattle.al_grammar.specs.Characters as chars;
ghost use Rattle.al_grammar.specs.Lexemes as spec;

use crate::scan::{Class, byte, is_word, run_len};

/// The first value that is none of a number.
const TOO_LARGE: u64 = 9223372036854775808;

fn is_hexadecimal(z: &[u8]) -> bool
    ensures value { result ≡ spec.is_hexadecimal z.now }
    ensures within { result ≡ true → 2 ≤ length z.now }
{
    byte(z, 0) == b'0' && (byte(z, 1) == b'x' || byte(z, 1) == b'X')
}

fn digits_end(z: &[u8]) -> usize
    ensures value { result ≡ spec.digits_end z.now }
    ensures within { result ≤ length z.now }
    ensures hexadecimal { spec.is_hexadecimal z.now ≡ true → 2 ≤ result }
    ensures moves { is_ascii_digit (slice_index z.now 0) ≡ true → 1 ≤ result }
{
    if is_hexadecimal(z) {
        2 + run_len(Class::Hexadecimal, &z[2..])
    } else {
        run_len(Class::Digit, z)
    }
}

fn suffix_len(first: u8, second: u8) -> usize
    ensures value { result ≡ spec.suffix_len first second }
    ensures least { first ≡ 0 → result ≡ 0 }
    ensures longest { second ≡ 0 → result ≤ 1 }
    ensures bound { result ≤ 2 }
{
    if first == b'l' || first == b'L' {
        if second == first { 2 } else { 1 }
    } else {
        0
    }
}

/// The length of the number that the text begins with.
pub fn number_len(z: &[u8]) -> usize
    ensures value { result ≡ spec.number_len z.now }
    ensures within { result ≤ length z.now }
    ensures moves { is_ascii_digit (slice_index z.now 0) ≡ true → 1 ≤ result }
{
    let end = digits_end(z);
    end + suffix_len(byte(z, end), byte(z, end + 1))
}

fn digit_value(b: u8) -> u8
    ensures { result ≡ chars.digit_value b }
{
    if b <= b'9' {
        b.saturating_sub(b'0')
    } else if b <= b'F' {
        b - 55
    } else {
        b.saturating_sub(87)
    }
}

/// The value of digits in a base, or `TOO_LARGE` where it is larger.
fn value_in(base: u64, digits: &[u8]) -> u64
    requires { 1 ≤ base }
    ensures { result ≡ min (chars.value_in base digits.now) TOO_LARGE }
{
    let mut value: u64 = 0;
    for b in digits {
        let digit = u64::from(digit_value(*b));
        value = value
            .saturating_mul(base)
            .saturating_add(digit)
            .min(TOO_LARGE);
    }
    value
}

/// The value of a number's bytes, or `TOO_LARGE` where it is larger.
fn number_value(z: &[u8]) -> u64
    ensures { result ≡ min (spec.number_value z.now) TOO_LARGE }
{
    let end = digits_end(z);
    if is_hexadecimal(z) {
        value_in(16, &z[2..end])
    } else {
        value_in(10, &z[..end])
    }
}

fn has_digits(z: &[u8]) -> bool
    ensures { result ≡ spec.has_digits z.now }
{
    let end = digits_end(z);
    if is_hexadecimal(z) {
        2 < end
    } else {
        byte(z, 0) != b'0' || end == 1
    }
}

fn spoils_number(b: u8) -> bool
    ensures { result ≡ spec.spoils_number b }
{
    is_word(b) || b == b'.'
}

/// The value of the number that the text begins with, and its length, if it is one of the language.
#[tactic(auto, unfolding(al_grammar::specs::Lexemes::number_at))]
pub fn number_at(z: &[u8]) -> Option<(i64, usize)>
    requires { is_ascii_digit (slice_index z.now 0) ≡ true }
    ensures value { result ≡ spec.number_at z.now }
    ensures within { IfSome result (λ n. (1 ≤ n.1) × (n.1 ≤ length z.now)) }
{
    let len = number_len(z);
    let value = number_value(&z[..len]);
    if has_digits(z) && !spoils_number(byte(z, len)) && value < TOO_LARGE {
        Some((value as i64, len))
    } else {
        None
    }
}
