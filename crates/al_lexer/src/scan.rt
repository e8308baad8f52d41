//! Bytes at the front of a text, and their longest runs.

ghost use Rattle.std.specs.Prelude.{◌≡◌, ◌≢◌, ◌<◌, ◌≤◌, ◌+◌, length, slice_index, IfSome, true};
ghost use Rattle.std.specs.List.{prefix_len};
ghost use Rattle.al_grammar.specs.Characters as chars;
ghost use Rattle.al_grammar.specs.Lexemes as spec;
ghost use Rattle.al_lexer.specs.Classes.{is_in};

/// What a run of bytes is made of.
#[derive(Clone, Copy, Debug)]
pub enum Class {
    Word,
    Digit,
    Hexadecimal,
    Line,
}

pub fn is_blank(b: u8) -> bool
    ensures { result ≡ chars.is_blank b }
{
    b == b' ' || (9 <= b && b <= 13)
}

pub fn is_letter(b: u8) -> bool
    ensures { result ≡ chars.is_letter b }
{
    b.is_ascii_alphabetic() || b == b'_'
}

pub fn is_word(b: u8) -> bool
    ensures { result ≡ chars.is_word b }
{
    is_letter(b) || b.is_ascii_digit()
}

pub fn is_plain(b: u8) -> bool
    ensures { result ≡ chars.is_plain b }
{
    (b == b'\t' || (32 <= b && b <= 126) || 128 <= b) && !(b == b'"' || b == b'%' || b == b'\\')
}

fn is_in_class(class: Class, b: u8) -> bool
    ensures { result ≡ is_in class b }
{
    match class {
        Class::Word => is_word(b),
        Class::Digit => b.is_ascii_digit(),
        Class::Hexadecimal => b.is_ascii_hexdigit(),
        Class::Line => !(b == b'\n'),
    }
}

/// The byte at a place, or 0 past the end.
pub fn byte(z: &[u8], at: usize) -> u8
    ensures value { result ≡ slice_index z.now at }
    ensures within { result ≢ 0 → at < length z.now }
{
    if at < z.len() { z[at] } else { 0 }
}

/// How many bytes of the class the text begins with.
pub fn run_len(class: Class, z: &[u8]) -> usize
    ensures value { result ≡ prefix_len (is_in class) z.now }
    ensures within { result ≤ length z.now }
    ensures moves { is_in class (slice_index z.now 0) ≡ true → slice_index z.now 0 ≢ 0 → 1 ≤ result }
{
    let mut len = 0;
    while len < z.len() && is_in_class(class, z[len]) {
        len += 1;
    }
    len
}

pub fn line_feeds(z: &[u8]) -> usize
    ensures value { result ≡ chars.line_feeds z.now }
    ensures within { result ≤ length z.now }
{
    z.iter().filter(|b| **b == b'\n').count()
}

pub fn begins_line_comment(z: &[u8]) -> bool
    ensures value { result ≡ spec.begins_line_comment z.now }
    ensures within { result ≡ true → 2 ≤ length z.now }
{
    byte(z, 0) == b'/' && byte(z, 1) == b'/'
}

pub fn begins_block_comment(z: &[u8]) -> bool
    ensures value { result ≡ spec.begins_block_comment z.now }
    ensures within { result ≡ true → 2 ≤ length z.now }
{
    byte(z, 0) == b'/' && byte(z, 1) == b'*'
}

pub fn line_comment_len(z: &[u8]) -> usize
    requires { 2 ≤ length z.now }
    ensures value { result ≡ spec.line_comment_len z.now }
    ensures within { (1 ≤ result) × (result ≤ length z.now) }
{
    2 + run_len(Class::Line, &z[2..])
}

fn block_len(z: &[u8]) -> Option<usize>
    ensures value { result ≡ spec.block_len z.now }
    ensures within { IfSome result (λ n. n ≤ length z.now) }
{
    for (at, b) in z.iter().enumerate() {
        if *b == b'*' && byte(z, at + 1) == b'/' {
            return Some(at + 2);
        }
    }
    None
}

pub fn block_comment_len(z: &[u8]) -> Option<usize>
    requires { 2 ≤ length z.now }
    ensures value { result ≡ spec.block_comment_len z.now }
    ensures within { IfSome result (λ n. (1 ≤ n) × (n ≤ length z.now)) }
{
    match block_len(&z[2..]) {
        None => None,
        Some(len) => Some(2 + len),
    }
}
