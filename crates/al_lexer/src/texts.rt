//! Texts: what stands between two quotes.

ghost use Rattle.std.specs.Prelude.{◌≡◌, ◌<◌, ◌≤◌, ◌+◌, ◌++◌, length, slice_index, IfSome, IfOk, OnOk};
ghost use Rattle.al_grammar.specs.Lexemes as spec;
ghost use Rattle.al_lexer.specs.Formats as formats;

use crate::scan::{byte, is_plain};
use al_source::{Bytes, Format, Piece};
use sqlite_items::Items;
use std::alloc::{AllocError, Global};

/// A byte, or None where an argument is printed.
type Meaning = Option<u8>;

fn escaped(b: u8) -> Option<u8>
    ensures { result ≡ spec.escaped b }
{
    match b {
        b'n' => Some(b'\n'),
        b't' => Some(b'\t'),
        b'\\' => Some(b'\\'),
        b'"' => Some(b'"'),
        _ => None,
    }
}

/// What the three bytes after a `%` make of it.
fn conversion(a: u8, b: u8, c: u8) -> Option<(usize, Meaning)>
    ensures value { result ≡ spec.conversion a b c }
    ensures two { IfSome result (λ u. (2 ≤ u.0) × (u.0 ≤ 4)
        × (a ≡ 0 → u.0 ≤ 1) × (b ≡ 0 → u.0 ≤ 2) × (c ≡ 0 → u.0 ≤ 3)) }
{
    if a == b'%' {
        Some((2, Some(b'%')))
    } else if a == b'd' {
        Some((2, None))
    } else if a == b'l' && b == b'd' {
        Some((3, None))
    } else if a == b'l' && b == b'l' && c == b'd' {
        Some((4, None))
    } else {
        None
    }
}

/// What stands at the front of a text's inside, and its length.
#[tactic(auto, unfolding(al_grammar::specs::Lexemes::unit_at))]
fn unit_at(z: &[u8]) -> Option<(usize, Meaning)>
    ensures value { result ≡ spec.unit_at z.now }
    ensures within { IfSome result (λ u. (1 ≤ u.0) × (u.0 ≤ length z.now)) }
{
    match byte(z, 0) {
        b'\\' => {
            let meant = escaped(byte(z, 1))?;
            Some((2, Some(meant)))
        }
        b'%' => conversion(byte(z, 1), byte(z, 2), byte(z, 3)),
        b if is_plain(b) => Some((1, Some(b))),
        _ => None,
    }
}

/// The length of a text up to its closing quote, where the text begins after its first.
pub fn inside_len(z: &[u8]) -> Option<usize>
    ensures value { result ≡ spec.inside_len z.now }
    ensures within { IfSome result (λ n. n < length z.now) }
{
    let mut rest = z;
    while byte(rest, 0) != b'"' {
        let (len, _) = unit_at(rest)?;
        rest = &rest[len..];
    }
    Some(z.len() - rest.len())
}

/// Ends a format with the plain bytes that were gathered.
fn push_plain(pieces: &mut Format, plain: Bytes) -> Result<(), AllocError>
    ensures { OnOk result (pieces.new ≡ pieces.old ++ formats.plain_pieces plain) }
{
    if plain.is_empty() {
        Ok(())
    } else {
        pieces.push(Piece::Plain(plain))
    }
}

/// The format of a text's inside.
pub fn format_of(alloc: Global, z: &[u8]) -> Result<Format, AllocError>
    ensures { IfOk result (λ f. f ≡ spec.format_of z.now) }
{
    let mut pieces = Items::new(alloc);
    let mut plain = Items::new(alloc);
    let mut rest = z;
    while !rest.is_empty() {
        match unit_at(rest) {
            Some((len, Some(b))) => {
                plain.push(b)?;
                rest = &rest[len..];
            }
            Some((len, None)) => {
                push_plain(&mut pieces, plain)?;
                pieces.push(Piece::Number)?;
                plain = Items::new(alloc);
                rest = &rest[len..];
            }
            None => rest = &rest[1..],
        }
    }
    push_plain(&mut pieces, plain)?;
    Ok(pieces)
}
