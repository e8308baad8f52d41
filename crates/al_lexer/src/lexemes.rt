//! The token at the front of a text.

ghost use Rattle.std.specs.Prelude.{◌≡◌, ◌<◌, ◌≤◌, ◌+◌, ◌≢◌, length, slice_index, IfOk, true, Ok};
ghost use Rattle.std.specs.Char.{is_ascii_digit};
ghost use Rattle.al_source.specs.Answers.{Gives};
ghost use Rattle.al_source.specs.Faults.{lexical};
ghost use Rattle.al_grammar.specs.Lexemes as spec;
ghost use Rattle.al_grammar.specs.Characters.{is_letter};
ghost use Rattle.al_grammar.specs.Words.{mark_at};

use crate::numbers::number_at;
use crate::scan::{Class, byte, is_letter, run_len};
use crate::texts::{format_of, inside_len};
use crate::words::{key_of, mark_at};
use al_source::{LexFault, TokenKind};
use sqlite_items::Items;
use std::alloc::{AllocError, Global};

/// A kind of token, and a length in bytes.
pub type Lexeme = (TokenKind, usize);

fn name_kind(alloc: Global, word: &[u8]) -> Result<TokenKind, AllocError>
    ensures { IfOk result (λ kind. kind ≡ spec.name_kind word.now) }
{
    match key_of(word) {
        Some(key) => Ok(TokenKind::Key(key)),
        None => Ok(TokenKind::Word(Items::from_slice(alloc, word)?)),
    }
}

fn name(alloc: Global, z: &[u8]) -> Result<Lexeme, LexFault>
    requires { is_letter (slice_index z.now 0) ≡ true }
    ensures value { Gives lexical (Ok (spec.name z.now)) result }
    ensures within { IfOk result (λ t. (1 ≤ t.1) × (t.1 ≤ length z.now)) }
{
    let len = run_len(Class::Word, z);
    let kind = name_kind(alloc, &z[..len])?;
    Ok((kind, len))
}

fn number(line: u32, z: &[u8]) -> Result<Lexeme, LexFault>
    requires { is_ascii_digit (slice_index z.now 0) ≡ true }
    ensures value { result ≡ spec.number line z.now }
    ensures within { IfOk result (λ t. (1 ≤ t.1) × (t.1 ≤ length z.now)) }
{
    match number_at(z) {
        Some((value, len)) => Ok((TokenKind::Number(value), len)),
        None => Err(LexFault::BadNumber(line)),
    }
}

fn text(alloc: Global, line: u32, z: &[u8]) -> Result<Lexeme, LexFault>
    requires { slice_index z.now 0 ≡ 34 }
    ensures value { Gives lexical (spec.text line z.now) result }
    ensures within { IfOk result (λ t. (1 ≤ t.1) × (t.1 ≤ length z.now)) }
{
    match inside_len(&z[1..]) {
        Some(len) => {
            let format = format_of(alloc, &z[1..len + 1])?;
            Ok((TokenKind::Text(format), len + 2))
        }
        None => Err(LexFault::BadText(line)),
    }
}

fn mark(line: u32, z: &[u8]) -> Result<Lexeme, LexFault>
    ensures value { result ≡ spec.marked line (mark_at z.now) }
    ensures within { IfOk result (λ t. (1 ≤ t.1) × (t.1 ≤ length z.now)) }
{
    match mark_at(z) {
        Some((mark, len)) => Ok((TokenKind::Mark(mark), len)),
        None => Err(LexFault::BadByte(line)),
    }
}

/// The token that the text begins with, which stands on the line.
#[tactic(auto, unfolding(al_grammar::specs::Lexemes::lexeme))]
pub fn lexeme(alloc: Global, line: u32, z: &[u8]) -> Result<Lexeme, LexFault>
    ensures value { Gives lexical (spec.lexeme line z.now) result }
    ensures within { IfOk result (λ t. (1 ≤ t.1) × (t.1 ≤ length z.now)) }
{
    let b = byte(z, 0);
    if is_letter(b) {
        name(alloc, z)
    } else if b.is_ascii_digit() {
        number(line, z)
    } else if b == b'"' {
        text(alloc, line, z)
    } else {
        mark(line, z)
    }
}
