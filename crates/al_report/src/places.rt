//! What is said of tokens that are no program, by the place of the first that is bad.

ghost use Rattle.std.specs.Prelude.{◌≡◌, ◌<◌, ◌≤◌, length, IfOk};
ghost use Rattle.al_grammar.specs.Spelling.{Spells};
ghost use Rattle.al_report.specs.Places as spec;

use crate::builder::Text;
use crate::lines::of_line;
use al_source::{Bytes, Token, TokenKind};
use sqlite_items::Items;
use std::alloc::{AllocError, Global};

/// A token by its bytes in the source; the ends of an annotation have names.
fn token_text<'a>(source: &'a [u8], token: &Token) -> &'a [u8]
    requires in_order { token.now.start ≤ token.now.end }
    requires within { token.now.end ≤ length source.now }
    ensures { result.now ≡ spec.token_text source.now token.now }
{
    match &token.kind {
        TokenKind::Alter => b"#pragma alter",
        TokenKind::EndAlter => b"end of pragma",
        _ => &source[token.start as usize..token.end as usize],
    }
}

fn bad_token(alloc: Global, name: &str, source: &[u8], token: &Token) -> Result<Bytes, AllocError>
    requires in_order { token.now.start ≤ token.now.end }
    requires within { token.now.end ≤ length source.now }
    ensures { IfOk result (λ text. text ≡ spec.bad_token name.now source.now token.now) }
{
    let mut text = Text::new(alloc);
    text.push(b"bad token ")?;
    text.push(token_text(source, token))?;
    of_line(alloc, name, token.line, text.finish().as_slice())
}

/// The line about tokens that only more are missing of.
fn unfinished(alloc: Global, name: &str, tokens: &[Token]) -> Result<Bytes, AllocError>
    ensures { IfOk result (λ text. text ≡ spec.unfinished name.now tokens.now) }
{
    match tokens.last() {
        Some(last) => of_line(alloc, name, last.line, b"unfinished"),
        None => Ok(Items::new(alloc)),
    }
}

/// The line about the tokens of a source that are no program: the token at the place is bad, with its line and its
/// bytes, or where the place is past the last, the tokens are unfinished, with the last one's line.
pub fn bad_text(
    alloc: Global,
    name: &str,
    source: &[u8],
    tokens: &[Token],
    place: usize,
) -> Result<Bytes, AllocError>
    requires spelled { Spells source.now tokens.now }
    requires has_tokens { 0 < length tokens.now }
    requires within { place ≤ length tokens.now }
    ensures { IfOk result (λ text. text ≡ spec.bad_text name.now source.now tokens.now place) }
{
    match tokens.get(place) {
        Some(token) => bad_token(alloc, name, source, token),
        None => unfinished(alloc, name, tokens),
    }
}
