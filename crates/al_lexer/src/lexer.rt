//! A walk over a source, from one thing that stands in it to the next.

ghost use Rattle.std.specs.Prelude.{◌≡◌, ◌<◌, ◌≤◌, ◌+◌, ◌++◌, length, take, drop, option_to_list, IfOk, IfErr, OnOk, Ok};
ghost use Rattle.al_source.specs.declared.limits.TheConstants.{SOURCE_BYTES};
ghost use Rattle.al_source.specs.Answers.{Fails, Gives};
ghost use Rattle.al_source.specs.Faults.{lexical};
ghost use Rattle.al_grammar.specs.Characters as chars;
ghost use Rattle.al_grammar.specs.Lexemes.{block_comment_len, lexeme};
ghost use Rattle.al_grammar.specs.Spelling as spec;
ghost use Rattle.al_grammar.specs.Reading.{with_front, reading_from};
ghost use Rattle.al_lexer.specs.Answers.{InBounds, ReadsOn};

use crate::lexemes::lexeme;
use crate::scan::{
    Class, begins_block_comment, begins_line_comment, block_comment_len, byte, is_blank,
    line_comment_len, line_feeds, run_len,
};
use al_grammar::{Next, Place, Spot};
use al_source::{LexFault, Token, TokenKind};
use sqlite_items::Items;
use std::alloc::{AllocError, Global};

const INCLUDE: &[u8] = b"include";

const PRAGMA: &[u8] = b"pragma";

const ALTER: &[u8] = b"alter";

/// A place of a source, and the bytes from it on.
#[derive(Clone, Copy)]
pub struct Lexer<'a> {
    pub spot: Spot,
    pub rest: &'a [u8],
}

/// Something that is no token.
fn gap(len: usize, place: Place) -> Result<Next, LexFault>
    requires { len ≤ SOURCE_BYTES }
    ensures { result ≡ spec.gap len place }
{
    Ok(Next {
        len: len as u32,
        token: None,
        place,
    })
}

/// Adds a token, if there is one.
fn push_some(tokens: &mut Items<Token>, token: Option<Token>) -> Result<(), AllocError>
    ensures { OnOk result (tokens.new ≡ tokens.old ++ option_to_list token) }
{
    if let Some(token) = token {
        tokens.push(token)?;
    }
    Ok(())
}

impl<'a> Lexer<'a> {
    /// The beginning of a source.
    pub fn new(source: &'a [u8]) -> Lexer<'a>
        ensures spot { result.spot ≡ spec.first_spot }
        ensures rest { result.rest.now ≡ source.now }
    {
        Lexer {
            spot: Spot {
                at: 0,
                line: 1,
                place: Place::Fresh,
            },
            rest: source,
        }
    }

    /// The end of an annotation, here.
    fn note_end(&self) -> Token
        ensures { result ≡ spec.note_end self.now.spot }
    {
        Token {
            kind: TokenKind::EndAlter,
            start: self.spot.at,
            end: self.spot.at,
            line: self.spot.line,
        }
    }

    fn line_end(&self) -> Result<Next, LexFault>
        ensures value { result ≡ spec.line_end_at self.now.spot.place self.now.spot }
        ensures within { IfOk result (λ n. n.len ≡ 1) }
    {
        match self.spot.place {
            Place::Hash(_, line) => Err(LexFault::BadByte(line)),
            Place::Note => Ok(Next {
                len: 1,
                token: Some(self.note_end()),
                place: Place::Fresh,
            }),
            _ => gap(1, Place::Fresh),
        }
    }

    fn block_comment(&self) -> Result<Next, LexFault>
        requires bounds { InBounds self.now.spot self.now.rest.now }
        requires begins { 2 ≤ length self.now.rest.now }
        ensures value { result ≡ spec.closed self.now.spot (block_comment_len self.now.rest.now) }
        ensures within { IfOk result (λ n. (1 ≤ n.len) × (n.len ≤ length self.now.rest.now)) }
    {
        match block_comment_len(self.rest) {
            Some(len) => gap(len, self.spot.place),
            None => Err(LexFault::OpenComment(self.spot.line)),
        }
    }

    fn directive(&self, start: u32, line: u32) -> Result<Next, LexFault>
        requires { InBounds self.now.spot self.now.rest.now }
        ensures value { result ≡ spec.directive start line self.now.rest.now }
        ensures within { IfOk result (λ n. (1 ≤ n.len) × (n.len ≤ length self.now.rest.now)) }
    {
        let word = &self.rest[..run_len(Class::Word, self.rest)];
        if word == INCLUDE {
            gap(word.len(), Place::Skipped)
        } else if word == PRAGMA {
            gap(word.len(), Place::Pragma(start, line))
        } else {
            Err(LexFault::BadByte(line))
        }
    }

    fn pragma(&self, start: u32, line: u32) -> Result<Next, LexFault>
        requires bounds { InBounds self.now.spot self.now.rest.now }
        requires some { 1 ≤ length self.now.rest.now }
        ensures value { result ≡ spec.pragma start line self.now.spot self.now.rest.now }
        ensures within { IfOk result (λ n. (1 ≤ n.len) × (n.len ≤ length self.now.rest.now)) }
    {
        let len = run_len(Class::Word, self.rest);
        if &self.rest[..len] == ALTER {
            let token = Token {
                kind: TokenKind::Alter,
                start,
                end: self.spot.at + len as u32,
                line,
            };
            Ok(Next {
                len: len as u32,
                token: Some(token),
                place: Place::Note,
            })
        } else {
            gap(1, Place::Skipped)
        }
    }

    /// The token here, after which the place is the one given.
    fn token(&self, alloc: Global, place: Place) -> Result<Next, LexFault>
        requires { InBounds self.now.spot self.now.rest.now }
        ensures value { Gives lexical
            (spec.token_at self.now.spot place (lexeme self.now.spot.line self.now.rest.now)) result }
        ensures within { IfOk result (λ n. (1 ≤ n.len) × (n.len ≤ length self.now.rest.now)) }
    {
        match lexeme(alloc, self.spot.line, self.rest) {
            Ok((kind, len)) => {
                let token = Token {
                    kind,
                    start: self.spot.at,
                    end: self.spot.at + len as u32,
                    line: self.spot.line,
                };
                Ok(Next {
                    len: len as u32,
                    token: Some(token),
                    place,
                })
            }
            Err(fault) => Err(fault),
        }
    }

    fn matter(&self, alloc: Global) -> Result<Next, LexFault>
        requires bounds { InBounds self.now.spot self.now.rest.now }
        requires some { 1 ≤ length self.now.rest.now }
        ensures value { Gives lexical (spec.matter_at self.now.spot.place self.now.spot self.now.rest.now) result }
        ensures within { IfOk result (λ n. (1 ≤ n.len) × (n.len ≤ length self.now.rest.now)) }
    {
        match self.spot.place {
            Place::Fresh => {
                if byte(self.rest, 0) == b'#' {
                    gap(1, Place::Hash(self.spot.at, self.spot.line))
                } else {
                    self.token(alloc, Place::Inside)
                }
            }
            Place::Inside => self.token(alloc, Place::Inside),
            Place::Hash(start, line) => self.directive(start, line),
            Place::Pragma(start, line) => self.pragma(start, line),
            Place::Skipped => gap(1, Place::Skipped),
            Place::Note => self.token(alloc, Place::Note),
        }
    }

    /// What stands next, where bytes are left.
    #[tactic(auto, unfolding(al_grammar::specs::Spelling::next))]
    pub fn next(&self, alloc: Global) -> Result<Next, LexFault>
        requires bounds { InBounds self.now.spot self.now.rest.now }
        requires some { 1 ≤ length self.now.rest.now }
        ensures value { Gives lexical (spec.next self.now.spot self.now.rest.now) result }
        ensures within { IfOk result (λ n. (1 ≤ n.len) × (n.len ≤ length self.now.rest.now)) }
    {
        let b = byte(self.rest, 0);
        if b == b'\n' {
            self.line_end()
        } else if is_blank(b) {
            gap(1, self.spot.place)
        } else if begins_line_comment(self.rest) {
            gap(line_comment_len(self.rest), self.spot.place)
        } else if begins_block_comment(self.rest) {
            self.block_comment()
        } else {
            self.matter(alloc)
        }
    }

    /// The place after what stood next.
    pub fn after(&self, len: u32, place: Place) -> Lexer<'a>
        requires bounds { InBounds self.now.spot self.now.rest.now }
        requires within { len ≤ length self.now.rest.now }
        ensures spot { result.spot ≡ record {
          at = self.now.spot.at + len;
          line = self.now.spot.line + chars.line_feeds (take len self.now.rest.now);
          place = place;
        } }
        ensures rest { result.rest.now ≡ drop len self.now.rest.now }
    {
        let (passed, rest) = self.rest.split_at(len as usize);
        Lexer {
            spot: Spot {
                at: self.spot.at + len,
                line: self.spot.line + line_feeds(passed) as u32,
                place,
            },
            rest,
        }
    }

    /// Adds the token that the end of the source makes, if it makes one.
    pub fn finish(&self, tokens: &mut Items<Token>) -> Result<(), LexFault>
        ensures ok { OnOk result
            (with_front tokens.old (spec.end_at self.now.spot.place self.now.spot) ≡ Ok tokens.new) }
        ensures err { IfErr result (λ fault. Fails (spec.end_at self.now.spot.place self.now.spot) (lexical fault)) }
    {
        match self.spot.place {
            Place::Hash(_, line) => Err(LexFault::BadByte(line)),
            Place::Note => {
                tokens.push(self.note_end())?;
                Ok(())
            }
            _ => Ok(()),
        }
    }

    /// Passes what stands next, and adds the token that it is, if it is one.
    fn step(&self, alloc: Global, tokens: &mut Items<Token>) -> Result<Lexer<'a>, LexFault>
        requires bounds { InBounds self.now.spot self.now.rest.now }
        requires some { 1 ≤ length self.now.rest.now }
        ensures ok { IfOk result (λ after.
            ReadsOn tokens.old self.now.spot self.now.rest.now tokens.new after.spot after.rest.now) }
        ensures bounds { IfOk result (λ after. InBounds after.spot after.rest.now) }
        ensures shorter { IfOk result (λ after. length after.rest.now < length self.now.rest.now) }
        ensures err { IfErr result (λ fault. Fails (reading_from 0 self.now.spot self.now.rest.now) (lexical fault)) }
    {
        match self.next(alloc) {
            Ok(Next { len, token, place }) => {
                push_some(tokens, token)?;
                Ok(self.after(len, place))
            }
            Err(fault) => Err(fault),
        }
    }

    /// The tokens from here on.
    pub fn read(self, alloc: Global) -> Result<Items<Token>, LexFault>
        requires { InBounds self.spot self.rest.now }
        ensures { Gives lexical (reading_from 0 self.entry.spot self.entry.rest.now) result }
    {
        let mut tokens = Items::new(alloc);
        let mut lexer = self;
        'walk: while !lexer.rest.is_empty() {
            match lexer.step(alloc, &mut tokens) {
                Ok(after) => lexer = after,
                Err(fault) => return Err(fault),
            }
        }
        match lexer.finish(&mut tokens) {
            Ok(()) => Ok(tokens),
            Err(fault) => Err(fault),
        }
    }
}
