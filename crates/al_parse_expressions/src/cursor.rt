//! A place in the tokens, and how many operators may still come.

ghost use Rattle.std.specs.Prelude.{◌≡◌, ◌<◌, ◌≤◌, length, OnOk, option_copied};
ghost use Rattle.al_grammar.specs.Operators.{infix_of, prefix_of};
ghost use Rattle.al_grammar.specs.Phrases.{line_at};
ghost use Rattle.al_grammar.specs.Steps as spec;
ghost use Rattle.al_grammar.specs.ExpressionParser as job;
ghost use Rattle.al_parse_expressions.specs.Cursors.{Parses, ParsesCounted, state};

use al_grammar::{Joint, Prefix, infix_of, prefix_of};
use al_source::{Key, Mark, Name, ParseFault, Token, TokenKind};
use sqlite_items::Items;
use std::alloc::Global;

/// The tokens that are left. A method that answers `Syntax` leaves it at the first bad token.
#[derive(Clone, Copy)]
pub struct Cursor<'a> {
    pub alloc: Global,
    pub rest: &'a [Token],
    /// How many operators the expression may still have.
    pub room: u8,
}

fn same_mark(a: Mark, b: Mark) -> bool
    ensures { result ≡ spec.same_mark a b }
{
    a == b
}

fn same_key(a: Key, b: Key) -> bool
    ensures { result ≡ spec.same_key a b }
{
    a == b
}

impl<'a> Cursor<'a> {
    pub fn kind(&self) -> Option<&'a TokenKind>
        ensures { option_copied result ≡ spec.kind_at self.now.rest.now }
    {
        match self.rest {
            [] => None,
            [token, ..] => Some(&token.kind),
        }
    }

    /// The line of the next token, or 0 past the last.
    pub fn line(&self) -> u32
        ensures { result ≡ line_at self.now.rest.now }
    {
        match self.rest {
            [] => 0,
            [token, ..] => token.line,
        }
    }

    pub fn mark(&self) -> Option<Mark>
        ensures { result ≡ spec.mark_at self.now.rest.now }
    {
        match self.kind() {
            Some(TokenKind::Mark(mark)) => Some(*mark),
            _ => None,
        }
    }

    pub fn key(&self) -> Option<Key>
        ensures { result ≡ spec.key_at self.now.rest.now }
    {
        match self.kind() {
            Some(TokenKind::Key(key)) => Some(*key),
            _ => None,
        }
    }

    pub fn is_mark(&self, mark: Mark) -> bool
        ensures { result ≡ spec.is_mark mark self.now.rest.now }
    {
        match self.mark() {
            Some(found) => same_mark(found, mark),
            None => false,
        }
    }

    pub fn is_key(&self, key: Key) -> bool
        ensures { result ≡ spec.is_key key self.now.rest.now }
    {
        match self.key() {
            Some(found) => same_key(found, key),
            None => false,
        }
    }

    pub fn infix(&self) -> Option<(u8, Joint)>
        ensures { result ≡ spec.meaning_at infix_of self.now.rest.now }
    {
        match self.kind() {
            Some(kind) => infix_of(kind),
            None => None,
        }
    }

    pub fn prefix(&self) -> Option<Prefix>
        ensures { result ≡ spec.meaning_at prefix_of self.now.rest.now }
    {
        match self.kind() {
            Some(kind) => prefix_of(kind),
            None => None,
        }
    }

    /// Takes the next token, where there is one.
    pub fn advance(&mut self)
        ensures { state self.new ≡ (self.old.room, spec.tail self.old.rest.now) }
    {
        if let [_, rest @ ..] = self.rest {
            self.rest = rest;
        }
    }

    /// Takes the next token, an operator.
    pub fn spend(&mut self) -> Result<(), ParseFault>
        ensures { ParsesCounted job.spend self.old result self.new }
    {
        if self.room == 0 {
            return Err(ParseFault::Syntax);
        }
        self.room -= 1;
        self.advance();
        Ok(())
    }

    /// Takes the next token, to which two operators belong.
    pub fn spend_two(&mut self) -> Result<(), ParseFault>
        ensures reads { ParsesCounted job.spend_two self.old result self.new }
        ensures shorter { OnOk result (length self.new.rest.now ≤ length self.old.rest.now) }
    {
        if self.room < 2 {
            return Err(ParseFault::Syntax);
        }
        self.room -= 2;
        self.advance();
        Ok(())
    }

    /// Takes this mark.
    pub fn expect(&mut self, mark: Mark) -> Result<(), ParseFault>
        ensures reads { Parses (spec.expect mark) self.old result self.new }
        ensures shorter { OnOk result (length self.new.rest.now < length self.old.rest.now) }
        ensures room { self.new.room ≡ self.old.room }
    {
        if self.is_mark(mark) {
            self.advance();
            Ok(())
        } else {
            Err(ParseFault::Syntax)
        }
    }

    /// Takes this reserved word.
    pub fn expect_key(&mut self, key: Key) -> Result<(), ParseFault>
        ensures reads { Parses (spec.expect_key key) self.old result self.new }
        ensures shorter { OnOk result (length self.new.rest.now < length self.old.rest.now) }
        ensures room { self.new.room ≡ self.old.room }
    {
        if self.is_key(key) {
            self.advance();
            Ok(())
        } else {
            Err(ParseFault::Syntax)
        }
    }

    /// Takes a name, and copies it.
    pub fn word(&mut self) -> Result<Name, ParseFault>
        ensures reads { Parses spec.word self.old result self.new }
        ensures shorter { OnOk result (length self.new.rest.now < length self.old.rest.now) }
        ensures room { self.new.room ≡ self.old.room }
    {
        match self.kind() {
            Some(TokenKind::Word(name)) => {
                let name = Items::from_slice(self.alloc, name.as_slice())?;
                self.advance();
                Ok(name)
            }
            _ => Err(ParseFault::Syntax),
        }
    }
}
