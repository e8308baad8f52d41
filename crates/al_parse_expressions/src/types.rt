//! Types and declared names.

ghost use Rattle.std.specs.Prelude.{◌≡◌, ◌<◌, ◌≤◌, length, OnOk, IfOk};
ghost use Rattle.al_source.specs.declared.source_tree.CType.TheVariants as tree;
ghost use Rattle.al_source.specs.declared.limits.TheConstants.{DECLARATOR_STARS};
ghost use Rattle.al_grammar.specs.TypeParser as spec;
ghost use Rattle.al_grammar.specs.ExpressionParser.{element_size};
ghost use Rattle.al_parse_expressions.specs.Cursors.{Parses};

use crate::cursor::Cursor;
use al_ast::copy_type;
use al_source::limits::{DECLARATOR_DIMENSIONS, DECLARATOR_STARS, DIMENSION_LENGTH};
use al_source::{CType, Field, Key, Mark, ParseFault, TokenKind};
use sqlite_items::Boxed;
use std::alloc::{AllocError, Global};

fn pointer(alloc: Global, to: CType) -> Result<CType, AllocError>
    ensures { IfOk result (λ a. a ≡ tree.Ptr to) }
{
    Ok(CType::Ptr(Boxed::new(alloc, to)?))
}

fn array(alloc: Global, of: CType, length: u32) -> Result<CType, AllocError>
    ensures { IfOk result (λ a. a ≡ tree.Array of length) }
{
    Ok(CType::Array(Boxed::new(alloc, of)?, length))
}

/// The length that a token gives a dimension.
fn length_of(kind: &TokenKind) -> Option<u32>
    ensures { result ≡ spec.length_of kind.now }
{
    match kind {
        TokenKind::Number(value) => {
            if *value > 0 && *value <= DIMENSION_LENGTH {
                Some(*value as u32)
            } else {
                None
            }
        }
        _ => None,
    }
}

impl<'a> Cursor<'a> {
    /// Takes this reserved word where it comes next.
    fn optional(&mut self, key: Key)
        ensures reads { spec.optional key self.old.rest.now ≡ Ok (tt, self.new.rest.now) }
        ensures shorter { length self.new.rest.now ≤ length self.old.rest.now }
        ensures room { self.new.room ≡ self.old.room }
    {
        if self.is_key(key) {
            self.advance();
        }
    }

    /// The type before the stars.
    pub fn base(&mut self) -> Result<CType, ParseFault>
        ensures reads { Parses spec.base self.old result self.new }
        ensures shorter { OnOk result (length self.new.rest.now < length self.old.rest.now) }
        ensures room { self.new.room ≡ self.old.room }
    {
        match self.key() {
            Some(Key::Int) => {
                self.advance();
                Ok(CType::Int)
            }
            Some(Key::Long) => {
                self.advance();
                self.optional(Key::Long);
                self.optional(Key::Int);
                Ok(CType::Int)
            }
            Some(Key::Struct) => {
                self.advance();
                Ok(CType::Struct(self.word()?))
            }
            _ => Err(ParseFault::Syntax),
        }
    }

    /// As many stars as there may be, each of which makes a pointer.
    #[tactic(auto, using(al_grammar::proofs::Counted::star_steps))]
    pub fn stars(&mut self, ty: CType) -> Result<CType, ParseFault>
        ensures reads { Parses (spec.stars DECLARATOR_STARS ty) self.old result self.new }
        ensures shorter { OnOk result (length self.new.rest.now ≤ length self.old.rest.now) }
        ensures room { self.new.room ≡ self.old.room }
    {
        let mut ty = ty;
        let mut left = DECLARATOR_STARS;
        while left > 0 && self.is_mark(Mark::Star) {
            self.advance();
            ty = pointer(self.alloc, ty)?;
            left -= 1;
        }
        Ok(ty)
    }

    fn length(&mut self) -> Result<u32, ParseFault>
        ensures reads { Parses spec.take_length self.old result self.new }
        ensures shorter { OnOk result (length self.new.rest.now < length self.old.rest.now) }
        ensures room { self.new.room ≡ self.old.room }
    {
        let Some(kind) = self.kind() else {
            return Err(ParseFault::Syntax);
        };
        match length_of(kind) {
            Some(length) => {
                self.advance();
                Ok(length)
            }
            None => Err(ParseFault::Syntax),
        }
    }

    /// So many dimensions at most, each of which makes an array of what the later ones make.
    #[tactic(auto, using(al_grammar::proofs::Counted::dimension_steps))]
    pub fn dimensions(&mut self, left: u8, of: CType) -> Result<CType, ParseFault>
        ensures reads { Parses (spec.dimensions left of) self.old result self.new }
        ensures shorter { OnOk result (length self.new.rest.now ≤ length self.old.rest.now) }
        ensures room { self.new.room ≡ self.old.room }
    {
        if left == 0 || !self.is_mark(Mark::LeftBracket) {
            return Ok(of);
        }
        self.advance();
        let length = self.length()?;
        self.expect(Mark::RightBracket)?;
        let inner = self.dimensions(left - 1, of)?;
        Ok(array(self.alloc, inner, length)?)
    }

    /// A name with the stars of its type, after a base.
    pub fn named(&mut self, base: &CType) -> Result<Field, ParseFault>
        ensures reads { Parses (spec.named base.now) self.old result self.new }
        ensures shorter { OnOk result (length self.new.rest.now < length self.old.rest.now) }
        ensures room { self.new.room ≡ self.old.room }
    {
        let base = copy_type(self.alloc, base)?;
        let ty = self.stars(base)?;
        let name = self.word()?;
        Ok(Field { name, ty })
    }

    /// A name with its stars and dimensions, after a base.
    pub fn declarator(&mut self, base: &CType) -> Result<Field, ParseFault>
        ensures reads { Parses (spec.declarator base.now) self.old result self.new }
        ensures shorter { OnOk result (length self.new.rest.now < length self.old.rest.now) }
        ensures room { self.new.room ≡ self.old.room }
    {
        let Field { name, ty } = self.named(base)?;
        let ty = self.dimensions(DECLARATOR_DIMENSIONS, ty)?;
        Ok(Field { name, ty })
    }

    /// `( base * )`, after a `sizeof`.
    pub fn operand_type(&mut self) -> Result<CType, ParseFault>
        ensures reads { Parses spec.operand_type self.old result self.new }
        ensures shorter { OnOk result (length self.new.rest.now < length self.old.rest.now) }
        ensures room { self.new.room ≡ self.old.room }
    {
        self.expect(Mark::LeftParen)?;
        let base = self.base()?;
        let ty = self.stars(base)?;
        self.expect(Mark::RightParen)?;
        Ok(ty)
    }

    /// The second argument of `calloc`, with the `,` before and the `)` behind.
    pub fn element_size(&mut self) -> Result<CType, ParseFault>
        ensures reads { Parses element_size self.old result self.new }
        ensures shorter { OnOk result (length self.new.rest.now < length self.old.rest.now) }
        ensures room { self.new.room ≡ self.old.room }
    {
        self.expect(Mark::Comma)?;
        self.expect_key(Key::Sizeof)?;
        let ty = self.operand_type()?;
        self.expect(Mark::RightParen)?;
        Ok(ty)
    }
}
