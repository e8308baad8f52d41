//! Expressions, by descent. The rules take the parser of what nests in them as a parameter, so that each is proved
//! by itself.

ghost use Rattle.std.specs.Prelude.{◌≡◌, ◌<◌, ◌≤◌, length, OnOk, Some};
ghost use Rattle.al_source.specs.declared.tokens.TokenKind.TheVariants as token;
ghost use Rattle.al_source.specs.declared.tokens.Mark.TheVariants.{LeftParen, LeftBracket, Dot, Arrow};
ghost use Rattle.al_source.specs.declared.source_tree.Expr.TheVariants as tree;
ghost use Rattle.al_grammar.specs.Steps.{kind_at, mark_at};
ghost use Rattle.al_grammar.specs.ExpressionParser.{parse};
ghost use Rattle.al_grammar.specs.ExpressionParser as job;
ghost use Rattle.al_parse_expressions.specs.Cursors.{Parses, ParsesCounted};
ghost use Rattle.al_parse_expressions.specs.Nests.{Nests};

use crate::cursor::Cursor;
use al_grammar::{LEVELS, apply, join};
use al_source::limits::EXPRESSION_OPERATORS;
use al_source::{Expr, Key, Mark, Name, ParseFault, TokenKind};
use sqlite_items::{Boxed, Items};

#[derive(Clone, Copy)]
pub struct Grammar<F> {
    /// Nested expressions begin where fewer tokens than this are left.
    pub limit: usize,
    pub nested: F,
}

/// An expression of this level or a tighter one.
pub fn whole(cursor: &mut Cursor<'_>, level: u8) -> Result<Expr, ParseFault>
    ensures reads { ParsesCounted (parse (job.whole level)) cursor.old result cursor.new }
    ensures shorter { OnOk result (length cursor.new.rest.now < length cursor.old.rest.now) }
{
    Grammar {
        limit: cursor.rest.len(),
        nested: whole,
    }
    .level(cursor, level)
}

impl<'a> Cursor<'a> {
    /// A whole expression, with room for all of its operators.
    pub fn expression(&mut self) -> Result<Expr, ParseFault>
        ensures reads { Parses job.expression self.old result self.new }
        ensures shorter { OnOk result (length self.new.rest.now < length self.old.rest.now) }
    {
        self.room = EXPRESSION_OPERATORS;
        whole(self, 0)
    }

    /// The place of an assignment, with room for all of its operators.
    #[tactic(auto, using(al_grammar::proofs::ParserEquation::whole_operand))]
    pub fn place(&mut self) -> Result<Expr, ParseFault>
        ensures reads { Parses job.place self.old result self.new }
        ensures shorter { OnOk result (length self.new.rest.now < length self.old.rest.now) }
    {
        self.room = EXPRESSION_OPERATORS;
        whole(self, LEVELS)
    }
}

#[tactic(auto, using(al_grammar::proofs::ParserEquation::parse_is))]
impl<F: Fn(&mut Cursor<'_>, u8) -> Result<Expr, ParseFault>> Grammar<F> {
    fn nest(&self, cursor: &mut Cursor<'_>, level: u8) -> Result<Expr, ParseFault>
        requires nests { Nests self.now.limit (F.pre self.now.nested) (F.post self.now.nested) }
        requires below { length cursor.old.rest.now < self.now.limit }
        ensures reads { ParsesCounted (parse (job.whole level)) cursor.old result cursor.new }
        ensures shorter { OnOk result (length cursor.new.rest.now < length cursor.old.rest.now) }
    {
        (self.nested)(cursor, level)
    }

    #[tactic(auto, using(al_grammar::proofs::ParserEquation::level_steps))]
    fn level(&self, cursor: &mut Cursor<'_>, level: u8) -> Result<Expr, ParseFault>
        requires nests { Nests self.now.limit (F.pre self.now.nested) (F.post self.now.nested) }
        requires within { length cursor.old.rest.now ≤ self.now.limit }
        ensures reads { ParsesCounted (parse (job.whole level)) cursor.old result cursor.new }
        ensures shorter { OnOk result (length cursor.new.rest.now < length cursor.old.rest.now) }
    {
        if level < LEVELS {
            let left = self.level(cursor, level + 1)?;
            self.climb(cursor, level, left)
        } else {
            self.unary(cursor)
        }
    }

    /// Goes on from the left operand.
    #[tactic(auto, using(al_grammar::proofs::ParserEquation::climb_steps))]
    fn climb(&self, cursor: &mut Cursor<'_>, level: u8, left: Expr) -> Result<Expr, ParseFault>
        requires nests { Nests self.now.limit (F.pre self.now.nested) (F.post self.now.nested) }
        requires within { length cursor.old.rest.now ≤ self.now.limit }
        ensures reads { ParsesCounted (parse (job.climb level left)) cursor.old result cursor.new }
        ensures shorter { OnOk result (length cursor.new.rest.now ≤ length cursor.old.rest.now) }
    {
        let mut left = left;
        while let Some((at, op)) = cursor.infix() {
            if at != level {
                return Ok(left);
            }
            cursor.spend()?;
            let right = self.nest(cursor, level + 1)?;
            left = join(cursor.alloc, op, left, right)?;
        }
        Ok(left)
    }

    fn unary(&self, cursor: &mut Cursor<'_>) -> Result<Expr, ParseFault>
        requires nests { Nests self.now.limit (F.pre self.now.nested) (F.post self.now.nested) }
        requires within { length cursor.old.rest.now ≤ self.now.limit }
        ensures reads { ParsesCounted (parse job.unary) cursor.old result cursor.new }
        ensures shorter { OnOk result (length cursor.new.rest.now < length cursor.old.rest.now) }
    {
        match cursor.prefix() {
            Some(op) => {
                cursor.spend()?;
                let inner = self.nest(cursor, LEVELS)?;
                Ok(apply(cursor.alloc, op, inner)?)
            }
            None => self.postfix(cursor),
        }
    }

    fn postfix(&self, cursor: &mut Cursor<'_>) -> Result<Expr, ParseFault>
        requires nests { Nests self.now.limit (F.pre self.now.nested) (F.post self.now.nested) }
        requires within { length cursor.old.rest.now ≤ self.now.limit }
        ensures reads { ParsesCounted (parse job.postfix) cursor.old result cursor.new }
        ensures shorter { OnOk result (length cursor.new.rest.now < length cursor.old.rest.now) }
    {
        let first = self.primary(cursor)?;
        self.suffix(cursor, first)
    }

    fn primary(&self, cursor: &mut Cursor<'_>) -> Result<Expr, ParseFault>
        requires nests { Nests self.now.limit (F.pre self.now.nested) (F.post self.now.nested) }
        requires within { length cursor.old.rest.now ≤ self.now.limit }
        ensures reads { ParsesCounted (parse job.primary) cursor.old result cursor.new }
        ensures shorter { OnOk result (length cursor.new.rest.now < length cursor.old.rest.now) }
    {
        match cursor.kind() {
            Some(TokenKind::Number(value)) => {
                cursor.advance();
                Ok(Expr::Number(*value))
            }
            Some(TokenKind::Word(name)) => {
                let name = Items::from_slice(cursor.alloc, name.as_slice())?;
                cursor.advance();
                self.named(cursor, name)
            }
            Some(TokenKind::Mark(Mark::LeftParen)) => self.grouped(cursor),
            Some(TokenKind::Key(key)) => self.by_key(cursor, *key),
            _ => Err(ParseFault::Syntax),
        }
    }

    /// An expression that begins with this reserved word.
    fn by_key(&self, cursor: &mut Cursor<'_>, key: Key) -> Result<Expr, ParseFault>
        requires nests { Nests self.now.limit (F.pre self.now.nested) (F.post self.now.nested) }
        requires here { kind_at cursor.old.rest.now ≡ Some (token.Key key) }
        requires within { length cursor.old.rest.now ≤ self.now.limit }
        ensures reads { ParsesCounted (job.primary_by parse (Some (token.Key key))) cursor.old result cursor.new }
        ensures shorter { OnOk result (length cursor.new.rest.now < length cursor.old.rest.now) }
    {
        match key {
            Key::Null => {
                cursor.advance();
                Ok(Expr::Null)
            }
            Key::Sizeof => sized(cursor),
            Key::Calloc => self.allocated(cursor),
            _ => Err(ParseFault::Syntax),
        }
    }

    fn allocated(&self, cursor: &mut Cursor<'_>) -> Result<Expr, ParseFault>
        requires nests { Nests self.now.limit (F.pre self.now.nested) (F.post self.now.nested) }
        requires within { length cursor.old.rest.now ≤ self.now.limit }
        ensures reads { ParsesCounted (job.allocated parse) cursor.old result cursor.new }
        ensures shorter { OnOk result (length cursor.new.rest.now < length cursor.old.rest.now) }
    {
        cursor.spend_two()?;
        cursor.expect(Mark::LeftParen)?;
        let count = self.nest(cursor, 0)?;
        let ty = cursor.element_size()?;
        Ok(Expr::Calloc(Boxed::new(cursor.alloc, count)?, ty))
    }

    /// After a name.
    fn named(&self, cursor: &mut Cursor<'_>, name: Name) -> Result<Expr, ParseFault>
        requires nests { Nests self.now.limit (F.pre self.now.nested) (F.post self.now.nested) }
        requires below { length cursor.old.rest.now < self.now.limit }
        ensures reads { ParsesCounted (job.named parse name) cursor.old result cursor.new }
        ensures shorter { OnOk result (length cursor.new.rest.now ≤ length cursor.old.rest.now) }
    {
        match cursor.mark() {
            Some(Mark::LeftParen) => {
                cursor.spend()?;
                self.arguments(cursor, name)
            }
            _ => Ok(Expr::Var(name)),
        }
    }

    fn grouped(&self, cursor: &mut Cursor<'_>) -> Result<Expr, ParseFault>
        requires nests { Nests self.now.limit (F.pre self.now.nested) (F.post self.now.nested) }
        requires open { mark_at cursor.old.rest.now ≡ Some LeftParen }
        requires within { length cursor.old.rest.now ≤ self.now.limit }
        ensures reads { ParsesCounted (job.grouped parse) cursor.old result cursor.new }
        ensures shorter { OnOk result (length cursor.new.rest.now < length cursor.old.rest.now) }
    {
        cursor.spend()?;
        let inner = self.nest(cursor, 0)?;
        cursor.expect(Mark::RightParen)?;
        Ok(inner)
    }

    fn indexed(&self, cursor: &mut Cursor<'_>, left: Expr) -> Result<Expr, ParseFault>
        requires nests { Nests self.now.limit (F.pre self.now.nested) (F.post self.now.nested) }
        requires open { mark_at cursor.old.rest.now ≡ Some LeftBracket }
        requires within { length cursor.old.rest.now ≤ self.now.limit }
        ensures reads { ParsesCounted (job.indexed parse left) cursor.old result cursor.new }
        ensures shorter { OnOk result (length cursor.new.rest.now < length cursor.old.rest.now) }
    {
        cursor.spend()?;
        let index = self.nest(cursor, 0)?;
        cursor.expect(Mark::RightBracket)?;
        Ok(Expr::Index(
            Boxed::new(cursor.alloc, left)?,
            Boxed::new(cursor.alloc, index)?,
        ))
    }

    /// Goes on from what stands before the brackets and dots.
    fn suffix(&self, cursor: &mut Cursor<'_>, left: Expr) -> Result<Expr, ParseFault>
        requires nests { Nests self.now.limit (F.pre self.now.nested) (F.post self.now.nested) }
        requires within { length cursor.old.rest.now ≤ self.now.limit }
        ensures reads { ParsesCounted (parse (job.suffix left)) cursor.old result cursor.new }
        ensures shorter { OnOk result (length cursor.new.rest.now ≤ length cursor.old.rest.now) }
    {
        let mut left = left;
        while let Some(mark) = cursor.mark() {
            left = match mark {
                Mark::LeftBracket => self.indexed(cursor, left)?,
                Mark::Dot => dot(cursor, left)?,
                Mark::Arrow => arrow(cursor, left)?,
                _ => return Ok(left),
            };
        }
        Ok(left)
    }

    /// After the `(` of a call.
    fn arguments(&self, cursor: &mut Cursor<'_>, name: Name) -> Result<Expr, ParseFault>
        requires nests { Nests self.now.limit (F.pre self.now.nested) (F.post self.now.nested) }
        requires below { length cursor.old.rest.now < self.now.limit }
        ensures reads { ParsesCounted (parse (job.arguments name)) cursor.old result cursor.new }
        ensures shorter { OnOk result (length cursor.new.rest.now < length cursor.old.rest.now) }
    {
        let found = Items::new(cursor.alloc);
        match cursor.mark() {
            Some(Mark::RightParen) => {
                cursor.advance();
                Ok(Expr::Call(name, found))
            }
            _ => self.more(cursor, name, found),
        }
    }

    fn more(
        &self,
        cursor: &mut Cursor<'_>,
        name: Name,
        found: Items<Expr>,
    ) -> Result<Expr, ParseFault>
        requires nests { Nests self.now.limit (F.pre self.now.nested) (F.post self.now.nested) }
        requires below { length cursor.old.rest.now < self.now.limit }
        ensures reads { ParsesCounted (parse (job.more name found)) cursor.old result cursor.new }
        ensures shorter { OnOk result (length cursor.new.rest.now < length cursor.old.rest.now) }
    {
        let mut found = found;
        loop {
            let next = self.nest(cursor, 0)?;
            found.push(next)?;
            match cursor.mark() {
                Some(Mark::Comma) => cursor.advance(),
                Some(Mark::RightParen) => {
                    cursor.advance();
                    return Ok(Expr::Call(name, found));
                }
                _ => return Err(ParseFault::Syntax),
            }
        }
    }
}

fn sized(cursor: &mut Cursor<'_>) -> Result<Expr, ParseFault>
    ensures reads { ParsesCounted job.sized cursor.old result cursor.new }
    ensures shorter { OnOk result (length cursor.new.rest.now < length cursor.old.rest.now) }
{
    cursor.spend()?;
    Ok(Expr::SizeOf(cursor.operand_type()?))
}

fn dot(cursor: &mut Cursor<'_>, left: Expr) -> Result<Expr, ParseFault>
    requires open { mark_at cursor.old.rest.now ≡ Some Dot }
    ensures reads { ParsesCounted (job.field tree.Dot left) cursor.old result cursor.new }
    ensures shorter { OnOk result (length cursor.new.rest.now < length cursor.old.rest.now) }
{
    cursor.spend()?;
    let name = cursor.word()?;
    Ok(Expr::Dot(Boxed::new(cursor.alloc, left)?, name))
}

fn arrow(cursor: &mut Cursor<'_>, left: Expr) -> Result<Expr, ParseFault>
    requires open { mark_at cursor.old.rest.now ≡ Some Arrow }
    ensures reads { ParsesCounted (job.field tree.Arrow left) cursor.old result cursor.new }
    ensures shorter { OnOk result (length cursor.new.rest.now < length cursor.old.rest.now) }
{
    cursor.spend()?;
    let name = cursor.word()?;
    Ok(Expr::Arrow(Boxed::new(cursor.alloc, left)?, name))
}
