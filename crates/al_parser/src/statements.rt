//! Statements, by descent. What nests in them is read by a parameter, so that each rule is proved by itself.

ghost use Rattle.std.specs.Prelude.{◌≡◌, ◌<◌, length, OnOk, [], Some, None};
ghost use Rattle.al_source.specs.declared.tokens.TokenKind.TheVariants as token;
ghost use Rattle.al_source.specs.Steps.{bind};
ghost use Rattle.al_grammar.specs.Steps.{kind_at, repeat};
ghost use Rattle.al_grammar.specs.Statements.{else_next};
ghost use Rattle.al_grammar.specs.StatementParser as spec;
ghost use Rattle.al_parse_expressions.specs.Cursors.{Parses};
ghost use Rattle.al_parser.specs.NestsStatement.{NestsStatement};

use al_parse_expressions::Cursor;
use al_parse_phrases::{
    begins_base, declaration, end_note, head, loop_note, maybe, parenthesized, simple_statement,
};
use al_source::{Expr, Key, LoopNote, Mark, ParseFault, Stmt, StmtKind, TokenKind};
use sqlite_items::{Boxed, Items};

#[derive(Clone, Copy)]
pub struct Body<F> {
    /// How many levels of statements may still nest.
    pub depth: u8,
    pub nested: F,
}

fn is_else(cursor: &Cursor<'_>) -> bool
    ensures { result ≡ else_next cursor.now.rest.now }
{
    match cursor.kind() {
        Some(TokenKind::Key(Key::Else)) => true,
        _ => false,
    }
}

/// The `;` behind a statement.
fn ended(cursor: &mut Cursor<'_>, kind: StmtKind) -> Result<StmtKind, ParseFault>
    ensures { Parses (spec.ended kind) cursor.old result cursor.new }
{
    cursor.expect(Mark::Semicolon).and(Ok(kind))
}

fn plain(cursor: &mut Cursor<'_>) -> Result<StmtKind, ParseFault>
    ensures { Parses (λ ts. bind (spec.simple ts) spec.ended) cursor.old result cursor.new }
{
    let kind = simple_statement(cursor)?;
    ended(cursor, kind)
}

/// After the `return`.
fn returns(cursor: &mut Cursor<'_>) -> Result<StmtKind, ParseFault>
    ensures { Parses spec.returns cursor.old result cursor.new }
{
    let value = maybe(cursor)?;
    ended(cursor, StmtKind::Return(value))
}

/// A statement that may have this many levels.
pub fn statement(cursor: &mut Cursor<'_>, depth: u8) -> Result<Stmt, ParseFault>
    ensures reads { Parses (spec.statement depth) cursor.old result cursor.new }
    ensures shorter { OnOk result (length cursor.new.rest.now < length cursor.old.rest.now) }
{
    if depth == 0 {
        return Err(ParseFault::Syntax);
    }
    Body {
        depth: depth - 1,
        nested: statement,
    }
    .statement(cursor)
}

impl<F: Fn(&mut Cursor<'_>, u8) -> Result<Stmt, ParseFault>> Body<F> {
    fn nest(&self, cursor: &mut Cursor<'_>) -> Result<Stmt, ParseFault>
        requires { NestsStatement self.now.depth (F.pre self.now.nested) (F.post self.now.nested) }
        ensures reads { Parses (spec.statement self.now.depth) cursor.old result cursor.new }
        ensures shorter { OnOk result (length cursor.new.rest.now < length cursor.old.rest.now) }
    {
        (self.nested)(cursor, self.depth)
    }

    fn nest_boxed(&self, cursor: &mut Cursor<'_>) -> Result<Boxed<Stmt>, ParseFault>
        requires { NestsStatement self.now.depth (F.pre self.now.nested) (F.post self.now.nested) }
        ensures { Parses (spec.statement self.now.depth) cursor.old result cursor.new }
    {
        let inner = self.nest(cursor)?;
        Ok(Boxed::new(cursor.alloc, inner)?)
    }

    fn statement(&self, cursor: &mut Cursor<'_>) -> Result<Stmt, ParseFault>
        requires { NestsStatement self.now.depth (F.pre self.now.nested) (F.post self.now.nested) }
        ensures { Parses (spec.statement_step self.now.depth (spec.statement self.now.depth))
            cursor.old result cursor.new }
    {
        match cursor.kind() {
            Some(TokenKind::Alter) => self.noted_loop(cursor),
            _ => {
                let line = cursor.line();
                let kind = self.kind(cursor)?;
                Ok(Stmt { line, kind })
            }
        }
    }

    fn kind(&self, cursor: &mut Cursor<'_>) -> Result<StmtKind, ParseFault>
        requires { NestsStatement self.now.depth (F.pre self.now.nested) (F.post self.now.nested) }
        ensures { Parses (spec.kind_by self.now.depth (spec.statement self.now.depth) (kind_at cursor.old.rest.now))
            cursor.old result cursor.new }
    {
        match cursor.kind() {
            Some(TokenKind::Mark(mark)) => self.by_mark(cursor, *mark),
            Some(TokenKind::Key(key)) => self.by_key(cursor, *key),
            _ => plain(cursor),
        }
    }

    fn by_mark(&self, cursor: &mut Cursor<'_>, mark: Mark) -> Result<StmtKind, ParseFault>
        requires { NestsStatement self.now.depth (F.pre self.now.nested) (F.post self.now.nested) }
        ensures { Parses (spec.kind_by self.now.depth (spec.statement self.now.depth) (Some (token.Mark mark)))
            cursor.old result cursor.new }
    {
        match mark {
            Mark::Semicolon => {
                cursor.advance();
                Ok(StmtKind::Empty)
            }
            Mark::LeftBrace => {
                cursor.advance();
                Ok(StmtKind::Block(self.braced(cursor)?))
            }
            _ => plain(cursor),
        }
    }

    fn by_key(&self, cursor: &mut Cursor<'_>, key: Key) -> Result<StmtKind, ParseFault>
        requires { NestsStatement self.now.depth (F.pre self.now.nested) (F.post self.now.nested) }
        ensures { Parses (spec.kind_by self.now.depth (spec.statement self.now.depth) (Some (token.Key key)))
            cursor.old result cursor.new }
    {
        match key {
            Key::If => self.branch(cursor),
            Key::While => self.while_loop(cursor),
            Key::For => self.plain_for(cursor),
            Key::Return => {
                cursor.advance();
                returns(cursor)
            }
            Key::Break => {
                cursor.advance();
                ended(cursor, StmtKind::Break)
            }
            Key::Continue => {
                cursor.advance();
                ended(cursor, StmtKind::Continue)
            }
            _ => plain(cursor),
        }
    }

    /// Whether a level of nesting is left.
    fn gate(&self, cursor: &Cursor<'_>) -> Result<(), ParseFault>
        ensures { Parses (spec.gate self.now.depth) cursor.now result cursor.now }
    {
        if self.depth == 0 {
            Err(ParseFault::Syntax)
        } else {
            Ok(())
        }
    }

    fn branch(&self, cursor: &mut Cursor<'_>) -> Result<StmtKind, ParseFault>
        requires { NestsStatement self.now.depth (F.pre self.now.nested) (F.post self.now.nested) }
        ensures { Parses (spec.branch self.now.depth (spec.statement self.now.depth)) cursor.old result cursor.new }
    {
        self.gate(cursor)?;
        cursor.advance();
        let test = parenthesized(cursor)?;
        let then = self.nest_boxed(cursor)?;
        self.otherwise(cursor, test, then)
    }

    fn otherwise(
        &self,
        cursor: &mut Cursor<'_>,
        test: Expr,
        then: Boxed<Stmt>,
    ) -> Result<StmtKind, ParseFault>
        requires { NestsStatement self.now.depth (F.pre self.now.nested) (F.post self.now.nested) }
        ensures { Parses
            (spec.else_by self.now.depth (spec.statement self.now.depth) test then (else_next cursor.old.rest.now))
            cursor.old result cursor.new }
    {
        if is_else(cursor) {
            cursor.advance();
            let other = self.nest_boxed(cursor)?;
            Ok(StmtKind::If(test, then, Some(other)))
        } else {
            Ok(StmtKind::If(test, then, None))
        }
    }

    fn while_loop(&self, cursor: &mut Cursor<'_>) -> Result<StmtKind, ParseFault>
        requires { NestsStatement self.now.depth (F.pre self.now.nested) (F.post self.now.nested) }
        ensures { Parses (spec.while_loop self.now.depth (spec.statement self.now.depth)) cursor.old result cursor.new }
    {
        self.gate(cursor)?;
        cursor.advance();
        let test = parenthesized(cursor)?;
        let inner = self.nest_boxed(cursor)?;
        Ok(StmtKind::While(test, inner))
    }

    fn for_loop(
        &self,
        cursor: &mut Cursor<'_>,
        note: Option<LoopNote>,
    ) -> Result<StmtKind, ParseFault>
        requires { NestsStatement self.now.depth (F.pre self.now.nested) (F.post self.now.nested) }
        ensures { Parses (spec.for_loop self.now.depth (spec.statement self.now.depth) note)
            cursor.old result cursor.new }
    {
        let (first, test, third) = head(cursor)?;
        let inner = self.nest_boxed(cursor)?;
        Ok(StmtKind::For(first, test, third, inner, note))
    }

    fn plain_for(&self, cursor: &mut Cursor<'_>) -> Result<StmtKind, ParseFault>
        requires { NestsStatement self.now.depth (F.pre self.now.nested) (F.post self.now.nested) }
        ensures { Parses (λ ts. bind (spec.gate self.now.depth ts)
            (λ _. spec.for_loop self.now.depth (spec.statement self.now.depth) None)) cursor.old result cursor.new }
    {
        self.gate(cursor)?;
        self.for_loop(cursor, None)
    }

    /// A loop from its annotation on. It has the line of its `for`.
    fn noted_loop(&self, cursor: &mut Cursor<'_>) -> Result<Stmt, ParseFault>
        requires { NestsStatement self.now.depth (F.pre self.now.nested) (F.post self.now.nested) }
        ensures { Parses (spec.noted_loop self.now.depth (spec.statement self.now.depth)) cursor.old result cursor.new }
    {
        self.gate(cursor)?;
        cursor.advance();
        let note = loop_note(cursor)?;
        end_note(cursor)?;
        let line = cursor.line();
        let kind = self.for_loop(cursor, Some(note))?;
        Ok(Stmt { line, kind })
    }

    /// A declaration or a statement, behind those that were read before.
    fn inner(&self, cursor: &mut Cursor<'_>, found: Items<Stmt>) -> Result<Items<Stmt>, ParseFault>
        requires { NestsStatement self.now.depth (F.pre self.now.nested) (F.post self.now.nested) }
        ensures reads { Parses (spec.inner self.now.depth (spec.statement self.now.depth) found)
            cursor.old result cursor.new }
        ensures shorter { OnOk result (length cursor.new.rest.now < length cursor.old.rest.now) }
    {
        self.gate(cursor)?;
        if begins_base(cursor) {
            declaration(cursor, found)
        } else {
            let mut found = found;
            let next = self.nest(cursor)?;
            found.push(next)?;
            Ok(found)
        }
    }

    #[tactic(auto, using(al_grammar::proofs::Loops::inners_is))]
    fn inners(&self, cursor: &mut Cursor<'_>) -> Result<Items<Stmt>, ParseFault>
        requires { NestsStatement self.now.depth (F.pre self.now.nested) (F.post self.now.nested) }
        ensures { Parses (repeat (spec.inner_turn self.now.depth (spec.statement self.now.depth)) [])
            cursor.old result cursor.new }
    {
        let mut found = Items::new(cursor.alloc);
        while !cursor.is_mark(Mark::RightBrace) {
            found = self.inner(cursor, found)?;
        }
        Ok(found)
    }

    /// After a `{`, to its `}`.
    pub fn braced(&self, cursor: &mut Cursor<'_>) -> Result<Items<Stmt>, ParseFault>
        requires { NestsStatement self.now.depth (F.pre self.now.nested) (F.post self.now.nested) }
        ensures { Parses (spec.braced self.now.depth (spec.statement self.now.depth)) cursor.old result cursor.new }
    {
        let found = self.inners(cursor)?;
        cursor.expect(Mark::RightBrace)?;
        Ok(found)
    }
}
