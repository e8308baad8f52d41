//! The head of a loop.

ghost use Rattle.std.specs.Prelude.{◌≡◌, IfOk, Some};
ghost use Rattle.al_grammar.specs.Steps.{key_at};
ghost use Rattle.al_grammar.specs.Statements.{statement_of};
ghost use Rattle.al_grammar.specs.StatementParser as spec;
ghost use Rattle.al_parse_expressions.specs.Cursors.{Parses};

use crate::declarations::begins_base;
use crate::simple::simple_statement;
use al_parse_expressions::Cursor;
use al_source::{Expr, Key, Mark, ParseFault, Stmt, StmtKind};
use sqlite_items::Boxed;
use std::alloc::{AllocError, Global};

/// The first part, the test and the third part of a `for`.
pub type Parts = (Option<Boxed<Stmt>>, Option<Expr>, Option<Boxed<Stmt>>);

/// An expression, where no `;` comes next.
pub fn maybe(cursor: &mut Cursor<'_>) -> Result<Option<Expr>, ParseFault>
    ensures { Parses spec.maybe cursor.old result cursor.new }
{
    match cursor.mark() {
        Some(Mark::Semicolon) => Ok(None),
        _ => {
            let value = cursor.expression()?;
            Ok(Some(value))
        }
    }
}

fn boxed(alloc: Global, line: u32, kind: StmtKind) -> Result<Option<Boxed<Stmt>>, AllocError>
    ensures { IfOk result (λ s. s ≡ Some (statement_of line kind)) }
{
    Ok(Some(Boxed::new(alloc, Stmt { line, kind })?))
}

fn first_declaration(cursor: &mut Cursor<'_>) -> Result<StmtKind, ParseFault>
    ensures { Parses spec.first_declaration cursor.old result cursor.new }
{
    let base = cursor.base()?;
    let field = cursor.declarator(&base)?;
    cursor.expect(Mark::Assign)?;
    let value = cursor.expression()?;
    Ok(StmtKind::Declare(field.ty, field.name, Some(value)))
}

fn first_kind(cursor: &mut Cursor<'_>) -> Result<StmtKind, ParseFault>
    ensures { Parses (spec.first_kind (spec.begins_base (key_at cursor.old.rest.now))) cursor.old result cursor.new }
{
    if begins_base(cursor) {
        first_declaration(cursor)
    } else {
        simple_statement(cursor)
    }
}

fn first_part(cursor: &mut Cursor<'_>) -> Result<Option<Boxed<Stmt>>, ParseFault>
    ensures { Parses spec.first_part cursor.old result cursor.new }
{
    match cursor.mark() {
        Some(Mark::Semicolon) => Ok(None),
        _ => {
            let line = cursor.line();
            let kind = first_kind(cursor)?;
            Ok(boxed(cursor.alloc, line, kind)?)
        }
    }
}

fn third_part(cursor: &mut Cursor<'_>) -> Result<Option<Boxed<Stmt>>, ParseFault>
    ensures { Parses spec.third_part cursor.old result cursor.new }
{
    match cursor.mark() {
        Some(Mark::RightParen) => Ok(None),
        _ => {
            let line = cursor.line();
            let kind = simple_statement(cursor)?;
            Ok(boxed(cursor.alloc, line, kind)?)
        }
    }
}

/// From the `for` to the `)` before the body.
pub fn head(cursor: &mut Cursor<'_>) -> Result<Parts, ParseFault>
    ensures { Parses spec.head cursor.old result cursor.new }
{
    cursor.expect_key(Key::For)?;
    cursor.expect(Mark::LeftParen)?;
    let first = first_part(cursor)?;
    cursor.expect(Mark::Semicolon)?;
    let test = maybe(cursor)?;
    cursor.expect(Mark::Semicolon)?;
    let third = third_part(cursor)?;
    cursor.expect(Mark::RightParen)?;
    Ok((first, test, third))
}
