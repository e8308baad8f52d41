//! Declarations in a block.

ghost use Rattle.std.specs.Prelude.{◌≡◌, ◌<◌, ◌≤◌, length, OnOk, []};
ghost use Rattle.al_grammar.specs.Steps.{key_at, repeat};
ghost use Rattle.al_grammar.specs.StatementParser as spec;
ghost use Rattle.al_parse_expressions.specs.Cursors.{Parses};

use al_parse_expressions::Cursor;
use al_source::{CType, Expr, Key, Mark, ParseFault, Stmt, StmtKind};
use sqlite_items::Items;

/// Whether a declaration comes next.
pub fn begins_base(cursor: &Cursor<'_>) -> bool
    ensures { result ≡ spec.begins_base (key_at cursor.now.rest.now) }
{
    match cursor.key() {
        Some(Key::Int) => true,
        Some(Key::Long) => true,
        Some(Key::Struct) => true,
        _ => false,
    }
}

fn initializer(cursor: &mut Cursor<'_>) -> Result<Option<Expr>, ParseFault>
    ensures reads { Parses spec.initializer cursor.old result cursor.new }
    ensures shorter { OnOk result (length cursor.new.rest.now ≤ length cursor.old.rest.now) }
{
    if cursor.is_mark(Mark::Assign) {
        cursor.advance();
        let value = cursor.expression()?;
        Ok(Some(value))
    } else {
        Ok(None)
    }
}

/// The declared names, to the `;`, behind the statements that were read before.
#[tactic(auto, using(al_grammar::proofs::Loops::locals_is))]
fn locals(
    cursor: &mut Cursor<'_>,
    line: u32,
    base: &CType,
    found: Items<Stmt>,
) -> Result<Items<Stmt>, ParseFault>
    ensures reads { Parses (repeat (spec.local line base.now) found) cursor.old result cursor.new }
    ensures shorter { OnOk result (length cursor.new.rest.now < length cursor.old.rest.now) }
{
    let mut found = found;
    loop {
        let field = cursor.declarator(base)?;
        let value = initializer(cursor)?;
        let kind = StmtKind::Declare(field.ty, field.name, value);
        found.push(Stmt { line, kind })?;
        match cursor.mark() {
            Some(Mark::Comma) => cursor.advance(),
            Some(Mark::Semicolon) => {
                cursor.advance();
                return Ok(found);
            }
            _ => return Err(ParseFault::Syntax),
        }
    }
}

/// A declaration, which is a statement for each of its names.
pub fn declaration(cursor: &mut Cursor<'_>, found: Items<Stmt>) -> Result<Items<Stmt>, ParseFault>
    ensures reads { Parses (spec.declaration found) cursor.old result cursor.new }
    ensures shorter { OnOk result (length cursor.new.rest.now < length cursor.old.rest.now) }
{
    let line = cursor.line();
    let base = cursor.base()?;
    locals(cursor, line, &base, found)
}
