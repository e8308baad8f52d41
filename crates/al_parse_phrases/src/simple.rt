//! Statements without their `;`: assignments and calls.

ghost use Rattle.std.specs.Prelude.{◌≡◌, None};
ghost use Rattle.al_grammar.specs.Operators.{update_of, step_of};
ghost use Rattle.al_grammar.specs.Steps.{meaning_at};
ghost use Rattle.al_grammar.specs.StatementParser as spec;
ghost use Rattle.al_parse_expressions.specs.Cursors.{Parses};

use al_ast::copy_format;
use al_grammar::{key_text, step_of, update_of};
use al_parse_expressions::Cursor;
use al_source::{BinOp, Expr, Format, Key, Mark, Name, ParseFault, StmtKind, TokenKind};
use sqlite_items::Items;

/// Takes a text, and copies it.
fn text(cursor: &mut Cursor<'_>) -> Result<Format, ParseFault>
    ensures { Parses spec.text cursor.old result cursor.new }
{
    match cursor.kind() {
        Some(TokenKind::Text(format)) => {
            let format = copy_format(cursor.alloc, format.as_slice())?;
            cursor.advance();
            Ok(format)
        }
        _ => Err(ParseFault::Syntax),
    }
}

/// At least one value, to the `)`. Each is a whole expression.
#[tactic(auto, using(al_grammar::proofs::Loops::values_is))]
fn values(cursor: &mut Cursor<'_>) -> Result<Items<Expr>, ParseFault>
    ensures { Parses spec.values cursor.old result cursor.new }
{
    let mut found = Items::new(cursor.alloc);
    loop {
        let next = cursor.expression()?;
        found.push(next)?;
        match cursor.mark() {
            Some(Mark::Comma) => cursor.advance(),
            Some(Mark::RightParen) => {
                cursor.advance();
                return Ok(found);
            }
            _ => return Err(ParseFault::Syntax),
        }
    }
}

fn call_values(cursor: &mut Cursor<'_>) -> Result<Items<Expr>, ParseFault>
    ensures { Parses spec.call_values cursor.old result cursor.new }
{
    match cursor.mark() {
        Some(Mark::RightParen) => {
            cursor.advance();
            Ok(Items::new(cursor.alloc))
        }
        _ => values(cursor),
    }
}

fn print_values(cursor: &mut Cursor<'_>) -> Result<Items<Expr>, ParseFault>
    ensures { Parses spec.print_values cursor.old result cursor.new }
{
    match cursor.mark() {
        Some(Mark::RightParen) => {
            cursor.advance();
            Ok(Items::new(cursor.alloc))
        }
        Some(Mark::Comma) => {
            cursor.advance();
            values(cursor)
        }
        _ => Err(ParseFault::Syntax),
    }
}

/// After the `printf`.
fn print(cursor: &mut Cursor<'_>) -> Result<StmtKind, ParseFault>
    ensures { Parses spec.print cursor.old result cursor.new }
{
    cursor.expect(Mark::LeftParen)?;
    let format = text(cursor)?;
    let values = print_values(cursor)?;
    Ok(StmtKind::Print(format, values))
}

/// An expression in parentheses.
pub fn parenthesized(cursor: &mut Cursor<'_>) -> Result<Expr, ParseFault>
    ensures { Parses spec.parenthesized cursor.old result cursor.new }
{
    cursor.expect(Mark::LeftParen)?;
    let inside = cursor.expression()?;
    cursor.expect(Mark::RightParen)?;
    Ok(inside)
}

/// After the `free`. In the tree it is a call of that name.
fn free(cursor: &mut Cursor<'_>) -> Result<StmtKind, ParseFault>
    ensures { Parses spec.free cursor.old result cursor.new }
{
    let pointer = parenthesized(cursor)?;
    let name = Items::from_slice(cursor.alloc, key_text(Key::Free))?;
    let mut values = Items::new(cursor.alloc);
    values.push(pointer)?;
    Ok(StmtKind::Call(name, values))
}

/// A call from its name on, where the statement ends behind it.
fn call(cursor: &mut Cursor<'_>, name: Name) -> Result<StmtKind, ParseFault>
    ensures { Parses (spec.call name) cursor.old result cursor.new }
{
    cursor.advance();
    cursor.expect(Mark::LeftParen)?;
    let values = call_values(cursor)?;
    match cursor.mark() {
        Some(Mark::Semicolon) => Ok(StmtKind::Call(name, values)),
        Some(Mark::RightParen) => Ok(StmtKind::Call(name, values)),
        _ => Err(ParseFault::Syntax),
    }
}

fn update(cursor: &Cursor<'_>) -> Option<BinOp>
    ensures { result ≡ meaning_at update_of cursor.now.rest.now }
{
    match cursor.kind() {
        Some(kind) => update_of(kind),
        None => None,
    }
}

fn step(cursor: &Cursor<'_>) -> Option<BinOp>
    ensures { result ≡ meaning_at step_of cursor.now.rest.now }
{
    match cursor.kind() {
        Some(kind) => step_of(kind),
        None => None,
    }
}

/// After the place.
fn assign(cursor: &mut Cursor<'_>, place: Expr) -> Result<StmtKind, ParseFault>
    ensures { Parses (spec.assign place) cursor.old result cursor.new }
{
    match update(cursor) {
        Some(op) => {
            cursor.advance();
            let value = cursor.expression()?;
            Ok(StmtKind::Update(op, place, value))
        }
        None => step_or_assign(cursor, place),
    }
}

fn step_or_assign(cursor: &mut Cursor<'_>, place: Expr) -> Result<StmtKind, ParseFault>
    ensures { Parses (spec.assign_by place None (meaning_at step_of cursor.old.rest.now)) cursor.old result cursor.new }
{
    match step(cursor) {
        Some(op) => {
            cursor.advance();
            Ok(StmtKind::Update(op, place, Expr::Number(1)))
        }
        None => {
            cursor.expect(Mark::Assign)?;
            let value = cursor.expression()?;
            Ok(StmtKind::Assign(place, value))
        }
    }
}

fn placed(cursor: &mut Cursor<'_>) -> Result<StmtKind, ParseFault>
    ensures { Parses spec.placed cursor.old result cursor.new }
{
    let place = cursor.place()?;
    assign(cursor, place)
}

/// A call or an assignment, which both may begin with a name. The fault is the one that comes further.
fn call_or_placed(cursor: &mut Cursor<'_>, name: Name) -> Result<StmtKind, ParseFault>
    ensures { Parses (spec.or_else (spec.call name) spec.placed) cursor.old result cursor.new }
{
    let start = *cursor;
    match call(cursor, name) {
        Ok(kind) => Ok(kind),
        Err(ParseFault::Memory) => Err(ParseFault::Memory),
        Err(ParseFault::Syntax) => {
            let stuck = *cursor;
            *cursor = start;
            second(cursor, stuck)
        }
    }
}

fn second<'a>(cursor: &mut Cursor<'a>, stuck: Cursor<'a>) -> Result<StmtKind, ParseFault>
    ensures { Parses (λ ts. spec.second stuck.entry.rest.now (spec.placed ts)) cursor.old result cursor.new }
{
    match placed(cursor) {
        Ok(kind) => Ok(kind),
        Err(ParseFault::Memory) => Err(ParseFault::Memory),
        Err(ParseFault::Syntax) => {
            if cursor.rest.len() >= stuck.rest.len() {
                *cursor = stuck;
            }
            Err(ParseFault::Syntax)
        }
    }
}

fn before_or_placed(cursor: &mut Cursor<'_>) -> Result<StmtKind, ParseFault>
    ensures { Parses (spec.before_by (meaning_at step_of cursor.old.rest.now)) cursor.old result cursor.new }
{
    match step(cursor) {
        Some(op) => {
            cursor.advance();
            let place = cursor.place()?;
            Ok(StmtKind::Update(op, place, Expr::Number(1)))
        }
        None => placed(cursor),
    }
}

/// A statement without its `;`.
pub fn simple_statement(cursor: &mut Cursor<'_>) -> Result<StmtKind, ParseFault>
    ensures { Parses spec.simple cursor.old result cursor.new }
{
    match cursor.kind() {
        Some(TokenKind::Word(name)) => {
            let name = Items::from_slice(cursor.alloc, name.as_slice())?;
            call_or_placed(cursor, name)
        }
        Some(TokenKind::Key(Key::Printf)) => {
            cursor.advance();
            print(cursor)
        }
        Some(TokenKind::Key(Key::Free)) => {
            cursor.advance();
            free(cursor)
        }
        _ => before_or_placed(cursor),
    }
}
