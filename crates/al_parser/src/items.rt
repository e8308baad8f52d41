//! Structs, globals and functions.

ghost use Rattle.std.specs.Prelude.{◌≡◌, ◌<◌, ◌≤◌, length, OnOk, MatchResult, ◌++◌, ◌∷◌, []};
ghost use Rattle.al_source.specs.declared.faults.ParseFault.TheVariants.{Memory};
ghost use Rattle.al_source.specs.declared.source_tree.CType.TheVariants as type;
ghost use Rattle.al_source.specs.declared.tokens.Mark.TheVariants as mark;
ghost use Rattle.al_grammar.specs.Steps.{kind_at, is_mark, repeat};
ghost use Rattle.al_source.specs.Steps.{bind};
ghost use Rattle.al_grammar.specs.TypeParser.{named};
ghost use Rattle.al_grammar.specs.ProgramParser as spec;
ghost use Rattle.al_parse_expressions.specs.Cursors.{Parses};

use crate::statements::{Body, statement};
use al_parse_expressions::Cursor;
use al_source::limits::{DECLARATOR_DIMENSIONS, STATEMENT_NESTING};
use al_source::{
    CType, Field, Func, GlobalDef, Item, Key, Mark, Name, ParseFault, Start, Stmt, StructDef,
    TokenKind,
};
use sqlite_items::Items;

// ---- structs

/// The names of one field line, to its `;`, behind the fields that were read before.
#[tactic(auto, using(al_grammar::proofs::Loops::names_is))]
fn field_names(
    cursor: &mut Cursor<'_>,
    base: &CType,
    found: Items<Field>,
) -> Result<Items<Field>, ParseFault>
    ensures reads { Parses (repeat (spec.field_name base.now) found) cursor.old result cursor.new }
    ensures shorter { OnOk result (length cursor.new.rest.now < length cursor.old.rest.now) }
{
    let mut found = found;
    loop {
        let field = cursor.declarator(base)?;
        found.push(field)?;
        match cursor.mark() {
            Some(Mark::Comma) => cursor.advance(),
            Some(Mark::Semicolon) => {
                cursor.advance();
                return Ok(found);
            }
            _ => return Err(ParseFault::Syntax),
        }
    }
}

fn field_line(cursor: &mut Cursor<'_>, found: Items<Field>) -> Result<Items<Field>, ParseFault>
    ensures reads { Parses (spec.field_line found) cursor.old result cursor.new }
    ensures shorter { OnOk result (length cursor.new.rest.now < length cursor.old.rest.now) }
{
    let base = cursor.base()?;
    field_names(cursor, &base, found)
}

/// At least one field line, to the `}`.
#[tactic(auto, using(al_grammar::proofs::Loops::lines_is))]
fn fields(cursor: &mut Cursor<'_>) -> Result<Items<Field>, ParseFault>
    ensures { Parses (repeat spec.field_turn []) cursor.old result cursor.new }
{
    let mut found = Items::new(cursor.alloc);
    loop {
        found = field_line(cursor, found)?;
        if cursor.is_mark(Mark::RightBrace) {
            return Ok(found);
        }
    }
}

/// From the `{` to the `;`.
fn struct_body(cursor: &mut Cursor<'_>) -> Result<Items<Field>, ParseFault>
    ensures { Parses spec.struct_body cursor.old result cursor.new }
{
    cursor.expect(Mark::LeftBrace)?;
    let found = fields(cursor)?;
    cursor.expect(Mark::RightBrace)?;
    cursor.expect(Mark::Semicolon)?;
    Ok(found)
}

// ---- globals

/// The number behind a `-`.
#[tactic(auto, using(crate::proofs::Taken::negative_is, crate::proofs::Taken::negative_less))]
fn negative(cursor: &mut Cursor<'_>) -> Result<Start, ParseFault>
    ensures reads { Parses (spec.negative_by (kind_at cursor.old.rest.now)) cursor.old result cursor.new }
    ensures shorter { OnOk result (length cursor.new.rest.now ≤ length cursor.old.rest.now) }
{
    match cursor.kind() {
        Some(TokenKind::Number(value)) => {
            if *value < 0 {
                return Err(ParseFault::Syntax);
            }
            cursor.advance();
            Ok(Start::Number(-*value))
        }
        _ => Err(ParseFault::Syntax),
    }
}

/// After the `=`.
fn start_value(cursor: &mut Cursor<'_>) -> Result<Start, ParseFault>
    ensures reads { Parses (spec.start_value_by (kind_at cursor.old.rest.now)) cursor.old result cursor.new }
    ensures shorter { OnOk result (length cursor.new.rest.now ≤ length cursor.old.rest.now) }
{
    match cursor.kind() {
        Some(TokenKind::Number(value)) => {
            cursor.advance();
            Ok(Start::Number(*value))
        }
        Some(TokenKind::Mark(Mark::Minus)) => {
            cursor.advance();
            negative(cursor)
        }
        Some(TokenKind::Key(Key::Null)) => {
            cursor.advance();
            Ok(Start::Null)
        }
        _ => Err(ParseFault::Syntax),
    }
}

fn starts(cursor: &mut Cursor<'_>) -> Result<Start, ParseFault>
    ensures reads { Parses spec.starts cursor.old result cursor.new }
    ensures shorter { OnOk result (length cursor.new.rest.now ≤ length cursor.old.rest.now) }
{
    if cursor.is_mark(Mark::Assign) {
        cursor.advance();
        start_value(cursor)
    } else {
        Ok(Start::Zero)
    }
}

/// The declared names, to the `;`, behind the items that were read before.
#[tactic(auto, using(al_grammar::proofs::Loops::globals_is))]
fn globals(
    cursor: &mut Cursor<'_>,
    line: u32,
    base: &CType,
    found: Items<Item>,
) -> Result<Items<Item>, ParseFault>
    ensures reads { Parses (repeat (spec.global_name line base.now) found) cursor.old result cursor.new }
{
    let mut found = found;
    loop {
        let Field { name, ty } = cursor.declarator(base)?;
        let start = starts(cursor)?;
        found.push(Item::Global(GlobalDef {
            name,
            ty,
            start,
            line,
        }))?;
        match cursor.mark() {
            Some(Mark::Comma) => cursor.advance(),
            Some(Mark::Semicolon) => {
                cursor.advance();
                return Ok(found);
            }
            _ => return Err(ParseFault::Syntax),
        }
    }
}

/// After the first declared name, and whether it was the last.
fn first_global(
    cursor: &mut Cursor<'_>,
    line: u32,
    named: Field,
    found: Items<Item>,
) -> Result<(Items<Item>, bool), ParseFault>
    ensures { Parses (spec.first_global line named found) cursor.old result cursor.new }
{
    let ty = cursor.dimensions(DECLARATOR_DIMENSIONS, named.ty)?;
    let start = starts(cursor)?;
    let mut found = found;
    found.push(Item::Global(GlobalDef {
        name: named.name,
        ty,
        start,
        line,
    }))?;
    match cursor.mark() {
        Some(Mark::Comma) => {
            cursor.advance();
            Ok((found, false))
        }
        Some(Mark::Semicolon) => {
            cursor.advance();
            Ok((found, true))
        }
        _ => Err(ParseFault::Syntax),
    }
}

// ---- functions

fn param(cursor: &mut Cursor<'_>) -> Result<Field, ParseFault>
    ensures reads { Parses spec.param cursor.old result cursor.new }
    ensures shorter { OnOk result (length cursor.new.rest.now < length cursor.old.rest.now) }
{
    let base = cursor.base()?;
    cursor.named(&base)
}

/// At least one parameter, to the `)`.
#[tactic(auto, using(al_grammar::proofs::Loops::params_is))]
fn param_list(cursor: &mut Cursor<'_>) -> Result<Items<Field>, ParseFault>
    ensures { Parses (repeat spec.param_turn []) cursor.old result cursor.new }
{
    let mut found = Items::new(cursor.alloc);
    loop {
        let next = param(cursor)?;
        found.push(next)?;
        match cursor.mark() {
            Some(Mark::Comma) => cursor.advance(),
            Some(Mark::RightParen) => {
                cursor.advance();
                return Ok(found);
            }
            _ => return Err(ParseFault::Syntax),
        }
    }
}

/// After the `(`, to the `)`.
fn params(cursor: &mut Cursor<'_>) -> Result<Items<Field>, ParseFault>
    ensures { Parses spec.params cursor.old result cursor.new }
{
    match cursor.kind() {
        Some(TokenKind::Mark(Mark::RightParen)) => {
            cursor.advance();
            Ok(Items::new(cursor.alloc))
        }
        Some(TokenKind::Key(Key::Void)) => {
            cursor.advance();
            cursor.expect(Mark::RightParen)?;
            Ok(Items::new(cursor.alloc))
        }
        _ => param_list(cursor),
    }
}

fn function_body(cursor: &mut Cursor<'_>) -> Result<Items<Stmt>, ParseFault>
    ensures { Parses spec.body cursor.old result cursor.new }
{
    cursor.expect(Mark::LeftBrace)?;
    Body {
        depth: STATEMENT_NESTING,
        nested: statement,
    }
    .braced(cursor)
}

/// After the name, which has the result's type.
fn function(cursor: &mut Cursor<'_>, line: u32, named: Field) -> Result<Item, ParseFault>
    ensures { Parses (spec.function line named) cursor.old result cursor.new }
{
    cursor.expect(Mark::LeftParen)?;
    let params = params(cursor)?;
    let body = function_body(cursor)?;
    Ok(Item::Func(Func {
        name: named.name,
        result: named.ty,
        params,
        body,
        line,
    }))
}

// ---- items

fn with_item(found: Items<Item>, item: Item) -> Result<Items<Item>, ParseFault>
    ensures { MatchResult result (λ all. all ≡ found ++ item ∷ []) (λ e. e ≡ Memory) }
{
    let mut found = found;
    found.push(item)?;
    Ok(found)
}

/// After a base: a function, or a global for each declared name.
fn declared(
    cursor: &mut Cursor<'_>,
    line: u32,
    base: CType,
    found: Items<Item>,
) -> Result<Items<Item>, ParseFault>
    ensures { Parses (spec.declared line base found) cursor.old result cursor.new }
{
    let named = cursor.named(&base)?;
    if cursor.is_mark(Mark::LeftParen) {
        let item = function(cursor, line, named)?;
        with_item(found, item)
    } else {
        let (found, last) = first_global(cursor, line, named, found)?;
        if last {
            Ok(found)
        } else {
            globals(cursor, line, &base, found)
        }
    }
}

/// After `struct` and a name: a definition, or what this type declares.
fn structure(
    cursor: &mut Cursor<'_>,
    line: u32,
    name: Name,
    found: Items<Item>,
) -> Result<Items<Item>, ParseFault>
    ensures { Parses (λ ts. spec.struct_by line name found (is_mark mark.LeftBrace ts) ts) cursor.old result
        cursor.new }
{
    if cursor.is_mark(Mark::LeftBrace) {
        let fields = struct_body(cursor)?;
        with_item(found, Item::Struct(StructDef { name, fields, line }))
    } else {
        declared(cursor, line, CType::Struct(name), found)
    }
}

fn void_function(cursor: &mut Cursor<'_>, line: u32) -> Result<Item, ParseFault>
    ensures { Parses (λ ts. bind (named type.Void ts) (λ f. spec.function line f)) cursor.old result cursor.new }
{
    let named = cursor.named(&CType::Void)?;
    function(cursor, line, named)
}

/// An item, behind those that were read before.
pub fn next_item(cursor: &mut Cursor<'_>, found: Items<Item>) -> Result<Items<Item>, ParseFault>
    ensures { Parses (spec.items_step found) cursor.old result cursor.new }
{
    let line = cursor.line();
    match cursor.key() {
        Some(Key::Struct) => {
            cursor.advance();
            let name = cursor.word()?;
            structure(cursor, line, name, found)
        }
        Some(Key::Void) => {
            cursor.advance();
            let item = void_function(cursor, line)?;
            with_item(found, item)
        }
        _ => {
            let base = cursor.base()?;
            declared(cursor, line, base, found)
        }
    }
}
