//! What stands in an annotation.

ghost use Rattle.std.specs.Prelude.{◌≡◌, ◌<◌, ◌≤◌, length, OnOk, Ok, []};
ghost use Rattle.al_grammar.specs.Operators.{note_word_of};
ghost use Rattle.al_grammar.specs.Steps.{meaning_at, repeat};
ghost use Rattle.al_grammar.specs.StatementParser as spec;
ghost use Rattle.al_parse_expressions.specs.Cursors.{Parses};

use al_grammar::{NoteWord, note_word_of};
use al_parse_expressions::Cursor;
use al_source::{CommitOrder, LoopNote, Mark, NamedRed, ParseFault, Policy, RedOp, TokenKind};
use sqlite_items::Items;

fn note_word(cursor: &Cursor<'_>) -> Option<NoteWord>
    ensures { result ≡ meaning_at note_word_of cursor.now.rest.now }
{
    match cursor.kind() {
        Some(kind) => note_word_of(kind),
        None => None,
    }
}

fn note_policy(cursor: &mut Cursor<'_>) -> Policy
    ensures { spec.note_policy cursor.old.rest.now ≡ Ok (result, cursor.new.rest.now) }
{
    match note_word(cursor) {
        Some(NoteWord::Policy(policy)) => {
            cursor.advance();
            policy
        }
        _ => Policy::Raw,
    }
}

fn note_order(cursor: &mut Cursor<'_>) -> CommitOrder
    ensures { spec.note_order cursor.old.rest.now ≡ Ok (result, cursor.new.rest.now) }
{
    match note_word(cursor) {
        Some(NoteWord::Order(order)) => {
            cursor.advance();
            order
        }
        _ => CommitOrder::InOrder,
    }
}

fn operator(cursor: &mut Cursor<'_>) -> Result<RedOp, ParseFault>
    ensures reads { Parses spec.operator cursor.old result cursor.new }
    ensures shorter { OnOk result (length cursor.new.rest.now < length cursor.old.rest.now) }
{
    match note_word(cursor) {
        Some(NoteWord::Operator(op)) => {
            cursor.advance();
            Ok(op)
        }
        _ => Err(ParseFault::Syntax),
    }
}

/// The variables of one `reduce`, to its `)`, behind those that were read before.
#[tactic(auto, using(al_grammar::proofs::Loops::variables_is))]
fn variables(
    cursor: &mut Cursor<'_>,
    op: RedOp,
    found: Items<NamedRed>,
) -> Result<Items<NamedRed>, ParseFault>
    ensures reads { Parses (repeat (spec.variable op) found) cursor.old result cursor.new }
    ensures shorter { OnOk result (length cursor.new.rest.now < length cursor.old.rest.now) }
{
    let mut found = found;
    loop {
        let name = cursor.word()?;
        found.push(NamedRed { op, name })?;
        match cursor.mark() {
            Some(Mark::Comma) => cursor.advance(),
            Some(Mark::RightParen) => {
                cursor.advance();
                return Ok(found);
            }
            _ => return Err(ParseFault::Syntax),
        }
    }
}

/// One `reduce`, from its `(` on.
fn reduction(cursor: &mut Cursor<'_>, found: Items<NamedRed>) -> Result<Items<NamedRed>, ParseFault>
    ensures reads { Parses (spec.reduction found) cursor.old result cursor.new }
    ensures shorter { OnOk result (length cursor.new.rest.now < length cursor.old.rest.now) }
{
    cursor.expect(Mark::LeftParen)?;
    let op = operator(cursor)?;
    cursor.expect(Mark::Colon)?;
    variables(cursor, op, found)
}

#[tactic(auto, using(al_grammar::proofs::Loops::reductions_is))]
fn reductions(cursor: &mut Cursor<'_>) -> Result<Items<NamedRed>, ParseFault>
    ensures { Parses (repeat spec.reduce_turn []) cursor.old result cursor.new }
{
    let mut found = Items::new(cursor.alloc);
    while let Some(NoteWord::Reduce) = note_word(cursor) {
        cursor.advance();
        found = reduction(cursor, found)?;
    }
    Ok(found)
}

/// Between the ends of an annotation.
pub fn loop_note(cursor: &mut Cursor<'_>) -> Result<LoopNote, ParseFault>
    ensures { Parses spec.loop_note cursor.old result cursor.new }
{
    let policy = note_policy(cursor);
    let order = note_order(cursor);
    let reduce = reductions(cursor)?;
    Ok(LoopNote {
        policy,
        order,
        reduce,
    })
}

/// Takes the end of an annotation.
pub fn end_note(cursor: &mut Cursor<'_>) -> Result<(), ParseFault>
    ensures { Parses spec.end_note cursor.old result cursor.new }
{
    match cursor.kind() {
        Some(TokenKind::EndAlter) => {
            cursor.advance();
            Ok(())
        }
        _ => Err(ParseFault::Syntax),
    }
}
