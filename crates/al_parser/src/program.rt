//! Programs.

ghost use Rattle.std.specs.Prelude.{◌≡◌, ◌<◌, length, OnOk, IfOk, MatchResult, []};
ghost use Rattle.al_source.specs.declared.source_tree.Program.{Program};
ghost use Rattle.al_source.specs.declared.faults.ParseFault.TheVariants.{Memory};
ghost use Rattle.al_grammar.specs.Programs.{Derives};
ghost use Rattle.al_grammar.specs.Beginnings.{IsFirstBad};
ghost use Rattle.al_grammar.specs.ProgramParser as spec;
ghost use Rattle.al_parse_expressions.specs.Cursors.{Parses};
ghost use Rattle.al_parser.specs.IsParsed.{IsParsed};

use crate::items::next_item;
use al_parse_expressions::Cursor;
use al_source::{Item, ParseFault, Program, Token};
use sqlite_items::Items;
use std::alloc::{AllocError, Global};

/// The items, to the last token.
#[tactic(auto, using(al_grammar::proofs::Loops::item_steps, crate::proofs::Taken::items_shrink))]
pub fn all_items(cursor: &mut Cursor<'_>) -> Result<Items<Item>, ParseFault>
    ensures { Parses spec.all_items cursor.old result cursor.new }
{
    let mut found = Items::new(cursor.alloc);
    while !cursor.rest.is_empty() {
        found = next_item(cursor, found)?;
    }
    Ok(found)
}

/// The program that the tokens derive.
///
/// # Errors
///
/// `Syntax` exactly where they derive none, and `Memory`.
pub fn parse(alloc: Global, tokens: &[Token]) -> Result<Program, ParseFault>
    // What is found is derived.
    ensures derived { IfOk result (λ p. Derives tokens.now p) }
    // What is derived is found, unless memory runs out.
    ensures found { (p : Program) → Derives tokens.now p → MatchResult result (λ q. q ≡ p) (λ e. e ≡ Memory) }
{
    let mut cursor = Cursor {
        alloc,
        rest: tokens,
        room: 0,
    };
    match all_items(&mut cursor) {
        Ok(items) => Ok(Program { items }),
        Err(fault) => Err(fault),
    }
}

/// What tokens are: a program, or none, with the place of the first bad token.
pub enum Parsed {
    Program(Program),
    FirstBad(usize),
}

/// The program that the tokens derive, or the first bad token where they derive none.
///
/// # Errors
///
/// Where memory runs out.
#[tactic(auto, using(crate::proofs::Taken::sound_items, crate::proofs::Taken::stop_within))]
pub fn parse_or_first_bad(alloc: Global, tokens: &[Token]) -> Result<Parsed, AllocError>
    ensures { IfOk result (λ parsed. IsParsed tokens.now parsed) }
{
    let mut cursor = Cursor {
        alloc,
        rest: tokens,
        room: 0,
    };
    match all_items(&mut cursor) {
        Ok(items) => Ok(Parsed::Program(Program { items })),
        Err(ParseFault::Syntax) => Ok(Parsed::FirstBad(tokens.len() - cursor.rest.len())),
        Err(ParseFault::Memory) => Err(AllocError),
    }
}

/// The place of the first token with which the tokens so far begin no program; the place past the last where only
/// more tokens are missing; `None` where the tokens are a program.
///
/// # Errors
///
/// Where memory runs out.
pub fn first_bad(alloc: Global, tokens: &[Token]) -> Result<Option<usize>, AllocError>
    ensures { IfOk result (λ place. IsFirstBad tokens.now place) }
{
    match parse_or_first_bad(alloc, tokens)? {
        Parsed::Program(_) => Ok(None),
        Parsed::FirstBad(place) => Ok(Some(place)),
    }
}
