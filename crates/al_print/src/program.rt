//! Items and whole programs.

ghost use Rattle.std.specs.Prelude.{◌≡◌, OnOk, IfOk};
ghost use Rattle.al_print.specs.ReadingBack.{HasSource, ReadsBack};
ghost use Rattle.al_print.specs.Text.{text_of};
ghost use Rattle.al_print.specs.Tokens as spec;
ghost use Rattle.al_print.specs.Tokens.{tokens_of};
ghost use Rattle.al_print.specs.Writing.{all_written};

use crate::statements::statements;
use crate::types::{declared, field, type_front};
use crate::writer::Writer;
use al_source::{Bytes, Field, Func, GlobalDef, Item, Key, Mark, Program, Start, StructDef};
use std::alloc::{AllocError, Global};

fn fields(w: &mut Writer, fields: &[Field]) -> Result<(), AllocError>
    ensures { OnOk result (w.new ≡ all_written w.old (spec.fields fields.now)) }
{
    let mut left = fields;
    while let [one, rest @ ..] = left {
        field(w, one)?;
        left = rest;
    }
    Ok(())
}

fn structure(w: &mut Writer, s: &StructDef) -> Result<(), AllocError>
    ensures { OnOk result (w.new ≡ all_written w.old (spec.structure s.now)) }
{
    w.key(Key::Struct)?;
    w.word(s.name.as_slice())?;
    w.mark(Mark::LeftBrace)?;
    fields(w, s.fields.as_slice())?;
    w.mark(Mark::RightBrace)?;
    w.mark(Mark::Semicolon)
}

/// A number after its sign, which is a token of its own.
fn signed(w: &mut Writer, v: i64) -> Result<(), AllocError>
    ensures { OnOk result (w.new ≡ all_written w.old (spec.signed v)) }
{
    if v < 0 {
        w.mark(Mark::Minus)?;
    }
    w.natural(v.unsigned_abs())
}

fn start_value(w: &mut Writer, start: Start) -> Result<(), AllocError>
    ensures { OnOk result (w.new ≡ all_written w.old (spec.start_value start)) }
{
    match start {
        Start::Zero => Ok(()),
        Start::Number(v) => {
            w.mark(Mark::Assign)?;
            signed(w, v)
        }
        Start::Null => {
            w.mark(Mark::Assign)?;
            w.key(Key::Null)
        }
    }
}

fn global(w: &mut Writer, g: &GlobalDef) -> Result<(), AllocError>
    ensures { OnOk result (w.new ≡ all_written w.old (spec.global g.now)) }
{
    declared(w, &g.ty, g.name.as_slice())?;
    start_value(w, g.start)?;
    w.mark(Mark::Semicolon)
}

fn parameter(w: &mut Writer, parameter: &Field) -> Result<(), AllocError>
    ensures { OnOk result (w.new ≡ all_written w.old (spec.parameter parameter.now)) }
{
    declared(w, &parameter.ty, parameter.name.as_slice())
}

fn more_parameters(w: &mut Writer, parameters: &[Field]) -> Result<(), AllocError>
    ensures { OnOk result (w.new ≡ all_written w.old (spec.more_parameters parameters.now)) }
{
    let mut left = parameters;
    while let [one, rest @ ..] = left {
        w.mark(Mark::Comma)?;
        parameter(w, one)?;
        left = rest;
    }
    Ok(())
}

fn parameters(w: &mut Writer, parameters: &[Field]) -> Result<(), AllocError>
    ensures { OnOk result (w.new ≡ all_written w.old (spec.parameters parameters.now)) }
{
    match parameters {
        [] => w.key(Key::Void),
        [one, rest @ ..] => {
            parameter(w, one)?;
            more_parameters(w, rest)
        }
    }
}

fn signature(w: &mut Writer, f: &Func) -> Result<(), AllocError>
    ensures { OnOk result (w.new ≡ all_written w.old (spec.signature f.now)) }
{
    type_front(w, &f.result)?;
    w.word(f.name.as_slice())?;
    w.mark(Mark::LeftParen)?;
    parameters(w, f.params.as_slice())?;
    w.mark(Mark::RightParen)
}

fn function(w: &mut Writer, f: &Func) -> Result<(), AllocError>
    ensures { OnOk result (w.new ≡ all_written w.old (spec.function f.now)) }
{
    signature(w, f)?;
    w.mark(Mark::LeftBrace)?;
    statements(w, f.body.as_slice())?;
    w.mark(Mark::RightBrace)
}

fn item(w: &mut Writer, item: &Item) -> Result<(), AllocError>
    ensures { OnOk result (w.new ≡ all_written w.old (spec.item_tokens item.now)) }
{
    match item {
        Item::Struct(s) => structure(w, s),
        Item::Global(g) => global(w, g),
        Item::Func(f) => function(w, f),
    }
}

fn items(w: &mut Writer, items: &[Item]) -> Result<(), AllocError>
    ensures { OnOk result (w.new ≡ all_written w.old (spec.items_tokens items.now)) }
{
    let mut left = items;
    while let [one, rest @ ..] = left {
        item(w, one)?;
        left = rest;
    }
    Ok(())
}

/// The canonical text of a program: its tokens with parentheses only where they are needed, each followed by a blank
/// or by a line feed. Want of memory is the only error.
#[tactic(auto, using(crate::proofs::TextLemmas::text_written))]
pub fn print_program(alloc: Global, program: &Program) -> Result<Bytes, AllocError>
    // The text is that of the program's tokens.
    ensures text { IfOk result (λ text. text ≡ text_of (tokens_of program.now)) }
    // The text of a program that some source is spells tokens again, and these derive the program but for its lines.
    ensures read_back { HasSource program.now → IfOk result (ReadsBack program.now) }
{
    let mut w = Writer::new(alloc);
    items(&mut w, program.items.as_slice())?;
    Ok(w.text)
}
