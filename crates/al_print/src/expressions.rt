//! Expressions, with parentheses where their places need them.

ghost use Rattle.std.specs.Prelude.{◌≡◌, ◌≤◌, ◌++◌, ◌∷◌, suc, nat_lt, OnOk};
ghost use Rattle.al_source.specs.declared.tokens.TokenKind.TheVariants as token;
ghost use Rattle.al_print.specs.Tokens as spec;
ghost use Rattle.al_print.specs.Writing.{all_written};

use crate::tables::{binary, unary_mark};
use crate::types::size_of;
use crate::writer::Writer;
use al_grammar::LEVELS;
use al_source::{CType, Expr, Key, Mark};
use std::alloc::AllocError;

/// The level of operands of unary operators, above those of the binary ones.
pub const UNARY: u8 = LEVELS;

/// The level of operands of `[`, `.` and `->`.
const POSTFIX: u8 = LEVELS + 1;

fn opening(w: &mut Writer, needed: bool) -> Result<(), AllocError>
    ensures { OnOk result (w.new ≡ all_written w.old (spec.opening needed)) }
{
    if needed {
        w.mark(Mark::LeftParen)
    } else {
        Ok(())
    }
}

fn closing(w: &mut Writer, needed: bool) -> Result<(), AllocError>
    ensures { OnOk result (w.new ≡ all_written w.old (spec.closing needed)) }
{
    if needed {
        w.mark(Mark::RightParen)
    } else {
        Ok(())
    }
}

/// An expression at a place of this level.
#[cycle(expressions)]
#[tactic(auto, using(crate::proofs::Cases::all_expressions))]
pub fn expression(w: &mut Writer, level: u8, x: &Expr) -> Result<(), AllocError>
    ensures { OnOk result (w.new ≡ all_written w.old (spec.expression x.now level)) }
{
    match x {
        Expr::Number(v) => w.number(*v),
        Expr::Null => w.key(Key::Null),
        Expr::Var(name) => w.word(name.as_slice()),
        Expr::Unary(op, x) => prefixed(w, level, unary_mark(*op), x.get()),
        Expr::Deref(x) => prefixed(w, level, Mark::Star, x.get()),
        Expr::Address(x) => prefixed(w, level, Mark::Ampersand, x.get()),
        Expr::Binary(op, x, y) => {
            let op = binary(*op);
            left_operand(w, level, op, x.get())?;
            right_operand(w, level, op, y.get())
        }
        Expr::And(x, y) => {
            left_operand(w, level, (1, Mark::AndAnd), x.get())?;
            right_operand(w, level, (1, Mark::AndAnd), y.get())
        }
        Expr::Or(x, y) => {
            left_operand(w, level, (0, Mark::OrOr), x.get())?;
            right_operand(w, level, (0, Mark::OrOr), y.get())
        }
        Expr::Index(x, i) => {
            expression(w, POSTFIX, x.get())?;
            w.mark(Mark::LeftBracket)?;
            expression(w, 0, i.get())?;
            w.mark(Mark::RightBracket)
        }
        Expr::Dot(x, name) => {
            expression(w, POSTFIX, x.get())?;
            w.mark(Mark::Dot)?;
            w.word(name.as_slice())
        }
        Expr::Arrow(x, name) => {
            expression(w, POSTFIX, x.get())?;
            w.mark(Mark::Arrow)?;
            w.word(name.as_slice())
        }
        Expr::Call(name, xs) => {
            w.word(name.as_slice())?;
            w.mark(Mark::LeftParen)?;
            values(w, false, xs.as_slice())?;
            w.mark(Mark::RightParen)
        }
        Expr::SizeOf(ty) => size_of(w, ty),
        Expr::Calloc(x, ty) => {
            w.key(Key::Calloc)?;
            w.mark(Mark::LeftParen)?;
            expression(w, 0, x.get())?;
            w.mark(Mark::Comma)?;
            size_of(w, ty)?;
            w.mark(Mark::RightParen)
        }
    }
}

#[cycle(expressions)]
fn prefixed(w: &mut Writer, level: u8, mark: Mark, x: &Expr) -> Result<(), AllocError>
    ensures { OnOk result (w.new ≡ all_written w.old (spec.prefixed mark (spec.expression x.now) level)) }
{
    let needed = UNARY < level;
    opening(w, needed)?;
    w.mark(mark)?;
    expression(w, UNARY, x)?;
    closing(w, needed)
}

/// The left operand of an operator of some level, with what stands before it.
#[cycle(expressions)]
fn left_operand(w: &mut Writer, level: u8, op: (u8, Mark), x: &Expr) -> Result<(), AllocError>
    ensures { OnOk result (w.new ≡ all_written w.old (spec.opening (nat_lt op.0 level) ++ spec.expression x.now op.0)) }
{
    opening(w, op.0 < level)?;
    expression(w, op.0, x)
}

/// The operator and its right operand, with what stands after it.
#[cycle(expressions)]
fn right_operand(w: &mut Writer, level: u8, op: (u8, Mark), y: &Expr) -> Result<(), AllocError>
    requires { op.0 ≤ 9 }
    ensures { OnOk result (w.new ≡ all_written w.old
        (token.Mark op.1 ∷ spec.expression y.now (suc op.0) ++ spec.closing (nat_lt op.0 level))) }
{
    w.mark(op.1)?;
    expression(w, op.0 + 1, y)?;
    closing(w, op.0 < level)
}

fn comma(w: &mut Writer, needed: bool) -> Result<(), AllocError>
    ensures { OnOk result (w.new ≡ all_written w.old (spec.comma needed)) }
{
    if needed { w.mark(Mark::Comma) } else { Ok(()) }
}

/// Values with commas between them, and one before them where they go on.
#[cycle(expressions)]
pub fn values(w: &mut Writer, goes_on: bool, xs: &[Expr]) -> Result<(), AllocError>
    ensures { OnOk result (w.new ≡ all_written w.old (spec.listed goes_on (spec.values xs.now))) }
{
    let mut goes_on = goes_on;
    for x in xs {
        comma(w, goes_on)?;
        expression(w, 0, x)?;
        goes_on = true;
    }
    Ok(())
}
