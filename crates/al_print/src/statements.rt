//! Statements and annotations.

ghost use Rattle.std.specs.Prelude.{◌≡◌, ◌∷◌, ◌++◌, [], OnOk};
ghost use Rattle.al_source.specs.declared.tokens.Key.TheVariants as key;
ghost use Rattle.al_source.specs.declared.tokens.Mark.TheVariants as mark;
ghost use Rattle.al_source.specs.declared.tokens.TokenKind.TheVariants as token;
ghost use Rattle.al_print.specs.Tables as tables;
ghost use Rattle.al_print.specs.Tokens as spec;
ghost use Rattle.al_print.specs.Writing.{all_written, written};

use crate::expressions::{UNARY, expression, values};
use crate::tables::update_mark;
use crate::types::declared;
use crate::writer::Writer;
use al_source::{
    BinOp, CType, CommitOrder, Expr, Key, LoopNote, Mark, NamedRed, Piece, Policy, RedOp, Stmt,
    StmtKind,
};
use sqlite_items::Boxed;
use std::alloc::AllocError;

// ---- annotations

fn policy_word(policy: Policy) -> &'static [u8]
    ensures { token.Word result.now ≡ tables.policy_word policy }
{
    match policy {
        Policy::Full => b"FULL",
        Policy::Raw => b"RAW",
        Policy::Waw => b"WAW",
        Policy::None => b"NONE",
    }
}

fn order_word(order: CommitOrder) -> &'static [u8]
    ensures { token.Word result.now ≡ tables.order_word order }
{
    match order {
        CommitOrder::InOrder => b"InOrder",
        CommitOrder::OutOfOrder => b"OutOfOrder",
    }
}

fn reduction(w: &mut Writer, op: RedOp) -> Result<(), AllocError>
    ensures { OnOk result (w.new ≡ written w.old (tables.reduction op)) }
{
    match op {
        RedOp::Add => w.mark(Mark::Plus),
        RedOp::Mul => w.mark(Mark::Star),
        RedOp::Min => w.word(b"min"),
        RedOp::Max => w.word(b"max"),
        RedOp::BitAnd => w.mark(Mark::Ampersand),
        RedOp::BitOr => w.mark(Mark::Pipe),
        RedOp::BitXor => w.mark(Mark::Caret),
    }
}

fn reduced(w: &mut Writer, variable: &NamedRed) -> Result<(), AllocError>
    ensures { OnOk result (w.new ≡ all_written w.old (spec.reduced variable.now)) }
{
    w.word(b"reduce")?;
    w.mark(Mark::LeftParen)?;
    reduction(w, variable.op)?;
    w.mark(Mark::Colon)?;
    w.word(variable.name.as_slice())?;
    w.mark(Mark::RightParen)
}

fn all_reduced(w: &mut Writer, variables: &[NamedRed]) -> Result<(), AllocError>
    ensures { OnOk result (w.new ≡ all_written w.old (spec.all_reduced variables.now)) }
{
    let mut left = variables;
    while let [variable, rest @ ..] = left {
        reduced(w, variable)?;
        left = rest;
    }
    Ok(())
}

fn note(w: &mut Writer, note: &Option<LoopNote>) -> Result<(), AllocError>
    ensures { OnOk result (w.new ≡ all_written w.old (spec.optional_note note.now)) }
{
    match note {
        None => Ok(()),
        Some(note) => {
            w.alter()?;
            w.word(policy_word(note.policy))?;
            w.word(order_word(note.order))?;
            all_reduced(w, note.reduce.as_slice())?;
            w.end_alter()
        }
    }
}

// ---- simple statements

/// The end of a statement that stands alone, or in the head of a `for`, where it has no `;`.
fn end(w: &mut Writer, alone: bool) -> Result<(), AllocError>
    ensures { OnOk result (w.new ≡ all_written w.old (spec.end alone)) }
{
    if alone {
        w.mark(Mark::Semicolon)
    } else {
        Ok(())
    }
}

fn optional_value(w: &mut Writer, x: &Option<Expr>) -> Result<(), AllocError>
    ensures { OnOk result (w.new ≡ all_written w.old (spec.optional_value x.now)) }
{
    match x {
        None => Ok(()),
        Some(x) => expression(w, 0, x),
    }
}

fn initializer(w: &mut Writer, x: &Option<Expr>) -> Result<(), AllocError>
    ensures { OnOk result (w.new ≡ all_written w.old (spec.initializer x.now)) }
{
    match x {
        None => Ok(()),
        Some(x) => {
            w.mark(Mark::Assign)?;
            expression(w, 0, x)
        }
    }
}

fn declaration(
    w: &mut Writer,
    ty: &CType,
    name: &[u8],
    x: &Option<Expr>,
    alone: bool,
) -> Result<(), AllocError>
    ensures { OnOk result (w.new ≡ all_written w.old (spec.declaration ty.now name.now x.now alone)) }
{
    declared(w, ty, name)?;
    initializer(w, x)?;
    end(w, alone)
}

fn assignment(w: &mut Writer, x: &Expr, mark: Mark, y: &Expr, alone: bool) -> Result<(), AllocError>
    ensures { OnOk result (w.new ≡ all_written w.old (spec.assignment x.now mark y.now alone)) }
{
    expression(w, UNARY, x)?;
    w.mark(mark)?;
    expression(w, 0, y)?;
    end(w, alone)
}

/// The called name of a statement. `free` is a reserved word, which has the same bytes.
#[tactic(auto, using(crate::proofs::HeadWritten::callee_written))]
fn callee(w: &mut Writer, name: &[u8]) -> Result<(), AllocError>
    ensures { OnOk result (w.new ≡ written w.old (spec.callee name.now)) }
{
    w.word(name)
}

fn call(w: &mut Writer, name: &[u8], xs: &[Expr], alone: bool) -> Result<(), AllocError>
    ensures { OnOk result (w.new ≡ all_written w.old (spec.call name.now xs.now alone)) }
{
    callee(w, name)?;
    w.mark(Mark::LeftParen)?;
    values(w, false, xs)?;
    w.mark(Mark::RightParen)?;
    end(w, alone)
}

fn print(w: &mut Writer, format: &[Piece], xs: &[Expr], alone: bool) -> Result<(), AllocError>
    ensures { OnOk result (w.new ≡ all_written w.old (spec.print format.now xs.now alone)) }
{
    w.key(Key::Printf)?;
    w.mark(Mark::LeftParen)?;
    w.format(format)?;
    values(w, true, xs)?;
    w.mark(Mark::RightParen)?;
    end(w, alone)
}

fn jump(w: &mut Writer, key: Key, x: &Option<Expr>, alone: bool) -> Result<(), AllocError>
    ensures { OnOk result (w.new ≡ all_written w.old (spec.jump key x.now alone)) }
{
    w.key(key)?;
    optional_value(w, x)?;
    end(w, alone)
}

/// The test in the head of a `for`.
fn test_part(w: &mut Writer, test: &Option<Expr>) -> Result<(), AllocError>
    ensures { OnOk result (w.new ≡ all_written w.old (token.Mark mark.Semicolon ∷ spec.optional_value test.now)) }
{
    w.mark(Mark::Semicolon)?;
    optional_value(w, test)
}

fn condition(w: &mut Writer, key: Key, x: &Expr) -> Result<(), AllocError>
    ensures { OnOk result (w.new ≡ all_written w.old (spec.condition key x.now)) }
{
    w.key(key)?;
    w.mark(Mark::LeftParen)?;
    expression(w, 0, x)?;
    w.mark(Mark::RightParen)
}

// ---- statements

/// A statement that stands alone, or in the head of a `for`.
#[cycle(statements)]
#[tactic(auto, using(crate::proofs::Cases::statement_is))]
fn statement(w: &mut Writer, s: &Stmt, alone: bool) -> Result<(), AllocError>
    ensures { OnOk result (w.new ≡ all_written w.old (spec.statement s.now alone)) }
{
    statement_kind(w, &s.kind, alone)
}

#[cycle(statements)]
#[tactic(auto, using(crate::proofs::Cases::all_kinds))]
fn statement_kind(w: &mut Writer, k: &StmtKind, alone: bool) -> Result<(), AllocError>
    ensures { OnOk result (w.new ≡ all_written w.old (spec.statement_kind k.now alone)) }
{
    match k {
        StmtKind::Empty => end(w, alone),
        StmtKind::Declare(ty, name, x) => declaration(w, ty, name.as_slice(), x, alone),
        StmtKind::Assign(x, y) => assignment(w, x, Mark::Assign, y, alone),
        StmtKind::Update(op, x, y) => assignment(w, x, update_mark(*op), y, alone),
        StmtKind::Call(name, xs) => call(w, name.as_slice(), xs.as_slice(), alone),
        StmtKind::Print(format, xs) => print(w, format.as_slice(), xs.as_slice(), alone),
        StmtKind::If(c, x, y) => {
            condition(w, Key::If, c)?;
            statement(w, x.get(), true)?;
            otherwise(w, y)
        }
        StmtKind::While(c, x) => {
            condition(w, Key::While, c)?;
            statement(w, x.get(), true)
        }
        StmtKind::For(first, test, third, x, n) => {
            note(w, n)?;
            first_part(w, first)?;
            test_part(w, test)?;
            third_part(w, third)?;
            statement(w, x.get(), true)
        }
        StmtKind::Block(ss) => {
            w.mark(Mark::LeftBrace)?;
            statements(w, ss.as_slice())?;
            w.mark(Mark::RightBrace)
        }
        StmtKind::Return(x) => jump(w, Key::Return, x, alone),
        StmtKind::Break => jump(w, Key::Break, &None, alone),
        StmtKind::Continue => jump(w, Key::Continue, &None, alone),
    }
}

/// The head of a `for` up to its first part.
#[cycle(statements)]
fn first_part(w: &mut Writer, first: &Option<Boxed<Stmt>>) -> Result<(), AllocError>
    ensures { OnOk result (w.new ≡ all_written w.old
        (token.Key key.For ∷ token.Mark mark.LeftParen ∷ spec.part_of first.now)) }
{
    w.key(Key::For)?;
    w.mark(Mark::LeftParen)?;
    part(w, first)
}

/// The third part, up to the end of the head.
#[cycle(statements)]
fn third_part(w: &mut Writer, third: &Option<Boxed<Stmt>>) -> Result<(), AllocError>
    ensures { OnOk result (w.new ≡ all_written w.old
        (token.Mark mark.Semicolon ∷ spec.part_of third.now ++ token.Mark mark.RightParen ∷ [])) }
{
    w.mark(Mark::Semicolon)?;
    part(w, third)?;
    w.mark(Mark::RightParen)
}

#[cycle(statements)]
fn part(w: &mut Writer, s: &Option<Boxed<Stmt>>) -> Result<(), AllocError>
    ensures { OnOk result (w.new ≡ all_written w.old (spec.part_of s.now)) }
{
    match s {
        None => Ok(()),
        Some(s) => statement(w, s.get(), false),
    }
}

#[cycle(statements)]
fn otherwise(w: &mut Writer, s: &Option<Boxed<Stmt>>) -> Result<(), AllocError>
    ensures { OnOk result (w.new ≡ all_written w.old (spec.otherwise_of s.now)) }
{
    match s {
        None => Ok(()),
        Some(s) => {
            w.key(Key::Else)?;
            statement(w, s.get(), true)
        }
    }
}

#[cycle(statements)]
pub fn statements(w: &mut Writer, ss: &[Stmt]) -> Result<(), AllocError>
    ensures { OnOk result (w.new ≡ all_written w.old (spec.statements ss.now)) }
{
    for s in ss {
        statement(w, s, true)?;
    }
    Ok(())
}
