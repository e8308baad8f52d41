//! The marks of operators.

ghost use Rattle.std.specs.Prelude.{◌≡◌, ◌≤◌};
ghost use Rattle.al_print.specs.Tables as spec;

use al_source::{BinOp, Mark, UnOp};

pub fn unary_mark(op: UnOp) -> Mark
    ensures { result ≡ spec.unary_mark op }
{
    match op {
        UnOp::Neg => Mark::Minus,
        UnOp::BitNot => Mark::Tilde,
        UnOp::Not => Mark::Bang,
    }
}

/// The level of a binary operator, from 0, the loosest, and its mark (C99 6.5.5 to 6.5.14).
pub fn binary(op: BinOp) -> (u8, Mark)
    ensures value { result ≡ spec.binary op }
    ensures level { result.0 ≤ 9 }
{
    match op {
        BinOp::BitOr => (2, Mark::Pipe),
        BinOp::BitXor => (3, Mark::Caret),
        BinOp::BitAnd => (4, Mark::Ampersand),
        BinOp::Eq => (5, Mark::EqualEqual),
        BinOp::Ne => (5, Mark::NotEqual),
        BinOp::Lt => (6, Mark::Less),
        BinOp::Le => (6, Mark::LessEqual),
        BinOp::Gt => (6, Mark::Greater),
        BinOp::Ge => (6, Mark::GreaterEqual),
        BinOp::Shl => (7, Mark::ShiftLeft),
        BinOp::Shr => (7, Mark::ShiftRight),
        BinOp::Add => (8, Mark::Plus),
        BinOp::Sub => (8, Mark::Minus),
        BinOp::Mul => (9, Mark::Star),
        BinOp::Div => (9, Mark::Slash),
        BinOp::Rem => (9, Mark::Percent),
    }
}

/// The mark of an assignment such as `+=`. A comparison has none, and keeps its own.
pub fn update_mark(op: BinOp) -> Mark
    ensures { result ≡ spec.update_mark op }
{
    match op {
        BinOp::Add => Mark::PlusAssign,
        BinOp::Sub => Mark::MinusAssign,
        BinOp::Mul => Mark::StarAssign,
        BinOp::Div => Mark::SlashAssign,
        BinOp::Rem => Mark::PercentAssign,
        BinOp::BitAnd => Mark::AmpersandAssign,
        BinOp::BitOr => Mark::PipeAssign,
        BinOp::BitXor => Mark::CaretAssign,
        BinOp::Shl => Mark::ShiftLeftAssign,
        BinOp::Shr => Mark::ShiftRightAssign,
        BinOp::Eq | BinOp::Ne | BinOp::Lt | BinOp::Le | BinOp::Gt | BinOp::Ge => binary(op).1,
    }
}
