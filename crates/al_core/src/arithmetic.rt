ghost use Rattle.std.specs.Prelude.{◌≡◌};
ghost use Rattle.al_core.specs.Arithmetic as spec;

use crate::values::Trap;
use al_source::{BinOp, UnOp};

/// The value of a binary operator. Integers wrap at 64 bits, `/` truncates towards 0 (C99 6.5.5p6), `MIN / -1` is
/// `MIN` and `MIN % -1` is 0, a shift count is taken modulo 64, `>>` keeps the sign, and a comparison is 0 or 1.
/// It traps exactly where `/` or `%` has the divisor 0.
pub fn binary(op: BinOp, a: i64, b: i64) -> Result<i64, Trap>
    ensures { result ≡ spec.operated op a b }
{
    match op {
        BinOp::Add => Ok(a.wrapping_add(b)),
        BinOp::Sub => Ok(a.wrapping_sub(b)),
        BinOp::Mul => Ok(a.wrapping_mul(b)),
        BinOp::Div => quotient(a, b),
        BinOp::Rem => remainder(a, b),
        BinOp::Shl => Ok(a.wrapping_shl(shift_count(b))),
        BinOp::Shr => Ok(a.wrapping_shr(shift_count(b))),
        BinOp::Lt => Ok(i64::from(a < b)),
        BinOp::Le => Ok(i64::from(a <= b)),
        BinOp::Gt => Ok(i64::from(a > b)),
        BinOp::Ge => Ok(i64::from(a >= b)),
        BinOp::Eq => Ok(i64::from(a == b)),
        BinOp::Ne => Ok(i64::from(a != b)),
        BinOp::BitAnd => Ok(a & b),
        BinOp::BitXor => Ok(a ^ b),
        BinOp::BitOr => Ok(a | b),
    }
}

fn quotient(a: i64, b: i64) -> Result<i64, Trap>
    ensures { result ≡ spec.operated BinOp.Div a b }
{
    if b == 0 {
        Err(Trap::Divide)
    } else {
        Ok(a.wrapping_div(b))
    }
}

fn remainder(a: i64, b: i64) -> Result<i64, Trap>
    ensures { result ≡ spec.operated BinOp.Rem a b }
{
    if b == 0 {
        Err(Trap::Divide)
    } else {
        Ok(a.wrapping_rem(b))
    }
}

/// The value of a unary operator on a number. `-` wraps, and `!` is 1 at 0 and else 0.
pub fn unary(op: UnOp, a: i64) -> i64
    ensures { result ≡ spec.unary op a }
{
    match op {
        UnOp::Neg => a.wrapping_neg(),
        UnOp::BitNot => !a,
        UnOp::Not => i64::from(a == 0),
    }
}

/// A shift count modulo 64.
fn shift_count(b: i64) -> u32
    ensures { result ≡ spec.shift_count b }
{
    b.rem_euclid(64) as u32
}
