ghost use Rattle.std.specs.Prelude.{◌≡◌};
ghost use Rattle.al_core.specs.Values as spec;

use crate::arithmetic::{binary, unary};
use crate::reductions::red_apply;
use crate::values::{Kind, Obj, Trap, Val};
use al_source::limits::LOOP_TRIPS;
use al_source::{BinOp, RedOp, UnOp};

/// Whether a condition of this value holds.
pub fn truth(v: Val) -> bool
    ensures { result ≡ spec.truth v }
{
    match v {
        Val::Int(n) => n != 0,
        Val::Ptr(_, _) => true,
    }
}

pub fn of_test(b: bool) -> Val
    ensures { result ≡ spec.of_test b }
{
    Val::Int(i64::from(b))
}

/// The number of a value. It traps `Kind` at a pointer.
pub fn number(v: Val) -> Result<i64, Trap>
    ensures { result ≡ spec.number v }
{
    match v {
        Val::Int(n) => Ok(n),
        Val::Ptr(_, _) => Err(Trap::Kind),
    }
}

#[tactic(auto, unfolding(crate::specs::Values::operate))]
pub fn operate(op: BinOp, a: Val, b: Val) -> Result<Val, Trap>
    ensures { result ≡ spec.operate op a b }
{
    Ok(Val::Int(binary(op, number(a)?, number(b)?)?))
}

/// A unary operator. `!` takes pointers too.
#[tactic(auto, unfolding(crate::specs::Values::operate_one))]
pub fn operate_one(op: UnOp, a: Val) -> Result<Val, Trap>
    ensures { result ≡ spec.operate_one op a }
{
    match op {
        UnOp::Not => Ok(of_test(!truth(a))),
        UnOp::Neg | UnOp::BitNot => Ok(Val::Int(unary(op, number(a)?))),
    }
}

/// The built-in `min` or `max`.
#[tactic(auto, unfolding(crate::specs::Values::choose))]
pub fn choose(op: RedOp, a: Val, b: Val) -> Result<Val, Trap>
    ensures { result ≡ spec.choose op a b }
{
    Ok(Val::Int(red_apply(op, number(a)?, number(b)?)))
}

/// Whether two pointers are equal, or are both null.
pub fn same(a: Val, b: Val) -> bool
    ensures { result ≡ spec.same a b }
{
    match (a, b) {
        (Val::Int(a), Val::Int(b)) => a == b,
        (Val::Ptr(o, v), Val::Ptr(p, w)) => o == p && v == w,
        _ => false,
    }
}

/// Whether two pointers are equal, or whether they differ, as 1 or 0.
#[tactic(auto, unfolding(crate::specs::Values::compare))]
pub fn compare(equal: bool, a: Val, b: Val) -> Val
    ensures { result ≡ spec.compare equal a b }
{
    if equal {
        of_test(same(a, b))
    } else {
        of_test(!same(a, b))
    }
}

/// Checks a value that is read as one of a kind.
pub fn of_kind(want: Kind, v: Val) -> Result<Val, Trap>
    ensures { result ≡ spec.of_kind want v }
{
    match (want, v) {
        (Kind::Int, Val::Ptr(_, _)) => Err(Trap::Kind),
        (Kind::Ptr, Val::Int(n)) if n != 0 => Err(Trap::Kind),
        _ => Ok(v),
    }
}

/// Where a pointer leads. It traps `Null` at the null pointer.
pub fn point(v: Val) -> Result<(Obj, u32), Trap>
    ensures { result ≡ spec.point v }
{
    match v {
        Val::Int(_) => Err(Trap::Null),
        Val::Ptr(o, w) => Ok((o, w)),
    }
}

/// So many words on. It traps `Bounds` where the offset passes 32 bits.
#[tactic(auto, unfolding(crate::specs::Values::shift))]
pub fn shift(at: (Obj, u32), words: u32) -> Result<(Obj, u32), Trap>
    ensures { result ≡ spec.shift at words }
{
    match at.1.checked_add(words) {
        Some(w) => Ok((at.0, w)),
        None => Err(Trap::Bounds),
    }
}

/// The element of an index, where an element has so many words.
#[tactic(auto, unfolding(crate::specs::Values::element))]
pub fn element(at: (Obj, u32), index: Val, size: u32) -> Result<(Obj, u32), Trap>
    ensures { result ≡ spec.element at index size }
{
    match u32::try_from(i128::from(at.1) + i128::from(number(index)?) * i128::from(size)) {
        Ok(w) => Ok((at.0, w)),
        Err(_) => Err(Trap::Bounds),
    }
}

/// The input number of an index.
pub fn input_at(input: &[i64], index: i64) -> Result<Val, Trap>
    ensures { result ≡ spec.input_at input.now index }
{
    match usize::try_from(index) {
        Ok(i) => match input.get(i) {
            Some(n) => Ok(Val::Int(*n)),
            None => Err(Trap::Input),
        },
        Err(_) => Err(Trap::Input),
    }
}

/// The words of so many elements of so many words. It traps `Alloc` where the count is negative, and past 32 bits.
#[tactic(auto, unfolding(crate::specs::Values::words_of))]
pub fn words_of(count: i64, size: u32) -> Result<u32, Trap>
    ensures { result ≡ spec.words_of count size }
{
    if count < 0 {
        return Err(Trap::Alloc);
    }
    match u32::try_from(i128::from(count) * i128::from(size)) {
        Ok(words) => Ok(words),
        Err(_) => Err(Trap::Alloc),
    }
}

/// How often an annotated loop runs from a start to below a bound. It traps `Trips` past 16,777,216.
#[tactic(auto, unfolding(crate::specs::Values::trips))]
pub fn trips(lo: i64, hi: i64) -> Result<u64, Trap>
    ensures { result ≡ spec.trips lo hi }
{
    if hi <= lo {
        return Ok(0);
    }
    let count = hi.abs_diff(lo);
    if count > LOOP_TRIPS {
        Err(Trap::Trips)
    } else {
        Ok(count)
    }
}
