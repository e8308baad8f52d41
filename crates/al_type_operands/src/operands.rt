ghost use Rattle.std.specs.Prelude.{◌≡◌, is_ok, pos, IfOk};
ghost use Rattle.std.specs.Ordering.{int_eq};
ghost use Rattle.al_source.specs.declared.source_tree.CType.{out-CType};
ghost use Rattle.al_source.specs.declared.source_tree.CType.TheOpen.{CType-F};
ghost use Rattle.al_core.specs.declared.typed_tree.TExpr.TheVariants as e;
ghost use Rattle.al_rules.specs.declared.operands.Operand.TheVariants as operand;
ghost use Rattle.al_rules.specs.Checks.{or_else};
ghost use Rattle.al_rules.specs.Operands as spec;
ghost use Rattle.al_source.specs.Answers.{Gives};
ghost use Rattle.al_type_names.specs.Steps.{kind_of};
ghost use Rattle.al_type_operands.specs.Literals.{literal_of};

use al_core::{BinOp, Kind, TExpr, TPlace, UnOp};
use al_rules::{Operand, TypeKind, Value};
use al_source::CType;
use al_type_names::fault::{Fault, ensure};
use al_type_names::types::{element, is_int, same_type};
use sqlite_items::Boxed;
use std::alloc::{AllocError, Global};

const MISMATCH: Fault = Fault::Kind(TypeKind::Mismatch);

// ---- what an operand is where a value is wanted

fn load(alloc: Global, kind: Kind, place: TPlace) -> Result<TExpr, AllocError>
    ensures { IfOk result (λ x. x ≡ e.Load kind place) }
{
    Ok(TExpr::Load(kind, Boxed::new(alloc, place)?))
}

fn address_of(alloc: Global, place: TPlace) -> Result<TExpr, AllocError>
    ensures { IfOk result (λ x. x ≡ e.Addr place) }
{
    Ok(TExpr::Addr(Boxed::new(alloc, place)?))
}

fn typed(ty: CType, x: TExpr) -> Value
    ensures { result ≡ spec.typed_case (out-CType ty) x }
{
    match ty {
        CType::Int => Value::Int(x),
        CType::Ptr(to) => Value::Pointer(Some(to.into_inner()), x),
        CType::Void | CType::Struct(_) | CType::Array(_, _) => Value::Useless,
    }
}

/// An array is a pointer to its first element (C99 6.3.2.1p3). An array of arrays is no value.
fn first_element(alloc: Global, of: CType, place: TPlace) -> Result<Value, AllocError>
    ensures { IfOk result (λ v. v ≡ spec.read_case (CType-F.Array of 1) place) }
{
    if element(&of).is_some() {
        return Ok(Value::Useless);
    }
    Ok(Value::Pointer(Some(of), address_of(alloc, place)?))
}

fn read(alloc: Global, ty: CType, place: TPlace) -> Result<Value, AllocError>
    ensures { IfOk result (λ v. v ≡ spec.read_case (out-CType ty) place) }
{
    match ty {
        CType::Int => Ok(Value::Int(load(alloc, Kind::Int, place)?)),
        CType::Ptr(to) => Ok(Value::Pointer(Some(to.into_inner()), load(alloc, Kind::Ptr, place)?)),
        CType::Array(of, _) => first_element(alloc, of.into_inner(), place),
        CType::Void | CType::Struct(_) => Ok(Value::Useless),
    }
}

#[tactic(auto, unfolding(al_rules::specs::Operands::used))]
fn used(alloc: Global, x: Operand) -> Result<Value, AllocError>
    ensures { IfOk result (λ v. v ≡ spec.used x) }
{
    match x {
        Operand::Literal(n) => Ok(Value::Int(TExpr::Number(n))),
        Operand::Null => Ok(Value::Pointer(None, TExpr::Number(0))),
        Operand::Value(ty, x) => Ok(typed(ty, x)),
        Operand::Variable(k, ty) => Ok(typed(ty, TExpr::Local(k))),
        Operand::Place(ty, place) => read(alloc, ty, place),
    }
}

// ---- what is wanted

fn as_integer(v: Value) -> Result<TExpr, Fault>
    ensures { Gives kind_of (spec.as_integer v) result }
{
    match v {
        Value::Int(x) => Ok(x),
        Value::Pointer(_, _) | Value::Useless => Err(MISMATCH),
    }
}

fn as_scalar(v: Value) -> Result<TExpr, Fault>
    ensures { Gives kind_of (spec.as_scalar v) result }
{
    match v {
        Value::Int(x) => Ok(x),
        Value::Pointer(_, x) => Ok(x),
        Value::Useless => Err(MISMATCH),
    }
}

fn boxed_type(alloc: Global, ty: Option<CType>) -> Result<Option<Boxed<CType>>, AllocError>
    ensures { IfOk result (λ a. a ≡ ty) }
{
    match ty {
        Some(ty) => Ok(Some(Boxed::new(alloc, ty)?)),
        None => Ok(None),
    }
}

fn boxed_pair(
    alloc: Global,
    ty: CType,
    x: TExpr,
) -> Result<(Boxed<CType>, Boxed<TExpr>), AllocError>
    ensures { IfOk result (λ p. p ≡ (ty, x)) }
{
    let x = Boxed::new(alloc, x)?;
    Ok((Boxed::new(alloc, ty)?, x))
}

fn as_pointer(alloc: Global, v: Value) -> Result<(Option<Boxed<CType>>, Boxed<TExpr>), Fault>
    ensures { Gives kind_of (spec.as_pointer v) result }
{
    match v {
        Value::Pointer(to, x) => {
            let x = Boxed::new(alloc, x)?;
            Ok((boxed_type(alloc, to)?, x))
        }
        Value::Int(_) | Value::Useless => Err(MISMATCH),
    }
}

fn as_target(alloc: Global, v: Value) -> Result<(Boxed<CType>, Boxed<TExpr>), Fault>
    ensures { Gives kind_of (spec.as_target v) result }
{
    match v {
        Value::Pointer(to, x) => match to {
            Some(to) => Ok(boxed_pair(alloc, to, x)?),
            None => Err(MISMATCH),
        },
        Value::Int(_) | Value::Useless => Err(MISMATCH),
    }
}

/// The term of an operand where an integer is wanted. Else `Mismatch`.
#[tactic(auto, unfolding(al_rules::specs::Operands::integer))]
pub fn integer(alloc: Global, x: Boxed<Operand>) -> Result<Boxed<TExpr>, Fault>
    ensures { Gives kind_of (spec.integer x) result }
{
    let x = as_integer(used(alloc, x.into_inner())?)?;
    Ok(Boxed::new(alloc, x)?)
}

/// The term of an operand where an integer or a pointer is wanted. Else `Mismatch`.
#[tactic(auto, unfolding(al_rules::specs::Operands::scalar))]
pub fn scalar(alloc: Global, x: Boxed<Operand>) -> Result<Boxed<TExpr>, Fault>
    ensures { Gives kind_of (spec.scalar x) result }
{
    let x = as_scalar(used(alloc, x.into_inner())?)?;
    Ok(Boxed::new(alloc, x)?)
}

/// What the pointer of an operand leads to, and its term. `Mismatch` where it is no pointer, or `NULL`.
#[tactic(auto, unfolding(al_rules::specs::Operands::target))]
pub fn target(alloc: Global, x: Boxed<Operand>) -> Result<(Boxed<CType>, Boxed<TExpr>), Fault>
    ensures { Gives kind_of (spec.target x) result }
{
    as_target(alloc, used(alloc, x.into_inner())?)
}

/// The literal that may stand for a null pointer (C99 6.3.2.3p3).
pub fn is_zero(n: i64) -> bool
    ensures { result ≡ int_eq n (pos 0) }
{
    n == 0
}

/// The literal 0 is a null pointer.
#[tactic(auto, unfolding(al_rules::specs::Operands::pointer))]
fn null_pointer(alloc: Global, n: i64) -> Result<(Option<Boxed<CType>>, Boxed<TExpr>), Fault>
    ensures { Gives kind_of (spec.pointer (operand.Literal n)) result }
{
    if is_zero(n) {
        Ok((None, Boxed::new(alloc, TExpr::Number(0))?))
    } else {
        Err(MISMATCH)
    }
}

fn literal(x: &Operand) -> Option<i64>
    ensures { result ≡ literal_of x.now }
{
    match x {
        Operand::Literal(n) => Some(*n),
        Operand::Null | Operand::Value(_, _) | Operand::Variable(_, _) | Operand::Place(_, _) => {
            None
        }
    }
}

/// A pointer, which the literal 0 is too.
#[tactic(auto, using(crate::proofs::OperandCases::pointers))]
pub fn pointer(
    alloc: Global,
    x: Boxed<Operand>,
) -> Result<(Option<Boxed<CType>>, Boxed<TExpr>), Fault>
    ensures { Gives kind_of (spec.pointer x) result }
{
    match literal(x.get()) {
        Some(n) => null_pointer(alloc, n),
        None => as_pointer(alloc, used(alloc, x.into_inner())?),
    }
}

fn fits(a: &CType, b: &Option<Boxed<CType>>) -> bool
    ensures { result ≡ spec.fits a.now b.now }
{
    match b {
        Some(b) => same_type(a, b.get()),
        None => true,
    }
}

fn are_one_type(a: &Option<Boxed<CType>>, b: &Option<Boxed<CType>>) -> bool
    ensures { result ≡ spec.are_one_type a.now b.now }
{
    match a {
        Some(a) => fits(a.get(), b),
        None => true,
    }
}

/// The term of an operand where a value of this type is wanted (C99 6.5.16.1p1). Else `Mismatch`.
#[tactic(auto, unfolding(al_rules::specs::Operands::fitting))]
pub fn fitting(alloc: Global, ty: &CType, x: Boxed<Operand>) -> Result<Boxed<TExpr>, Fault>
    ensures { Gives kind_of (spec.fitting ty.now x) result }
{
    match ty {
        CType::Int => integer(alloc, x),
        CType::Ptr(to) => {
            let (other, x) = pointer(alloc, x)?;
            ensure(fits(to.get(), &other), TypeKind::Mismatch)?;
            Ok(x)
        }
        CType::Void | CType::Struct(_) | CType::Array(_, _) => Err(MISMATCH),
    }
}

// ---- operators

fn number(alloc: Global, x: TExpr) -> Result<Boxed<Operand>, AllocError>
    ensures { IfOk result (λ n. n ≡ spec.number x) }
{
    Boxed::new(alloc, Operand::Value(CType::Int, x))
}

/// `-` and `~` of an integer, and `!` of an integer or a pointer (C99 6.5.3.3p1). Else `Mismatch`.
#[tactic(auto, unfolding(al_rules::specs::Operands::unary))]
pub fn unary(alloc: Global, op: UnOp, x: Boxed<Operand>) -> Result<Boxed<Operand>, Fault>
    ensures { Gives kind_of (spec.unary op x) result }
{
    let a = match op {
        UnOp::Neg => integer(alloc, x)?,
        UnOp::BitNot => integer(alloc, x)?,
        UnOp::Not => scalar(alloc, x)?,
    };
    Ok(number(alloc, TExpr::Unary(op, a))?)
}

fn of_integers(
    alloc: Global,
    op: BinOp,
    x: Boxed<Operand>,
    y: Boxed<Operand>,
) -> Result<Boxed<Operand>, Fault>
    ensures { Gives kind_of (spec.of_integers op x y) result }
{
    let a = integer(alloc, x)?;
    let b = integer(alloc, y)?;
    Ok(number(alloc, TExpr::Binary(op, a, b))?)
}

fn of_pointers(
    alloc: Global,
    equal: bool,
    x: Boxed<Operand>,
    y: Boxed<Operand>,
) -> Result<Boxed<Operand>, Fault>
    ensures { Gives kind_of (spec.of_pointers equal x y) result }
{
    let (to, a) = pointer(alloc, x)?;
    let (other, b) = pointer(alloc, y)?;
    ensure(are_one_type(&to, &other), TypeKind::Mismatch)?;
    Ok(number(alloc, TExpr::Same(equal, a, b))?)
}

#[tactic(auto, using(crate::proofs::OperandCases::integer_cases))]
fn is_integer(x: &Operand) -> bool
    ensures { result ≡ is_ok (spec.integer x.now) }
{
    match x {
        Operand::Literal(_) => true,
        Operand::Null => false,
        Operand::Value(ty, _) => is_int(ty),
        Operand::Variable(_, ty) => is_int(ty),
        Operand::Place(ty, _) => is_int(ty),
    }
}

/// Two integers, or two pointers of one type (C99 6.5.9p2).
#[tactic(auto, using(crate::proofs::OperandCases::comparisons))]
fn compared(
    alloc: Global,
    op: BinOp,
    equal: bool,
    x: Boxed<Operand>,
    y: Boxed<Operand>,
) -> Result<Boxed<Operand>, Fault>
    ensures { Gives kind_of (or_else (spec.of_integers op x y) (spec.of_pointers equal x y)) result }
{
    if is_integer(x.get()) && is_integer(y.get()) {
        of_integers(alloc, op, x, y)
    } else {
        of_pointers(alloc, equal, x, y)
    }
}

/// An operator on two integers (C99 6.5.5 to 6.5.12). `==` and `!=` take two pointers of one type, too. Else
/// `Mismatch`.
#[tactic(auto, unfolding(al_rules::specs::Operands::binary))]
pub fn binary(
    alloc: Global,
    op: BinOp,
    x: Boxed<Operand>,
    y: Boxed<Operand>,
) -> Result<Boxed<Operand>, Fault>
    ensures { Gives kind_of (spec.binary op x y) result }
{
    match op {
        BinOp::Eq => compared(alloc, BinOp::Eq, true, x, y),
        BinOp::Ne => compared(alloc, BinOp::Ne, false, x, y),
        BinOp::Add
        | BinOp::Sub
        | BinOp::Mul
        | BinOp::Div
        | BinOp::Rem
        | BinOp::Shl
        | BinOp::Shr
        | BinOp::Lt
        | BinOp::Le
        | BinOp::Gt
        | BinOp::Ge
        | BinOp::BitAnd
        | BinOp::BitXor
        | BinOp::BitOr => of_integers(alloc, op, x, y),
    }
}

/// `&&` of two integers or pointers (C99 6.5.13p2). Else `Mismatch`.
pub fn and(alloc: Global, x: Boxed<Operand>, y: Boxed<Operand>) -> Result<Boxed<Operand>, Fault>
    ensures { Gives kind_of (spec.of_scalars e.And x y) result }
{
    let a = scalar(alloc, x)?;
    let b = scalar(alloc, y)?;
    Ok(number(alloc, TExpr::And(a, b))?)
}

/// `||` of two integers or pointers (C99 6.5.14p2). Else `Mismatch`.
pub fn or(alloc: Global, x: Boxed<Operand>, y: Boxed<Operand>) -> Result<Boxed<Operand>, Fault>
    ensures { Gives kind_of (spec.of_scalars e.Or x y) result }
{
    let a = scalar(alloc, x)?;
    let b = scalar(alloc, y)?;
    Ok(number(alloc, TExpr::Or(a, b))?)
}
