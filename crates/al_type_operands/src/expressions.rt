ghost use Rattle.std.specs.Prelude.{◌≡◌, ◌*◌, [], Ok, pos, IfOk};
ghost use Rattle.al_source.specs.declared.source_tree.CType.TheVariants as ctype;
ghost use Rattle.al_core.specs.declared.typed_tree.TExpr.TheVariants as e;
ghost use Rattle.al_rules.specs.declared.operands.Operand.TheVariants as variant;
ghost use Rattle.al_rules.specs.declared.faults.TypeKind.TheVariants.{Unknown};
ghost use Rattle.al_source.specs.Steps.{and_then};
ghost use Rattle.al_rules.specs.Checks.{some_or};
ghost use Rattle.al_rules.specs.Expressions as spec;
ghost use Rattle.al_rules.specs.Operands as operand_spec;
ghost use Rattle.al_rules.specs.Scopes as scopes;
ghost use Rattle.al_source.specs.Answers.{Gives};
ghost use Rattle.al_type_names.specs.Steps.{kind_of};

use crate::calls::{called, freed};
use crate::operands::{and, binary, integer, or, unary};
use crate::places::{address, followed, indexed, member, member_behind, of_variable};
use crate::queue::Queue;
use al_ast::copy_type;
use al_core::TExpr;
use al_rules::{Operand, TypeKind};
use al_source::limits::WORD_BYTES;
use al_source::{CType, Expr};
use al_type_names::fault::Fault;
use al_type_names::known::Known;
use al_type_names::scope::Scope;
use al_type_names::types::Role;
use sqlite_items::Boxed;
use std::alloc::{AllocError, Global};

fn variable<'a>(
    alloc: Global,
    known: &Known<'a>,
    scope: &Scope<'a>,
    name: &[u8],
) -> Result<Boxed<Operand>, Fault>
    ensures { Gives kind_of
        (and_then
        (some_or (scopes.variable_named known.now (scopes.in_scope scope.now) name.now) Unknown)
        (λ v. Ok (operand_spec.of_variable v)))
        result }
{
    match known.variable_named(scope, name) {
        Some(v) => Ok(of_variable(alloc, v)?),
        None => Err(Fault::Kind(TypeKind::Unknown)),
    }
}

/// A type that `sizeof` or `calloc` takes. In a function every struct of the file is known.
fn sized(known: &Known<'_>, ty: &CType) -> Result<(), Fault>
    ensures { Gives kind_of (spec.sized known.now [] ty.now) result }
{
    known.check_type(Role::Measured, ty)
}

fn value(alloc: Global, ty: CType, x: TExpr) -> Result<Boxed<Operand>, AllocError>
    ensures { IfOk result (λ v. v ≡ variant.Value ty x) }
{
    Boxed::new(alloc, Operand::Value(ty, x))
}

fn size_of(alloc: Global, known: &Known<'_>, ty: &CType) -> Result<Boxed<Operand>, Fault>
    ensures { Gives kind_of
        (and_then (spec.sized known.now [] ty.now)
        (λ _. Ok (variant.Value ctype.Int (e.Number (pos (WORD_BYTES * scopes.size known.now ty.now))))))
        result }
{
    sized(known, ty)?;
    let words = known.size(ty)?;
    let bytes = TExpr::Number(i64::from(WORD_BYTES) * i64::from(words));
    Ok(value(alloc, CType::Int, bytes)?)
}

fn calloc(
    alloc: Global,
    known: &Known<'_>,
    x: Boxed<Operand>,
    ty: &CType,
) -> Result<Boxed<Operand>, Fault>
    ensures { Gives kind_of
        (and_then (operand_spec.integer x)
        (λ n. and_then (spec.sized known.now [] ty.now)
        (λ _. Ok (variant.Value (ctype.Ptr ty.now) (e.Calloc n (scopes.size known.now ty.now))))))
        result }
{
    let n = integer(alloc, x)?;
    sized(known, ty)?;
    let words = known.size(ty)?;
    let to = Boxed::new(alloc, copy_type(alloc, ty)?)?;
    Ok(value(alloc, CType::Ptr(to), TExpr::Calloc(n, words))?)
}

fn call<'a>(
    alloc: Global,
    known: &Known<'a>,
    scope: &Scope<'a>,
    name: &[u8],
    args: Queue<Boxed<Operand>>,
) -> Result<(Boxed<CType>, Boxed<TExpr>), Fault>
    ensures { Gives kind_of
        (and_then (scopes.callee_named known.now (scopes.in_scope scope.now) name.now)
        (λ f. operand_spec.called f args))
        result }
{
    let f = known.callee_named(scope, name)?;
    called(alloc, f, args)
}

fn call_value<'a>(
    alloc: Global,
    known: &Known<'a>,
    scope: &Scope<'a>,
    name: &[u8],
    args: Queue<Boxed<Operand>>,
) -> Result<Boxed<Operand>, Fault>
    ensures { Gives kind_of
        (and_then
        (and_then (scopes.callee_named known.now (scopes.in_scope scope.now) name.now)
        (λ f. operand_spec.called f args))
        (λ c. Ok (variant.Value c.0 c.1)))
        result }
{
    let (ty, x) = call(alloc, known, scope, name, args)?;
    Ok(value(alloc, ty.into_inner(), x.into_inner())?)
}

/// The term of a call as a statement, which frees an object where its name is `free`. The first fault: of the
/// arguments, of the name (`Unknown`, or `Mismatch` of a variable), of their count, of their types.
pub fn call_alone<'a>(
    alloc: Global,
    known: &Known<'a>,
    scope: &Scope<'a>,
    name: &[u8],
    args: &[Expr],
) -> Result<Boxed<TExpr>, Fault>
    ensures { Gives kind_of
        (spec.call_alone known.now (scopes.in_scope scope.now) name.now
        (spec.operands known.now (scopes.in_scope scope.now) args.now))
        result }
{
    let args = operands(alloc, known, scope, args)?;
    if known.frees(scope, name) {
        return freed(alloc, args);
    }
    let (_, x) = call(alloc, known, scope, name, args)?;
    Ok(x)
}

/// What an expression is, or the first fault: its parts from left to right, and then the whole.
#[cycle(expressions)]
#[tactic(auto, using(al_rules::proofs::ExpressionNodes::operand_nodes))]
pub fn operand<'a>(
    alloc: Global,
    known: &Known<'a>,
    scope: &Scope<'a>,
    x: &Expr,
) -> Result<Boxed<Operand>, Fault>
    ensures { Gives kind_of (spec.operand known.now (scopes.in_scope scope.now) x.now) result }
{
    match x {
        Expr::Number(n) => Ok(Boxed::new(alloc, Operand::Literal(*n))?),
        Expr::Null => Ok(Boxed::new(alloc, Operand::Null)?),
        Expr::Var(name) => variable(alloc, known, scope, name.as_slice()),
        Expr::Unary(op, x) => {
            let a = operand(alloc, known, scope, x.get())?;
            unary(alloc, *op, a)
        }
        Expr::Binary(op, x, y) => {
            let a = operand(alloc, known, scope, x.get())?;
            let b = operand(alloc, known, scope, y.get())?;
            binary(alloc, *op, a, b)
        }
        Expr::And(x, y) => {
            let a = operand(alloc, known, scope, x.get())?;
            let b = operand(alloc, known, scope, y.get())?;
            and(alloc, a, b)
        }
        Expr::Or(x, y) => {
            let a = operand(alloc, known, scope, x.get())?;
            let b = operand(alloc, known, scope, y.get())?;
            or(alloc, a, b)
        }
        Expr::Index(x, i) => {
            let a = operand(alloc, known, scope, x.get())?;
            let b = operand(alloc, known, scope, i.get())?;
            indexed(alloc, known, a, b)
        }
        Expr::Dot(x, field) => {
            let a = operand(alloc, known, scope, x.get())?;
            member(alloc, known, a, field.as_slice())
        }
        Expr::Arrow(x, field) => {
            let a = operand(alloc, known, scope, x.get())?;
            member_behind(alloc, known, a, field.as_slice())
        }
        Expr::Deref(x) => {
            let a = operand(alloc, known, scope, x.get())?;
            followed(alloc, a)
        }
        Expr::Address(x) => {
            let a = operand(alloc, known, scope, x.get())?;
            address(alloc, a)
        }
        Expr::Call(name, xs) => {
            let args = operands(alloc, known, scope, xs.as_slice())?;
            call_value(alloc, known, scope, name.as_slice(), args)
        }
        Expr::SizeOf(ty) => size_of(alloc, known, ty),
        Expr::Calloc(x, ty) => {
            let a = operand(alloc, known, scope, x.get())?;
            calloc(alloc, known, a, ty)
        }
    }
}

/// What each of these expressions is, or the first fault.
#[cycle(expressions)]
#[tactic(auto, using(crate::proofs::Gathered::gathered))]
pub fn operands<'a>(
    alloc: Global,
    known: &Known<'a>,
    scope: &Scope<'a>,
    xs: &[Expr],
) -> Result<Queue<Boxed<Operand>>, Fault>
    ensures { Gives kind_of (spec.operands known.now (scopes.in_scope scope.now) xs.now) result }
{
    let mut done = Queue::new(alloc);
    for x in xs {
        done.add(operand(alloc, known, scope, x)?)?;
    }
    Ok(done)
}
