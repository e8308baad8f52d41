ghost use Rattle.std.specs.Prelude.{◌≡◌, IfOk};
ghost use Rattle.al_source.specs.declared.source_tree.CType.TheVariants as ctype;
ghost use Rattle.al_rules.specs.Operands as spec;
ghost use Rattle.al_rules.specs.Scopes as callee;
ghost use Rattle.al_type_operands.specs.Arguments as arguments;
ghost use Rattle.al_type_names.specs.Meanings.{callee_of};
ghost use Rattle.al_source.specs.Answers.{Gives};
ghost use Rattle.al_type_names.specs.Steps.{kind_of};

use crate::operands::{fitting, integer, pointer};
use crate::queue::Queue;
use al_ast::copy_type;
use al_core::TExpr;
use al_rules::{Operand, TypeKind};
use al_source::{CType, Field, Func, RedOp};
use al_type_names::fault::{Fault, ensure};
use al_type_names::known::Callee;
use sqlite_items::{Boxed, Items};
use std::alloc::{AllocError, Global};

const COUNT: Fault = Fault::Kind(TypeKind::Count);

/// Each argument is of the type of its parameter, of which there are as many.
#[tactic(auto, using(crate::proofs::Gathered::gathered))]
fn fitting_all(
    alloc: Global,
    params: &[Field],
    mut args: Queue<Boxed<Operand>>,
) -> Result<Items<TExpr>, Fault>
    ensures { Gives kind_of (spec.fitting_all params.now args) result }
{
    let mut done = Items::new(alloc);
    for param in params {
        let Some(x) = args.take() else {
            return Ok(done);
        };
        done.push(fitting(alloc, &param.ty, x)?.into_inner())?;
    }
    Ok(done)
}

#[tactic(auto, using(crate::proofs::CallCases::called_function))]
fn call_function(
    alloc: Global,
    k: u32,
    f: &Func,
    args: Queue<Boxed<Operand>>,
) -> Result<(Boxed<CType>, Boxed<TExpr>), Fault>
    ensures { Gives kind_of (spec.called (callee.Function k f.now) args) result }
{
    ensure(args.len() == f.params.len(), TypeKind::Count)?;
    let args = fitting_all(alloc, f.params.as_slice(), args)?;
    let ty = Boxed::new(alloc, copy_type(alloc, &f.result)?)?;
    Ok((ty, Boxed::new(alloc, TExpr::Call(k, args))?))
}

fn none(mut args: Queue<Boxed<Operand>>) -> Result<(), Fault>
    ensures { Gives kind_of (arguments.none_of args) result }
{
    match args.take() {
        None => Ok(()),
        Some(_) => Err(COUNT),
    }
}

fn only(mut args: Queue<Boxed<Operand>>) -> Result<Boxed<Operand>, Fault>
    ensures { Gives kind_of (arguments.only_of args) result }
{
    let Some(x) = args.take() else {
        return Err(COUNT);
    };
    match args.take() {
        None => Ok(x),
        Some(_) => Err(COUNT),
    }
}

fn pair(mut args: Queue<Boxed<Operand>>) -> Result<(Boxed<Operand>, Boxed<Operand>), Fault>
    ensures { Gives kind_of (arguments.pair_of args) result }
{
    let Some(x) = args.take() else {
        return Err(COUNT);
    };
    let Some(y) = args.take() else {
        return Err(COUNT);
    };
    match args.take() {
        None => Ok((x, y)),
        Some(_) => Err(COUNT),
    }
}

fn integer_call(alloc: Global, x: TExpr) -> Result<(Boxed<CType>, Boxed<TExpr>), AllocError>
    ensures { IfOk result (λ p. p ≡ (ctype.Int, x)) }
{
    let x = Boxed::new(alloc, x)?;
    Ok((Boxed::new(alloc, CType::Int)?, x))
}

#[tactic(auto, using(crate::proofs::CallCases::called_input))]
fn call_input(
    alloc: Global,
    args: Queue<Boxed<Operand>>,
) -> Result<(Boxed<CType>, Boxed<TExpr>), Fault>
    ensures { Gives kind_of (spec.called callee.Input args) result }
{
    let x = only(args)?;
    let a = integer(alloc, x)?;
    Ok(integer_call(alloc, TExpr::Input(a))?)
}

#[tactic(auto, using(crate::proofs::CallCases::called_inputs))]
fn call_inputs(
    alloc: Global,
    args: Queue<Boxed<Operand>>,
) -> Result<(Boxed<CType>, Boxed<TExpr>), Fault>
    ensures { Gives kind_of (spec.called callee.Inputs args) result }
{
    none(args)?;
    Ok(integer_call(alloc, TExpr::Inputs)?)
}

#[tactic(auto, using(crate::proofs::CallCases::called_choose))]
fn call_choose(
    alloc: Global,
    op: RedOp,
    args: Queue<Boxed<Operand>>,
) -> Result<(Boxed<CType>, Boxed<TExpr>), Fault>
    ensures { Gives kind_of (spec.called (callee.Choose op) args) result }
{
    let (x, y) = pair(args)?;
    let a = integer(alloc, x)?;
    let b = integer(alloc, y)?;
    Ok(integer_call(alloc, TExpr::Choose(op, a, b))?)
}

/// The type and the term of a call (C99 6.5.2.2p2). `Count` of its arguments, and then `Mismatch` of the first that
/// does not fit.
pub fn called(
    alloc: Global,
    f: Callee<'_>,
    args: Queue<Boxed<Operand>>,
) -> Result<(Boxed<CType>, Boxed<TExpr>), Fault>
    ensures { Gives kind_of (spec.called (callee_of f.entry) args) result }
{
    match f {
        Callee::Function(k, f) => call_function(alloc, k, f, args),
        Callee::Input => call_input(alloc, args),
        Callee::Inputs => call_inputs(alloc, args),
        Callee::Choose(op) => call_choose(alloc, op, args),
    }
}

/// The term of a statement that frees what its one operand leads to. `Count` of its operands, and then `Mismatch` where
/// it is no pointer.
#[tactic(auto, using(crate::proofs::CallCases::freed_only))]
pub fn freed(alloc: Global, args: Queue<Boxed<Operand>>) -> Result<Boxed<TExpr>, Fault>
    ensures { Gives kind_of (spec.freed args) result }
{
    let x = only(args)?;
    let (_, a) = pointer(alloc, x)?;
    Ok(Boxed::new(alloc, TExpr::Free(a))?)
}
