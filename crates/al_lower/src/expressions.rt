ghost use Rattle.std.specs.Prelude.{◌≡◌, OnOk};
ghost use Rattle.al_code_laws.specs.Tree.{expr_code, place_code, exprs_code};
ghost use Rattle.al_lower.specs.Emits.{emits};

use crate::backward::Backward;
use crate::heights::{above, raised};
use al_code::Instr;
use al_code_laws::Op;
use al_core::{TExpr, TPlace};
use std::alloc::AllocError;

/// Writes the code of an expression, which leaves its value on a stack of that height.
#[cycle(lowering)]
#[tactic(auto, using(crate::proofs::CodeOf::expr_codes))]
pub fn expr(code: &mut Backward, line: u32, height: u32, e: &TExpr) -> Result<(), AllocError>
    ensures { OnOk result (code.new ≡ emits (expr_code e.now line height) code.old) }
{
    let one = above(height)?;
    match e {
        TExpr::Number(n) => code.put(Op::As(Instr::Push(*n)), line, height),
        TExpr::Local(k) => code.put(Op::As(Instr::GetLocal(*k)), line, height),
        TExpr::Load(want, p) => {
            code.put(Op::As(Instr::Load(*want)), line, one)?;
            place(code, line, height, p.get())
        }
        TExpr::Addr(p) => place(code, line, height, p.get()),
        TExpr::Unary(op, a) => {
            code.put(Op::As(Instr::Unary(*op)), line, one)?;
            expr(code, line, height, a.get())
        }
        TExpr::Binary(op, a, b) => {
            code.put(Op::As(Instr::Binary(*op)), line, above(one)?)?;
            expr(code, line, one, b.get())?;
            expr(code, line, height, a.get())
        }
        TExpr::Same(equal, a, b) => {
            code.put(Op::As(Instr::Same(*equal)), line, above(one)?)?;
            expr(code, line, one, b.get())?;
            expr(code, line, height, a.get())
        }
        TExpr::And(a, b) => {
            let end = code.len();
            code.put(Op::As(Instr::Push(0)), line, height)?;
            let answer = code.len();
            code.put(Op::JumpTo(end), line, one)?;
            code.put(Op::As(Instr::Truth), line, one)?;
            expr(code, line, height, b.get())?;
            code.put(Op::JumpIfTo(false, answer), line, one)?;
            expr(code, line, height, a.get())
        }
        TExpr::Or(a, b) => {
            let end = code.len();
            code.put(Op::As(Instr::Push(1)), line, height)?;
            let answer = code.len();
            code.put(Op::JumpTo(end), line, one)?;
            code.put(Op::As(Instr::Truth), line, one)?;
            expr(code, line, height, b.get())?;
            code.put(Op::JumpIfTo(true, answer), line, one)?;
            expr(code, line, height, a.get())
        }
        TExpr::Call(f, args) => {
            code.put(
                Op::CallOf(*f, args.len()),
                line,
                raised(height, args.len())?,
            )?;
            exprs(code, line, height, args.as_slice())
        }
        TExpr::Input(a) => {
            code.put(Op::As(Instr::Input), line, one)?;
            expr(code, line, height, a.get())
        }
        TExpr::Inputs => code.put(Op::As(Instr::Inputs), line, height),
        TExpr::Choose(op, a, b) => {
            code.put(Op::As(Instr::Choose(*op)), line, above(one)?)?;
            expr(code, line, one, b.get())?;
            expr(code, line, height, a.get())
        }
        TExpr::Calloc(a, size) => {
            code.put(Op::As(Instr::Calloc(*size)), line, one)?;
            expr(code, line, height, a.get())
        }
        TExpr::Free(a) => {
            code.put(Op::As(Instr::Free), line, one)?;
            expr(code, line, height, a.get())
        }
    }
}

/// Writes the code of expressions, each of which leaves its value on those before it.
#[cycle(lowering)]
#[tactic(auto, using(crate::proofs::CodeOf::expr_codes))]
pub fn exprs(code: &mut Backward, line: u32, height: u32, es: &[TExpr]) -> Result<(), AllocError>
    ensures { OnOk result (code.new ≡ emits (exprs_code es.now line height) code.old) }
{
    let mut left = es.len();
    while left > 0 {
        left -= 1;
        expr(code, line, raised(height, left)?, &es[left])?;
    }
    Ok(())
}

/// Writes the code of a place, which leaves a pointer to it.
#[cycle(lowering)]
#[tactic(auto, using(crate::proofs::CodeOf::expr_codes))]
pub fn place(code: &mut Backward, line: u32, height: u32, p: &TPlace) -> Result<(), AllocError>
    ensures { OnOk result (code.new ≡ emits (place_code p.now line height) code.old) }
{
    let one = above(height)?;
    match p {
        TPlace::Global(k) => code.put(Op::As(Instr::Global(*k)), line, height),
        TPlace::At(e) => {
            code.put(Op::As(Instr::NotNull), line, one)?;
            expr(code, line, height, e)
        }
        TPlace::Plus(p, n) => {
            code.put(Op::As(Instr::Plus(*n)), line, one)?;
            place(code, line, height, p.get())
        }
        TPlace::Elem(p, e, size) => {
            code.put(Op::As(Instr::Elem(*size)), line, above(one)?)?;
            expr(code, line, one, e)?;
            place(code, line, height, p.get())
        }
    }
}
