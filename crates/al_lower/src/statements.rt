ghost use Rattle.std.specs.Prelude.{◌≡◌, ◌<◌, ◌∷◌, length, Some, OnOk};
ghost use Rattle.al_core.specs.declared.values.Kind.TheVariants as kind;
ghost use Rattle.al_code.specs.declared.instructions.Instr.TheVariants as i;
ghost use Rattle.al_code_laws.specs.declared.plan.Op.TheVariants.{As, PrintOf};
ghost use Rattle.al_code_laws.specs.Planned.{planned, one, ◌⨟◌};
ghost use Rattle.al_code_laws.specs.Tree.{expr_code, exprs_code, place_code, test_code, result_code, stmt_code, code_of_kind, stmts_code};
ghost use Rattle.al_lower.specs.Emits.{emits, part_code, led_to, headed};

use crate::backward::Backward;
use crate::expressions::{expr, exprs, place};
use crate::heights::raised;
use crate::parts::{bound_of, start_of};
use al_code::Instr;
use al_code_laws::Op;
use al_core::{BinOp, Format, Kind, TExpr, TKind, TPlace, TStmt};
use sqlite_items::{Boxed, Items};
use std::alloc::AllocError;

/// `x = e` of a local.
#[tactic(auto, using(crate::proofs::KindsOf::kind_codes))]
fn set_local(code: &mut Backward, line: u32, k: u32, e: &TExpr) -> Result<(), AllocError>
    ensures { OnOk result (code.new ≡ emits (expr_code e.now line 0 ⨟ one (As (i.SetLocal k)) line 1) code.old) }
{
    code.put(Op::As(Instr::SetLocal(k)), line, 1)?;
    expr(code, line, 0, e)
}

/// `p = e` of a place, which is formed first.
#[tactic(auto, using(crate::proofs::KindsOf::kind_codes))]
fn store(code: &mut Backward, line: u32, to: &TPlace, value: &TExpr) -> Result<(), AllocError>
    ensures { OnOk result
        (code.new ≡ emits
        (place_code to.now line 0 ⨟ (expr_code value.now line 1 ⨟ one (As i.Store) line 2))
        code.old) }
{
    code.put(Op::As(Instr::Store), line, 2)?;
    expr(code, line, 1, value)?;
    place(code, line, 0, to)
}

/// `x op= e` of a local.
#[tactic(auto, using(crate::proofs::KindsOf::update_codes))]
fn update_local(
    code: &mut Backward,
    line: u32,
    op: BinOp,
    k: u32,
    e: &TExpr,
) -> Result<(), AllocError>
    ensures { OnOk result
        (code.new ≡ emits
        (one (As (i.GetLocal k)) line 0
        ⨟ (expr_code e.now line 1 ⨟ (one (As (i.Binary op)) line 2 ⨟ one (As (i.SetLocal k)) line 1)))
        code.old) }
{
    code.put(Op::As(Instr::SetLocal(k)), line, 1)?;
    code.put(Op::As(Instr::Binary(op)), line, 2)?;
    expr(code, line, 1, e)?;
    code.put(Op::As(Instr::GetLocal(k)), line, 0)?;
    Ok(())
}

/// `p op= e` of a place, which is formed once.
#[tactic(auto, using(crate::proofs::KindsOf::update_codes))]
fn update_at(
    code: &mut Backward,
    line: u32,
    op: BinOp,
    p: &TPlace,
    e: &TExpr,
) -> Result<(), AllocError>
    ensures { OnOk result
        (code.new ≡ emits
        (place_code p.now line 0
        ⨟ (one (As i.Dup) line 1
        ⨟ (one (As (i.Load kind.Int)) line 2
        ⨟ (expr_code e.now line 2 ⨟ (one (As (i.Binary op)) line 3 ⨟ one (As i.Store) line 2)))))
        code.old) }
{
    code.put(Op::As(Instr::Store), line, 2)?;
    code.put(Op::As(Instr::Binary(op)), line, 3)?;
    expr(code, line, 2, e)?;
    code.put(Op::As(Instr::Load(Kind::Int)), line, 2)?;
    code.put(Op::As(Instr::Dup), line, 1)?;
    place(code, line, 0, p)
}

/// A call as a statement.
#[tactic(auto, using(crate::proofs::KindsOf::kind_codes))]
fn call(code: &mut Backward, line: u32, e: &TExpr) -> Result<(), AllocError>
    ensures { OnOk result (code.new ≡ emits (expr_code e.now line 0 ⨟ one (As i.Drop) line 1) code.old) }
{
    code.put(Op::As(Instr::Drop), line, 1)?;
    expr(code, line, 0, e)
}

/// `return`, of 0 where it has no value.
#[tactic(auto, using(crate::proofs::KindsOf::kind_codes))]
fn give_back(code: &mut Backward, line: u32, e: &Option<TExpr>) -> Result<(), AllocError>
    ensures { OnOk result (code.new ≡ emits (result_code e.now line ⨟ one (As i.Return) line 1) code.old) }
{
    code.put(Op::As(Instr::Return), line, 1)?;
    match e {
        Some(e) => expr(code, line, 0, e),
        None => code.put(Op::As(Instr::Push(0)), line, 0),
    }
}

/// A loop's test, which leads past the loop where it fails. An absent one holds.
#[tactic(auto, using(crate::proofs::KindsOf::kind_codes))]
fn test(code: &mut Backward, line: u32, e: &Option<TExpr>, end: usize) -> Result<(), AllocError>
    ensures { OnOk result (code.new ≡ emits (test_code e.now line end) code.old) }
{
    match e {
        Some(e) => {
            code.put(Op::JumpIfTo(false, end), line, 1)?;
            expr(code, line, 0, e)
        }
        None => Ok(()),
    }
}

/// The step and the test at the head of a `while`.
fn while_head(code: &mut Backward, line: u32, e: &TExpr, end: usize) -> Result<(), AllocError>
    requires { end < length code.old }
    ensures { OnOk result (code.new ≡ headed line (Some e.now) end code.old) }
{
    code.put(Op::JumpIfTo(false, end), line, 1)?;
    expr(code, line, 0, e)?;
    lead(code, line, end)?;
    Ok(())
}

/// The step at a loop's head, to which the jump at its end is led.
fn lead(code: &mut Backward, line: u32, end: usize) -> Result<(), AllocError>
    requires { end < length code.old }
    ensures { OnOk result (code.new ≡ led_to line end (planned (As i.Step) line 0 ∷ code.old)) }
{
    code.put(Op::As(Instr::Step), line, 0)?;
    let head = code.len();
    code.replace(end, Op::JumpTo(head), line, 0);
    Ok(())
}

/// The step and the test at a loop's head.
fn head(code: &mut Backward, line: u32, e: &Option<TExpr>, end: usize) -> Result<(), AllocError>
    requires { end < length code.old }
    ensures { OnOk result (code.new ≡ headed line e.now end code.old) }
{
    test(code, line, e, end)?;
    lead(code, line, end)
}

/// `printf`.
#[tactic(auto, using(crate::proofs::KindsOf::kind_codes))]
fn print(
    code: &mut Backward,
    line: u32,
    format: &Format,
    es: &Items<TExpr>,
) -> Result<(), AllocError>
    ensures { OnOk result
        (code.new ≡ emits
        (exprs_code es.now line 0 ⨟ one (PrintOf format.now (length es.now)) line (length es.now))
        code.old) }
{
    code.put_print(format, es.len(), line, raised(0, es.len())?)?;
    exprs(code, line, 0, es.as_slice())
}

/// Writes the code of a statement, by where `break` and `continue` lead.
#[cycle(statements)]
#[tactic(auto, using(crate::proofs::KindsOf::kind_codes))]
pub fn stmt(
    code: &mut Backward,
    s: &TStmt,
    out: Option<usize>,
    cont: usize,
) -> Result<(), AllocError>
    ensures { OnOk result (code.new ≡ emits (stmt_code s.now out cont) code.old) }
{
    kind(code, s.line, &s.kind, out, cont)?;
    code.put(Op::As(Instr::Step), s.line, 0)
}

/// Writes the code of statements.
#[cycle(statements)]
#[tactic(auto, using(crate::proofs::KindsOf::kind_codes))]
pub fn stmts(
    code: &mut Backward,
    ss: &[TStmt],
    out: Option<usize>,
    cont: usize,
) -> Result<(), AllocError>
    ensures { OnOk result (code.new ≡ emits (stmts_code ss.now out cont) code.old) }
{
    let mut left = ss.len();
    while left > 0 {
        left -= 1;
        stmt(code, &ss[left], out, cont)?;
    }
    Ok(())
}

/// Writes the code of a part that may be absent.
#[cycle(statements)]
#[tactic(auto, using(crate::proofs::KindsOf::kind_codes))]
fn part(
    code: &mut Backward,
    s: &Option<Boxed<TStmt>>,
    out: Option<usize>,
    cont: usize,
) -> Result<(), AllocError>
    ensures { OnOk result (code.new ≡ emits (part_code s.now out cont) code.old) }
{
    match s {
        Some(s) => stmt(code, s.get(), out, cont),
        None => Ok(()),
    }
}

/// Writes the code of a kind of statement.
#[cycle(statements)]
#[tactic(auto, using(crate::proofs::KindsOf::kind_codes))]
fn kind(
    code: &mut Backward,
    line: u32,
    k: &TKind,
    out: Option<usize>,
    cont: usize,
) -> Result<(), AllocError>
    ensures { OnOk result (code.new ≡ emits (code_of_kind k.now line out cont) code.old) }
{
    match k {
        TKind::Empty => Ok(()),
        TKind::SetLocal(k, e) => set_local(code, line, *k, e),
        TKind::Store(p, e) => store(code, line, p, e),
        TKind::UpdateLocal(op, k, e) => update_local(code, line, *op, *k, e),
        TKind::UpdateAt(op, p, e) => update_at(code, line, *op, p, e),
        TKind::Call(e) => call(code, line, e),
        TKind::Print(format, es) => print(code, line, format, es),
        TKind::If(e, a, b) => {
            let end = code.len();
            match b {
                Some(b) => {
                    stmt(code, b.get(), out, cont)?;
                    let second = code.len();
                    code.put(Op::JumpTo(end), line, 0)?;
                    stmt(code, a.get(), out, cont)?;
                    code.put(Op::JumpIfTo(false, second), line, 1)?;
                    expr(code, line, 0, e)?;
                    Ok(())
                }
                None => {
                    stmt(code, a.get(), out, cont)?;
                    code.put(Op::JumpIfTo(false, end), line, 1)?;
                    expr(code, line, 0, e)
                }
            }
        }
        TKind::While(e, a) => {
            let end = code.len();
            code.put(Op::JumpTo(0), line, 0)?;
            let next = code.len();
            stmt(code, a.get(), Some(end), next)?;
            while_head(code, line, e, end)?;
            Ok(())
        }
        TKind::For(first, test, third, body, number) => match number {
            None => {
                let end = code.len();
                code.put(Op::JumpTo(0), line, 0)?;
                part(code, third, out, cont)?;
                let next = code.len();
                stmt(code, body.get(), Some(end), next)?;
                head(code, line, test, end)?;
                part(code, first, out, cont)?;
                Ok(())
            }
            Some(number) => {
                let Some(start) = start_of(first) else {
                    return Ok(());
                };
                let after = code.len();
                code.put(Op::EndOf(*number), line, 0)?;
                let next = code.len();
                stmt(code, body.get(), None, next)?;
                let bound = bound_of(test);
                code.put(Op::LoopTo(*number, start.counter, bound, after), line, 1)?;
                expr(code, start.line, 0, start.value)?;
                Ok(())
            }
        },
        TKind::Block(ss) => stmts(code, ss.as_slice(), out, cont),
        TKind::Return(e) => give_back(code, line, e),
        TKind::Break => match out {
            Some(out) => code.put(Op::JumpTo(out), line, 0),
            None => code.put(Op::Never, line, 0),
        },
        TKind::Continue => code.put(Op::JumpTo(cont), line, 0),
    }
}
