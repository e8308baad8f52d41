//! What a statement does with variables and functions: one walk over it lists that in source order, and each question
//! about it is a question about the list.

ghost use Rattle.std.specs.Prelude.{◌≡◌, [], ◌∷◌, ◌++◌, map, IfOk, OnOk};
ghost use Rattle.std.specs.List.{flat_map};
ghost use Rattle.al_loop_notes.specs.declared.uses.Use.TheVariants as variants;
ghost use Rattle.al_loop_notes.specs.Uses as spec;

use al_core::{TExpr, TFunc, TKind, TPlace, TStmt, Typed};
use sqlite_items::{Boxed, Items};
use std::alloc::{AllocError, Global};

/// A use of a variable or a function by its number, or a `return`.
#[derive(Clone, Copy, Debug, PartialEq, Eq)]
pub enum Use {
    /// An expression reads a local.
    Local(u32),
    /// A place lies in a global.
    Global(u32),
    /// The address of a place in a global is taken.
    Address(u32),
    /// A function is called.
    Call(u32),
    /// A statement sets or updates a local.
    Set(u32),
    Return,
}

/// A program, with the uses of each of its functions.
#[derive(Clone, Copy)]
pub struct Program<'a> {
    pub typed: &'a Typed,
    pub uses: &'a [Items<Use>],
}

#[cycle(expressions)]
#[tactic(auto, using(crate::proofs::Nodes::exprs), unfolding(crate::specs::Uses::uses, crate::specs::Uses::uses_at))]
fn in_expr(e: &TExpr, out: &mut Items<Use>) -> Result<(), AllocError>
    ensures { OnOk result (out.new ≡ out.old ++ spec.uses e.now) }
{
    match e {
        TExpr::Number(_) | TExpr::Inputs => Ok(()),
        TExpr::Local(k) => out.push(Use::Local(*k)),
        TExpr::Load(_, p) => in_loaded(p.get(), out),
        TExpr::Addr(p) => in_address(p.get(), out),
        TExpr::Unary(_, x) | TExpr::Input(x) | TExpr::Calloc(x, _) | TExpr::Free(x) => {
            in_expr(x.get(), out)
        }
        TExpr::Binary(_, x, y) | TExpr::Same(_, x, y) | TExpr::Choose(_, x, y) => {
            in_expr(x.get(), out)?;
            in_expr(y.get(), out)?;
            Ok(())
        }
        TExpr::And(x, y) | TExpr::Or(x, y) => {
            in_expr(x.get(), out)?;
            in_expr(y.get(), out)?;
            Ok(())
        }
        TExpr::Call(f, xs) => in_call(*f, xs.as_slice(), out),
    }
}

#[cycle(expressions)]
fn in_call(f: u32, xs: &[TExpr], out: &mut Items<Use>) -> Result<(), AllocError>
    ensures { OnOk result (out.new ≡ out.old ++ (variants.Call f ∷ flat_map spec.uses xs.now)) }
{
    out.push(Use::Call(f))?;
    in_exprs(xs, out)?;
    Ok(())
}

#[cycle(expressions)]
fn in_loaded(p: &TPlace, out: &mut Items<Use>) -> Result<(), AllocError>
    ensures { OnOk result (out.new ≡ out.old ++ (spec.uses_at p.now).1) }
{
    in_place(p, out)?;
    Ok(())
}

#[cycle(expressions)]
fn in_address(p: &TPlace, out: &mut Items<Use>) -> Result<(), AllocError>
    ensures { OnOk result (out.new ≡ out.old ++ (spec.uses_at p.now).1 ++ spec.address_in (spec.uses_at p.now).0) }
{
    match in_place(p, out)? {
        Some(k) => out.push(Use::Address(k)),
        None => Ok(()),
    }
}

/// Adds the uses that forming a place makes, and gives the global in which the place lies, if it lies in one.
#[cycle(expressions)]
#[tactic(auto, using(crate::proofs::Nodes::exprs), unfolding(crate::specs::Uses::uses, crate::specs::Uses::uses_at))]
fn in_place(p: &TPlace, out: &mut Items<Use>) -> Result<Option<u32>, AllocError>
    ensures global { IfOk result (λ global. global ≡ (spec.uses_at p.now).0) }
    ensures uses { OnOk result (out.new ≡ out.old ++ (spec.uses_at p.now).1) }
{
    match p {
        TPlace::Global(k) => {
            out.push(Use::Global(*k))?;
            Ok(Some(*k))
        }
        TPlace::At(x) => {
            in_expr(x, out)?;
            Ok(None)
        }
        TPlace::Plus(p, _) => in_place(p.get(), out),
        TPlace::Elem(p, x, _) => {
            let global = in_place(p.get(), out)?;
            in_expr(x, out)?;
            Ok(global)
        }
    }
}

#[cycle(expressions)]
fn in_exprs(es: &[TExpr], out: &mut Items<Use>) -> Result<(), AllocError>
    ensures { OnOk result (out.new ≡ out.old ++ flat_map spec.uses es.now) }
{
    for e in es {
        in_expr(e, out)?;
    }
    Ok(())
}

fn in_test(e: &Option<TExpr>, out: &mut Items<Use>) -> Result<(), AllocError>
    ensures { OnOk result (out.new ≡ out.old ++ spec.any_uses e.now) }
{
    match e {
        Some(e) => in_expr(e, out),
        None => Ok(()),
    }
}

fn in_store(p: &TPlace, e: &TExpr, out: &mut Items<Use>) -> Result<(), AllocError>
    ensures { OnOk result (out.new ≡ out.old ++ (spec.uses_at p.now).1 ++ spec.uses e.now) }
{
    in_place(p, out)?;
    in_expr(e, out)?;
    Ok(())
}

fn in_setting(k: u32, e: &TExpr, out: &mut Items<Use>) -> Result<(), AllocError>
    ensures { OnOk result (out.new ≡ out.old ++ (variants.Set k ∷ spec.uses e.now)) }
{
    out.push(Use::Set(k))?;
    in_expr(e, out)?;
    Ok(())
}

/// Adds the uses of a statement.
#[cycle(statements)]
#[tactic(auto, using(crate::proofs::StmtNodes::stmt_nodes), unfolding(crate::specs::Uses::stmt_uses))]
fn in_stmt(s: &TStmt, out: &mut Items<Use>) -> Result<(), AllocError>
    ensures { OnOk result (out.new ≡ out.old ++ spec.stmt_uses s.now) }
{
    match &s.kind {
        TKind::Empty | TKind::Break | TKind::Continue => Ok(()),
        TKind::SetLocal(k, e) => in_setting(*k, e, out),
        TKind::UpdateLocal(_, k, e) => in_setting(*k, e, out),
        TKind::Call(e) => in_expr(e, out),
        TKind::Store(p, e) => in_store(p, e, out),
        TKind::UpdateAt(_, p, e) => in_store(p, e, out),
        TKind::Print(_, es) => in_exprs(es.as_slice(), out),
        TKind::If(e, a, b) => {
            in_expr(e, out)?;
            in_stmt(a.get(), out)?;
            in_part(b, out)?;
            Ok(())
        }
        TKind::While(e, a) => {
            in_expr(e, out)?;
            in_stmt(a.get(), out)?;
            Ok(())
        }
        TKind::For(first, test, third, body, _) => {
            in_part(first, out)?;
            in_test(test, out)?;
            in_part(third, out)?;
            in_stmt(body.get(), out)?;
            Ok(())
        }
        TKind::Block(ss) => in_stmts(ss.as_slice(), out),
        TKind::Return(e) => {
            out.push(Use::Return)?;
            in_test(e, out)?;
            Ok(())
        }
    }
}

#[cycle(statements)]
fn in_part(s: &Option<Boxed<TStmt>>, out: &mut Items<Use>) -> Result<(), AllocError>
    ensures { OnOk result (out.new ≡ out.old ++ spec.part_uses s.now) }
{
    match s {
        Some(s) => in_stmt(s.get(), out),
        None => Ok(()),
    }
}

#[cycle(statements)]
fn in_stmts(ss: &[TStmt], out: &mut Items<Use>) -> Result<(), AllocError>
    ensures { OnOk result (out.new ≡ out.old ++ flat_map spec.stmt_uses ss.now) }
{
    for s in ss {
        in_stmt(s, out)?;
    }
    Ok(())
}

/// The uses of a statement, in source order.
pub fn uses_of(alloc: Global, s: &TStmt) -> Result<Items<Use>, AllocError>
    ensures { IfOk result (λ uses. uses ≡ spec.stmt_uses s.now) }
{
    let mut out = Items::new(alloc);
    in_stmt(s, &mut out)?;
    Ok(out)
}

fn func_uses(alloc: Global, f: &TFunc) -> Result<Items<Use>, AllocError>
    ensures { IfOk result (λ uses. uses ≡ spec.func_uses f.now) }
{
    let mut out = Items::new(alloc);
    in_stmts(f.body.as_slice(), &mut out)?;
    Ok(out)
}

/// The uses of each function of the program.
pub fn program_uses(alloc: Global, typed: &Typed) -> Result<Items<Items<Use>>, AllocError>
    ensures { IfOk result (λ uses. uses ≡ map spec.func_uses typed.now.funcs) }
{
    let mut all = Items::new(alloc);
    for f in typed.funcs.as_slice() {
        all.push(func_uses(alloc, f)?)?;
    }
    Ok(all)
}
