ghost use Rattle.std.specs.Prelude.{◌≡◌, option_map};
ghost use Rattle.std.specs.List.{list_any, list_all};
ghost use Rattle.al_core.specs.Accepted as spec;
ghost use Rattle.al_core.specs.declared.typed_tree.TExpr.{out-TExpr};
ghost use Rattle.al_core.specs.Loops.{start_of, start_in};
ghost use Rattle.al_core.specs.declared.typed_tree.TKind.{out-TKind};
ghost use Rattle.al_core.specs.declared.typed_tree.TPlace.{out-TPlace};
ghost use Rattle.al_rules.specs.Bodies as bodies;

use crate::mentions::{self, is_global, is_local};
use al_core::{Addr, BinOp, Kind, RedOp, TExpr, TKind, TPlace, TStmt};
use sqlite_items::Boxed;

/// Whether `s op= e` updates by the operator.
fn updates_by(op: RedOp, by: BinOp) -> bool
    ensures { result ≡ spec.updates_by op by }
{
    match (op, by) {
        (RedOp::Add, BinOp::Add) => true,
        (RedOp::Mul, BinOp::Mul) => true,
        (RedOp::BitAnd, BinOp::BitAnd) => true,
        (RedOp::BitOr, BinOp::BitOr) => true,
        (RedOp::BitXor, BinOp::BitXor) => true,
        _ => false,
    }
}

/// Whether `s = by(s, e)` updates by the operator.
fn chooses_by(op: RedOp, by: RedOp) -> bool
    ensures { result ≡ spec.chooses_by op by }
{
    match (op, by) {
        (RedOp::Min, RedOp::Min) => true,
        (RedOp::Max, RedOp::Max) => true,
        _ => false,
    }
}

#[tactic(auto, using(al_core::specs::declared::typed_tree::TPlace::the_lemmas))]
fn is_place(op: RedOp, a: Addr, p: &TPlace) -> bool
    ensures { result ≡ spec.is_place op a (out-TPlace p.now) }
{
    match p {
        TPlace::Global(k) => is_global(a, *k),
        _ => false,
    }
}

#[tactic(auto, using(al_core::specs::declared::typed_tree::TExpr::the_lemmas))]
fn is_variable(op: RedOp, a: Addr, e: &TExpr) -> bool
    ensures { result ≡ spec.is_variable op a (out-TExpr e.now) }
{
    match e {
        TExpr::Local(k) => is_local(a, *k),
        TExpr::Load(Kind::Int, p) => is_place(op, a, p.get()),
        _ => false,
    }
}

#[tactic(auto, using(al_core::specs::declared::typed_tree::TExpr::the_lemmas))]
fn is_choice(op: RedOp, a: Addr, e: &TExpr) -> bool
    ensures { result ≡ spec.is_choice op a (out-TExpr e.now) }
{
    match e {
        TExpr::Choose(by, x, y) => {
            chooses_by(op, *by) && is_variable(op, a, x.get()) && !mentions::in_expr(a, y.get())
        }
        _ => false,
    }
}

fn is_update(op: RedOp, a: Addr, by: BinOp, e: &TExpr) -> bool
    ensures { result ≡ spec.is_update op a by e.now }
{
    updates_by(op, by) && !mentions::in_expr(a, e)
}

#[tactic(auto, using(al_core::specs::declared::typed_tree::TKind::the_lemmas))]
fn sets_other(op: RedOp, a: Addr, line: u32, k: &TKind) -> bool
    ensures { result ≡ spec.starts_other op a (start_in line (out-TKind k.now)) }
{
    match k {
        TKind::SetLocal(k, _) => !is_local(a, *k),
        _ => true,
    }
}

fn starts_other(op: RedOp, a: Addr, first: &Option<Boxed<TStmt>>) -> bool
    ensures { result ≡ spec.starts_other op a (start_of first.now) }
{
    match first {
        Some(s) => sets_other(op, a, s.get().line, &s.get().kind),
        None => true,
    }
}

/// Whether the loop is not annotated, or its first part sets no reduction variable.
fn is_plain_start(op: RedOp, a: Addr, number: Option<u32>, first: &Option<Boxed<TStmt>>) -> bool
    ensures { result ≡ spec.is_plain_start op a number (option_map (λ s. (s, spec.only_updates op a s)) first.now) }
{
    match number {
        Some(_) => starts_other(op, a, first),
        None => true,
    }
}

/// Whether the statement mentions the variable in nothing but its updates by the operator.
#[cycle(only)]
#[tactic(auto, using(crate::proofs::ParaNodes::para_nodes), unfolding(al_core::specs::Accepted::only_updates))]
pub fn only_updates(op: RedOp, a: Addr, s: &TStmt) -> bool
    ensures { result ≡ spec.only_updates op a s.now }
{
    match &s.kind {
        TKind::Empty | TKind::Break | TKind::Continue => true,
        TKind::SetLocal(k, e) => {
            if is_local(a, *k) {
                is_choice(op, a, e)
            } else {
                !mentions::in_expr(a, e)
            }
        }
        TKind::Store(p, e) => {
            if is_place(op, a, p) {
                is_choice(op, a, e)
            } else {
                !mentions::in_place(a, p) && !mentions::in_expr(a, e)
            }
        }
        TKind::UpdateLocal(by, k, e) => {
            if is_local(a, *k) {
                is_update(op, a, *by, e)
            } else {
                !mentions::in_expr(a, e)
            }
        }
        TKind::UpdateAt(by, p, e) => {
            if is_place(op, a, p) {
                is_update(op, a, *by, e)
            } else {
                !mentions::in_place(a, p) && !mentions::in_expr(a, e)
            }
        }
        TKind::Call(e) => !mentions::in_expr(a, e),
        TKind::Print(_, es) => !mentions::in_exprs(a, es.as_slice()),
        TKind::If(e, s, t) => {
            !mentions::in_expr(a, e) && only_updates(op, a, s.get()) && part_only_updates(op, a, t)
        }
        TKind::While(e, s) => !mentions::in_expr(a, e) && only_updates(op, a, s.get()),
        TKind::For(first, test, third, body, number) => {
            is_plain_start(op, a, *number, first)
                && part_only_updates(op, a, first)
                && !mentions::in_test(a, test)
                && part_only_updates(op, a, third)
                && only_updates(op, a, body.get())
        }
        TKind::Block(ss) => all_only_update(op, a, ss.as_slice()),
        TKind::Return(e) => !mentions::in_test(a, e),
    }
}

#[cycle(only)]
fn part_only_updates(op: RedOp, a: Addr, s: &Option<Boxed<TStmt>>) -> bool
    ensures { result ≡ spec.if_only op a (option_map (λ s. (s, spec.only_updates op a s)) s.now) }
{
    match s {
        Some(s) => only_updates(op, a, s.get()),
        None => true,
    }
}

#[cycle(only)]
fn all_only_update(op: RedOp, a: Addr, ss: &[TStmt]) -> bool
    ensures { result ≡ list_all (spec.only_updates op a) ss.now }
{
    for s in ss {
        if !only_updates(op, a, s) {
            return false;
        }
    }
    true
}

/// Whether the variable is updated by the operator in the statement.
#[cycle(updates)]
#[tactic(auto, using(crate::proofs::StmtNodes::stmt_nodes), unfolding(al_rules::specs::Bodies::has_update))]
pub fn has_update(op: RedOp, a: Addr, s: &TStmt) -> bool
    ensures { result ≡ bodies.has_update op a s.now }
{
    match &s.kind {
        TKind::SetLocal(n, e) => is_local(a, *n) && is_choice(op, a, e),
        TKind::Store(p, e) => is_place(op, a, p) && is_choice(op, a, e),
        TKind::UpdateLocal(by, n, e) => is_local(a, *n) && is_update(op, a, *by, e),
        TKind::UpdateAt(by, p, e) => is_place(op, a, p) && is_update(op, a, *by, e),
        TKind::If(_, s, t) => has_update(op, a, s.get()) || part_updates(op, a, t),
        TKind::While(_, s) => has_update(op, a, s.get()),
        TKind::For(first, _, third, body, _) => {
            part_updates(op, a, first)
                || part_updates(op, a, third)
                || has_update(op, a, body.get())
        }
        TKind::Block(ss) => any_updates(op, a, ss.as_slice()),
        _ => false,
    }
}

#[cycle(updates)]
fn part_updates(op: RedOp, a: Addr, s: &Option<Boxed<TStmt>>) -> bool
    ensures { result ≡ bodies.if_any (option_map (bodies.has_update op a) s.now) }
{
    match s {
        Some(s) => has_update(op, a, s.get()),
        None => false,
    }
}

#[cycle(updates)]
fn any_updates(op: RedOp, a: Addr, ss: &[TStmt]) -> bool
    ensures { result ≡ list_any (bodies.has_update op a) ss.now }
{
    for s in ss {
        if has_update(op, a, s) {
            return true;
        }
    }
    false
}
