//! Whether an expression or a place mentions a variable.

ghost use Rattle.std.specs.Prelude.{◌≡◌};
ghost use Rattle.std.specs.List.{list_any};
ghost use Rattle.al_core.specs.Accepted as spec;

use al_core::{Addr, Obj, TExpr, TPlace};

/// Whether the variable is the local of that number.
pub fn is_local(a: Addr, k: u32) -> bool
    ensures { result ≡ spec.is_local a k }
{
    match a {
        Addr::Local(j) => j == k,
        _ => false,
    }
}

/// Whether the variable is the global of that number.
pub fn is_global(a: Addr, k: u32) -> bool
    ensures { result ≡ spec.is_global a k }
{
    match a {
        Addr::Word(Obj::Global(j), _) => j == k,
        _ => false,
    }
}

#[cycle(expressions)]
#[tactic(auto, using(crate::proofs::MentionNodes::mention_nodes))]
pub fn in_expr(a: Addr, e: &TExpr) -> bool
    ensures { result ≡ spec.mentions a e.now }
{
    match e {
        TExpr::Number(_) | TExpr::Inputs => false,
        TExpr::Local(k) => is_local(a, *k),
        TExpr::Load(_, p) | TExpr::Addr(p) => in_place(a, p.get()),
        TExpr::Unary(_, x) | TExpr::Input(x) | TExpr::Calloc(x, _) | TExpr::Free(x) => {
            in_expr(a, x.get())
        }
        TExpr::Binary(_, x, y) | TExpr::Same(_, x, y) | TExpr::Choose(_, x, y) => in_expr(
            a,
            x.get(),
        ) || in_expr(a, y.get()),
        TExpr::And(x, y) | TExpr::Or(x, y) => in_expr(a, x.get()) || in_expr(a, y.get()),
        TExpr::Call(_, xs) => in_exprs(a, xs.as_slice()),
    }
}

#[cycle(expressions)]
#[tactic(auto, using(crate::proofs::MentionNodes::mention_nodes))]
pub fn in_place(a: Addr, p: &TPlace) -> bool
    ensures { result ≡ spec.mentions_at a p.now }
{
    match p {
        TPlace::Global(k) => is_global(a, *k),
        TPlace::At(x) => in_expr(a, x),
        TPlace::Plus(p, _) => in_place(a, p.get()),
        TPlace::Elem(p, x, _) => in_place(a, p.get()) || in_expr(a, x),
    }
}

#[cycle(expressions)]
pub fn in_exprs(a: Addr, es: &[TExpr]) -> bool
    ensures { result ≡ list_any (spec.mentions a) es.now }
{
    for e in es {
        if in_expr(a, e) {
            return true;
        }
    }
    false
}

pub fn in_test(a: Addr, e: &Option<TExpr>) -> bool
    ensures { result ≡ spec.any_mentions a e.now }
{
    match e {
        Some(e) => in_expr(a, e),
        None => false,
    }
}
