//! The form of an annotated loop: `for (i = lo; i < bound; i += 1)`, where `i` is an integer local and the bound a
//! number or another integer local.

ghost use Rattle.std.specs.Prelude.{◌≡◌, option_map};
ghost use Rattle.std.specs.Option.{option_copied};
ghost use Rattle.al_core.specs.declared.typed_tree.TExpr.{out-TExpr};
ghost use Rattle.al_core.specs.declared.typed_tree.TKind.{out-TKind};
ghost use Rattle.al_core.specs.LoopsInPlace.{loop_of};
ghost use Rattle.al_rules.specs.ForLoops as spec;

use al_core::{BinOp, Bound, ForLoop, Kind, TExpr, TKind, TLocal, TStmt};

/// Whether the local of that number is an integer.
pub fn is_integer(locals: &[TLocal], n: u32) -> bool
    ensures { result ≡ spec.is_integer locals.now n }
{
    match sqlite_items::at(locals, n as usize) {
        Some(local) => local.kind == Kind::Int,
        None => false,
    }
}

#[tactic(auto, using(al_core::specs::declared::typed_tree::TKind::the_lemmas))]
fn counter_in(locals: &[TLocal], k: &TKind) -> Option<u32>
    ensures { result ≡ spec.counter_in locals.now (out-TKind k.now) }
{
    match k {
        TKind::SetLocal(n, _) if is_integer(locals, *n) => Some(*n),
        _ => None,
    }
}

fn counter(locals: &[TLocal], first: Option<&TStmt>) -> Option<u32>
    ensures { result ≡ spec.counter_of locals.now (option_copied first.entry) }
{
    match first {
        Some(s) => counter_in(locals, &s.kind),
        None => None,
    }
}

#[tactic(auto, using(al_core::specs::declared::typed_tree::TExpr::the_lemmas))]
fn bound_in(locals: &[TLocal], counter: u32, e: &TExpr) -> Option<Bound>
    ensures { result ≡ spec.bound_in locals.now counter (out-TExpr e.now) }
{
    match e {
        TExpr::Number(n) => Some(Bound::Number(*n)),
        TExpr::Local(n) if is_integer(locals, *n) && *n != counter => Some(Bound::Local(*n)),
        _ => None,
    }
}

#[tactic(auto, using(al_core::specs::declared::typed_tree::TExpr::the_lemmas))]
fn is_local(n: u32, e: &TExpr) -> bool
    ensures { result ≡ spec.is_local n (out-TExpr e.now) }
{
    match e {
        TExpr::Local(m) => *m == n,
        _ => false,
    }
}

#[tactic(auto, using(al_core::specs::declared::typed_tree::TExpr::the_lemmas))]
fn bound_by(locals: &[TLocal], counter: u32, test: &TExpr) -> Option<Bound>
    ensures { result ≡ spec.bound_by locals.now counter (out-TExpr test.now) }
{
    match test {
        TExpr::Binary(BinOp::Lt, a, b) if is_local(counter, a.get()) => bound_in(
            locals,
            counter,
            b.get(),
        ),
        _ => None,
    }
}

fn bound(locals: &[TLocal], counter: u32, test: Option<&TExpr>) -> Option<Bound>
    ensures { result ≡ spec.bound_of locals.now counter (option_copied test.entry) }
{
    match test {
        Some(test) => bound_by(locals, counter, test),
        None => None,
    }
}

#[tactic(auto, using(al_core::specs::declared::typed_tree::TExpr::the_lemmas))]
fn is_one(e: &TExpr) -> bool
    ensures { result ≡ spec.is_one (out-TExpr e.now) }
{
    match e {
        TExpr::Number(n) => *n == 1,
        _ => false,
    }
}

#[tactic(auto, using(al_core::specs::declared::typed_tree::TKind::the_lemmas))]
fn counts_in(counter: u32, k: &TKind) -> bool
    ensures { result ≡ spec.counts_in counter (out-TKind k.now) }
{
    match k {
        TKind::UpdateLocal(BinOp::Add, n, e) => *n == counter && is_one(e),
        _ => false,
    }
}

fn counts(counter: u32, third: Option<&TStmt>) -> bool
    ensures { result ≡ spec.counts counter (option_copied third.entry) }
{
    match third {
        Some(s) => counts_in(counter, &s.kind),
        None => false,
    }
}

/// The counter and the bound of a loop of the form, in a function with these locals.
pub fn form(locals: &[TLocal], l: ForLoop<'_>) -> Option<(u32, Bound)>
    ensures { result ≡ spec.form_of locals.now (loop_of l.entry) }
{
    let counter = counter(locals, l.first)?;
    let bound = bound(locals, counter, l.test)?;
    if counts(counter, l.third) {
        Some((counter, bound))
    } else {
        None
    }
}
