ghost use Rattle.std.specs.Prelude.{◌≡◌};
ghost use Rattle.std.specs.Option.{option_copied};
ghost use Rattle.al_core.specs.declared.typed_tree.TExpr.{out-TExpr};
ghost use Rattle.al_core.specs.declared.typed_tree.TKind.{out-TKind};
ghost use Rattle.al_core.specs.Loops as loops;
ghost use Rattle.al_lower.specs.Starts.{any_start};

use al_core::{Bound, TExpr, TKind, TStmt};
use sqlite_items::Boxed;

/// The start of an annotated loop: its counter, its value and the line of the first part.
#[derive(Clone, Copy)]
pub struct Start<'a> {
    pub counter: u32,
    pub value: &'a TExpr,
    pub line: u32,
}

#[tactic(auto, using(al_core::specs::declared::typed_tree::TKind::the_lemmas))]
fn start_in(line: u32, k: &TKind) -> Option<Start<'_>>
    ensures { any_start result ≡ loops.start_in line (out-TKind k.now) }
{
    match k {
        TKind::SetLocal(k, e) => Some(Start {
            counter: *k,
            value: e,
            line,
        }),
        _ => None,
    }
}

/// A first part that sets no local is no start.
pub fn start_of(first: &Option<Boxed<TStmt>>) -> Option<Start<'_>>
    ensures { any_start result ≡ loops.start_of first.now }
{
    match first {
        Some(first) => start_in(first.get().line, &first.get().kind),
        None => None,
    }
}

#[tactic(auto, using(al_core::specs::declared::typed_tree::TExpr::the_lemmas))]
fn bound_in(e: &TExpr) -> Bound
    ensures { result ≡ loops.bound_in (out-TExpr e.now) }
{
    match e {
        TExpr::Number(n) => Bound::Number(*n),
        TExpr::Local(k) => Bound::Local(*k),
        _ => Bound::Number(0),
    }
}

#[tactic(auto, using(al_core::specs::declared::typed_tree::TExpr::the_lemmas))]
fn right_side(test: &TExpr) -> Bound
    ensures { result ≡ loops.right_side (out-TExpr test.now) }
{
    match test {
        TExpr::Binary(_, _, b) => bound_in(b.get()),
        _ => Bound::Number(0),
    }
}

/// What an annotated loop's counter is compared with.
pub fn bound_of(test: &Option<TExpr>) -> Bound
    ensures { result ≡ loops.bound_of test.now }
{
    match test {
        Some(test) => right_side(test),
        None => Bound::Number(0),
    }
}
