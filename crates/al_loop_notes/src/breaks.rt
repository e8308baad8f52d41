//! Whether a `break` stands in the body of a loop that ends that loop.

ghost use Rattle.std.specs.Prelude.{◌≡◌, option_map};
ghost use Rattle.std.specs.List.{list_any};
ghost use Rattle.al_rules.specs.Bodies as spec;

use al_core::{TKind, TStmt};
use sqlite_items::Boxed;

/// Whether a `break` stands in it that is of no loop in it.
#[cycle(breaks)]
#[tactic(auto, using(crate::proofs::StmtNodes::stmt_nodes), unfolding(al_rules::specs::Bodies::has_break))]
pub fn has_break(s: &TStmt) -> bool
    ensures { result ≡ spec.has_break s.now }
{
    match &s.kind {
        TKind::Break => true,
        TKind::If(_, a, b) => has_break(a.get()) || part_breaks(b),
        TKind::Block(ss) => any_breaks(ss.as_slice()),
        _ => false,
    }
}

#[cycle(breaks)]
fn part_breaks(s: &Option<Boxed<TStmt>>) -> bool
    ensures { result ≡ spec.if_any (option_map spec.has_break s.now) }
{
    match s {
        Some(s) => has_break(s.get()),
        None => false,
    }
}

#[cycle(breaks)]
fn any_breaks(ss: &[TStmt]) -> bool
    ensures { result ≡ list_any spec.has_break ss.now }
{
    for s in ss {
        if has_break(s) {
            return true;
        }
    }
    false
}
