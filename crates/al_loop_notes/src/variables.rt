ghost use Rattle.std.specs.Prelude.{◌≡◌, ◌&&◌, length};
ghost use Rattle.std.specs.List.{list_any};
ghost use Rattle.al_core.specs.Orders as orders;
ghost use Rattle.al_core.specs.Accepted as accepted;
ghost use Rattle.al_rules.specs.Bodies as bodies;
ghost use Rattle.al_rules.specs.Notes as spec;
ghost use Rattle.al_loop_notes.specs.Reach.{IsReach, IsTold, mentioned_from};
ghost use Rattle.al_loop_notes.specs.Uses as uses_spec;

use crate::mentions::{is_global, is_local};
use crate::updates;
use crate::uses::{Program, Use};
use al_core::{Addr, Bound, LoopInfo, RedOp, TStmt, compare_addresses};
use sqlite_items::Items;

pub fn is_same(a: Addr, b: Addr) -> bool
    ensures { result ≡ orders.addr_eq a b }
{
    compare_addresses(&a, &b).is_eq()
}

fn is_bound(bound: Bound, a: Addr) -> bool
    ensures { result ≡ spec.is_bound_at bound a }
{
    match (bound, a) {
        (Bound::Local(j), Addr::Local(n)) => j == n,
        _ => false,
    }
}

/// Whether the variable is the loop's counter or its bound.
pub fn is_counter_or_bound(info: &LoopInfo, a: Addr) -> bool
    ensures { result ≡ spec.is_counter_or_bound info.now a }
{
    is_local(a, info.counter) || is_bound(info.bound, a)
}

/// Whether it is a mention of the variable.
fn is_mention(a: Addr, u: Use) -> bool
    ensures { result ≡ uses_spec.is_mention a u }
{
    match u {
        Use::Local(k) => is_local(a, k),
        Use::Global(k) => is_global(a, k),
        _ => false,
    }
}

/// Whether it takes the variable's address.
fn is_address(a: Addr, u: Use) -> bool
    ensures { result ≡ uses_spec.is_address a u }
{
    match u {
        Use::Address(k) => is_global(a, k),
        _ => false,
    }
}

fn any_mention(a: Addr, uses: &[Use]) -> bool
    ensures { result ≡ list_any (uses_spec.is_mention a) uses.now }
{
    for u in uses {
        if is_mention(a, *u) {
            return true;
        }
    }
    false
}

fn any_address(a: Addr, uses: &[Use]) -> bool
    ensures { result ≡ list_any (uses_spec.is_address a) uses.now }
{
    for u in uses {
        if is_address(a, *u) {
            return true;
        }
    }
    false
}

fn any_takes(a: Addr, all: &[Items<Use>]) -> bool
    ensures { result ≡ list_any (λ us. list_any (uses_spec.is_address a) us) all.now }
{
    for uses in all {
        if any_address(a, uses.as_slice()) {
            return true;
        }
    }
    false
}

/// Whether some function takes the variable's address.
pub fn is_taken(program: &Program<'_>, a: Addr) -> bool
    requires { IsTold program.now }
    ensures { result ≡ bodies.is_taken program.now.typed.now a }
{
    any_takes(a, program.uses)
}

fn any_reached_mentions(program: &Program<'_>, body: &TStmt, marks: &[bool], a: Addr) -> bool
    requires told { IsTold program.now }
    requires reach { IsReach program.now.typed.now body.now marks.now }
    ensures { result ≡ mentioned_from program.now.typed.now body.now a 0 program.now.uses.now }
{
    for (n, uses) in program.uses.iter().enumerate() {
        if marks[n] && any_mention(a, uses.as_slice()) {
            return true;
        }
    }
    false
}

/// Whether a function that the body reaches mentions the global. The marks say which are reached.
#[tactic(auto, using(crate::proofs::Programs::mentioned_by))]
fn is_mentioned_there(program: &Program<'_>, body: &TStmt, marks: &[bool], a: Addr) -> bool
    requires told { IsTold program.now }
    requires reach { IsReach program.now.typed.now body.now marks.now }
    ensures { result ≡ bodies.is_mentioned_there program.now.typed.now body.now a }
{
    match a {
        Addr::Word(_, _) => any_reached_mentions(program, body, marks, a),
        _ => false,
    }
}

/// Whether the variable is used otherwise than in updates by the operator.
pub fn is_misused(program: &Program<'_>, body: &TStmt, marks: &[bool], op: RedOp, a: Addr) -> bool
    requires told { IsTold program.now }
    requires reach { IsReach program.now.typed.now body.now marks.now }
    ensures { result ≡ bodies.is_misused program.now.typed.now body.now op a }
{
    !updates::only_updates(op, a, body) || is_mentioned_there(program, body, marks, a)
}
