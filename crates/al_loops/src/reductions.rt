//! The variables that a loop's body reduces.

ghost use Rattle.std.specs.Prelude.{◌≡◌, [], ◌++◌, take, slice_get, IfOk, OnOk};
ghost use Rattle.std.specs.List.{find, filter_map, flat_map, list_any};
ghost use Rattle.al_source.specs.declared.limits.TheConstants.{TRIED_REDUCTIONS};
ghost use Rattle.al_core.specs.Orders as orders;
ghost use Rattle.al_rules.specs.Candidates as spec;
ghost use Rattle.al_loop_notes.specs.Reach.{IsReach, IsTold};
ghost use Rattle.al_loop_notes.specs.Uses.{variable_of};

use al_core::{Addr, Kind, LoopInfo, Obj, Red, RedOp, TStmt, Typed};
use al_loop_notes::{
    Program, Use, has_update, is_counter_or_bound, is_integer, is_misused, is_same, is_taken,
    reached, uses_of,
};
use al_source::limits::TRIED_REDUCTIONS;
use sqlite_items::Items;
use std::alloc::{AllocError, Global};

fn add_variable(u: Use, names: &mut Items<Addr>) -> Result<(), AllocError>
    ensures { OnOk result (names.new ≡ names.old ++ variable_of u) }
{
    match u {
        Use::Local(k) | Use::Set(k) => names.push(Addr::Local(k)),
        Use::Global(k) => names.push(Addr::Word(Obj::Global(k), 0)),
        _ => Ok(()),
    }
}

/// The variables that are mentioned or set, in source order.
fn variables(alloc: Global, uses: &[Use]) -> Result<Items<Addr>, AllocError>
    ensures { IfOk result (λ names. names ≡ flat_map variable_of uses.now) }
{
    let mut names = Items::new(alloc);
    for u in uses {
        add_variable(*u, &mut names)?;
    }
    Ok(names)
}

fn is_among(a: Addr, seen: &[Addr]) -> bool
    ensures { result ≡ list_any (orders.addr_eq a) seen.now }
{
    for b in seen {
        if is_same(a, *b) {
            return true;
        }
    }
    false
}

/// The variables of the list, each once, where it comes first.
fn firsts(alloc: Global, names: &[Addr]) -> Result<Items<Addr>, AllocError>
    ensures { IfOk result (λ list. list ≡ spec.firsts [] names.now) }
{
    let mut seen = Items::new(alloc);
    for a in names {
        if !is_among(*a, seen.as_slice()) {
            seen.push(*a)?;
        }
    }
    Ok(seen)
}

fn is_integer_global(typed: &Typed, n: u32) -> bool
    ensures { result ≡ spec.is_integer_global (slice_get typed.now.globals n) }
{
    match typed.globals.get(n as usize) {
        Some(global) => global.scalar == Some(Kind::Int),
        None => false,
    }
}

fn is_outside(info: &LoopInfo, n: u32) -> bool
    ensures { result ≡ spec.is_outside info.now n }
{
    !(info.first <= n && n < info.last)
}

fn is_integer_local(typed: &Typed, info: &LoopInfo, n: u32) -> bool
    ensures { result ≡ spec.is_local_of info.now (slice_get typed.now.funcs info.now.func) n }
{
    match typed.funcs.get(info.func as usize) {
        Some(f) => is_integer(f.locals.as_slice(), n) && is_outside(info, n),
        None => false,
    }
}

/// Whether it is an integer local that is declared outside the loop, or an integer global.
fn is_variable(typed: &Typed, info: &LoopInfo, a: Addr) -> bool
    ensures { result ≡ spec.is_variable typed.now info.now a }
{
    match a {
        Addr::Local(n) => is_integer_local(typed, info, n),
        Addr::Word(Obj::Global(n), w) => is_integer_global(typed, n) && w == 0,
        _ => false,
    }
}

/// The body of a loop, with its entry and the functions that it reaches.
#[derive(Clone, Copy)]
struct Body<'a> {
    program: &'a Program<'a>,
    info: &'a LoopInfo,
    stmt: &'a TStmt,
    marks: &'a [bool],
}

impl Body<'_> {
    /// Whether the operator would be accepted for the variable, and updates it.
    fn reduces(&self, a: Addr, op: RedOp) -> bool
        requires told { IsTold self.now.program.now }
        requires reach { IsReach self.now.program.now.typed.now self.now.stmt.now self.now.marks.now }
        ensures { result ≡ spec.reduces self.now.program.now.typed.now self.now.info.now self.now.stmt.now a op }
    {
        has_update(op, a, self.stmt) && !is_misused(self.program, self.stmt, self.marks, op, a)
    }

    fn operator(&self, a: Addr) -> Option<RedOp>
        requires told { IsTold self.now.program.now }
        requires reach { IsReach self.now.program.now.typed.now self.now.stmt.now self.now.marks.now }
        ensures { result ≡ find
            (spec.reduces self.now.program.now.typed.now self.now.info.now self.now.stmt.now a) spec.operators }
    {
        if self.reduces(a, RedOp::Add) {
            Some(RedOp::Add)
        } else if self.reduces(a, RedOp::Mul) {
            Some(RedOp::Mul)
        } else if self.reduces(a, RedOp::Min) {
            Some(RedOp::Min)
        } else if self.reduces(a, RedOp::Max) {
            Some(RedOp::Max)
        } else if self.reduces(a, RedOp::BitAnd) {
            Some(RedOp::BitAnd)
        } else if self.reduces(a, RedOp::BitOr) {
            Some(RedOp::BitOr)
        } else if self.reduces(a, RedOp::BitXor) {
            Some(RedOp::BitXor)
        } else {
            None
        }
    }

    fn reduction(&self, a: Addr) -> Option<Red>
        requires told { IsTold self.now.program.now }
        requires reach { IsReach self.now.program.now.typed.now self.now.stmt.now self.now.marks.now }
        ensures { result ≡ spec.reduction_of self.now.program.now.typed.now self.now.info.now self.now.stmt.now a }
    {
        if !is_variable(self.program.typed, self.info, a) || is_counter_or_bound(self.info, a) {
            return None;
        }
        match self.operator(a) {
            Some(op) if !is_taken(self.program, a) => Some(Red { op, at: a }),
            _ => None,
        }
    }

    fn reductions(&self, alloc: Global, names: &[Addr]) -> Result<Items<Red>, AllocError>
        requires told { IsTold self.now.program.now }
        requires reach { IsReach self.now.program.now.typed.now self.now.stmt.now self.now.marks.now }
        ensures { IfOk result (λ reds. reds ≡ take TRIED_REDUCTIONS
            (filter_map
            (spec.reduction_of self.now.program.now.typed.now self.now.info.now self.now.stmt.now) names.now)) }
    {
        let mut reds = Items::new(alloc);
        for a in names {
            if reds.len() < TRIED_REDUCTIONS {
                if let Some(red) = self.reduction(*a) {
                    reds.push(red)?;
                }
            }
        }
        Ok(reds)
    }
}

/// The reducible variables of a loop with this body that count: the first `TRIED_REDUCTIONS`, in order of first
/// mention.
#[tactic(auto, using(al_loop_notes::proofs::Statements::uses_are_variables))]
pub fn reductions(
    alloc: Global,
    program: &Program<'_>,
    info: &LoopInfo,
    stmt: &TStmt,
) -> Result<Items<Red>, AllocError>
    requires { IsTold program.now }
    ensures { IfOk result (λ reds. reds ≡ spec.reductions_of program.now.typed.now info.now stmt.now) }
{
    let uses = uses_of(alloc, stmt)?;
    let variables = variables(alloc, uses.as_slice())?;
    let names = firsts(alloc, variables.as_slice())?;
    let marks = reached(alloc, program, stmt, uses.as_slice())?;
    let body = Body {
        program,
        info,
        stmt,
        marks: marks.as_slice(),
    };
    body.reductions(alloc, names.as_slice())
}
