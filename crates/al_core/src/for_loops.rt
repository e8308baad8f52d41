ghost use Rattle.std.specs.Prelude.{◌≡◌, OnOk, IfOk, map};
ghost use Rattle.std.specs.List.{flat_map};
ghost use Rattle.std.specs.Option.{option_copied};
ghost use Rattle.al_core.specs.Loops as spec;
ghost use Rattle.al_core.specs.LoopsInPlace.{Adds, AddsPlaced, placed_of, this_one, part_loops};

use crate::typed_tree::{TExpr, TFunc, TKind, TStmt, Typed};
use sqlite_items::{Boxed, Items};
use std::alloc::{AllocError, Global};

/// An annotated loop where it stands in the tree: its number and its parts.
#[derive(Clone, Copy)]
pub struct ForLoop<'a> {
    pub number: u32,
    pub first: Option<&'a TStmt>,
    pub test: Option<&'a TExpr>,
    pub third: Option<&'a TStmt>,
    pub body: &'a TStmt,
}

/// An annotated loop, with the function in which it stands.
#[derive(Clone, Copy)]
pub struct PlacedLoop<'a> {
    pub func: &'a TFunc,
    pub parts: ForLoop<'a>,
}

fn part(s: &Option<Boxed<TStmt>>) -> Option<&TStmt>
    ensures { option_copied result ≡ s.now }
{
    match s {
        Some(s) => Some(s.get()),
        None => None,
    }
}

/// Adds the loop of these parts where it has a number, which an annotated loop has.
fn add<'a>(
    first: &'a Option<Boxed<TStmt>>,
    test: &'a Option<TExpr>,
    third: &'a Option<Boxed<TStmt>>,
    body: &'a TStmt,
    number: Option<u32>,
    out: &mut Items<ForLoop<'a>>,
) -> Result<(), AllocError>
    ensures { OnOk result (Adds out.old out.new (this_one first.now test.now third.now body.now number)) }
{
    match number {
        Some(number) => {
            let first = part(first);
            let test = test.as_ref();
            let third = part(third);
            out.push(ForLoop {
                number,
                first,
                test,
                third,
                body,
            })
        }
        None => Ok(()),
    }
}

#[cycle(statements)]
#[tactic(auto, using(crate::proofs::LoopNodes::loop_nodes), unfolding(crate::specs::Loops::for_loops))]
fn in_stmt<'a>(s: &'a TStmt, out: &mut Items<ForLoop<'a>>) -> Result<(), AllocError>
    ensures { OnOk result (Adds out.old out.new (spec.for_loops s.now)) }
{
    match &s.kind {
        TKind::If(_, a, b) => {
            in_stmt(a.get(), out)?;
            in_part(b, out)?;
            Ok(())
        }
        TKind::While(_, a) => in_stmt(a.get(), out),
        TKind::For(first, test, third, body, number) => {
            add(first, test, third, body.get(), *number, out)?;
            in_part(first, out)?;
            in_part(third, out)?;
            in_stmt(body.get(), out)?;
            Ok(())
        }
        TKind::Block(ss) => in_stmts(ss.as_slice(), out),
        _ => Ok(()),
    }
}

#[cycle(statements)]
fn in_part<'a>(s: &'a Option<Boxed<TStmt>>, out: &mut Items<ForLoop<'a>>) -> Result<(), AllocError>
    ensures { OnOk result (Adds out.old out.new (part_loops s.now)) }
{
    match s {
        Some(s) => in_stmt(s.get(), out),
        None => Ok(()),
    }
}

/// Adds the annotated loops in the statements, in source order.
#[cycle(statements)]
fn in_stmts<'a>(ss: &'a [TStmt], out: &mut Items<ForLoop<'a>>) -> Result<(), AllocError>
    ensures { OnOk result (Adds out.old out.new (flat_map spec.for_loops ss.now)) }
{
    for s in ss {
        in_stmt(s, out)?;
    }
    Ok(())
}

/// Adds the annotated loops of a function.
#[tactic(auto, using(crate::proofs::LoopNodes::loops_in))]
fn in_func<'a>(
    alloc: Global,
    func: &'a TFunc,
    out: &mut Items<PlacedLoop<'a>>,
) -> Result<(), AllocError>
    ensures { OnOk result (AddsPlaced out.old out.new (map (spec.placed func.now) (spec.for_loops_in func.now.body))) }
{
    let mut loops = Items::new(alloc);
    in_stmts(func.body.as_slice(), &mut loops)?;
    for parts in loops.as_slice() {
        out.push(PlacedLoop {
            func,
            parts: *parts,
        })?;
    }
    Ok(())
}

/// The annotated loops of a program, in source order: the number of a loop is its place here.
#[tactic(auto, unfolding(crate::specs::Loops::program_loops))]
pub fn program_loops<'a>(
    alloc: Global,
    typed: &'a Typed,
) -> Result<Items<PlacedLoop<'a>>, AllocError>
    ensures { IfOk result (λ loops. map placed_of loops ≡ spec.program_loops typed.now) }
{
    let mut loops = Items::new(alloc);
    for func in typed.funcs.as_slice() {
        in_func(alloc, func, &mut loops)?;
    }
    Ok(loops)
}
