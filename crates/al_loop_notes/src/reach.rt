//! Which functions the body of a loop reaches by calls.

ghost use Rattle.std.specs.Prelude.{◌≡◌, ◌++◌, length, IfOk, OnOk};
ghost use Rattle.al_loop_notes.specs.Uses.{stmt_uses, callee_of, callees};
ghost use Rattle.al_loop_notes.specs.Reach.{IsReach, IsTold, marked, new_calls};

use crate::uses::{Program, Use};
use al_core::TStmt;
use sqlite_items::Items;
use std::alloc::{AllocError, Global};

fn add_callee(u: Use, todo: &mut Items<u32>) -> Result<(), AllocError>
    ensures { OnOk result (todo.new ≡ todo.old ++ callee_of u) }
{
    match u {
        Use::Call(f) => todo.push(f),
        _ => Ok(()),
    }
}

/// Adds the functions that are called.
fn add_callees(uses: &[Use], todo: &mut Items<u32>) -> Result<(), AllocError>
    ensures { OnOk result (todo.new ≡ todo.old ++ callees uses.now) }
{
    for u in uses {
        add_callee(*u, todo)?;
    }
    Ok(())
}

/// Marks a function that is not marked yet, and adds its calls to what is to be visited.
fn visit(
    program: &Program<'_>,
    n: u32,
    marks: &mut Items<bool>,
    todo: &mut Items<u32>,
) -> Result<(), AllocError>
    requires { IsTold program.now }
    ensures marks { OnOk result (marks.new ≡ marked program.now.typed.now.funcs marks.old n) }
    ensures todo { OnOk result (todo.new ≡ todo.old ++ new_calls program.now.typed.now.funcs marks.old n) }
{
    let at = n as usize;
    let Some(own) = sqlite_items::at(program.uses, at) else {
        return Ok(());
    };
    match sqlite_items::at(marks.as_slice(), at) {
        Some(false) => {
            marks.set(at, true);
            add_callees(own.as_slice(), todo)?;
            Ok(())
        }
        _ => Ok(()),
    }
}

/// Which functions a statement with these uses reaches by calls. Each function is visited once.
pub fn reached(
    alloc: Global,
    program: &Program<'_>,
    s: &TStmt,
    own: &[Use],
) -> Result<Items<bool>, AllocError>
    requires all { IsTold program.now }
    requires own { own.now ≡ stmt_uses s.now }
    ensures { IfOk result (IsReach program.now.typed.now s.now) }
{
    let mut marks = Items::from_vec(vec![in alloc; false; program.uses.len()]?);
    let mut todo = Items::new(alloc);
    add_callees(own, &mut todo)?;
    while let Some(n) = todo.pop() {
        visit(program, n, &mut marks, &mut todo)?;
    }
    Ok(marks)
}
