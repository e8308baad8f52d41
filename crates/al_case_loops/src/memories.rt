//! Plain runs of programs over the plain interpreter's memory, up to an annotated loop.
ghost use Rattle.std.specs.Prelude.{IfOk, IfSome};
ghost use Rattle.al_code.specs.Valid.{IsValid};
ghost use Rattle.al_exec.specs.Machines.{Stands};

use crate::walk::{Spot, plain_execution};
use al_case_runs::plain_globals;
use al_case_sources::Trial;
use al_code::Code;
use al_core::{Budget, Ending, Val};
use al_exec::{Machine, Stop};
use al_interpreter::Program;
use al_packing::Packing;
use al_plain::{Content, Maker, Memory, plain_loop};
use al_values::PackedValue;
use sqlite_items::Items;
use std::alloc::{AllocError, Global};

/// Values as the plain interpreter has them.
fn unpacked(alloc: Global, packed: &[PackedValue]) -> Result<Items<Val>, AllocError> {
    let mut values = Items::new(alloc);
    for v in packed {
        values.push(v.unpack())?;
    }
    Ok(values)
}

/// Values as the machine has them.
fn packed(alloc: Global, values: &[Val]) -> Result<Items<PackedValue>, AllocError> {
    let mut all = Items::new(alloc);
    for v in values {
        all.push(PackedValue::pack(*v).ok_or(AllocError)?)?;
    }
    Ok(all)
}

/// Runs a loop plain. There is no answer where an iteration traps, or the loop does not run.
fn pass(
    alloc: Global,
    trial: &Trial<'_>,
    program: &Program<'_>,
    spot: Spot,
    memory: Memory,
) -> Result<Option<Memory>, AllocError> {
    let Some(env) = spot.env(trial, 1) else {
        return Ok(None);
    };
    let Some(x) = plain_execution(trial, program, &env, spot.number) else {
        return Ok(None);
    };
    let finished = plain_loop(alloc, &x, memory)?;
    if finished.ending != Ending::Done {
        return Ok(None);
    }
    let (memory, _) = finished.into_memory();
    Ok(Some(memory))
}

/// Runs to the next annotated loop, if there is one.
fn next_spot(
    code: &Code,
    input: &[i64],
    content: &mut Packing<Content>,
    machine: &mut Machine,
    budget: &mut Budget,
    execution: u32,
) -> Result<Option<Spot>, AllocError>
    requires valid { IsValid code.now }
    requires stands { Stands code.now machine.old }
    ensures { IfOk result (λ found. IfSome found (λ spot. Stands code.now machine.new)) }
{
    match machine.go(code, input, content, budget)? {
        Stop::AtLoop { number, lo, hi } => Ok(Some(Spot {
            number,
            execution,
            lo,
            hi,
        })),
        Stop::Ended(_) | Stop::Trapped(_, _) => Ok(None),
    }
}

/// The memory for the loop at which a machine stands.
fn lend(
    alloc: Global,
    content: &mut Packing<Content>,
    machine: &Machine,
) -> Result<Memory, AllocError> {
    let locals = unpacked(alloc, machine.locals())?;
    Ok(content.view.lend(locals))
}

/// Sets a machine's locals after a loop, where they are as many.
fn set_locals(
    alloc: Global,
    code: &Code,
    machine: &mut Machine,
    locals: &[Val],
    counter: i64,
) -> Result<(), AllocError>
    requires { Stands code.now machine.old }
    ensures { Stands code.now machine.new }
{
    let locals = packed(alloc, locals)?;
    if locals.len() == machine.locals().len() {
        machine.after_loop(locals.as_slice(), counter);
    }
    Ok(())
}

/// Takes the memory back after a loop.
fn come_back(
    alloc: Global,
    code: &Code,
    content: &mut Packing<Content>,
    machine: &mut Machine,
    memory: Memory,
    counter: i64,
) -> Result<(), AllocError>
    requires { Stands code.now machine.old }
    ensures { Stands code.now machine.new }
{
    let locals = content.view.take_back(memory, Items::new(alloc))?;
    set_locals(alloc, code, machine, locals.as_slice(), counter)
}

fn walk_to(
    alloc: Global,
    trial: &Trial<'_>,
    program: &Program<'_>,
    content: &mut Packing<Content>,
    machine: &mut Machine,
    wanted: u32,
) -> Result<Option<(Spot, Memory)>, AllocError>
    requires valid { IsValid trial.now.source.now.code }
    requires stands { Stands trial.now.source.now.code machine.old }
{
    let code = &trial.source.code;
    let mut budget = Budget::new(trial.serial_steps);
    for execution in 0..u32::MAX {
        let found = next_spot(code, trial.input, content, machine, &mut budget, execution)?;
        let Some(spot) = found else {
            return Ok(None);
        };
        let memory = lend(alloc, content, machine)?;
        if execution == wanted {
            return Ok(Some((spot, memory)));
        }
        let Some(left) = pass(alloc, trial, program, spot, memory)? else {
            return Ok(None);
        };
        come_back(alloc, code, content, machine, left, spot.lo.max(spot.hi))?;
    }
    Ok(None)
}

/// Runs a program plain, on the plain interpreter's memory, to the annotated loop that it comes to as the one of that
/// number, where there is one.
pub fn plain_to_loop(
    alloc: Global,
    trial: &Trial<'_>,
    program: &Program<'_>,
    wanted: u32,
) -> Result<Option<(Spot, Memory)>, AllocError>
    requires { IsValid trial.now.source.now.code }
{
    let code = &trial.source.code;
    if code.funcs.as_slice()[code.main as usize].params != 0 {
        return Ok(None);
    }
    let mut machine = Machine::call(alloc, code, code.main, &[])?;
    let view = Content::direct(alloc, plain_globals(alloc, code)?, Maker::Outer);
    let mut content = Packing { view };
    walk_to(alloc, trial, program, &mut content, &mut machine, wanted)
}
