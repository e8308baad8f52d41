ghost use Rattle.std.specs.Prelude.{◌≡◌, [], map, reverse, length, IfOk, OnOk};
ghost use Rattle.al_code_laws.specs.Tree.{function_code};
ghost use Rattle.al_lower.specs.Emits.{emits, program_code};
ghost use Rattle.al_lower.specs.Assembly.{entries_from_end, turned, code_of};

use crate::assembly::{assemble, place};
use crate::backward::Backward;
use crate::copies::{copy_globals, copy_infos};
use crate::statements::stmts;
use al_code::{Code, Entry, Instr};
use al_code_laws::Op;
use al_core::{LoopInfo, TFunc, Typed};
use sqlite_items::Items;
use std::alloc::{AllocError, Global};

/// A number of 32 bits. One past them is want of memory.
fn narrow(n: usize) -> Result<u32, AllocError>
    ensures { IfOk result (λ m. m ≡ n) }
{
    u32::try_from(n).map_err(|_| AllocError)
}

/// Writes the code of a function: its body, and 0 for where no `return` gives a value.
#[tactic(auto, using(crate::proofs::Functions::function_lowered))]
fn function(code: &mut Backward, f: &TFunc) -> Result<(), AllocError>
    ensures { OnOk result (code.new ≡ emits (function_code f.now) code.old) }
{
    code.put(Op::As(Instr::Return), f.line, 1)?;
    code.put(Op::As(Instr::Push(0)), f.line, 0)?;
    let end = code.len();
    stmts(code, f.body.as_slice(), Some(end), end)?;
    Ok(())
}

/// Writes the code of a function, and gives its entry, by how many instructions follow its places.
fn entry(code: &mut Backward, f: &TFunc) -> Result<Entry, AllocError>
    ensures entry { IfOk result (λ e. e ≡ record {
      start = length code.new;
      end = length code.old;
      params = f.now.params;
      locals = length f.now.locals;
    }) }
    ensures code { OnOk result (code.new ≡ emits (function_code f.now) code.old) }
{
    let end = narrow(code.len())?;
    function(code, f)?;
    Ok(Entry {
        start: narrow(code.len())?,
        end,
        params: f.params,
        locals: narrow(f.locals.len())?,
    })
}

/// Writes the code of functions, the last one first, and gives their entries, in that order.
fn functions(alloc: Global, code: &mut Backward, funcs: &[TFunc]) -> Result<Vec<Entry>, AllocError>
    requires { code.old ≡ [] }
    ensures code { OnOk result (code.new ≡ program_code funcs.now 0) }
    ensures entries { IfOk result (λ es. reverse es.items ≡ entries_from_end funcs.now 0) }
{
    let mut entries = Vec::new(alloc);
    let mut left = funcs.len();
    while left > 0 {
        left -= 1;
        entries.push(entry(code, &funcs[left])?)?;
    }
    Ok(entries)
}

/// Entries in the order of their functions, by their places from the start.
fn turn(alloc: Global, mut from_end: Vec<Entry>, total: u32) -> Result<Items<Entry>, AllocError>
    ensures { IfOk result (λ es. es ≡ map (turned total) (reverse from_end.items)) }
{
    let mut entries = Items::new(alloc);
    while let Some(e) = from_end.pop() {
        entries.push(Entry {
            start: place(total, e.start as usize),
            end: place(total, e.end as usize),
            ..e
        })?;
    }
    Ok(entries)
}

/// The code of a typed tree, with the entries of its annotated loops.
pub fn write(alloc: Global, typed: &Typed, infos: &[LoopInfo]) -> Result<Code, AllocError>
    ensures { IfOk result (λ code. code ≡ code_of typed.now infos.now) }
{
    let mut plan = Backward::new(alloc);
    let from_end = functions(alloc, &mut plan, typed.funcs.as_slice())?;
    let total = narrow(plan.len())?;
    let parts = assemble(alloc, plan, total)?;
    Ok(Code {
        instrs: parts.instrs,
        lines: parts.lines,
        heights: parts.heights,
        globals: copy_globals(alloc, typed.globals.as_slice())?,
        funcs: turn(alloc, from_end, total)?,
        main: typed.main,
        loops: copy_infos(alloc, infos)?,
        bodies: parts.bodies,
        texts: parts.texts,
    })
}
