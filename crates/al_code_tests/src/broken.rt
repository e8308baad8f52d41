//! Code that breaks one rule of valid code is refused.

use crate::lowered::lowered;
use al_code::{Body, Code, Entry, Instr, valid};
use std::alloc::AllocError;
use std::test::Fail;

/// What is broken, at a place.
#[derive(Clone, Copy, Debug)]
enum Break {
    Instr(usize, Instr),
    Height(usize, u32),
    Line,
    Entry(usize, Entry),
    Body(Body),
    NoBody,
    Main(u32),
    LoopFunc(u32),
    LoopCounter(u32),
}

/// A function with a loop at the places 0 to 14, and `main` with an annotated loop at 15 to 33.
const TWO: &str = "long f(long a) {
  while (a) a = a - 1;
  return a;
}
int main(void) {
  long i;
#pragma alter RAW InOrder
  for (i = 0; i < 2; i++) {
    if (i == 0) f(i);
  }
}
";

fn apply(code: &mut Code, what: Break) -> Option<()> {
    match what {
        Break::Instr(at, x) if at < code.instrs.len() => code.instrs.set(at, x),
        Break::Height(at, h) if at < code.heights.len() => code.heights.set(at, h),
        Break::Line => {
            code.lines.pop()?;
        }
        Break::Entry(at, e) if at < code.funcs.len() => code.funcs.set(at, e),
        Break::Body(b) if !code.bodies.is_empty() => code.bodies.set(0, b),
        Break::NoBody => {
            code.bodies.pop()?;
        }
        Break::Main(f) => code.main = f,
        Break::LoopFunc(f) => {
            let mut info = code.loops.pop()?;
            info.func = f;
            code.loops.push(info).ok()?;
        }
        Break::LoopCounter(k) => {
            let mut info = code.loops.pop()?;
            info.counter = k;
            code.loops.push(info).ok()?;
        }
        _ => return None,
    }
    Some(())
}

fn entry(start: u32, end: u32, params: u32, locals: u32) -> Entry {
    Entry {
        start,
        end,
        params,
        locals,
    }
}

#[test]
fn each_broken_rule_is_refused(rt: HostRuntime) -> Result<(), Fail> {
    let breaks = [
        // as many lines and bodies as there are instructions and loops
        Break::Line,
        Break::NoBody,
        // functions
        Break::Entry(0, entry(0, 0, 1, 1)),
        Break::Entry(1, entry(15, 40, 0, 1)),
        Break::Entry(0, entry(0, 15, 2, 1)),
        Break::Height(0, 1),
        Break::Main(2),
        // operands, and the height that is left
        Break::Instr(0, Instr::Drop),
        Break::Height(6, 2),
        Break::Height(30, 2),
        // places in the same function: a jump out of it, and a last instruction that goes on
        Break::Instr(9, Instr::Jump(15)),
        Break::Instr(14, Instr::Drop),
        // back to no step
        Break::Instr(9, Instr::Jump(2)),
        // numbers of locals, globals, functions, texts and loops
        Break::Instr(2, Instr::GetLocal(1)),
        Break::Instr(16, Instr::Global(0)),
        Break::Instr(29, Instr::Call(2)),
        Break::Instr(30, Instr::Print(0)),
        Break::Instr(20, Instr::Loop(1)),
        // bodies: heights, start and end
        Break::Height(21, 1),
        Break::Height(32, 1),
        Break::Body(Body { start: 22, end: 32 }),
        Break::Body(Body { start: 21, end: 31 }),
        // a loop twice, in another function, with a counter that is no local
        Break::Instr(26, Instr::Loop(0)),
        Break::LoopFunc(0),
        Break::LoopFunc(5),
        Break::LoopCounter(1),
        // the end of no body
        Break::Instr(27, Instr::EndIteration),
    ];
    for what in breaks {
        let mut code = lowered(rt.alloc(), TWO)?.ok_or("refused")?;
        assert!(rt; valid(&code));
        apply(&mut code, what).ok_or("not there")?;
        assert!(rt; !valid(&code), "{what:?}");
    }
    Ok(())
}
