ghost use Rattle.std.specs.Prelude.{◌≡◌};
ghost use Rattle.al_source.specs.Answers.{Does};
ghost use Rattle.al_core.specs.Iteration as spec;
ghost use Rattle.al_interpreter.specs.Faults.{stopped};
ghost use Rattle.al_interpreter.specs.Calls.{call_within};
ghost use Rattle.al_interpreter.specs.Wholes.{iterates, main_does};

use crate::calls::Within;
use crate::fault::Fault;
use crate::functions::{body_of, frame_of, line_of, returned};
use crate::machine::Machine;
use crate::setting::Setting;
use crate::stage::Stage;
use crate::walker::Walker;
use al_core::{TStmt, Trap, Val};
use al_source::limits::ACTIVE_CALLS;
use sqlite_items::{Items, at};
use std::alloc::Global;
use std::marker::PhantomData;

/// Calls a function, where so many more calls may be active.
#[tactic(auto, unfolding(crate::specs::Acts::bind, crate::specs::Acts::pure))]
pub fn call_to<S: Stage>(
    alloc: Global,
    on: &Setting<'_>,
    room: u32,
    m: &mut Machine<S>,
    f: u32,
    args: Items<Val>,
    line: u32,
) -> Result<Val, Fault>
    ensures { Does stopped (call_within S.world S.place room on.now f args line m.old) result m.new }
{
    if room == 0 {
        return m.lift(line, Err(Trap::Depth));
    }
    m.spend(line)?;
    let f = at(on.program.typed().funcs.as_slice(), f as usize);
    let old = m.enter(frame_of(f, args)?);
    let calls = Within {
        alloc,
        room: room - 1,
        function: call_to,
        stage: PhantomData,
    };
    let walker = Walker { alloc, on, calls };
    let flow = walker.statements(m, body_of(f))?;
    Ok(m.leave(old, returned(flow)))
}

/// In an iteration one call is active, so so many more may be.
fn calls_within() -> u32
    ensures { result ≡ spec.calls_within }
{
    ACTIVE_CALLS - 1
}

/// An iteration of an annotated loop: a step, then the counter's value, then the body. One call is active in it.
#[tactic(auto, unfolding(crate::specs::Acts::bind, crate::specs::Acts::pure))]
pub fn iterate<S: Stage>(
    alloc: Global,
    on: &Setting<'_>,
    m: &mut Machine<S>,
    counter: u32,
    line: u32,
    body: &TStmt,
    n: i64,
) -> Result<(), Fault>
    ensures { Does stopped (iterates S.world S.place on.now counter line body.now n m.old) result m.new }
{
    m.spend(line)?;
    m.set_local(on, counter, Val::Int(n), line)?;
    let calls = Within {
        alloc,
        room: calls_within(),
        function: call_to,
        stage: PhantomData,
    };
    let walker = Walker { alloc, on, calls };
    walker.stmt(m, body)?;
    Ok(())
}

/// Calls `main`, at the line of its definition. So many calls may be active as the limit says.
pub fn run_main<S: Stage>(alloc: Global, on: &Setting<'_>, m: &mut Machine<S>) -> Result<Val, Fault>
    ensures { Does stopped (main_does S.world S.place on.now m.old) result m.new }
{
    let program = on.program.typed();
    let line = line_of(at(program.funcs.as_slice(), program.main as usize));
    call_to(
        alloc,
        on,
        calls_within() + 1,
        m,
        program.main,
        Items::new(alloc),
        line,
    )
}
