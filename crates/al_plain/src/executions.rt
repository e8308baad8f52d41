ghost use Rattle.std.specs.Prelude.{◌≡◌, slice_get, IfOk};
ghost use Rattle.std.specs.Option.{option_copied};
ghost use Rattle.al_core.specs.Run as spec;
ghost use Rattle.al_core.specs.Report.{mode_of, by_choices};
ghost use Rattle.al_source.specs.Answers.{Gives};
ghost use Rattle.al_interpreter.specs.Faults.{stopped};
ghost use Rattle.al_plain.specs.Executions.{execution_of, IsBounded};

use crate::counts::Counts;
use crate::iterations::{Execution, plain_loop};
use crate::memory::Memory;
use crate::rounds::lockstep;
use crate::words::set_at;
use al_core::{Choice, Ending, Val};
use al_interpreter::Fault;
use sqlite_items::{Items, at};
use std::alloc::{AllocError, Global};
use std::marker::Model;

/// What an execution comes to: the memory, what it printed, how it ended, and its counts.
#[derive(Drop)]
pub struct LoopResult {
    pub memory: Memory,
    pub printed: Items<u8>,
    pub ending: Ending,
    pub counts: Counts,
}

impl Model for LoopResult {
    ghost use Rattle.al_core.specs.Run.{LoopResult};
    ghost use Rattle.al_plain.specs.Codes.{result_code};

    ghost Value = { LoopResult };

    ghost coded = { result_code };

    ghost view = { λ r. record { memory = r.memory; printed = r.printed; ending = r.ending; counts = r.counts } };
}

fn plainly(alloc: Global, x: &Execution<'_>, memory: Memory) -> Result<LoopResult, AllocError>
    requires { IsBounded x.now }
    ensures { IfOk result (λ r. r ≡ spec.by_mode (execution_of x.now) x.now.on.knobs.lanes memory spec.Plainly) }
{
    let r = plain_loop(alloc, x, memory)?;
    let counts = Counts::of_steps(alloc, r.steps);
    let ending = r.ending;
    let (memory, printed) = r.into_memory();
    Ok(LoopResult {
        memory,
        printed,
        ending,
        counts,
    })
}

fn in_rounds(
    alloc: Global,
    x: &Execution<'_>,
    choice: &Choice,
    memory: Memory,
) -> Result<LoopResult, AllocError>
    requires { IsBounded x.now }
    ensures { let mode = spec.InRounds choice.now in
        IfOk result (λ r. r ≡ spec.by_mode (execution_of x.now) x.now.on.knobs.lanes memory mode) }
{
    let r = lockstep(alloc, x, choice, memory)?;
    let counts = Counts::of_rounds(alloc, x, &r)?;
    let ending = r.ending;
    let (memory, printed) = r.into_memory();
    Ok(LoopResult {
        memory,
        printed,
        ending,
        counts,
    })
}

/// Runs an execution in rounds, where its loop has a choice, and else plain.
pub fn execute(alloc: Global, x: &Execution<'_>, memory: Memory) -> Result<LoopResult, AllocError>
    requires { IsBounded x.now }
    ensures { let mode = by_choices x.now.on.choices.now x.now.looped.number x.now.number in
        IfOk result (λ r. r ≡ spec.by_mode (execution_of x.now) x.now.on.knobs.lanes memory mode) }
{
    match at(x.on.choices, x.looped.number as usize) {
        Some(Some(choice)) => in_rounds(alloc, x, choice, memory),
        Some(None) => plainly(alloc, x, memory),
        None => plainly(alloc, x, memory),
    }
}

/// The locals after an execution: its counter holds the greater of its start and its bound. A trap has its own line.
pub fn after_loop(
    x: &Execution<'_>,
    hi: i64,
    ending: Ending,
    mut locals: Items<Val>,
) -> Result<Items<Val>, Fault>
    ensures { Gives stopped (spec.after_loop (execution_of x.now) hi ending locals) result }
{
    match ending {
        Ending::Done => {
            set_at(&mut locals, x.looped.counter, Val::Int(x.lo.max(hi)));
            Ok(locals)
        }
        Ending::Trap(t, line) => Err(Fault::Trap(t, line)),
    }
}
