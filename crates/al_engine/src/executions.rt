ghost use Rattle.std.specs.Prelude.{◌≡◌, IfOk};
ghost use Rattle.al_core.specs.Lines.{IsLineSize};
ghost use Rattle.al_core.specs.Report.{by_choices};
ghost use Rattle.al_core.specs.Run as spec;
ghost use Rattle.al_engine.specs.Executions.{InTrees, MayEnter, counts_of, loop_result};

use crate::counts::Counts;
use crate::entered::Entered;
use crate::rounds::lockstep;
use al_chunk::run_plain_loop;
use al_core::{Choice, Ending};
use al_heap::Store;
use al_round::Gate;
use sqlite_items::{Items, at};
use std::alloc::{AllocError, Global};
use std::thread::Threads;

/// What an execution comes to: the store, what was printed, how it ended, and its counts.
#[derive(Drop)]
pub(crate) struct LoopResult<S> {
    pub store: S,
    pub printed: Items<u8>,
    pub ending: Ending,
    pub counts: Counts,
}

fn plainly<S: Store + Drop>(
    alloc: Global,
    x: &Entered<'_>,
    store: S,
) -> Result<LoopResult<S>, AllocError>
    requires { MayEnter x.now }
    ensures { IfOk result (λ r. InTrees x.now (λ e.
        spec.by_mode e x.now.job.knobs.lanes (S.memory store) spec.Plainly
        ≡ loop_result (S.memory r.store) r.printed r.ending r.counts)) }
{
    let job = x.job;
    let run = run_plain_loop(alloc, job.code, x.info, &x.env, job.input, store)?;
    Ok(LoopResult {
        store: run.store,
        printed: run.printed,
        ending: run.ending,
        counts: Counts::of_steps(alloc, run.steps),
    })
}

fn in_rounds<R: Threads + Sync, S: Store + Sync + Drop, G: Gate>(
    rt: &R,
    alloc: Global,
    x: &Entered<'_>,
    choice: &Choice,
    mut store: S,
    gate: &G,
) -> Result<LoopResult<S>, AllocError>
    requires may { MayEnter x.now }
    requires line { IsLineSize choice.now.line }
    ensures { IfOk result (λ r. InTrees x.now (λ e.
        spec.by_mode e x.now.job.knobs.lanes (S.memory store) (spec.InRounds choice.now)
        ≡ loop_result (S.memory r.store) r.printed r.ending r.counts)) }
{
    let r = lockstep(rt, alloc, x, choice, &mut store, gate)?;
    let counts = Counts::of_rounds(alloc, x, &r)?;
    Ok(LoopResult {
        store,
        printed: r.printed,
        ending: r.ending,
        counts,
    })
}

/// Runs an execution in rounds, where its loop has a choice, and else plain.
pub(crate) fn execute<R: Threads + Sync, S: Store + Sync + Drop, G: Gate>(
    rt: &R,
    alloc: Global,
    x: &Entered<'_>,
    store: S,
    gate: &G,
) -> Result<LoopResult<S>, AllocError>
    requires may { MayEnter x.now }
    ensures { IfOk result (λ r. InTrees x.now (λ e.
        spec.by_mode e x.now.job.knobs.lanes (S.memory store)
        (by_choices x.now.job.choices.now x.now.info.now.number x.now.env.execution)
        ≡ loop_result (S.memory r.store) r.printed r.ending r.counts)) }
{
    match at(x.job.choices, x.info.number as usize) {
        Some(Some(choice)) => in_rounds(rt, alloc, x, choice, store, gate),
        Some(None) => plainly(alloc, x, store),
        None => plainly(alloc, x, store),
    }
}
