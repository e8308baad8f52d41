ghost use Rattle.std.specs.Prelude.{◌≡◌, Some, IfOk, slice_get};
ghost use Rattle.al_core.specs.Run.{result_of_steps, counts_of_steps};
ghost use Rattle.al_core.specs.Serial.{plain_loop};
ghost use Rattle.al_code.specs.Valid.{IsValid};
ghost use Rattle.al_chunk.specs.Loops.{IsBounded, InEachTree};

use crate::env::LoopEnv;
use crate::iterations::run_iterations;
use al_code::Code;
use al_core::{Ending, LoopInfo};
use al_heap::Store;
use al_snap::{Direct, Names};
use sqlite_items::Items;
use std::alloc::{AllocError, Global};

/// What a loop that ran on a store left, and how it ended.
#[derive(Drop)]
pub struct PlainRun<S> {
    pub store: S,
    pub printed: Items<u8>,
    pub ending: Ending,
    pub steps: u64,
}

/// Runs all iterations of an execution on a store, one after another up to the first trap. It is exactly the
/// definition's plain loop.
pub fn run_plain_loop<S: Store + Drop>(
    alloc: Global,
    code: &Code,
    info: &LoopInfo,
    env: &LoopEnv,
    input: &[i64],
    store: S,
) -> Result<PlainRun<S>, AllocError>
    requires valid { IsValid code.now }
    requires one { slice_get code.now.loops info.now.number ≡ Some info.now }
    requires bounded { IsBounded env.now }
    ensures { IfOk result (λ r. InEachTree code.now info.now input.now env.now (λ x.
        result_of_steps (plain_loop x (S.memory store))
        ≡ record {
          memory = S.memory r.store;
          printed = r.printed;
          ending = r.ending;
          counts = counts_of_steps r.steps;
        })) }
{
    let mut view = Direct::begin(alloc, store, Names::iteration(env.execution, 0));
    let run = run_iterations(alloc, code, info, env, input, 0, env.trips, &mut view)?;
    let (store, _, printed) = view.finish();
    Ok(PlainRun {
        store,
        printed,
        ending: run.ending,
        steps: run.steps,
    })
}
