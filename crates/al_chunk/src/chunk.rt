ghost use Rattle.std.specs.Prelude.{◌≡◌, ◌+◌, ◌*◌, ◌-◌, ◌<◌, ◌≤◌, min, Some, IfOk, slice_get};
ghost use Rattle.std.specs.Int.{div_ceil};
ghost use Rattle.al_core.specs.Chunk.{outcome};
ghost use Rattle.al_code.specs.Valid.{IsValid};
ghost use Rattle.al_snap.specs.Changes.{IsOutcome};
ghost use Rattle.al_chunk.specs.Footprint.{DependsOnReads};
ghost use Rattle.al_chunk.specs.Loops.{IsBounded, InEachTree};

use crate::env::LoopEnv;
use crate::iterations::run_iterations;
use al_code::Code;
use al_core::{Choice, LoopInfo};
use al_heap::Store;
use al_snap::{Change, Names, Snap};
use std::alloc::{AllocError, Global};

impl LoopEnv {
    /// The first iteration of a chunk, and how many it has.
    fn range(&self, chunk: u64) -> (u64, u64)
        requires bounded { IsBounded self.now }
        requires there { chunk < div_ceil self.now.trips self.now.chunk }
        ensures first { result.0 ≡ chunk * self.now.chunk }
        ensures count { result.1 ≡ min ((chunk + 1) * self.now.chunk) self.now.trips - chunk * self.now.chunk }
        ensures within { result.0 + result.1 ≤ self.now.trips }
    {
        let factor = u64::from(self.chunk);
        let first = chunk * factor;
        (first, factor.min(self.trips - first))
    }
}

/// Runs a chunk of a loop's iterations, one after another up to the first trap, on a private copy of a store's memory.
/// It is exactly the definition's outcome, on any memory and for any list of reductions. So is it on every other memory
/// that has as many locals and agrees with this one at each recorded read.
pub fn run_chunk<S: Store>(
    alloc: Global,
    code: &Code,
    info: &LoopInfo,
    choice: &Choice,
    env: &LoopEnv,
    input: &[i64],
    chunk: u64,
    base: &S,
) -> Result<Change, AllocError>
    requires valid { IsValid code.now }
    requires one { slice_get code.now.loops info.now.number ≡ Some info.now }
    requires bounded { IsBounded env.now }
    requires there { chunk < div_ceil env.now.trips env.now.chunk }
    ensures exact { IfOk result (λ c. InEachTree code.now info.now input.now env.now (λ x.
        IsOutcome c (outcome x choice.now.reds (S.memory base.now) chunk))) }
    ensures footprint { IfOk result (λ c. InEachTree code.now info.now input.now env.now (λ x.
        DependsOnReads c x choice.now.reds (S.memory base.now) chunk)) }
{
    let (first, count) = env.range(chunk);
    let names = Names::iteration(env.execution, first);
    let mut snap = Snap::begin(alloc, base, names, choice.reds.as_slice())?;
    let run = run_iterations(alloc, code, info, env, input, first, count, &mut snap)?;
    Ok(snap.into_change(run.ending, run.steps))
}
