//! Chunks that make as many objects as an iteration may.
ghost use Rattle.std.specs.Prelude.{◌≡◌, Some, slice_get};
ghost use Rattle.al_code.specs.Valid.{IsValid};
ghost use Rattle.al_chunk.specs.Loops.{IsBounded};

use crate::walk::{info_of, to_loop};
use al_case_sources::{Tally, Trial, ending_text};
use al_chunk::{LoopEnv, run_chunk};
use al_core::{LoopInfo, Obj};
use al_heap::Store;
use al_interpreter::Program;
use al_pages::PageStore;
use al_snap::Change;
use std::alloc::{AllocError, Global};

/// Whether an iteration made so many objects.
fn has_made(change: &Change, iteration: u64, many: u32) -> bool {
    change
        .made
        .has(Obj::Iter(0, iteration, many.wrapping_sub(1)))
        && !change.made.has(Obj::Iter(0, iteration, many))
}

/// Chunks of an iteration each end as is wanted, and each made so many objects.
fn check_each<S: Store>(
    alloc: Global,
    trial: &Trial<'_>,
    info: &LoopInfo,
    env: &LoopEnv,
    store: &S,
    wanted: (u32, &str),
    tally: &mut Tally,
) -> Result<(), AllocError>
    requires valid { IsValid trial.now.source.now.code }
    requires one { slice_get trial.now.source.now.code.loops info.now.number ≡ Some info.now }
    requires bounded { IsBounded env.now }
{
    let code = &trial.source.code;
    let (many, endings) = wanted;
    let mut wanted = endings.split(", ");
    for c in 0..env.trips.div_ceil(u64::from(env.chunk)) {
        let change = run_chunk(alloc, code, info, &info.own, env, trial.input, c, store)?;
        let ending = ending_text(alloc, change.ending)?;
        let same = wanted.next().unwrap_or("") == ending.as_str();
        tally.expect(
            alloc,
            same && has_made(&change, c, many),
            "other objects in chunk",
            c,
        )?;
        tally.chunks = tally.chunks.wrapping_add(1);
    }
    Ok(())
}

/// The iterations of a program's first loop make as many objects and end as is wanted, as in `2: done, Alloc at 7`.
pub fn check_made(
    alloc: Global,
    trial: &Trial<'_>,
    wanted: &str,
    tally: &mut Tally,
) -> Result<(), AllocError>
    requires { IsValid trial.now.source.now.code }
{
    let (many, endings) = wanted.split_once(": ").unwrap_or((wanted, ""));
    let many = many.parse::<u32>().unwrap_or(0);
    let program = Program::new(alloc, &trial.source.typed)?;
    let Some(there) = to_loop(alloc, trial, &program, PageStore::new(alloc), 0, tally)? else {
        return tally.expect(alloc, false, "no loop", 0);
    };
    let (Some(info), Some(env)) = (
        info_of(&trial.source.code, there.spot.number),
        there.spot.env(trial, 1),
    ) else {
        return tally.expect(alloc, false, "no loop", 0);
    };
    check_each(
        alloc,
        trial,
        info,
        &env,
        &there.store,
        (many, endings),
        tally,
    )
}
