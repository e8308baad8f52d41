//! Chunks of annotated loops over a store, and the loops run plain, as on the plain interpreter's memory.
ghost use Rattle.std.specs.Prelude.{◌≡◌, ◌≤◌, Some, slice_get};
ghost use Rattle.al_code.specs.Valid.{IsValid};
ghost use Rattle.al_chunk.specs.Loops.{IsBounded};
ghost use Rattle.al_plain.specs.Executions.{IsBounded as IsPlainBounded};

use crate::beside::{addresses, is_same, sampled};
use crate::places::holds_the_same;
use crate::walk::{AtLoop, info_of, plain_execution, to_loop};
use al_case_sources::{Tally, Trial};
use al_chunk::{LoopEnv, PlainRun, run_chunk, run_plain_loop};
use al_core::{Addr, LoopInfo, Red};
use al_heap::{MapStore, Store};
use al_interpreter::Program;
use al_pages::PageStore;
use al_plain::{Execution, Finished, Memory, Outcome, plain_loop};
use al_snap::Change;
use std::alloc::{AllocError, Global};

const FACTORS: [u32; 3] = [1, 2, 16];

/// Whether a change is what comes of a chunk on the plain interpreter's memory.
fn is_as_plain(
    alloc: Global,
    mut change: Change,
    reds: &[Red],
    x: &Execution<'_>,
    memory: &Memory,
    places: &[Addr],
    c: u64,
) -> Result<bool, AllocError>
    requires { IsPlainBounded x.now }
{
    let plain = Outcome::run(alloc, x, reds, memory, c)?;
    is_same(alloc, &mut change, &plain, places)
}

/// Every chunk over a store is as on the plain interpreter's memory.
fn check_chunks<S: Store>(
    alloc: Global,
    trial: &Trial<'_>,
    info: &LoopInfo,
    env: &LoopEnv,
    x: &Execution<'_>,
    there: &AtLoop<S>,
    places: &[Addr],
    tally: &mut Tally,
) -> Result<(), AllocError>
    requires valid { IsValid trial.now.source.now.code }
    requires one { slice_get trial.now.source.now.code.loops info.now.number ≡ Some info.now }
    requires bounded { IsBounded env.now }
    requires plain { IsPlainBounded x.now }
{
    let code = &trial.source.code;
    let (own, input, store) = (&info.own, trial.input, &there.store);
    let reds = own.reds.as_slice();
    for c in 0..env.trips.div_ceil(u64::from(env.chunk)) {
        let change = run_chunk(alloc, code, info, own, env, input, c, store)?;
        let same = is_as_plain(alloc, change, reds, x, &there.memory, places, c)?;
        tally.expect(alloc, same, "another chunk", c)?;
        tally.chunks = tally.chunks.wrapping_add(1);
    }
    Ok(())
}

/// The chunks of a loop, of so many iterations, over a store.
fn check_factor<S: Store>(
    alloc: Global,
    trial: &Trial<'_>,
    program: &Program<'_>,
    there: &AtLoop<S>,
    factor: u32,
    tally: &mut Tally,
) -> Result<(), AllocError>
    requires valid { IsValid trial.now.source.now.code }
    requires factor { 1 ≤ factor }
{
    let code = &trial.source.code;
    let Some(info) = info_of(code, there.spot.number) else {
        return tally.expect(alloc, false, "no loop", u64::from(there.spot.number));
    };
    let Some(env) = there.spot.env(trial, factor) else {
        return Ok(());
    };
    let Some(x) = plain_execution(trial, program, &env, there.spot.number) else {
        return tally.expect(
            alloc,
            false,
            "no loop in the tree",
            u64::from(there.spot.number),
        );
    };
    let all = addresses(alloc, code, env.execution)?;
    let places = sampled(alloc, all.as_slice())?;
    check_chunks(
        alloc,
        trial,
        info,
        &env,
        &x,
        there,
        places.as_slice(),
        tally,
    )
}

/// Whether a loop that ran plain ended and left a store as on the plain interpreter's memory.
fn left_alike<S: Store>(ran: &PlainRun<S>, finished: Finished, places: &[Addr]) -> bool {
    let same_end = ran.ending == finished.ending && u128::from(ran.steps) == finished.steps;
    let (memory, printed) = finished.into_memory();
    same_end
        && ran.printed.as_slice() == printed.as_slice()
        && holds_the_same(&ran.store, &memory, places)
}

/// Whether a loop that ran plain ran as on the plain interpreter's memory.
fn ran_as_plain<S: Store + Drop>(
    alloc: Global,
    ran: PlainRun<S>,
    x: &Execution<'_>,
    memory: Memory,
    places: &[Addr],
) -> Result<bool, AllocError>
    requires { IsPlainBounded x.now }
{
    let finished = plain_loop(alloc, x, memory)?;
    Ok(left_alike(&ran, finished, places))
}

/// A loop run plain over a store is as on the plain interpreter's memory.
fn check_plain<S: Store + Drop>(
    alloc: Global,
    trial: &Trial<'_>,
    program: &Program<'_>,
    there: AtLoop<S>,
    places: &[Addr],
    tally: &mut Tally,
) -> Result<(), AllocError>
    requires { IsValid trial.now.source.now.code }
{
    let code = &trial.source.code;
    let (Some(info), Some(env)) = (info_of(code, there.spot.number), there.spot.env(trial, 1))
    else {
        return Ok(());
    };
    let Some(x) = plain_execution(trial, program, &env, there.spot.number) else {
        return Ok(());
    };
    let AtLoop { store, memory, .. } = there;
    let ran = run_plain_loop(alloc, code, info, &env, trial.input, store)?;
    let same = ran_as_plain(alloc, ran, &x, memory, places)?;
    tally.expect(alloc, same, "another plain loop", u64::from(env.execution))
}

/// The chunks of a loop over a store, of each size.
fn check_factors<S: Store>(
    alloc: Global,
    trial: &Trial<'_>,
    program: &Program<'_>,
    there: &AtLoop<S>,
    tally: &mut Tally,
) -> Result<(), AllocError>
    requires { IsValid trial.now.source.now.code }
{
    tally.loops = tally.loops.wrapping_add(1);
    for factor in FACTORS {
        check_factor(alloc, trial, program, there, factor, tally)?;
    }
    Ok(())
}

/// A loop over a store, in chunks of each size and plain.
fn check_loop<S: Store + Drop>(
    alloc: Global,
    trial: &Trial<'_>,
    program: &Program<'_>,
    there: AtLoop<S>,
    tally: &mut Tally,
) -> Result<(), AllocError>
    requires { IsValid trial.now.source.now.code }
{
    check_factors(alloc, trial, program, &there, tally)?;
    let places = addresses(alloc, &trial.source.code, there.spot.execution)?;
    check_plain(alloc, trial, program, there, places.as_slice(), tally)
}

/// The annotated loop that a program comes to as the one of a number, over a store. Whether there is one.
fn check_on<S: Store + Drop>(
    alloc: Global,
    trial: &Trial<'_>,
    program: &Program<'_>,
    store: S,
    n: u32,
    tally: &mut Tally,
) -> Result<bool, AllocError>
    requires { IsValid trial.now.source.now.code }
{
    match to_loop(alloc, trial, program, store, n, tally)? {
        Some(there) => {
            check_loop(alloc, trial, program, there, tally)?;
            Ok(true)
        }
        None => Ok(false),
    }
}

fn check_each(
    alloc: Global,
    trial: &Trial<'_>,
    program: &Program<'_>,
    tally: &mut Tally,
) -> Result<(), AllocError>
    requires { IsValid trial.now.source.now.code }
{
    for n in 0..u32::MAX {
        if !check_on(alloc, trial, program, MapStore::new(alloc), n, tally)? {
            return Ok(());
        }
        let again = check_on(alloc, trial, program, PageStore::new(alloc), n, tally)?;
        tally.expect(alloc, again, "no loop over pages", u64::from(n))?;
    }
    Ok(())
}

/// Each annotated loop that a program comes to, over both stores, is as on the plain interpreter's memory.
pub fn check_loops(alloc: Global, trial: &Trial<'_>, tally: &mut Tally) -> Result<(), AllocError>
    requires { IsValid trial.now.source.now.code }
{
    let program = Program::new(alloc, &trial.source.typed)?;
    check_each(alloc, trial, &program, tally)
}
