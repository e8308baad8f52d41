//! A program at one of the annotated loops that its plain run comes to.
ghost use Rattle.std.specs.Prelude.{◌≡◌, ◌≤◌, Some, IfSome, slice_get};
ghost use Rattle.al_code.specs.Valid.{IsValid};
ghost use Rattle.al_chunk.specs.Loops.{IsBounded};
ghost use Rattle.al_plain.specs.Executions.{IsBounded as IsPlainBounded};

use crate::memories::plain_to_loop;
use crate::stores::store_to_loop;
use al_case_sources::{Tally, Trial};
use al_chunk::LoopEnv;
use al_code::Code;
use al_core::{Knobs, LoopInfo, trips};
use al_heap::Store;
use al_interpreter::{Program, Setting};
use al_plain::{Execution, Memory, loop_at};
use al_source::limits::LOOP_TRIPS;
use std::alloc::{AllocError, Global};

/// An execution of an annotated loop.
#[derive(Clone, Copy, Debug, PartialEq, Eq)]
pub struct Spot {
    pub number: u32,
    pub execution: u32,
    pub lo: i64,
    pub hi: i64,
}

/// An execution of an annotated loop at which a program stands, on one memory in a store and as the plain interpreter
/// keeps it.
#[derive(Drop)]
pub struct AtLoop<S> {
    pub spot: Spot,
    pub store: S,
    pub memory: Memory,
}

impl Spot {
    /// The execution in chunks of so many iterations, where its counter has 64 bits.
    pub fn env(self, trial: &Trial<'_>, chunk: u32) -> Option<LoopEnv>
        requires { 1 ≤ chunk }
        ensures { IfSome result IsBounded }
    {
        env_of(trial, self.execution, self.lo, self.hi, chunk)
    }
}

/// An execution in chunks of so many iterations, where its counter has 64 bits.
fn env_of(trial: &Trial<'_>, execution: u32, lo: i64, hi: i64, chunk: u32) -> Option<LoopEnv>
    requires { 1 ≤ chunk }
    ensures { IfSome result IsBounded }
{
    let count = trips(lo, hi).ok()?;
    if count > LOOP_TRIPS {
        return None;
    }
    lo.checked_add(count.cast_signed())?;
    Some(LoopEnv {
        execution,
        lo,
        trips: count,
        chunk,
        iter_steps: trial.iter_steps.min(1_000_000_000),
    })
}

/// The same execution for the plain interpreter, where it finds the loop.
pub fn plain_execution<'a>(
    trial: &Trial<'a>,
    program: &'a Program<'a>,
    env: &LoopEnv,
    number: u32,
) -> Option<Execution<'a>>
    requires { IsBounded env.now }
    ensures { IfSome result IsPlainBounded }
{
    let knobs = Knobs {
        lanes: 1,
        chunk: env.chunk,
        threads: 1,
        line: 1,
        iter_steps: env.iter_steps,
        serial_steps: trial.serial_steps,
    };
    Some(Execution {
        on: Setting {
            program,
            input: trial.input,
            knobs,
            choices: &[],
        },
        looped: loop_at(program, number)?,
        number: env.execution,
        lo: env.lo,
        trips: env.trips,
    })
}

/// The loop of a number.
pub fn info_of(code: &Code, number: u32) -> Option<&LoopInfo>
    ensures { IfSome result (λ info. slice_get code.now.loops info.now.number ≡ Some info.now) }
{
    let info = code.loops.get(number as usize)?;
    if info.number == number {
        Some(info)
    } else {
        None
    }
}

/// A program at the annotated loop that it comes to as the one of a number, from an empty store, where there is one.
pub fn to_loop<S: Store + Drop>(
    alloc: Global,
    trial: &Trial<'_>,
    program: &Program<'_>,
    store: S,
    wanted: u32,
    tally: &mut Tally,
) -> Result<Option<AtLoop<S>>, AllocError>
    requires { IsValid trial.now.source.now.code }
{
    let plain = plain_to_loop(alloc, trial, program, wanted)?;
    let here = store_to_loop(alloc, trial, store, wanted)?;
    let (Some((spot, store)), Some((plain_spot, memory))) = (here, plain) else {
        return Ok(None);
    };
    tally.expect(alloc, spot == plain_spot, "another loop", u64::from(wanted))?;
    Ok(Some(AtLoop {
        spot,
        store,
        memory,
    }))
}
