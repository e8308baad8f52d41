//! Runs the annotated loops of a source in chunks and directly, to see what a chunk costs.
#![tactic(auto)]

ghost use Rattle.std.specs.Prelude.{◌≡◌, ◌≤◌, Some, IfSome, IfOk, slice_get};
ghost use Rattle.al_code.specs.Valid.{IsValid};
ghost use Rattle.al_exec.specs.Machines.{Stands};
ghost use Rattle.al_chunk.specs.Loops.{IsBounded};

use al_chunk::{LoopEnv, PlainRun, run_chunk, run_plain_loop};
use al_code::Code;
use al_core::{Budget, Ending, LoopInfo, Obj, trips};
use al_exec::{Machine, Stop};
use al_front::{FrontFault, resolve};
use al_heap::Store;
use al_lower::{LowerFault, lower};
use al_pages::PageStore;
use al_snap::{Direct, Names};
use al_source::limits::LOOP_TRIPS;
use al_values::{PackedValue, Words};
use anyhow::Error;
use sqlite_items::Items;
use std::alloc::{AllocError, Global};
use std::rt::Clock;
use std::time::Instant;
use std::{env, fs};

const STEPS: u64 = 1_000_000_000;

/// The code of a source, or none where the source is refused.
fn lowered(alloc: Global, source: &[u8]) -> Result<Option<Code>, AllocError>
    ensures { IfOk result (λ code. IfSome code IsValid) }
{
    match resolve(alloc, source) {
        Ok((typed, infos)) => match lower(alloc, &typed, infos.as_slice()) {
            Ok(code) => Ok(Some(code)),
            Err(LowerFault::TooLarge) => Ok(None),
            Err(LowerFault::Memory) => Err(AllocError),
        },
        Err(FrontFault::Memory) => Err(AllocError),
        Err(_) => Ok(None),
    }
}

/// A store with the globals of a program.
fn globals(alloc: Global, code: &Code) -> Result<PageStore, AllocError> {
    let mut store = PageStore::new(alloc);
    let mut k = 0u32;
    for global in code.globals.as_slice() {
        let obj = Obj::Global(k);
        store.prepare(obj)?;
        store.add(obj, Words::zeros(alloc, global.words)?);
        store.put_word(obj, 0, PackedValue::from_int(global.start));
        k = k.wrapping_add(1);
    }
    Ok(store)
}

/// The nanoseconds that loops took in chunks and directly, and the steps of either.
#[derive(Clone, Copy)]
struct Times {
    chunks: u128,
    chunk_steps: u64,
    direct: u128,
    direct_steps: u64,
}

/// The execution of a loop, where its counter has 64 bits.
fn env_of(lo: i64, hi: i64, execution: u32, chunk: u32) -> Option<LoopEnv>
    requires { 1 ≤ chunk }
    ensures { IfSome result IsBounded }
{
    let count = trips(lo, hi).ok()?;
    if count > LOOP_TRIPS {
        return None;
    }
    lo.checked_add(count.cast_signed())?;
    Some(LoopEnv {
        execution,
        lo,
        trips: count,
        chunk,
        iter_steps: STEPS,
    })
}

/// Runs all chunks of a loop on a store, each on the memory as it is, and answers their nanoseconds and steps.
fn in_chunks<R: AllocGlobal + Clock, S: Store>(
    rt: &R,
    code: &Code,
    info: &LoopInfo,
    env: &LoopEnv,
    store: &S,
) -> Result<(u128, u64), Error>
    requires valid { IsValid code.now }
    requires one { slice_get code.now.loops info.now.number ≡ Some info.now }
    requires bounded { IsBounded env.now }
{
    let start = Instant::now(rt)?;
    let mut steps = 0u64;
    for c in 0..env.trips.div_ceil(u64::from(env.chunk)) {
        let change = run_chunk(rt.alloc(), code, info, &info.own, env, &[], c, store)?;
        steps = steps.wrapping_add(change.steps);
    }
    Ok((start.elapsed(rt)?.as_nanos(), steps))
}

/// The machine goes on after a loop, with the locals that the loop left in the store.
fn come_back<S: Store>(code: &Code, machine: &mut Machine, store: &mut S, counter: i64)
    requires valid { IsValid code.now }
    requires stands { Stands code.now machine.old }
    ensures { Stands code.now machine.new }
{
    let locals = store.take_locals();
    if locals.len() == machine.locals().len() {
        machine.after_loop(locals.as_slice(), counter);
    }
}

/// Answers a loop at which a machine stands: in chunks, of which nothing is kept, and then directly. It answers the
/// store, and whether no iteration trapped.
fn answer<R: AllocGlobal + Clock, S: Store + Drop>(
    rt: &R,
    code: &Code,
    info: &LoopInfo,
    env: &LoopEnv,
    hi: i64,
    machine: &mut Machine,
    mut store: S,
    times: &mut Times,
) -> Result<(S, bool), Error>
    requires valid { IsValid code.now }
    requires one { slice_get code.now.loops info.now.number ≡ Some info.now }
    requires bounded { IsBounded env.now }
    requires stands { Stands code.now machine.old }
    ensures { Stands code.now machine.new }
{
    store.set_locals(Items::from_slice(rt.alloc(), machine.locals())?);
    let (chunks, chunk_steps) = in_chunks(rt, code, info, env, &store)?;
    let start = Instant::now(rt)?;
    let ran = run_plain_loop(rt.alloc(), code, info, env, &[], store)?;
    let direct = start.elapsed(rt)?.as_nanos();
    times.chunks = times.chunks.wrapping_add(chunks);
    times.chunk_steps = times.chunk_steps.wrapping_add(chunk_steps);
    times.direct = times.direct.wrapping_add(direct);
    times.direct_steps = times.direct_steps.wrapping_add(ran.steps);
    let PlainRun {
        mut store,
        ending,
        ..
    } = ran;
    come_back(code, machine, &mut store, env.lo.max(hi));
    Ok((store, ending == Ending::Done))
}

/// Runs a program with no input, each of its annotated loops both ways, in chunks of so many iterations.
fn run<R: AllocGlobal + Clock>(rt: &R, code: &Code, chunk: u32) -> Result<Option<Times>, Error>
    requires valid { IsValid code.now }
    requires chunk { 1 ≤ chunk }
{
    if code.funcs.as_slice()[code.main as usize].params != 0 {
        return Ok(None);
    }
    let mut machine = Machine::call(rt.alloc(), code, code.main, &[])?;
    let mut store = globals(rt.alloc(), code)?;
    let mut names = Names::outer();
    let mut budget = Budget::new(STEPS);
    let mut times = Times {
        chunks: 0,
        chunk_steps: 0,
        direct: 0,
        direct_steps: 0,
    };
    for execution in 0..u32::MAX {
        let mut view = Direct::begin(rt.alloc(), store, names);
        let stop = machine.go(code, &[], &mut view, &mut budget)?;
        let (left, made, _) = view.finish();
        names = made;
        let Stop::AtLoop { number, lo, hi } = stop else {
            return Ok(Some(times));
        };
        let Some(info) = code.loops.get(number as usize) else {
            return Ok(None);
        };
        let Some(env) = env_of(lo, hi, execution, chunk) else {
            return Ok(None);
        };
        if info.number != number {
            return Ok(None);
        }
        let (left, done) = answer(rt, code, info, &env, hi, &mut machine, left, &mut times)?;
        store = left;
        if !done {
            return Ok(Some(times));
        }
    }
    Ok(None)
}

/// For each source that a word after the first names: the nanoseconds and steps of its annotated loops in chunks of as
/// many iterations as the first word says, and directly.
fn main(rt: HostRuntime) -> Result<(), Error> {
    let mut words = env::args(&rt)?.skip(1);
    let Some(first) = words.next() else {
        return Ok(());
    };
    let chunk = first.as_str().parse::<u32>().unwrap_or(16).max(1);
    for name in words {
        let source = fs::read(&rt, name.as_str())?;
        let Some(code) = lowered(rt.alloc(), source.as_slice())? else {
            println!(rt; "refused")?;
            continue;
        };
        let Some(times) = run(&rt, &code, chunk)? else {
            println!(rt; "not run")?;
            continue;
        };
        let Times {
            chunks,
            chunk_steps,
            direct,
            direct_steps,
        } = times;
        println!(rt; "{name} {chunks} {chunk_steps} {direct} {direct_steps}")?;
    }
    Ok(())
}
