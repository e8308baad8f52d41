//! Rounds of annotated loops beside those of the plain interpreter.
ghost use Rattle.std.specs.Prelude.{◌≡◌, ◌≤◌, ◌<◌, Some, IfOk, All, length, slice_get};
ghost use Rattle.std.specs.Int.{div_ceil};
ghost use Rattle.al_core.specs.Lines.{IsLineSize};
ghost use Rattle.al_code.specs.Valid.{IsValid};
ghost use Rattle.al_chunk.specs.Loops.{IsBounded};
ghost use Rattle.al_plain.specs.Executions.{IsBounded as IsPlainBounded};

use crate::alike::is_same_round;
use crate::choices::choice_of;
use al_case_loops::{AtLoop, addresses, info_of, plain_execution, to_loop};
use al_case_sources::{Row, Tally, Trial, row_of};
use al_chunk::LoopEnv;
use al_core::{Addr, Choice, Ending, Judged, LoopInfo, Verdict};
use al_interpreter::Program;
use al_pages::PageStore;
use al_plain::{Execution, Memory, Round};
use al_round::{FreeGate, RoundReport, round};
use sqlite_items::Items;
use std::alloc::{AllocError, Global};
use std::thread::Threads;

// The rounds of a loop that are compared, at most.
const MOST_ROUNDS: u64 = 40;

/// Where the rounds of an execution stand.
#[derive(Drop)]
struct Standing {
    store: PageStore,
    /// The plain interpreter's memory.
    memory: Memory,
    pending: Vec<u64>,
    /// The verdicts of the last round.
    verdicts: Items<Verdict>,
    ending: Ending,
}

/// The first of these chunks that the execution has, at most 64 and at most so many.
fn first_of(
    alloc: Global,
    env: &LoopEnv,
    pending: &[u64],
    lanes: u32,
) -> Result<Vec<u64>, AllocError>
    requires { IsBounded env.now }
    ensures there { IfOk result (λ v. All (λ c. c < div_ceil env.now.trips env.now.chunk) v.items) }
    ensures few { IfOk result (λ v. length v.items ≤ 64) }
{
    let count = env.trips.div_ceil(u64::from(env.chunk));
    let mut chunks = Vec::new(alloc);
    for chunk in pending {
        if *chunk < count && chunks.len() < 64 && (chunks.len() as u64) < u64::from(lanes) {
            chunks.push(*chunk)?;
        }
    }
    Ok(chunks)
}

/// What stays pending after a round.
fn left_of(
    alloc: Global,
    judged: &[Judged],
    pending: &[u64],
    lanes: usize,
) -> Result<Vec<u64>, AllocError> {
    let mut left = Vec::new(alloc);
    for j in judged {
        match j.verdict {
            Verdict::Commit | Verdict::CommitTrap => {}
            Verdict::Fail | Verdict::After => left.push(j.chunk)?,
        }
    }
    for chunk in pending.iter().skip(lanes) {
        left.push(*chunk)?;
    }
    Ok(left)
}

impl Standing {
    /// Goes on after a round, with what is pending then.
    fn after(&mut self, report: RoundReport, plain: Round, pending: Vec<u64>) {
        self.verdicts = report.verdicts;
        self.ending = report.ending;
        self.memory = plain.memory;
        self.pending = pending;
    }
}

/// A round of these chunks, and whether it is that of the plain interpreter.
fn is_as_plain<R: Threads + Sync>(
    rt: &R,
    alloc: Global,
    trial: &Trial<'_>,
    info: &LoopInfo,
    env: &LoopEnv,
    row: &Row,
    choice: &Choice,
    chunks: &[u64],
    places: &[Addr],
    there: &mut Standing,
    plain: Round,
) -> Result<bool, AllocError>
    requires valid { IsValid trial.now.source.now.code }
    requires one { slice_get trial.now.source.now.code.loops info.now.number ≡ Some info.now }
    requires bounded { IsBounded env.now }
    requires line { IsLineSize choice.now.line }
    requires some { 1 ≤ length chunks.now }
    requires few { length chunks.now ≤ 64 }
    requires chunks { All (λ c. c < div_ceil env.now.trips env.now.chunk) chunks.now }
{
    let (pending, judged) = (there.pending.as_slice(), plain.verdicts.as_slice());
    let pending = left_of(alloc, judged, pending, chunks.len())?;
    let threads = row.threads.clamp(1, 64);
    let (code, input, store) = (&trial.source.code, trial.input, &mut there.store);
    let report = round(
        rt, alloc, store, code, info, choice, env, input, chunks, threads, &FreeGate,
    )?;
    let same = is_same_round(&report, &there.store, &plain, places);
    there.after(report, plain, pending);
    Ok(same)
}

/// One round, and whether it has a chunk and is that of the plain interpreter.
fn check_round<R: Threads + Sync>(
    rt: &R,
    alloc: Global,
    trial: &Trial<'_>,
    info: &LoopInfo,
    env: &LoopEnv,
    x: &Execution<'_>,
    row: &Row,
    choice: &Choice,
    places: &[Addr],
    there: &mut Standing,
) -> Result<bool, AllocError>
    requires valid { IsValid trial.now.source.now.code }
    requires one { slice_get trial.now.source.now.code.loops info.now.number ≡ Some info.now }
    requires bounded { IsBounded env.now }
    requires plain { IsPlainBounded x.now }
    requires line { IsLineSize choice.now.line }
{
    let chunks = first_of(alloc, env, there.pending.as_slice(), row.lanes)?;
    if chunks.is_empty() {
        return Ok(false);
    }
    let chunks = chunks.as_slice();
    let plain = Round::run(alloc, x, choice, chunks, &there.memory)?;
    is_as_plain(
        rt, alloc, trial, info, env, row, choice, chunks, places, there, plain,
    )
}

/// So many rounds at most, each of which is that of the plain interpreter.
fn go_on<R: Threads + Sync>(
    rt: &R,
    alloc: Global,
    trial: &Trial<'_>,
    info: &LoopInfo,
    env: &LoopEnv,
    x: &Execution<'_>,
    row: &Row,
    there: &mut Standing,
    most: u64,
    tally: &mut Tally,
) -> Result<(), AllocError>
    requires valid { IsValid trial.now.source.now.code }
    requires one { slice_get trial.now.source.now.code.loops info.now.number ≡ Some info.now }
    requires bounded { IsBounded env.now }
    requires plain { IsPlainBounded x.now }
{
    let choice = choice_of(alloc, info, row)?;
    let places = addresses(alloc, &trial.source.code, env.execution)?;
    let places = places.as_slice();
    for number in 0..most {
        if there.pending.is_empty() || there.ending != Ending::Done {
            return Ok(());
        }
        let same = check_round(rt, alloc, trial, info, env, x, row, &choice, places, there)?;
        tally.expect(alloc, same, "another round", number)?;
        tally.rounds = tally.rounds.wrapping_add(1);
    }
    Ok(())
}

/// All chunks of an execution.
fn all_chunks(alloc: Global, env: &LoopEnv) -> Result<Vec<u64>, AllocError>
    requires { IsBounded env.now }
{
    let mut all = Vec::new(alloc);
    for chunk in 0..env.trips.div_ceil(u64::from(env.chunk)) {
        all.push(chunk)?;
    }
    Ok(all)
}

/// So many rounds at most of a loop, as a row says. It answers the verdicts of the last.
fn loop_rounds<R: Threads + Sync>(
    rt: &R,
    alloc: Global,
    trial: &Trial<'_>,
    program: &Program<'_>,
    there: AtLoop<PageStore>,
    row: &Row,
    most: u64,
    tally: &mut Tally,
) -> Result<Items<Verdict>, AllocError>
    requires { IsValid trial.now.source.now.code }
{
    let AtLoop {
        spot,
        store,
        memory,
    } = there;
    let (Some(info), Some(env)) = (
        info_of(&trial.source.code, spot.number),
        spot.env(trial, row.chunk.max(1)),
    ) else {
        return Ok(Items::new(alloc));
    };
    let Some(x) = plain_execution(trial, program, &env, spot.number) else {
        return Ok(Items::new(alloc));
    };
    let mut stand = Standing {
        store,
        memory,
        pending: all_chunks(alloc, &env)?,
        verdicts: Items::new(alloc),
        ending: Ending::Done,
    };
    go_on(
        rt, alloc, trial, info, &env, &x, row, &mut stand, most, tally,
    )?;
    Ok(stand.verdicts)
}

/// The rounds of the annotated loop that a program comes to as the one of a number, as a row says. It answers the
/// verdicts of the last of so many, where there is such a loop.
fn rounds_of<R: Threads + Sync>(
    rt: &R,
    alloc: Global,
    trial: &Trial<'_>,
    program: &Program<'_>,
    n: u32,
    row: &Row,
    most: u64,
    tally: &mut Tally,
) -> Result<Option<Items<Verdict>>, AllocError>
    requires { IsValid trial.now.source.now.code }
{
    let store = PageStore::new(alloc);
    match to_loop(alloc, trial, program, store, n, tally)? {
        Some(there) => Ok(Some(loop_rounds(rt, alloc, trial, program, there, row, most, tally)?)),
        None => Ok(None),
    }
}

/// The rounds of each loop that a program comes to, as each row says, so many at most of each, are those of the plain
/// interpreter.
pub fn check_rounds<R: Threads + Sync>(
    rt: &R,
    alloc: Global,
    trial: &Trial<'_>,
    rows: &[Row],
    tally: &mut Tally,
) -> Result<(), AllocError>
    requires { IsValid trial.now.source.now.code }
{
    let program = Program::new(alloc, &trial.source.typed)?;
    for n in 0..u32::MAX {
        for row in rows {
            let ran = rounds_of(rt, alloc, trial, &program, n, row, MOST_ROUNDS, tally)?;
            if ran.is_none() {
                return Ok(());
            }
        }
        tally.round_loops = tally.round_loops.wrapping_add(1);
    }
    Ok(())
}

fn verdict_of(word: &str) -> Verdict {
    match word {
        "commit" => Verdict::Commit,
        "trap" => Verdict::CommitTrap,
        "fail" => Verdict::Fail,
        _ => Verdict::After,
    }
}

/// Verdicts in words.
fn verdicts_of(alloc: Global, words: &str) -> Result<Vec<Verdict>, AllocError> {
    let mut all = Vec::new(alloc);
    for word in words.split(' ') {
        all.push(verdict_of(word))?;
    }
    Ok(all)
}

/// The first round of a program's first loop, under a row and with verdicts that are wanted, as `RAW InOrder 2 1 1 4: `
/// and a verdict for each lane.
pub fn check_first_round<R: Threads + Sync>(
    rt: &R,
    alloc: Global,
    trial: &Trial<'_>,
    wanted: &str,
    tally: &mut Tally,
) -> Result<(), AllocError>
    requires { IsValid trial.now.source.now.code }
{
    let (line, words) = wanted.split_once(": ").unwrap_or((wanted, ""));
    let wanted = verdicts_of(alloc, words)?;
    let row = row_of(line);
    let program = Program::new(alloc, &trial.source.typed)?;
    let verdicts = rounds_of(rt, alloc, trial, &program, 0, &row, 1, tally)?;
    let same = verdicts.is_some_and(|v| v.as_slice() == wanted.as_slice());
    tally.expect(alloc, same, "other verdicts", 0)
}
