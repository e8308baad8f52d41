//! Runs sources of data files through layers of alter, and compares with the plain interpreter.
#![tactic(auto)]

ghost use Rattle.al_code.specs.Valid.{IsValid};

use al_case_loops::{check_loops, check_made};
use al_case_rounds::{check_first_round, check_reports, check_rounds};
use al_case_runs::check_run;
use al_case_sources::{
    Row, Said, Source, Tally, Trial, expanded, lower_source, numbers, read_case, rows_of,
};
use al_source::limits::{DEFAULT_ITERATION_STEPS, DEFAULT_SERIAL_STEPS};
use anyhow::Error;
use std::alloc::{AllocError, Global};
use std::rt::Files;
use std::thread::Threads;
use std::{env, fs, str};

/// The rows of options under which rounds are run, and whole programs.
#[derive(Drop)]
struct Rows {
    of_rounds: Vec<Row>,
    /// For loops whose rounds take long.
    few: Vec<Row>,
    of_engine: Vec<Row>,
}

/// A budget, where one is said.
fn budget(said: &[i64], k: usize, otherwise: u32) -> u64 {
    match said.get(k) {
        Some(steps) => u64::try_from(*steps).unwrap_or(1),
        None => u64::from(otherwise),
    }
}

/// A source through each of its layers.
fn check_layers<R: Threads + Sync>(
    rt: &R,
    alloc: Global,
    said: &Said<'_>,
    source: &Source,
    rows: &Rows,
    tally: &mut Tally,
) -> Result<(), AllocError>
    requires { IsValid source.now.code }
{
    let input = numbers(alloc, said.input)?;
    let budgets = numbers(alloc, said.budgets)?;
    let trial = Trial {
        source,
        input: input.as_slice(),
        iter_steps: budget(budgets.as_slice(), 0, DEFAULT_ITERATION_STEPS),
        serial_steps: budget(budgets.as_slice(), 1, DEFAULT_SERIAL_STEPS),
    };
    let whole = Trial {
        iter_steps: budget(budgets.as_slice(), 2, DEFAULT_ITERATION_STEPS),
        serial_steps: budget(budgets.as_slice(), 3, DEFAULT_SERIAL_STEPS),
        ..trial
    };
    for layer in said.layers.split(' ') {
        match layer {
            "machine" => check_run(alloc, &trial, said.wanted, false, tally)?,
            "alone" => check_run(alloc, &trial, said.wanted, true, tally)?,
            "chunks" => check_loops(alloc, &trial, tally)?,
            "made" => check_made(alloc, &trial, said.wanted, tally)?,
            "rounds" => check_rounds(rt, alloc, &trial, rows.of_rounds.as_slice(), tally)?,
            "few" => check_rounds(rt, alloc, &trial, rows.few.as_slice(), tally)?,
            "first" => check_first_round(rt, alloc, &trial, said.wanted, tally)?,
            "engine" => check_reports(rt, alloc, &whole, rows.of_engine.as_slice(), tally)?,
            _ => {}
        }
    }
    Ok(())
}

/// A case through each of its layers. A source that is to be refused is.
fn check_case<R: Threads + Sync>(
    rt: &R,
    alloc: Global,
    said: &Said<'_>,
    rows: &Rows,
    tally: &mut Tally,
) -> Result<(), AllocError> {
    let text = expanded(alloc, said.source)?;
    match lower_source(alloc, text.as_str().as_bytes())? {
        Some(source) => {
            tally.expect(alloc, said.wanted != "refused", "accepted", 0)?;
            check_layers(rt, alloc, said, &source, rows, tally)
        }
        None => tally.expect(alloc, said.wanted == "refused", "refused", 0),
    }
}

/// The cases of a text, each through its layers.
fn check_cases<R: Threads + Sync + AllocGlobal + Print>(
    rt: &R,
    text: &str,
    rows: &Rows,
    tally: &mut Tally,
) -> Result<(), Error> {
    for case in text.split("==== ").skip(1) {
        let said = read_case(case);
        let before = tally.faults.len();
        check_case(rt, rt.alloc(), &said, rows, tally)?;
        for fault in tally.faults.iter().skip(before) {
            println!(rt; "{}: {fault}", said.name)?;
        }
    }
    Ok(())
}

/// The rows of a file.
fn read_rows<R: Files + AllocGlobal>(rt: &R, name: &str) -> Result<Vec<Row>, Error> {
    let bytes = fs::read(rt, name)?;
    let text = str::from_utf8(bytes.as_slice())?;
    Ok(rows_of(rt.alloc(), text)?)
}

fn main(rt: HostRuntime) -> Result<(), Error> {
    let mut tally = Tally::new(rt.alloc());
    let rows = Rows {
        of_rounds: read_rows(&rt, "rounds.rows")?,
        few: read_rows(&rt, "few.rows")?,
        of_engine: read_rows(&rt, "engine.rows")?,
    };
    for name in env::args(&rt)?.skip(1) {
        let bytes = fs::read(&rt, name)?;
        let text = str::from_utf8(bytes.as_slice())?;
        check_cases(&rt, text, &rows, &mut tally)?;
    }
    let Tally {
        machine_runs,
        loops,
        chunks,
        round_loops,
        rounds,
        engine_runs,
        faults,
    } = tally;
    println!(rt; "machine: {machine_runs} runs")?;
    println!(rt; "chunks: {loops} loops, {chunks} chunks")?;
    println!(rt; "rounds: {round_loops} loops, {rounds} rounds")?;
    println!(rt; "engine: {engine_runs} runs")?;
    println!(rt; "{} do not hold", faults.len())?;
    Ok(())
}
