//! Whole runs by the engine beside those of the plain interpreter.
ghost use Rattle.al_code.specs.Valid.{IsValid};

use crate::choices::{choices_of, knobs_of};
use crate::same::is_same;
use al_case_sources::{Row, Tally, Trial};
use al_engine::{FreeGate, run};
use std::alloc::{AllocError, Global};
use std::thread::Threads;

/// Whether a program's two reports are the same, in rounds as a row says, or plain.
fn is_as_plain<R: Threads + Sync>(
    rt: &R,
    alloc: Global,
    trial: &Trial<'_>,
    row: &Row,
    is_plain: bool,
) -> Result<bool, AllocError>
    requires { IsValid trial.now.source.now.code }
{
    let infos = trial.source.infos.as_slice();
    let choices = choices_of(alloc, infos, if is_plain { None } else { Some(row) })?;
    let choices = choices.as_slice();
    let knobs = knobs_of(row, trial);
    let (code, input) = (&trial.source.code, trial.input);
    let here = run(rt, alloc, code, input, &knobs, choices, true, &FreeGate)?;
    let there = al_plain::run(alloc, &trial.source.typed, input, knobs, choices, true)?;
    Ok(is_same(&here, &there))
}

/// A program's reports under each row, and under the first one run plain, are those of the plain interpreter.
pub fn check_reports<R: Threads + Sync>(
    rt: &R,
    alloc: Global,
    trial: &Trial<'_>,
    rows: &[Row],
    tally: &mut Tally,
) -> Result<(), AllocError>
    requires { IsValid trial.now.source.now.code }
{
    let mut number = 0u64;
    for row in rows {
        let same = is_as_plain(rt, alloc, trial, row, false)?;
        tally.expect(alloc, same, "another report in row", number)?;
        tally.engine_runs = tally.engine_runs.wrapping_add(1);
        number = number.wrapping_add(1);
    }
    if let Some(row) = rows.first() {
        let same = is_as_plain(rt, alloc, trial, row, true)?;
        tally.expect(alloc, same, "another report plain in row", 0)?;
        tally.engine_runs = tally.engine_runs.wrapping_add(1);
    }
    Ok(())
}
