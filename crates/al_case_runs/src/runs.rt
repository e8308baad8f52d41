//! Whole runs by the machine, each annotated loop plain, beside those of the plain interpreter.
ghost use Rattle.std.specs.Prelude.{IfOk};
ghost use Rattle.al_code.specs.Valid.{IsValid};
ghost use Rattle.al_core.specs.Limits.{AreInRange};

use crate::globals::put_globals;
use crate::plain::{Steps, run_plain};
use al_case_sources::{Tally, Trial, ending_text};
use al_core::{Ending, Knobs};
use al_heap::MapStore;
use sqlite_items::Items;
use std::alloc::{AllocError, Global};

/// What a run shows.
#[derive(Drop)]
struct Shown {
    ending: Ending,
    steps: u128,
    printed: Items<u8>,
}

/// The numbers of a plain run.
fn knobs(trial: &Trial<'_>) -> Knobs
    ensures { AreInRange result }
{
    Knobs {
        lanes: 1,
        chunk: 1,
        threads: 1,
        line: 1,
        iter_steps: trial.iter_steps.clamp(1, 1_000_000_000),
        serial_steps: trial.serial_steps.clamp(1, 1_000_000_000),
    }
}

/// A run by the machine, or none where the program has no such run.
fn by_machine(alloc: Global, trial: &Trial<'_>) -> Result<Option<Shown>, AllocError>
    requires { IsValid trial.now.source.now.code }
{
    let code = &trial.source.code;
    let knobs = knobs(trial);
    let mut store = MapStore::new(alloc);
    put_globals(alloc, code, &mut store)?;
    let most = Steps {
        iteration: knobs.iter_steps,
        serial: knobs.serial_steps,
    };
    let Some(ran) = run_plain(alloc, code, trial.input, most, store)? else {
        return Ok(None);
    };
    Ok(Some(Shown {
        ending: ran.ending,
        steps: u128::from(ran.steps),
        printed: ran.printed,
    }))
}

/// A run by the plain interpreter.
fn by_tree(alloc: Global, trial: &Trial<'_>) -> Result<Shown, AllocError> {
    let report = al_plain::run(
        alloc,
        &trial.source.typed,
        trial.input,
        knobs(trial),
        &[],
        false,
    )?;
    Ok(Shown {
        ending: report.ending,
        steps: report.span,
        printed: report.output,
    })
}

fn is_same(a: &Shown, b: &Shown) -> bool {
    a.ending == b.ending && a.steps == b.steps && a.printed.as_slice() == b.printed.as_slice()
}

/// Whether a run is as it is wanted: its ending, its ending and steps, or these and what it prints in one line.
fn is_wanted(alloc: Global, shown: &Shown, wanted: &str) -> Result<bool, AllocError> {
    let ending = ending_text(alloc, shown.ending)?;
    let steps = shown.steps;
    let (known, line) = wanted.split_once(" prints ").unwrap_or((wanted, ""));
    let counted = format!(in alloc; "{ending} after {steps}")?;
    let printed = format!(in alloc; "{line}\n")?;
    Ok(
        (known == ending.as_str() || known == counted.as_str())
            && (line == "" || shown.printed.as_slice() == printed.as_bytes()),
    )
}

/// A run by the machine is as it is wanted, where that is said, and as the plain interpreter's, unless the machine runs
/// alone.
pub fn check_run(
    alloc: Global,
    trial: &Trial<'_>,
    wanted: &str,
    is_alone: bool,
    tally: &mut Tally,
) -> Result<(), AllocError>
    requires { IsValid trial.now.source.now.code }
{
    tally.machine_runs = tally.machine_runs.wrapping_add(1);
    let Some(shown) = by_machine(alloc, trial)? else {
        return tally.expect(alloc, false, "no run", 0);
    };
    if wanted != "" {
        tally.expect(alloc, is_wanted(alloc, &shown, wanted)?, "not as wanted", 0)?;
    }
    if !is_alone {
        let plain = by_tree(alloc, trial)?;
        tally.expect(alloc, is_same(&shown, &plain), "another run", 0)?;
    }
    Ok(())
}
