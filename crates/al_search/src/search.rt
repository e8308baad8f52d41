//! The search, and its table as a text.
ghost use Rattle.std.specs.Prelude.{ℕ, Some, ◌≡◌, ◌<◌, ◌^◌, ◌≤◌, IfOk, length, slice_get};
ghost use Rattle.std.specs.Thread.{IsSync};
ghost use Rattle.al_code.specs.Valid.{IsValid};
ghost use Rattle.al_core.specs.declared.choices.Choice.{Choice};
ghost use Rattle.al_core.specs.Limits.{AreInRange};
ghost use Rattle.al_core.specs.Lines.{IsLineSize};
ghost use Rattle.al_engine.specs.Jobs.{IsCodeOf};
ghost use Rattle.al_source.specs.declared.limits.TheConstants.{MOST_TESTS};
ghost use Rattle.al_search.specs.Search as spec;
ghost use Rattle.al_search.specs.Trials.{MayTry, told_by};

use crate::choices::with_lines;
use crate::trials::{Program, Search, Trials};
use al_code::Code;
use al_core::{Bytes, Choice, Knobs, LoopInfo, Typed};
use al_engine::Gate;
use al_infer::{Outcome, Table, infer};
use al_loops::candidates;
use al_report::table_text;
use sqlite_items::Items;
use std::alloc::{AllocError, Global};
use std::snapshot::Snapshot;
use std::thread::Threads;

/// The text of the table for the loop of a number: each choice that is tried for it runs on each test, beside the plain
/// run, with these numbers. There is no text where the program has no such loop. The error is want of memory.
pub fn searched<R: Threads + Sync, G: Gate>(
    rt: &R,
    alloc: Global,
    program: &Program,
    code: &Code,
    number: u32,
    tests: &[Items<i64>],
    knobs: Knobs,
    gate: &G,
) -> Result<Bytes, AllocError>
    requires valid { IsValid code.now }
    requires code { IsCodeOf program.now.0 code.now }
    requires tests { (1 ≤ length tests.now) × (length tests.now ≤ MOST_TESTS) }
    requires ranges { AreInRange knobs }
    ensures { IfOk result (λ text. text ≡ spec.searched program.now number tests.now knobs) }
{
    let Some(info) = program.1.as_slice().get(number as usize) else {
        return Ok(Items::new(alloc));
    };
    let tried = tried(alloc, knobs.line, &program.0, info)?;
    let table = table_of(
        rt,
        alloc,
        program,
        code,
        number,
        tried.as_slice(),
        tests,
        knobs,
        gate,
    )?;
    table_text(alloc, &program.0, info, tried.as_slice(), &table)
}

/// The table for the loop of a number.
fn table_of<R: Threads + Sync, G: Gate>(
    rt: &R,
    alloc: Global,
    program: &Program,
    code: &Code,
    number: u32,
    tried: &[Choice],
    tests: &[Items<i64>],
    knobs: Knobs,
    gate: &G,
) -> Result<Table, AllocError>
    requires valid { IsValid code.now }
    requires code { IsCodeOf program.now.0 code.now }
    requires tried { length tried.now ≤ 80 }
    requires lines { (k : ℕ) (c : Choice) → slice_get tried.now k ≡ Some c → c.line ≡ knobs.line }
    requires tests { (1 ≤ length tests.now) × (length tests.now ≤ MOST_TESTS) }
    requires ranges { AreInRange knobs }
    ensures { IfOk result (λ t. t ≡ spec.table_of program.now number tried.now tests.now knobs) }
{
    let search = Search {
        program: Snapshot::of(program),
        infos: program.1.as_slice(),
        code,
        number,
        tried,
        tests,
        knobs,
    };
    table_by(rt, alloc, &search, gate)
}

/// The table of a search.
fn table_by<R: Threads + Sync, G: Gate>(
    rt: &R,
    alloc: Global,
    search: &Search<'_>,
    gate: &G,
) -> Result<Table, AllocError>
    requires may { MayTry search.now }
    requires tried { length search.now.tried.now ≤ 80 }
    requires tests { (1 ≤ length search.now.tests.now) × (length search.now.tests.now ≤ MOST_TESTS) }
    ensures { let s = search.now in
        IfOk result (λ t. t ≡ spec.table_of s.program.value s.number s.tried.now s.tests.now s.knobs) }
{
    let trials = Trials {
        search,
        outcome: |candidate: Option<u32>, test: u32| -> Result<Outcome, AllocError>
            requires { IsSync R.row × IsSync G.row × MayTry search.now }
            ensures { IfOk result (λ o. (o ≡ told_by search.entry.now candidate test) × (o.span < 2 ^ 100)) }
        { search.outcome(rt, alloc, candidate, test, gate) },
    };
    infer(
        rt,
        alloc,
        search.tried.len() as u32,
        search.tests.len() as u32,
        &trials,
    )
}

/// The choices that are tried, with lines of so many words.
fn tried(
    alloc: Global,
    line: u32,
    typed: &Typed,
    info: &LoopInfo,
) -> Result<Items<Choice>, AllocError>
    ensures exact { IfOk result (λ cs. cs ≡ spec.tried line typed.now info.now) }
    ensures few { IfOk result (λ cs. length cs ≤ 80) }
    ensures lines { IfOk result (λ cs. (k : ℕ) (c : Choice) → slice_get cs k ≡ Some c → c.line ≡ line) }
{
    let list = candidates(alloc, typed, info)?;
    with_lines(alloc, line, list.as_slice())
}
