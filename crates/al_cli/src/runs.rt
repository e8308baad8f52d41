//! Runs, and what is written of them.
ghost use Rattle.std.specs.Prelude.{◌≡◌, ◌≤◌, IfOk, Ok, length, false};
ghost use Rattle.al_core.specs.Limits.{AreInRange};
ghost use Rattle.al_core.specs.Report.{watched};
ghost use Rattle.al_rules.specs.Refusals.{accepted};
ghost use Rattle.al_rules_laws.specs.FormedLaws.{IsFormedWith};
ghost use Rattle.al_code.specs.Valid.{IsValid};
ghost use Rattle.al_engine.specs.Jobs.{IsCodeOf};
ghost use Rattle.al_runs_laws.specs.Accepted.{annotated};
ghost use Rattle.al_search.specs.Search as search_spec;
ghost use Rattle.al_source.specs.declared.limits.TheConstants.{MOST_TESTS};
ghost use Rattle.al_words.specs.Jobs.{FitsInputs};
ghost use Rattle.al_words.specs.Ranges.{HasRanges};
ghost use Rattle.al_cli.specs.Shown as spec;

use al_answers::{Answer, Status};
use al_code::Code;
use al_core::{Choice, Ending, Knobs, Report};
use al_engine::{Gate, run};
use al_front::Noted;
use al_lower::lower;
use al_report::{totals_text, trace_text, trap_text};
use al_search::{no_choices, searched, with_line};
use al_source::Bytes;
use al_words::Command;
use sqlite_items::Items;
use std::alloc::{AllocError, Global};
use std::thread::Threads;

/// What is written where the source of this name is the program, and its inputs are these numbers.
pub fn answer_of<R: Threads + Sync, G: Gate>(
    rt: &R,
    alloc: Global,
    command: Command,
    name: &str,
    source: &[u8],
    program: &Noted,
    inputs: &[Items<i64>],
    gate: &G,
) -> Result<Answer, AllocError>
    requires ranges { HasRanges command }
    requires source { accepted source.now ≡ Ok program.now }
    requires inputs { FitsInputs command (length inputs.now) }
    ensures { IfOk result (λ a. a ≡ spec.answer_of command name.now program.now inputs.now) }
{
    match command {
        Command::Run(job) => {
            let input = first_input(inputs);
            let report = in_lockstep(rt, alloc, program, input, &job.knobs, false, gate)?;
            ended(alloc, name, report.ending, report.output)
        }
        Command::Plain(job) => {
            let report = plain(rt, alloc, program, first_input(inputs), &job.knobs, gate)?;
            ended(alloc, name, report.ending, report.output)
        }
        Command::Trace(job) => {
            let input = first_input(inputs);
            let report = in_lockstep(rt, alloc, program, input, &job.knobs, true, gate)?;
            let text = trace_text(alloc, &report)?;
            ended(alloc, name, report.ending, text)
        }
        Command::Infer(job, number) => {
            let text = inferred(rt, alloc, program, number, inputs, job.knobs, gate)?;
            Ok(done(alloc, text))
        }
        Command::Check(_) => Ok(done(alloc, Items::from_slice(alloc, b"ok\n")?)),
        Command::Demo(_, _, knobs) => {
            let input = first_input(inputs);
            let report = in_lockstep(rt, alloc, program, input, &knobs, false, gate)?;
            let totals = totals_text(alloc, &report)?;
            let mut out = report.output;
            out.append(totals)?;
            ended(alloc, name, report.ending, out)
        }
    }
}

/// The numbers of the first input, or none where there is no input.
fn first_input(inputs: &[Items<i64>]) -> &[i64]
    ensures { result.now ≡ spec.first_input inputs.now }
{
    match inputs {
        [input, ..] => input.as_slice(),
        [] => &[],
    }
}

/// These bytes to standard output, and nothing to standard error.
fn done(alloc: Global, out: Bytes) -> Answer
    ensures { result ≡ spec.done out }
{
    Answer {
        status: Status::Done.code(),
        out,
        err: Items::new(alloc),
    }
}

/// What is written of a run; a trap that ends it has a line.
fn ended(alloc: Global, name: &str, ending: Ending, out: Items<u8>) -> Result<Answer, AllocError>
    ensures { IfOk result (λ a. a ≡ spec.ended name.now ending out) }
{
    match ending {
        Ending::Done => Ok(done(alloc, out)),
        Ending::Trap(trap, line) => Ok(Answer {
            status: Status::Trapped.code(),
            out,
            err: trap_text(alloc, name, trap, line)?,
        }),
    }
}

/// The code of a program. An accepted one has few enough nodes, so that memory alone can be wanting.
fn lowered(alloc: Global, program: &Noted) -> Result<Code, AllocError>
    requires { IsFormedWith program.now.0 program.now.1 }
    ensures valid { IfOk result IsValid }
    ensures code { IfOk result (IsCodeOf program.now.0) }
{
    match lower(alloc, &program.0, program.1.as_slice()) {
        Ok(code) => Ok(code),
        Err(_) => Err(AllocError),
    }
}

/// A run with every annotated loop in rounds, by its own annotation.
fn in_lockstep<R: Threads + Sync, G: Gate>(
    rt: &R,
    alloc: Global,
    program: &Noted,
    input: &[i64],
    knobs: &Knobs,
    watch: bool,
    gate: &G,
) -> Result<Report, AllocError>
    requires formed { IsFormedWith program.now.0 program.now.1 }
    requires ranges { AreInRange knobs.now }
    ensures { IfOk result (λ r. r ≡ watched watch (spec.lockstep_report program.now input.now knobs.now)) }
{
    let code = lowered(alloc, program)?;
    let choices = own_choices(alloc, knobs.line, program)?;
    run(
        rt,
        alloc,
        &code,
        input,
        knobs,
        choices.as_slice(),
        watch,
        gate,
    )
}

/// A run with every loop plain.
fn plain<R: Threads + Sync, G: Gate>(
    rt: &R,
    alloc: Global,
    program: &Noted,
    input: &[i64],
    knobs: &Knobs,
    gate: &G,
) -> Result<Report, AllocError>
    requires formed { IsFormedWith program.now.0 program.now.1 }
    requires ranges { AreInRange knobs.now }
    ensures { IfOk result (λ r. r ≡ watched false (spec.plain_report program.now input.now knobs.now)) }
{
    let code = lowered(alloc, program)?;
    let choices = no_choices(alloc, program.1.as_slice())?;
    run(
        rt,
        alloc,
        &code,
        input,
        knobs,
        choices.as_slice(),
        false,
        gate,
    )
}

/// The table of the search for annotations of a loop, as a text.
fn inferred<R: Threads + Sync, G: Gate>(
    rt: &R,
    alloc: Global,
    program: &Noted,
    number: u32,
    inputs: &[Items<i64>],
    knobs: Knobs,
    gate: &G,
) -> Result<Bytes, AllocError>
    requires formed { IsFormedWith program.now.0 program.now.1 }
    requires inputs { (1 ≤ length inputs.now) × (length inputs.now ≤ MOST_TESTS) }
    requires ranges { AreInRange knobs }
    ensures { IfOk result (λ text. text ≡ search_spec.searched program.now number inputs.now knobs) }
{
    let code = lowered(alloc, program)?;
    searched(rt, alloc, program, &code, number, inputs, knobs, gate)
}

/// Each loop's own annotation, with lines of so many words.
fn own_choices(
    alloc: Global,
    line: u32,
    program: &Noted,
) -> Result<Items<Option<Choice>>, AllocError>
    ensures { IfOk result (λ cs. cs ≡ annotated line program.now.1) }
{
    let mut choices = Items::new(alloc);
    for info in program.1.as_slice() {
        choices.push(Some(with_line(alloc, line, &info.own)?))?;
    }
    Ok(choices)
}
