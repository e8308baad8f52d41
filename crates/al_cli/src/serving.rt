//! All that a call of `alter` does before it writes: it reads, and gathers what is to be written.
ghost use Rattle.std.specs.Prelude.{◌≡◌, map, string_bytes, IfOk, OnErr, Ok, Some};
ghost use Rattle.al_core.specs.Limits.{AreInRange};
ghost use Rattle.al_rules.specs.Refusals.{accepted};
ghost use Rattle.al_answers.specs.Plans.{Answers, failed as spec_failed};
ghost use Rattle.al_answers.specs.Outcome.{Came, Starved};
ghost use Rattle.al_answers.specs.Seen.{files_seen};
ghost use Rattle.al_words.specs.declared.command.Command.TheVariants.{Demo};
ghost use Rattle.al_words.specs.Jobs.{job_of};
ghost use Rattle.al_words.specs.Ranges.{HasRanges, IsDemo};
ghost use Rattle.al_cli.specs.Lines as line_spec;
ghost use Rattle.al_cli.specs.Shown as spec;

use crate::lines::word_line;
use crate::reading::{InputsStep, SourceStep, inputs_step, refused_line, source_name, source_step};
use crate::runs::answer_of;
use al_answers::{Answer, Status, failed};
use al_core::Knobs;
use al_engine::Gate;
use al_front::{Noted, resolve};
use al_gen::{Made2, make};
use al_io::Files;
use al_report::no_loop_text;
use al_words::{Command, Job, WordFault, read_words};
use sqlite_items::Items;
use std::alloc::{AllocError, Global};
use std::thread::Threads;

/// What is to be written for these words: all that `alter` does before its puts.
#[tactic(auto, unfolding(crate::specs::Shown::plan))]
pub fn serve<R: Threads + Sync, F: Files, G: Gate>(
    rt: &R,
    alloc: Global,
    words: &[String],
    files: &mut F,
    gate: &G,
) -> Result<Answer, AllocError>
    ensures ok { IfOk result (Came (spec.plan (map string_bytes words.now))
        (files_seen F.contents F.calls F.faults files.old) (files_seen F.contents F.calls F.faults files.new)) }
    ensures err { OnErr result (Starved (spec.plan (map string_bytes words.now))
        (files_seen F.contents F.calls F.faults files.old) (files_seen F.contents F.calls F.faults files.new)) }
{
    let command = match read_words(words) {
        Ok(command) => command,
        Err(fault) => return words_refused(alloc, words, fault),
    };
    match command {
        Command::Run(job)
        | Command::Plain(job)
        | Command::Trace(job)
        | Command::Infer(job, _)
        | Command::Check(job) => job_answer(rt, alloc, words, command, &job, files, gate),
        Command::Demo(start, size, knobs) => made_answer(rt, alloc, start, size, knobs, gate),
    }
}

fn words_refused(alloc: Global, words: &[String], fault: WordFault) -> Result<Answer, AllocError>
    ensures { IfOk result (λ a. a ≡ spec_failed 2 (line_spec.word_line (map string_bytes words.now) fault)) }
{
    Ok(failed(alloc, Status::WordsRefused, word_line(alloc, words, fault)?))
}

/// The answer of a command that reads files.
fn job_answer<R: Threads + Sync, F: Files, G: Gate>(
    rt: &R,
    alloc: Global,
    words: &[String],
    command: Command,
    job: &Job,
    files: &mut F,
    gate: &G,
) -> Result<Answer, AllocError>
    requires ranges { HasRanges command }
    requires job { job_of command ≡ Some job.now }
    ensures ok { IfOk result (Came (spec.job_plan command (map string_bytes words.now) job.now)
        (files_seen F.contents F.calls F.faults files.old) (files_seen F.contents F.calls F.faults files.new)) }
    ensures err { OnErr result (Starved (spec.job_plan command (map string_bytes words.now) job.now)
        (files_seen F.contents F.calls F.faults files.old) (files_seen F.contents F.calls F.faults files.new)) }
{
    let name = source_name(words, job);
    match source_step(alloc, command, name, files)? {
        SourceStep::Accepted(source, program) => {
            accepted_answer(
                rt,
                alloc,
                words,
                command,
                job,
                source.as_slice(),
                &program,
                files,
                gate,
            )
        }
        SourceStep::Answered(answer) => Ok(answer),
    }
}

/// The answer where the source was read and accepted.
fn accepted_answer<R: Threads + Sync, F: Files, G: Gate>(
    rt: &R,
    alloc: Global,
    words: &[String],
    command: Command,
    job: &Job,
    source: &[u8],
    program: &Noted,
    files: &mut F,
    gate: &G,
) -> Result<Answer, AllocError>
    requires ranges { HasRanges command }
    requires job { job_of command ≡ Some job.now }
    requires source { accepted source.now ≡ Ok program.now }
    ensures ok { IfOk result (Came (spec.after_source command (map string_bytes words.now) job.now program.now)
        (files_seen F.contents F.calls F.faults files.old) (files_seen F.contents F.calls F.faults files.new)) }
    ensures err { OnErr result (Starved (spec.after_source command (map string_bytes words.now) job.now program.now)
        (files_seen F.contents F.calls F.faults files.old) (files_seen F.contents F.calls F.faults files.new)) }
{
    let name = source_name(words, job);
    if let Some(number) = missing_loop(command, program) {
        let line = no_loop_text(alloc, name, number)?;
        return Ok(failed(alloc, Status::ProgramRefused, line));
    }
    match inputs_step(alloc, words, &job.names[1..job.count as usize], files)? {
        InputsStep::Numbers(inputs) => {
            let inputs = inputs.as_slice();
            answer_of(rt, alloc, command, name, source, program, inputs, gate)
        }
        InputsStep::Answered(answer) => Ok(answer),
    }
}

/// The number of the loop of a search, where the program has none of that number.
fn missing_loop(command: Command, program: &Noted) -> Option<u32>
    ensures { result ≡ spec.missing_loop command program.now }
{
    match command {
        Command::Infer(_, number) if number as usize >= program.1.len() => Some(number),
        _ => None,
    }
}

/// The answer of the command that runs the generated program.
fn made_answer<R: Threads + Sync, G: Gate>(
    rt: &R,
    alloc: Global,
    start: u32,
    size: u32,
    knobs: Knobs,
    gate: &G,
) -> Result<Answer, AllocError>
    requires demo { IsDemo start size }
    requires ranges { AreInRange knobs }
    ensures { IfOk result (λ a. Answers a ≡ spec.made_plan (Demo start size knobs)) }
{
    let command = Command::Demo(start, size, knobs);
    let Made2 { source, input } = make(alloc, start, size)?;
    match resolve(alloc, source.as_slice()) {
        Ok(program) => {
            let mut inputs = Items::new(alloc);
            inputs.push(input)?;
            let text = source.as_slice();
            answer_of(
                rt,
                alloc,
                command,
                "demo",
                text,
                &program,
                inputs.as_slice(),
                gate,
            )
        }
        Err(fault) => {
            let line = refused_line(alloc, command, "demo", source.as_slice(), &fault)?;
            Ok(failed(alloc, Status::ProgramRefused, line))
        }
    }
}
