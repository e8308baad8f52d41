//! The source and the inputs of a command: each is read, and refused or gone on with.
ghost use Rattle.std.specs.Prelude.{◌≡◌, map, string_bytes, IfOk, OnErr, IsSomeAnd};
ghost use Rattle.al_answers.specs.Seen.{files_seen};
ghost use Rattle.al_front.specs.Answers.{refused, TellsPlace};
ghost use Rattle.al_cli.specs.Shown as spec;
ghost use Rattle.al_words.specs.Words as words_spec;
ghost use Rattle.al_cli.specs.Steps.{SourceComes, InputComes, InputsCome, Starves};
ghost use Rattle.al_words.specs.Jobs.{source_name as source_name_of};

use crate::lines::word_at;
use al_answers::{Answer, FileRead, Status, failed, read_file};
use al_front::{FrontFault, Noted, resolve};
use al_io::Files;
use al_report::{bad_text, input_cause_text, refusal_text};
use al_source::Bytes;
use al_source::limits::{INPUT_BYTES, SOURCE_BYTES};
use al_text::read_numbers;
use al_words::{Command, Job};
use sqlite_items::Items;
use std::alloc::{AllocError, Global};

/// One byte more than a source may have.
const MOST_OF_SOURCE: usize = SOURCE_BYTES + 1;

/// One byte more than an input may have.
const MOST_OF_INPUT: usize = INPUT_BYTES + 1;

/// What a source comes to: its bytes and the program, or an answer.
#[derive(Drop)]
pub enum SourceStep {
    Accepted(Bytes, Noted),
    Answered(Answer),
}

/// What an input comes to.
#[derive(Drop)]
pub enum InputStep {
    Numbers(Items<i64>),
    Answered(Answer),
}

/// What inputs come to.
#[derive(Drop)]
pub enum InputsStep {
    Numbers(Items<Items<i64>>),
    Answered(Answer),
}

/// The name of the source.
pub fn source_name<'a>(words: &'a [String], job: &Job) -> &'a str
    ensures { result.now ≡ source_name_of (map string_bytes words.now) job.now }
{
    let [name, ..] = job.names;
    word_at(words, u64::from(name))
}

/// Reads a source, and accepts or refuses it.
pub fn source_step<F: Files>(
    alloc: Global,
    command: Command,
    name: &str,
    files: &mut F,
) -> Result<SourceStep, AllocError>
    ensures ok { IfOk result (SourceComes command name.now
        (files_seen F.contents F.calls F.faults files.old) (files_seen F.contents F.calls F.faults files.new)) }
    ensures err { OnErr result (Starves (spec.source_plan command name.now)
        (files_seen F.contents F.calls F.faults files.old) (files_seen F.contents F.calls F.faults files.new)) }
{
    let source = match read_file(alloc, files, name, MOST_OF_SOURCE)? {
        FileRead::Bytes(source) => source,
        FileRead::Unread(answer) => return Ok(SourceStep::Answered(answer)),
    };
    match resolve(alloc, source.as_slice()) {
        Ok(program) => Ok(SourceStep::Accepted(source, program)),
        Err(fault) => {
            let line = refused_line(alloc, command, name, source.as_slice(), &fault)?;
            Ok(SourceStep::Answered(failed(alloc, Status::ProgramRefused, line)))
        }
    }
}

/// The line about a source that is refused. Want of memory for its tree is no cause, and has none.
pub fn refused_line(
    alloc: Global,
    command: Command,
    name: &str,
    source: &[u8],
    fault: &FrontFault,
) -> Result<Bytes, AllocError>
    requires { TellsPlace source.now fault.now }
    ensures { IfOk result (λ line. IsSomeAnd (refused fault.now)
        (λ cause. line ≡ spec.refused_line command name.now source.now cause)) }
{
    match (command, fault) {
        (Command::Check(_), FrontFault::NoProgram(bad)) => {
            bad_text(alloc, name, source, bad.tokens.as_slice(), bad.place)
        }
        _ => match fault.cause() {
            Some(cause) => refusal_text(alloc, name, cause),
            None => Err(AllocError),
        },
    }
}

/// Reads the inputs that the words at these places name, one after another.
pub fn inputs_step<F: Files>(
    alloc: Global,
    words: &[String],
    places: &[u32],
    files: &mut F,
) -> Result<InputsStep, AllocError>
    ensures ok { IfOk result (InputsCome (map (words_spec.word_at (map string_bytes words.now)) places.now)
        (files_seen F.contents F.calls F.faults files.old) (files_seen F.contents F.calls F.faults files.new)) }
    ensures err { OnErr result (Starves
        (spec.inputs_plan (map (words_spec.word_at (map string_bytes words.now)) places.now))
        (files_seen F.contents F.calls F.faults files.old) (files_seen F.contents F.calls F.faults files.new)) }
{
    let mut all = Items::new(alloc);
    for place in places {
        match numbers_of(alloc, word_at(words, u64::from(*place)), files)? {
            InputStep::Numbers(numbers) => all.push(numbers)?,
            InputStep::Answered(answer) => return Ok(InputsStep::Answered(answer)),
        }
    }
    Ok(InputsStep::Numbers(all))
}

/// Reads an input, and takes its numbers or refuses it.
fn numbers_of<F: Files>(alloc: Global, name: &str, files: &mut F) -> Result<InputStep, AllocError>
    ensures ok { IfOk result (InputComes name.now
        (files_seen F.contents F.calls F.faults files.old) (files_seen F.contents F.calls F.faults files.new)) }
    ensures err { OnErr result (Starves (spec.input_plan name.now)
        (files_seen F.contents F.calls F.faults files.old) (files_seen F.contents F.calls F.faults files.new)) }
{
    let text = match read_file(alloc, files, name, MOST_OF_INPUT)? {
        FileRead::Bytes(text) => text,
        FileRead::Unread(answer) => return Ok(InputStep::Answered(answer)),
    };
    match read_numbers(alloc, text.as_slice()) {
        Ok(input) => Ok(InputStep::Numbers(input)),
        Err(fault) => match fault.cause() {
            Some(cause) => {
                let line = input_cause_text(alloc, name, cause)?;
                Ok(InputStep::Answered(failed(alloc, Status::InputRefused, line)))
            }
            None => Err(AllocError),
        },
    }
}
