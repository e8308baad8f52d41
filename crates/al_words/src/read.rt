ghost use Rattle.std.specs.Prelude.{◌≡◌, map, string_bytes, IfOk};
ghost use Rattle.al_words.specs.Ranges.{HasRanges};
ghost use Rattle.al_words.specs.Words as spec;

use crate::command::{Command, Job, WordFault};
use crate::range::number_in;
use crate::verb::Verb;
use crate::walk::Walk;
use al_source::limits::{MOST_SIZE, MOST_START};

/// The command that the words after the program's name ask for, or the first fault in them. It takes no memory.
pub fn read_words(words: &[String]) -> Result<Command, WordFault>
    ensures exact { result ≡ spec.command (map string_bytes words.now) }
    // The numbers of a command are in their ranges.
    ensures ranges { IfOk result HasRanges }
{
    read(words)
}

fn read(words: &[String]) -> Result<Command, WordFault>
    ensures { result ≡ spec.command (map string_bytes words.now) }
{
    let Some((first, rest)) = words.split_first() else {
        return Err(WordFault::NoCommand);
    };
    let Some(verb) = Verb::of(first.as_str()) else {
        return Err(WordFault::BadCommand(0));
    };
    match walk(verb, rest) {
        Ok(walk) => ended(words, &walk),
        Err(fault) => Err(fault),
    }
}

/// The command of a walk over all words.
fn ended(words: &[String], walk: &Walk) -> Result<Command, WordFault>
    ensures { result ≡ spec.ended (map string_bytes words.now) walk.now walk.now.waiting }
{
    if let Some(waiting) = walk.waiting {
        return Err(WordFault::NoValue(waiting.at));
    }
    if !walk.verb.takes(walk.count) {
        return Err(WordFault::Names);
    }
    let job = Job {
        names: walk.names,
        count: walk.count as u32,
        knobs: walk.given.knobs(),
    };
    asked(words, walk.verb, job, walk.given.number())
}

fn asked(words: &[String], verb: Verb, job: Job, loop_number: u32) -> Result<Command, WordFault>
    ensures { result ≡ spec.asked (map string_bytes words.now) verb job loop_number }
{
    match verb {
        Verb::Run => Ok(Command::Run(job)),
        Verb::Plain => Ok(Command::Plain(job)),
        Verb::Trace => Ok(Command::Trace(job)),
        Verb::Infer => Ok(Command::Infer(job, loop_number)),
        Verb::Check => Ok(Command::Check(job)),
        Verb::Demo => demo(words, job),
    }
}

/// What the words after the first say.
fn walk(verb: Verb, rest: &[String]) -> Result<Walk, WordFault>
    ensures { result ≡ spec.walked (spec.begin verb) 1 (map string_bytes rest.now) }
{
    let mut walk = Walk::begin(verb);
    for (i, word) in rest.iter().enumerate() {
        walk.take(i as u64 + 1, word.as_str())?;
    }
    Ok(walk)
}

/// The two numbers of the generated program.
fn demo(words: &[String], job: Job) -> Result<Command, WordFault>
    ensures { result ≡ spec.demo (map string_bytes words.now) job }
{
    let [start_at, size_at, ..] = job.names;
    let Some(start) = number_at(words, start_at, 0, MOST_START) else {
        return Err(WordFault::BadNumber(start_at));
    };
    let Some(size) = number_at(words, size_at, 1, MOST_SIZE) else {
        return Err(WordFault::BadNumber(size_at));
    };
    Ok(Command::Demo(start, size, job.knobs))
}

/// The number that the word at a place is, where it is one of the range.
fn number_at(words: &[String], at: u32, least: u32, most: u32) -> Option<u32>
    ensures { result ≡ spec.number_in least most (spec.word_at (map string_bytes words.now) at) }
{
    match words.get(at as usize) {
        Some(word) => number_in(least, most, word.as_bytes()),
        None => number_in(least, most, b""),
    }
}
