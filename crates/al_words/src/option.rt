ghost use Rattle.std.specs.Prelude.{◌≡◌, IfSome, ◌≤◌};
ghost use Rattle.al_words.specs.Words as spec;

use crate::range::number_in;
use al_core::{Knobs, is_line_size};
use al_source::limits::{
    DEFAULT_CHUNK, DEFAULT_ITERATION_STEPS, DEFAULT_LANES, DEFAULT_LINE, DEFAULT_SERIAL_STEPS,
    DEFAULT_THREADS, MOST_CHUNK, MOST_LANES, MOST_STEPS, MOST_THREADS,
};

/// An option: it sets a number of a run, or tells the number of a loop.
#[derive(Clone, Copy, Debug, PartialEq, Eq)]
pub enum Knob {
    Lanes,
    Chunk,
    Threads,
    Line,
    IterSteps,
    Steps,
    LoopNumber,
}

/// The values that were given to the options so far.
#[derive(Clone, Copy, Debug, PartialEq, Eq)]
pub struct Given {
    pub lanes: Option<u32>,
    pub chunk: Option<u32>,
    pub threads: Option<u32>,
    pub line: Option<u32>,
    pub iter_steps: Option<u32>,
    pub steps: Option<u32>,
    pub loop_number: Option<u32>,
}

impl Knob {
    /// The option that a word names.
    pub fn of(word: &str) -> Option<Knob>
        ensures { result ≡ spec.knob_of word.now }
    {
        match word {
            "--lanes" => Some(Knob::Lanes),
            "--chunk" => Some(Knob::Chunk),
            "--threads" => Some(Knob::Threads),
            "--line" => Some(Knob::Line),
            "--iter-steps" => Some(Knob::IterSteps),
            "--steps" => Some(Knob::Steps),
            "--loop" => Some(Knob::LoopNumber),
            _ => None,
        }
    }

    /// Whether it sets a number of a run.
    pub fn is_of_run(self) -> bool
        ensures { result ≡ spec.is_of_run self }
    {
        match self {
            Knob::Lanes
            | Knob::Chunk
            | Knob::Threads
            | Knob::Line
            | Knob::IterSteps
            | Knob::Steps => true,
            Knob::LoopNumber => false,
        }
    }

    /// The least number that may be given to it.
    fn least(self) -> u32
        ensures { result ≡ spec.least self }
    {
        match self {
            Knob::Lanes
            | Knob::Chunk
            | Knob::Threads
            | Knob::Line
            | Knob::IterSteps
            | Knob::Steps => 1,
            Knob::LoopNumber => 0,
        }
    }

    /// The greatest number that may be given to it.
    pub fn greatest(self) -> u32
        ensures { result ≡ spec.greatest self }
    {
        match self {
            Knob::Lanes => MOST_LANES,
            Knob::Chunk => MOST_CHUNK,
            Knob::Threads => MOST_THREADS,
            Knob::Line | Knob::LoopNumber => u32::MAX,
            Knob::IterSteps | Knob::Steps => MOST_STEPS,
        }
    }

    /// Whether it takes a number that is not past its greatest: a line has one of five sizes.
    fn takes(self, n: u32) -> bool
        ensures { result ≡ spec.takes_number self n }
    {
        match self {
            Knob::Line => is_line_size(n),
            Knob::Lanes
            | Knob::Chunk
            | Knob::Threads
            | Knob::IterSteps
            | Knob::Steps
            | Knob::LoopNumber => true,
        }
    }

    /// The number that a word gives to it.
    pub fn value(self, word: &str) -> Option<u32>
        ensures { result ≡ spec.value_of self word.now }
    {
        let n = number_in(self.least(), self.greatest(), word.as_bytes())?;
        if self.takes(n) { Some(n) } else { None }
    }
}

impl Given {
    pub fn nothing() -> Given
        ensures { result ≡ spec.nothing }
    {
        Given {
            lanes: None,
            chunk: None,
            threads: None,
            line: None,
            iter_steps: None,
            steps: None,
            loop_number: None,
        }
    }

    /// The value that was given to an option.
    pub fn get(&self, knob: Knob) -> Option<u32>
        ensures { result ≡ spec.given_to self.now knob }
    {
        match knob {
            Knob::Lanes => self.lanes,
            Knob::Chunk => self.chunk,
            Knob::Threads => self.threads,
            Knob::Line => self.line,
            Knob::IterSteps => self.iter_steps,
            Knob::Steps => self.steps,
            Knob::LoopNumber => self.loop_number,
        }
    }

    pub fn set(&mut self, knob: Knob, n: u32)
        ensures { self.new ≡ spec.give self.old knob n }
    {
        match knob {
            Knob::Lanes => self.lanes = Some(n),
            Knob::Chunk => self.chunk = Some(n),
            Knob::Threads => self.threads = Some(n),
            Knob::Line => self.line = Some(n),
            Knob::IterSteps => self.iter_steps = Some(n),
            Knob::Steps => self.steps = Some(n),
            Knob::LoopNumber => self.loop_number = Some(n),
        }
    }

    /// The number of the loop: the one that was given, and else 0.
    pub fn number(&self) -> u32
        ensures { result ≡ spec.loop_of self.now }
    {
        self.loop_number.unwrap_or(0)
    }

    /// The numbers of a run: those that were given, and else the defaults.
    pub fn knobs(&self) -> Knobs
        ensures { result ≡ spec.knobs_of self.now }
    {
        Knobs {
            lanes: self.lanes.unwrap_or(DEFAULT_LANES),
            chunk: self.chunk.unwrap_or(DEFAULT_CHUNK),
            threads: self.threads.unwrap_or(DEFAULT_THREADS),
            line: self.line.unwrap_or(DEFAULT_LINE),
            iter_steps: u64::from(self.iter_steps.unwrap_or(DEFAULT_ITERATION_STEPS)),
            serial_steps: u64::from(self.steps.unwrap_or(DEFAULT_SERIAL_STEPS)),
        }
    }
}
