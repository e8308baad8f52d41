ghost use Rattle.std.specs.Prelude.{◌≡◌, string_bytes};
ghost use Rattle.al_words.specs.Words as spec;

use crate::option::Knob;
use al_source::limits::MOST_TESTS;

/// The first word: what is asked for.
#[derive(Clone, Copy, Debug, PartialEq, Eq)]
pub enum Verb {
    Run,
    Plain,
    Trace,
    Infer,
    Check,
    Demo,
}

impl Verb {
    /// The command that a word names.
    pub fn of(word: &str) -> Option<Verb>
        ensures { result ≡ spec.verb_of word.now }
    {
        match word {
            "run" => Some(Verb::Run),
            "plain" => Some(Verb::Plain),
            "trace" => Some(Verb::Trace),
            "infer" => Some(Verb::Infer),
            "check" => Some(Verb::Check),
            "demo" => Some(Verb::Demo),
            _ => None,
        }
    }

    /// Whether the command has the option: one that runs a program has those of a run, and the search also the number
    /// of a loop.
    pub fn has_option(self, knob: Knob) -> bool
        ensures { result ≡ spec.has_option self knob }
    {
        match self {
            Verb::Run | Verb::Plain | Verb::Trace | Verb::Demo => knob.is_of_run(),
            Verb::Infer => true,
            Verb::Check => false,
        }
    }

    /// Whether the command takes so many names.
    pub fn takes(self, count: u64) -> bool
        ensures { result ≡ spec.takes self count }
    {
        match self {
            Verb::Run | Verb::Plain | Verb::Trace => count == 1 || count == 2,
            Verb::Infer => 2 <= count && count <= u64::from(MOST_TESTS) + 1,
            Verb::Check => count == 1,
            Verb::Demo => count == 2,
        }
    }
}
